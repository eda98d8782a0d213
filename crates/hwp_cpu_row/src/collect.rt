ghost use Rattle.std.specs.Prelude.{◌≡◌, ◌+◌, ◌<◌, ◌≤◌, length, vec_len, vec_capacity};
ghost use Rattle.std.specs.List.{list_any};
ghost use Rattle.hwp_cpu_row.specs.Acts.{event_at, told_notes};
ghost use Rattle.hwp_claim.specs.hwp_law.Commands.{is_kernels};
ghost use Rattle.hwp_claim.specs.hwp_law.Notes.{ends_machine, is_corrected, noted_frame};
ghost use Rattle.hwp_cpu_row.specs.Dues.{HasNoted, first_check, notes_of_event, notes_of_lines};

use hwp_claim::{Acted, Collector, EventOutcome, Frame, Layout, Noted};

/// The bit of a bank's status by which its address is valid.
const ADDRESS_VALID: u64 = 1 << 58;

/// The collector takes the notes of these events, machine check by machine check, and the frames that are due by them come last.
pub(crate) fn collect(
    layout: &Layout,
    told: &[EventOutcome],
    collector: &mut Collector,
    due: &mut Vec<Frame>,
)
    requires frames { layout.now.frames ≤ length collector.old.counts }
    requires room { vec_len due.old + length told.now ≤ vec_capacity due.old }
    ensures { HasNoted (told_notes layout.now told.now) collector.old due.old.items collector.new due.new.items }
{
    let mut rest = told;
    while !rest.is_empty() {
        let (check, behind) = rest.split_at(first_check(rest));
        note(layout, check, collector, due);
        rest = behind;
    }
}

/// How many of the events are the first machine check's: each of its banks is above the one before.
fn first_check(told: &[EventOutcome]) -> usize
    ensures count { result ≡ first_check told.now }
    ensures within { result ≤ length told.now }
{
    match told {
        [first, next, ..] if first.held.bank < next.held.bank => 1 + first_check(&told[1..]),
        [_, ..] => 1,
        [] => 0,
    }
}

/// The collector takes the notes of one machine check: none where that stopped the machine.
fn note(layout: &Layout, check: &[EventOutcome], collector: &mut Collector, due: &mut Vec<Frame>)
    requires frames { layout.now.frames ≤ length collector.old.counts }
    requires room { vec_len due.old + length check.now ≤ vec_capacity due.old }
    ensures noted { HasNoted (notes_of_lines layout.now check.now) collector.old due.old.items collector.new due.new.items }
    ensures len { vec_len due.new ≤ vec_len due.old + length check.now }
    ensures capacity { vec_capacity due.new ≡ vec_capacity due.old }
{
    if stops_machine(check) {
        return;
    }
    for told in check {
        note_event(layout, told, collector, due);
    }
}

/// The collector takes the note of one event, if it makes one.
fn note_event(layout: &Layout, told: &EventOutcome, collector: &mut Collector, due: &mut Vec<Frame>)
    requires frames { layout.now.frames ≤ length collector.old.counts }
    requires room { vec_len due.old < vec_capacity due.old }
    ensures noted { HasNoted (notes_of_event layout.now told.now) collector.old due.old.items collector.new due.new.items }
    ensures len { vec_len due.new ≤ vec_len due.old + 1 }
    ensures capacity { vec_capacity due.new ≡ vec_capacity due.old }
{
    let Some(frame) = noted_frame(layout, told) else {
        return;
    };
    match collector.note(frame) {
        Noted::Offline => due.push_reserved(frame),
        Noted::Counted(_) => {}
    }
}

/// Whether one of the events stopped the machine, or was a panic.
fn stops_machine(check: &[EventOutcome]) -> bool
    ensures { result ≡ list_any (λ t. ends_machine (event_at 0 t)) check.now }
{
    check.iter().any(|told| ends_machine(told))
}

/// Whether the event stopped the machine, or was a panic.
fn ends_machine(told: &EventOutcome) -> bool
    ensures { result ≡ ends_machine (event_at 0 told.now) }
{
    matches!(told.acted, Acted::Stop | Acted::Panic)
}

/// The frame that an event notes: that of a corrected error with a valid address, where it is one for pages.
fn noted_frame(layout: &Layout, told: &EventOutcome) -> Option<Frame>
    ensures { result ≡ noted_frame layout.now (event_at 0 told.now) }
{
    let number = told.held.event.addr / 4096;
    if !is_corrected(told) || number >= u64::from(layout.frames) {
        return None;
    }
    let frame = Frame(number as u16);
    if is_kernels(layout, frame) {
        None
    } else {
        Some(frame)
    }
}

/// Whether it is a corrected error with a valid address.
fn is_corrected(told: &EventOutcome) -> bool
    ensures { result ≡ is_corrected (event_at 0 told.now) }
{
    told.held.grade.row == 4 && told.held.event.status.0 & ADDRESS_VALID == ADDRESS_VALID
}

/// Whether the frame is the kernel's own.
fn is_kernels(layout: &Layout, frame: Frame) -> bool
    ensures { result ≡ is_kernels layout.now frame }
{
    match layout.kernel.as_slice().get(usize::from(frame.0)) {
        Some(kernel) => *kernel,
        None => false,
    }
}
