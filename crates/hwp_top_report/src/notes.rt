ghost use Rattle.std.specs.Prelude.{◌≡◌, ◌++◌, ◌≤◌, ◌<◌, ◌^◌, [], length, filter_map, IfOk, OnOk};
ghost use Rattle.std.specs.List.{cons_option};
ghost use Rattle.hwp_plain.specs.hwp_geom.Limits.{cpu_limit};
ghost use Rattle.hwp_plain.specs.hwp_core_rule.Lists.{EachMember};
ghost use Rattle.hwp_law_served.specs.Rows.{act_note, note_by, note_of, notes_from, offlined, own_note, told_note};
ghost use Rattle.hwp_law_served.specs.Runs.{notes_of};
ghost use Rattle.hwp_cpu_row.specs.Acts.{acts};
ghost use Rattle.hwp_cpu_row.specs.hwp_claim.Told.{frame_of};
ghost use Rattle.hwp_top_report.specs.Closing.{AreTellable, IsNamed, IsTellable, is_frame_next};

use hwp_cpu_row::{
    Cpu, EventOutcome, Found, Frame, FrameChange, Held, How, List, MarkLine, Offlining,
    OutOfMemory, Row, Who,
};
use std::alloc::Global;

type Note = (Frame, MarkLine);

/// What each processor's commands add to the records of frames, in order.
pub(crate) fn all_notes(alloc: Global, rows: &[List<Row>]) -> Result<List<List<Note>>, OutOfMemory>
    requires cpus { length rows.now ≤ cpu_limit }
    requires tellable { AreTellable rows.now }
    ensures { IfOk result (λ notes. notes ≡ notes_of 0 rows.now) }
{
    let mut notes = Vec::with_capacity(alloc, rows.len())?;
    for cpu in 0..rows.len() {
        notes.push(notes_from(alloc, Cpu(cpu as u8), rows[cpu].as_slice())?)?;
    }
    Ok(List::from_vec(notes))
}

/// What the commands of a processor add: each poisoning of a frame, with what the failure found, and each unpoisoning.
fn notes_from(alloc: Global, cpu: Cpu, rows: &[Row]) -> Result<List<Note>, OutOfMemory>
    requires tellable { IsTellable rows.now }
    ensures { IfOk result (λ notes. notes ≡ notes_from cpu 0 rows.now) }
{
    let mut notes = Vec::new(alloc);
    for number in 0..rows.len() {
        let row = &rows[number];
        let who = Who {
            cpu,
            seq: number as u32,
        };
        add_acts(
            &mut notes,
            who,
            row.told.as_slice(),
            row.offlined.as_slice(),
        )?;
        add(&mut notes, own_note(who, row.own))?;
    }
    Ok(List::from_vec(notes))
}

/// Adds the poisonings by the events of a command's machine checks, and of the frames that were taken out of use beside it, in the order
/// of time.
fn add_acts(
    notes: &mut Vec<Note>,
    who: Who,
    told: &[EventOutcome],
    offlined: &[Offlining],
) -> Result<(), OutOfMemory>
    requires named { EachMember IsNamed told.now }
    ensures { OnOk result (notes.new.items ≡ notes.old.items ++ filter_map (act_note who) (acts told.now offlined.now)) }
{
    let mut events = 0;
    let mut frames = 0;
    for _ in 0..told.len() + offlined.len() {
        if is_frame_next(told.len(), offlined, events, frames) {
            add(notes, own_note(who, offlined[frames].change))?;
            frames += 1;
        } else {
            add(notes, told_note(who, &told[events]))?;
            events += 1;
        }
    }
    Ok(())
}

/// Whether the next frame, if there is one, stands before the next event, behind so many of all the events and so many frames.
fn is_frame_next(all: usize, offlined: &[Offlining], events: usize, frames: usize) -> bool
    ensures { result ≡ is_frame_next all offlined.now events frames }
{
    match offlined.get(frames) {
        Some(offlining) => events == all || offlining.told == events,
        None => false,
    }
}

/// A note more, where there is one.
fn add(notes: &mut Vec<Note>, note: Option<Note>) -> Result<(), OutOfMemory>
    ensures { OnOk result (notes.new.items ≡ notes.old.items ++ cons_option note []) }
{
    if let Some(note) = note {
        notes.push(note)?;
    }
    Ok(())
}

/// The poisoning of a frame by an event.
fn told_note(who: Who, event: &EventOutcome) -> Option<Note>
    requires named { IsNamed event.now }
    ensures { result ≡ told_note who event.now }
{
    let Some(found) = event.found else {
        return None;
    };
    Some(note_of(who, true, frame_of(&event.held), found))
}

/// What the command itself did to a frame.
fn own_note(who: Who, own: Option<FrameChange>) -> Option<Note>
    ensures { result ≡ own_note who own }
{
    let Some(own) = own else {
        return None;
    };
    Some(note_by(who, own))
}

/// The line of a frame's record for what the command did to it.
fn note_by(who: Who, own: FrameChange) -> Note
    ensures { result ≡ note_by who own }
{
    match own {
        FrameChange::Failed { frame, found } => note_of(who, false, frame, found),
        FrameChange::Offlined {
            frame,
            cycle,
            moved,
        } => {
            let how = offlined(moved);
            (frame, MarkLine::Poisoned { cycle, who, how })
        }
        FrameChange::Revived { frame, cycle } => (frame, MarkLine::Unpoisoned { cycle, who }),
    }
}

/// How a soft offline took a frame out of use.
fn offlined(moved: bool) -> How
    ensures { result ≡ offlined moved }
{
    if moved { How::Moved } else { How::TakenFree }
}

/// The frame that an event names.
pub(crate) fn frame_of(held: &Held) -> Frame
    requires small { (frame_of held.now).0 < 2 ^ 16 }
    ensures { result ≡ frame_of held.now }
{
    Frame((held.event.addr / 4096) as u16)
}

/// The line of a frame's record for its failure.
fn note_of(who: Who, hardware: bool, frame: Frame, found: Found) -> Note
    ensures { result ≡ note_of who hardware frame found }
{
    let how = How::Failure {
        hardware,
        situation: found.situation,
        outcome: found.situation.outcome(),
    };
    let line = MarkLine::Poisoned {
        cycle: found.cycle,
        who,
        how,
    };
    (frame, line)
}
