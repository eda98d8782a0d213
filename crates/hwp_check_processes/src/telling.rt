ghost use Rattle.std.specs.Prelude.{◌≡◌, is_some};
ghost use Rattle.hwp_check_processes.specs.Telling.{due_by, has_event, has_outcome, is_line, is_told};

use hwp_check_rules::{Answer, Command, Frame, GuestAccess, GuestLine, Layout, Mode, guest_access};

/// Whether the line has the event of the access: the guest has one bank, and a guest frame is the number of a translation.
fn has_event(access: &GuestAccess, line: &GuestLine) -> bool
    ensures { result ≡ has_event access.now line.now }
{
    let event = access
        .kind
        .origin()
        .event(Frame(access.slot.0), access.line);
    line.bank == 0
        && line.status == event.status.0
        && line.addr == event.addr
        && line.misc == event.misc
}

/// Whether the line has what the guest makes of it in this mode: row S9 and a bad frame, or row S10 and a stop.
fn has_outcome(mode: Mode, line: &GuestLine) -> bool
    ensures { result ≡ has_outcome mode line.now }
{
    match mode {
        Mode::User => line.row == 9 && !line.stops,
        Mode::Kernel => line.row == 10 && line.stops,
    }
}

/// Whether the line is that of the guest's machine check for the access of the command with this number.
fn is_line(seq: u32, access: &GuestAccess, line: &GuestLine) -> bool
    ensures { result ≡ is_line seq access.now line.now }
{
    line.seq == seq && has_event(access, line) && has_outcome(access.mode, line)
}

/// The access of a guest of which it has to be told, by the command and its answer.
fn due_by(layout: &Layout, command: &Command, answer: Answer) -> Option<GuestAccess>
    ensures { result ≡ due_by layout.now command.now answer }
{
    match answer {
        Answer::Sigbus(_) => guest_access(layout, command),
        _ => None,
    }
}

/// Whether a guest has to be told of something.
#[tactic(auto, using(crate::proofs::TellingLaws::none_due, crate::proofs::TellingLaws::some_due))]
pub(crate) fn is_due(layout: &Layout, command: &Command, answer: Answer) -> bool
    ensures { result ≡ is_some (due_by layout.now command.now answer) }
{
    due_by(layout, command, answer).is_some()
}

/// Whether the line tells the guest of that, and is one that has to be.
#[tactic(auto, using(crate::proofs::TellingLaws::none_told, crate::proofs::TellingLaws::some_told))]
pub(crate) fn is_told(
    layout: &Layout,
    seq: u32,
    command: &Command,
    answer: Answer,
    line: &GuestLine,
) -> bool
    ensures { result ≡ is_told layout.now seq command.now answer line.now }
{
    match due_by(layout, command, answer) {
        Some(access) => is_line(seq, &access, line),
        None => false,
    }
}
