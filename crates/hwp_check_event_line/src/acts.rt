ghost use Rattle.std.specs.Prelude.{◌≡◌, ◌↔◌, ◌||◌, IsTrue};
ghost use Rattle.hwp_law.specs.Checks.{IsAct, IsFailureAct, IsLineOf, IsResult};
ghost use Rattle.hwp_law.specs.Lines.{marks_of};
ghost use Rattle.hwp_check_event_line.specs.Found.{IsRawLine, may_stop, stops};

use crate::traced::Traced;
use hwp_banks::Event;
use hwp_law::{Acted, Arrival, EventLine, Script, Severity, Who, grade};

/// Whether a failure of the frame came to this result by the command.
#[tactic(auto, using(crate::proofs::ActLaws::result_is))]
fn is_result(report: &Traced<'_>, who: Who, frame: u64, acted: Acted) -> bool
    ensures { IsTrue result ↔ IsResult (marks_of report.now frame) who acted }
{
    report.has_result(who, frame, acted)
}

/// Whether this was to be done about an event that is a failure of the frame; `held` says that failures are held back.
fn is_failure_act(
    script: &Script,
    report: &Traced<'_>,
    who: Who,
    held: bool,
    frame: u64,
    acted: Acted,
) -> bool
    ensures { IsTrue result ↔ IsFailureAct script.now report.now who held frame acted }
{
    if held {
        return matches!(acted, Acted::Held);
    }
    if u64::from(script.layout.frames) <= frame {
        return matches!(acted, Acted::Outside);
    }
    if !script.layout.recovery {
        return matches!(acted, Acted::Panic);
    }
    matches!(acted, Acted::Already) && report.was_poisoned(who, frame)
        || is_result(report, who, frame, acted)
}

/// Whether this was to be done about an event of the severity.
fn is_act(
    script: &Script,
    report: &Traced<'_>,
    who: Who,
    held: bool,
    frame: u64,
    severity: Severity,
    acted: Acted,
) -> bool
    ensures { IsTrue result ↔ IsAct script.now report.now who held frame severity acted }
{
    match severity {
        Severity::Stop => matches!(acted, Acted::Stop),
        Severity::None => matches!(acted, Acted::None),
        Severity::Keep => matches!(acted, Acted::Keep),
        Severity::Deferred => matches!(acted, Acted::Deferred),
        Severity::Logged => matches!(acted, Acted::Logged),
        Severity::Optional | Severity::Required => {
            is_failure_act(script, report, who, held, frame, acted)
        }
    }
}

/// Whether an event would stop the machine in a machine check that arrives so.
fn stops(how: Arrival, event: Event) -> bool
    ensures { result ≡ stops how event }
{
    matches!(
        grade(event.status, how.mcg, how.mode).severity,
        Severity::Stop
    )
}

/// Whether the line tells the event of a bank, the row that graded it, and what was to be done about it.
pub fn is_line_of(
    script: &Script,
    report: &Traced<'_>,
    who: Who,
    how: Arrival,
    held: bool,
    bank: u8,
    event: Event,
    line: &EventLine,
) -> bool
    ensures { IsTrue result ↔ IsLineOf script.now report.now who how held bank event line.now }
{
    let grade = grade(event.status, how.mcg, how.mode);
    line.bank == bank
        && line.status == event.status.0
        && line.addr == event.addr
        && line.misc == event.misc
        && line.row == grade.row
        && is_act(
            script,
            report,
            who,
            held,
            event.addr / 4096,
            grade.severity,
            line.acted,
        )
}

/// Whether an event that there may be would stop the machine.
pub fn may_stop(how: Arrival, event: Option<Event>) -> bool
    ensures { result ≡ may_stop how event }
{
    match event {
        Some(event) => stops(how, event),
        None => false,
    }
}

/// Whether the own event or what is found beside it would stop the machine.
pub fn has_stopper(how: Arrival, own: Event, beside: Option<Event>) -> bool
    ensures { result ≡ (stops how own || may_stop how beside) }
{
    stops(how, own) || may_stop(how, beside)
}

/// Whether the line tells what bank 1 held, where it held something.
pub fn is_raw_line(
    script: &Script,
    report: &Traced<'_>,
    who: Who,
    how: Arrival,
    held: bool,
    raw: Option<Event>,
    line: &EventLine,
) -> bool
    ensures { IsTrue result ↔ IsRawLine script.now report.now who how held raw line.now }
{
    match raw {
        Some(event) => is_line_of(script, report, who, how, held, 1, event, line),
        None => false,
    }
}
