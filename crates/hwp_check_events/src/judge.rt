ghost use Rattle.std.specs.Prelude.{◌≡◌, ◌≤◌, true, false, cond, is_some};
ghost use Rattle.hwp_law.specs.Commands.{arrival_of};
ghost use Rattle.hwp_banks.specs.declared.Origin.TheVariants.{Access};
ghost use Rattle.hwp_law.specs.Events.{access_lines};
ghost use Rattle.hwp_law.specs.Lines.{answer_of};
ghost use Rattle.hwp_check_event_line.specs.Firsts.{IsScanned, shown_lines};
ghost use Rattle.hwp_check_event_line.specs.Found.{of_access};
ghost use Rattle.hwp_check_event_line.specs.Reading.{copies_in};
ghost use Rattle.hwp_check_events.specs.Copied.{copied_by};
ghost use Rattle.hwp_check_events.specs.Judged.{IsAccessJudged, IsJudged, IsRaiseJudged, IsScrubJudged, IsTable};
ghost use Rattle.hwp_check_event_line.specs.Misfits.{is_scrubbed, logged_if};

use crate::case::EventCase;
use crate::faults::{access_faults, any, raise_faults};
use crate::known::Checks;
use hwp_banks::{Bank, Event, Origin, Status};
use hwp_check_event_line::{Faults, Shown, copy_of, scrub_faults};
use hwp_law::{Answer, Arrival, Command, Frame, Line, McgBits, Mode};

/// How the machine checks of a command arrive.
fn arrival_of(command: &Command) -> Arrival
    ensures { result ≡ arrival_of command.now }
{
    let (ripv, eipv, mode) = match command {
        Command::KLoad { .. } | Command::Scrub { .. } => (true, true, Mode::Kernel),
        Command::RaiseUser { ripv, eipv, .. } => (*ripv, *eipv, Mode::User),
        Command::RaiseKernel { ripv, eipv } => (*ripv, *eipv, Mode::Kernel),
        _ => (true, true, Mode::User),
    };
    Arrival {
        mcg: McgBits { ripv, eipv },
        mode,
    }
}

/// So many machine checks of an access at a line.
fn checks_of(origin: Origin, at: Line, count: u64) -> Checks
    ensures { (result.origin ≡ origin) × (result.at ≡ at) × (result.count ≡ count) }
{
    Checks { origin, at, count }
}

/// Whether the answer says that a scrub went to its end.
fn is_scrubbed(answer: Option<Answer>) -> bool
    ensures { result ≡ is_scrubbed answer }
{
    matches!(answer, Some(Answer::Scrubbed(..)))
}

/// Logs a raw event where its command was done.
fn log_if_done(answer: Option<Answer>, event: Event, raw: &mut Bank)
    ensures { raw.new ≡ logged_if answer event raw.old }
{
    if matches!(answer, Some(Answer::Done)) {
        raw.log(event);
    }
}

/// What is wrong where no lines are asked.
fn none_asked(lines: &[Shown]) -> Faults
    ensures scanned { IsScanned (λ number line. ⊥) (shown_lines lines.now) result.wrong }
    ensures lacks { result.lacks ≡ false }
{
    Faults {
        wrong: any(lines),
        lacks: false,
    }
}

/// What is wrong about the lines of an access, by what the report says of it.
fn judge_access(case: &EventCase<'_>, origin: Origin, at: Line, raw: &mut Bank) -> Faults
    requires access { of_access origin ≡ true }
    ensures { IsAccessJudged case.now.script case.now.report case.now.who (arrival_of case.now.command) origin (access_lines case.now.report case.now.who at) raw.old raw.new (shown_lines case.now.lines) result }
{
    let how = arrival_of(case.command);
    let checks = checks_of(origin, at, case.known.checks);
    access_faults(
        case.script,
        case.report,
        case.who,
        how,
        &checks,
        &[],
        raw,
        case.lines,
    )
}

/// What is wrong about the lines of a store that copied a page, and met machine checks there.
fn judge_copy(case: &EventCase<'_>, at: Line, raw: &mut Bank) -> Faults
    ensures { IsAccessJudged case.now.script case.now.report case.now.who (arrival_of case.now.command) Access (copied_by case.now.script.layout (copies_in case.now.copies) case.now.report case.now.who case.now.command) raw.old raw.new (shown_lines case.now.lines) result }
{
    let how = arrival_of(case.command);
    let checks = checks_of(Origin::Access, at, case.copied.len() as u64);
    access_faults(
        case.script,
        case.report,
        case.who,
        how,
        &checks,
        case.copied,
        raw,
        case.lines,
    )
}

/// Whether the command copied a page.
fn has_copied(case: &EventCase<'_>) -> bool
    ensures { result ≡ is_some (copies_in case.now.copies case.now.who) }
{
    copy_of(case.copies, case.who).is_some()
}

/// What is wrong about the lines of a store, which met machine checks in the page that it copied, if it copied one.
fn judge_store(case: &EventCase<'_>, at: Line, raw: &mut Bank) -> Faults
    ensures { IsAccessJudged case.now.script case.now.report case.now.who (arrival_of case.now.command) Access (cond (is_some (copies_in case.now.copies case.now.who)) (copied_by case.now.script.layout (copies_in case.now.copies) case.now.report case.now.who case.now.command) (access_lines case.now.report case.now.who at)) raw.old raw.new (shown_lines case.now.lines) result }
{
    if has_copied(case) {
        judge_copy(case, at, raw)
    } else {
        judge_access(case, Origin::Access, at, raw)
    }
}

/// What is wrong about the lines of a scrub, by what the report says of it.
fn judge_scrub(
    case: &EventCase<'_>,
    first: Frame,
    last: Frame,
    table: &[u8],
    raw: &mut Bank,
) -> Faults
    requires table { IsTable case.now.script case.now.who table.now }
    requires fit { first.0 ≤ last.0 }
    ensures { IsScrubJudged case.now.script case.now.report case.now.who (arrival_of case.now.command) first last raw.old raw.new (shown_lines case.now.lines) result }
{
    let how = arrival_of(case.command);
    let whole = is_scrubbed(case.known.answer);
    scrub_faults(
        case.script,
        case.report,
        case.who,
        how,
        table,
        whole,
        first,
        last,
        raw,
        case.lines,
    )
}

/// What is wrong about the lines of a raise, by its answer.
fn judge_raise(case: &EventCase<'_>, raw: &mut Bank) -> Faults
    ensures { IsRaiseJudged case.now.script case.now.report case.now.who (arrival_of case.now.command) raw.old raw.new (shown_lines case.now.lines) result }
{
    let how = arrival_of(case.command);
    let answer = case.known.answer;
    raise_faults(
        case.script,
        case.report,
        case.who,
        how,
        answer,
        raw,
        case.lines,
    )
}

/// What is wrong about the lines of a command that logs an event, which has none. The event is in the bank where the command was done.
fn judge_log(case: &EventCase<'_>, event: Event, raw: &mut Bank) -> Faults
    ensures scanned { IsScanned (λ number line. ⊥) (shown_lines case.now.lines) result.wrong }
    ensures lacks { result.lacks ≡ false }
    ensures left { raw.new ≡ logged_if (answer_of case.now.report case.now.who) event raw.old }
{
    log_if_done(case.known.answer, event, raw);
    none_asked(case.lines)
}

/// What is wrong about the event lines of a command, where bank 1 holds this; bank 1 is left as the command leaves it.
pub(crate) fn command_faults(case: &EventCase<'_>, table: &[u8], raw: &mut Bank) -> Faults
    requires table { IsTable case.now.script case.now.who table.now }
    ensures { IsJudged case.now.script (copies_in case.now.copies) case.now.report case.now.who case.now.command raw.old raw.new (shown_lines case.now.lines) result }
{
    match *case.command() {
        Command::Load { line, .. } | Command::KLoad { line, .. } => {
            judge_access(case, Origin::Access, line, raw)
        }
        Command::Store { line, .. } => judge_store(case, line, raw),
        Command::Fetch { line, .. } => judge_access(case, Origin::Fetch, line, raw),
        Command::Scrub { first, last } => judge_scrub(case, first, last, table, raw),
        Command::RaiseUser { .. } | Command::RaiseKernel { .. } => judge_raise(case, raw),
        Command::Log { status, addr, misc } => {
            let status = Status(status);
            judge_log(case, Event { status, addr, misc }, raw)
        }
        _ => none_asked(case.lines()),
    }
}
