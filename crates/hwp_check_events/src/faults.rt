ghost use Rattle.std.specs.Prelude.{◌≡◌, ◌≤◌, ◌+◌, ◌<◌, ◌==◌, ◌^◌, true, None, cond, nat_lt, is_some, length, MatchBool};
ghost use Rattle.std.specs.Int.{from_bool};
ghost use Rattle.hwp_law.specs.Events.{is_raised};
ghost use Rattle.hwp_check_event_line.specs.Firsts.{IsScanned, shown_lines};
ghost use Rattle.hwp_check_event_line.specs.Found.{of_access};
ghost use Rattle.hwp_check_event_line.specs.Accesses.{IsAccessLine, IsRaisedLine, asked_by_access};
ghost use Rattle.hwp_check_events.specs.Met.{access_by};

use crate::accesses::{access_wrong, asked_by_access};
use crate::known::Checks;
use hwp_banks::{Bank, Event};
use hwp_check_event_line::{Faults, Shown, Traced, is_raw_line, may_stop};
use hwp_law::{Answer, Arrival, Line, Script, Who};

/// The first line where none is asked.
pub(crate) fn any(lines: &[Shown]) -> Option<usize>
    ensures { IsScanned (λ number line. ⊥) (shown_lines lines.now) result }
{
    if lines.is_empty() { None } else { Some(0) }
}

/// What is wrong about the lines of an access.
pub(crate) fn access_faults(
    script: &Script,
    report: &Traced<'_>,
    who: Who,
    how: Arrival,
    checks: &Checks,
    copied: &[Line],
    raw: &mut Bank,
    lines: &[Shown],
) -> Faults
    requires access { of_access checks.now.origin ≡ true }
    requires frames { length report.now.frames ≤ 65536 }
    requires few { checks.now.count + 1 < 2 ^ 64 }
    requires within { length copied.now ≤ checks.now.count }
    ensures scanned { IsScanned (IsAccessLine script.now report.now who how (access_by checks.now copied.now raw.old) (shown_lines lines.now)) (shown_lines lines.now) result.wrong }
    ensures lacks { result.lacks ≡ nat_lt (length lines.now) (asked_by_access (access_by checks.now copied.now raw.old)) }
    ensures left { raw.new ≡ cond (checks.now.count == 0) raw.old None }
{
    let asked = asked_by_access(checks, copied, raw.get());
    let wrong = access_wrong(script, report, who, how, checks, copied, raw, lines);
    if checks.count != 0 {
        let _ = raw.take();
    }
    Faults {
        wrong,
        lacks: (lines.len() as u64) < asked,
    }
}

/// Whether a raise that was answered so, with lines or without, was a machine check.
pub(crate) fn is_raised(answer: Option<Answer>, lines: &[Shown]) -> bool
    ensures { result ≡ is_raised answer (shown_lines lines.now) }
{
    match answer {
        Some(Answer::Raised(..)) => true,
        Some(Answer::Stopped) => !lines.is_empty(),
        _ => false,
    }
}

/// The first line that a machine check which was raised doesn't ask.
fn raise_wrong(
    script: &Script,
    report: &Traced<'_>,
    who: Who,
    how: Arrival,
    raw: Option<Event>,
    lines: &[Shown],
) -> Option<usize>
    ensures { IsScanned (IsRaisedLine script.now report.now who how raw) (shown_lines lines.now) result }
{
    if lines.is_empty() {
        return None;
    }
    let held = may_stop(how, raw);
    if !is_raw_line(script, report, who, how, held, raw, &lines[0].line) {
        return Some(0);
    }
    if lines.len() > 1 { Some(1) } else { None }
}

/// What is wrong about the lines of a raise.
pub(crate) fn raise_faults(
    script: &Script,
    report: &Traced<'_>,
    who: Who,
    how: Arrival,
    answer: Option<Answer>,
    raw: &mut Bank,
    lines: &[Shown],
) -> Faults
    ensures scanned { IsScanned (λ number line. MatchBool (is_raised answer (shown_lines lines.now)) (IsRaisedLine script.now report.now who how raw.old number line) ⊥) (shown_lines lines.now) result.wrong }
    ensures lacks { result.lacks ≡ nat_lt (length lines.now) (cond (is_raised answer (shown_lines lines.now)) (from_bool (is_some raw.old)) 0) }
    ensures left { raw.new ≡ cond (is_raised answer (shown_lines lines.now)) None raw.old }
{
    if !is_raised(answer, lines) {
        return Faults {
            wrong: any(lines),
            lacks: false,
        };
    }
    let held = raw.take();
    Faults {
        wrong: raise_wrong(script, report, who, how, held, lines),
        lacks: lines.is_empty() && held.is_some(),
    }
}
