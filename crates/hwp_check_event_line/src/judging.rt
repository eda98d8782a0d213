ghost use Rattle.std.specs.Prelude.{◌≡◌, ◌≤◌, ◌<◌, ◌+◌, ◌-◌, ◌*◌, ◌^◌, ◌⊎◌, None, cond, nat_lt};
ghost use Rattle.hwp_check_event_line.specs.Firsts.{IsScanned, shown_lines};
ghost use Rattle.hwp_check_event_line.specs.Scrubbing.{IsRightIn, course_by, low_of};
ghost use Rattle.hwp_check_event_line.specs.Scrubs.{after_all, bound_from, can_meet_bad, lacking, reach_from};

use crate::faults::Faults;
use crate::lines::{bad_lines_of, has_line_below};
use crate::reach::{Range, Reach};
use crate::scrubs::{LINES, lacking, low_at, place_of, scan};
use crate::shown::Shown;
use crate::traced::Traced;
use hwp_banks::{Bank, Event, Origin};
use hwp_law::{Arrival, Frame, Script, Who};

/// Whether the scrub may meet a bad line of the frame.
fn can_meet_bad(report: &Traced<'_>, table: &[u8], whole: bool, frame: u64) -> bool
    requires { frame < 2 ^ 62 }
    ensures { result ≡ can_meet_bad report.now (low_of table.now whole) frame }
{
    let low = low_at(table, whole, place_of(Origin::BadLine, frame));
    let end = if low < LINES { low + 1 } else { LINES };
    has_line_below(bad_lines_of(report, frame), end)
}

/// The place behind a frame's bad line, where the scrub may meet one, or what was found before.
fn bound_by(report: &Traced<'_>, table: &[u8], whole: bool, bound: u64, frame: u64) -> u64
    requires { frame < 2 ^ 62 }
    ensures { result ≡ cond (can_meet_bad report.now (low_of table.now whole) frame) (2 * frame + 1) bound }
{
    if can_meet_bad(report, table, whole, frame) {
        2 * frame + 1
    } else {
        bound
    }
}

/// Behind which place a scrub of so many frames from one on can meet no bad line.
fn bound_of(report: &Traced<'_>, table: &[u8], whole: bool, first: u64, more: u64) -> u64
    requires { first + more < 2 ^ 62 }
    ensures { result ≡ bound_from report.now (low_of table.now whole) 0 first more }
{
    let mut bound = 0;
    for number in 0..more {
        bound = bound_by(report, table, whole, bound, first + number);
    }
    bound
}

/// Leaves in bank 1 what it holds, or nothing.
fn leave(raw: &mut Bank, left: Option<Event>)
    requires { (left ≡ raw.old) ⊎ (left ≡ None) }
    ensures { raw.new ≡ left }
{
    if left.is_none() {
        let _ = raw.take();
    }
}

/// What is wrong about the lines of a scrub of these frames, which went to its end or not.
pub fn scrub_faults(
    script: &Script,
    report: &Traced<'_>,
    who: Who,
    how: Arrival,
    table: &[u8],
    whole: bool,
    first: Frame,
    last: Frame,
    raw: &mut Bank,
    lines: &[Shown],
) -> Faults
    requires { first.0 ≤ last.0 }
    ensures scanned { IsScanned (IsRightIn script.now report.now who how (course_by report.now table.now whole first last) (reach_from first raw.old) (shown_lines lines.now)) (shown_lines lines.now) result.wrong }
    ensures lacks { result.lacks ≡ nat_lt (after_all report.now (course_by report.now table.now whole first last) (reach_from first raw.old) (shown_lines lines.now)).strays (lacking (course_by report.now table.now whole first last) (after_all report.now (course_by report.now table.now whole first last) (reach_from first raw.old) (shown_lines lines.now))) }
    ensures left { raw.new ≡ (after_all report.now (course_by report.now table.now whole first last) (reach_from first raw.old) (shown_lines lines.now)).raw }
{
    let more = u64::from(last.0) + 1 - u64::from(first.0);
    let bound = bound_of(report, table, whole, u64::from(first.0), more);
    let range = Range {
        last: last.0,
        whole,
        bound,
    };
    let start = Reach {
        next: 2 * u64::from(first.0),
        raw: raw.get(),
        begun: None,
        passed: 0,
        strays: 0,
    };
    let scanned = scan(script, report, who, how, table, range, start, lines);
    leave(raw, scanned.end.raw);
    Faults {
        wrong: scanned.wrong,
        lacks: scanned.end.strays < lacking(table, range, scanned.end, lines.len()),
    }
}
