ghost use Rattle.std.specs.Prelude.{◌≡◌, ◌≤◌, ◌<◌, ◌+◌, ◌-◌, ◌*◌, ◌^◌, ◌↔◌, ◌||◌, IsTrue, false, length, option_map, slice_get};
ghost use Rattle.hwp_banks.specs.Addresses.{frame_at};
ghost use Rattle.hwp_banks.specs.Events.{own_status};
ghost use Rattle.hwp_check_event_line.specs.Firsts.{IsScanned, first_of, shown_lines};
ghost use Rattle.hwp_check_event_line.specs.Found.{has_stopper};
ghost use Rattle.hwp_check_event_line.specs.declared.shown.Shown.{Shown};
ghost use Rattle.hwp_check_event_line.specs.Scrubbing.{IsAhead, IsRightIn, IsSound, IsWithin, course_of, low_of};
ghost use Rattle.hwp_check_event_line.specs.Scrubs.{IsScrubbedLine, after, after_all, comes_instead, is_instead, lacking, marked_from, may_meet, own_at, passed_to, place_of, tells_own, turn};
ghost use Rattle.hwp_banks.specs.declared.Origin.TheVariants as origins;

use crate::acts::{has_stopper, is_line_of, is_raw_line};
use crate::lines::{damaged_lines, has_line, line_at};
use crate::reach::{Range, Reach, Turn};
use crate::shown::Shown;
use crate::traced::Traced;
use hwp_banks::{Event, Origin, Status};
use hwp_law::{Arrival, EventLine, Frame, Line, Script, Who};

/// The greatest line number, and one more.
pub(crate) const LINES: u8 = 64;

/// Up to which line a scrub must meet one at the place, by a table of the lowest lines that were marked.
pub(crate) fn low_at(table: &[u8], whole: bool, place: u64) -> u8
    ensures { result ≡ low_of table.now whole place }
{
    if !whole {
        return LINES;
    }
    match table.get(place as usize) {
        Some(low) => *low,
        None => LINES,
    }
}

/// The place of a frame's bad line, or weak line.
pub(crate) fn place_of(origin: Origin, frame: u64) -> u64
    requires { frame < 2 ^ 62 }
    ensures { result ≡ place_of origin frame }
{
    match origin {
        Origin::WeakLine => 2 * frame + 1,
        _ => 2 * frame,
    }
}

/// The status of the scrubber's own event of this kind.
fn own_status(origin: Origin) -> u64
    ensures { result ≡ own_status origin }
{
    match Line::new(0) {
        Some(line) => origin.event(Frame(0), line).status.0,
        None => 0,
    }
}

/// The scrubber's own event of this kind that an address says.
fn own_at(origin: Origin, addr: u64) -> Event
    ensures { result ≡ own_at origin addr }
{
    Event {
        status: Status(own_status(origin)),
        addr: addr / 4096 * 4096 + u64::from(line_at(addr)) * 64,
        misc: 0x86,
    }
}

/// Whether the line tells the scrubber's own event of this kind, at some line of some frame.
fn tells_own(origin: Origin, line: &EventLine) -> bool
    ensures { result ≡ tells_own origin line.now }
{
    usize::from(line.bank) == origin.bank()
        && line.status == own_status(origin)
        && line.misc == 0x86
        && line.addr % 64 == 0
}

/// Whether the scrub may still meet the line, at its place.
fn may_meet(
    report: &Traced<'_>,
    table: &[u8],
    range: Range,
    origin: Origin,
    reach: Reach,
    line: &EventLine,
) -> bool
    ensures may { result ≡ may_meet report.now (course_of table.now range) origin reach line.now }
    ensures ahead { IsTrue result → IsWithin range reach origin line.now }
{
    let frame = line.addr / 4096;
    let place = place_of(origin, frame);
    let at = line_at(line.addr);
    tells_own(origin, line)
        && reach.next <= place
        && frame <= u64::from(range.last)
        && has_line(damaged_lines(report, origin, frame), at)
        && at <= low_at(table, range.whole, place)
}

/// What a line is to the scrub.
fn turn(report: &Traced<'_>, table: &[u8], range: Range, reach: Reach, line: &EventLine) -> Turn
    ensures turn { result ≡ turn report.now (course_of table.now range) reach line.now }
    ensures ahead { IsAhead range reach line.now result }
{
    let held = reach.raw.is_some();
    let open = reach.begun.is_some();
    if line.bank == 1 && held && !open && reach.next < range.bound {
        return Turn::Beside;
    }
    if (!held || open) && may_meet(report, table, range, Origin::BadLine, reach, line) {
        return Turn::Bad;
    }
    if !open && may_meet(report, table, range, Origin::WeakLine, reach, line) {
        return Turn::Weak;
    }
    if may_meet(report, table, range, Origin::WeakLine, reach, line) {
        return Turn::Instead;
    }
    Turn::Stray
}

/// Whether it is a weak line where the line of a bad line is due.
fn is_instead(turn: Turn) -> bool
    ensures { result ≡ is_instead turn }
{
    matches!(turn, Turn::Instead)
}

/// Whether the line with the number, if there is one, is a weak line where the line of a bad line is due.
fn comes_instead(
    report: &Traced<'_>,
    table: &[u8],
    range: Range,
    reach: Reach,
    lines: &[Shown],
    number: usize,
) -> bool
    ensures { result ≡ comes_instead report.now (course_of table.now range) reach (option_map (λ (s : Shown). s.line) (slice_get lines.now number)) }
{
    match lines.get(number) {
        Some(shown) => is_instead(turn(report, table, range, reach, &shown.line)),
        None => false,
    }
}

/// How many of so many places from one on were marked.
fn marked_from(table: &[u8], whole: bool, place: u64, more: u64) -> u64
    requires { place + more < 2 ^ 63 }
    ensures count { result ≡ marked_from (low_of table.now whole) place more }
    ensures few { result ≤ more }
{
    let mut count = 0;
    for number in 0..more {
        count += u64::from(low_at(table, whole, place + number) < LINES);
    }
    count
}

/// How many marked places the scrub passed over when it comes to one.
fn passed_to(table: &[u8], range: Range, reach: Reach, place: u64) -> u64
    requires ahead { reach.next ≤ place }
    requires room { place < 2 ^ 62 }
    requires few { reach.passed ≤ reach.next }
    ensures passed { result ≡ passed_to (course_of table.now range) reach place }
    ensures few { result ≤ place }
{
    reach.passed + marked_from(table, range.whole, reach.next, place - reach.next)
}

/// How far the scrub has come when it met a line of this kind.
fn met(table: &[u8], range: Range, reach: Reach, origin: Origin, line: &EventLine) -> Reach
    requires ahead { IsWithin range reach origin line.now }
    requires few { reach.passed ≤ reach.next }
    ensures next { result.next ≡ place_of origin (frame_at line.now.addr) + 1 }
    ensures passed { result.passed ≡ passed_to (course_of table.now range) reach (place_of origin (frame_at line.now.addr)) }
    ensures few { result.passed ≤ result.next }
    ensures within { result.next ≤ 2 * range.last + 2 }
    ensures same { (result.raw ≡ reach.raw) × (result.begun ≡ reach.begun) × (result.strays ≡ reach.strays) }
{
    let place = place_of(origin, line.addr / 4096);
    Reach {
        next: place + 1,
        passed: passed_to(table, range, reach, place),
        ..reach
    }
}

/// How far the scrub has come behind a line.
fn after(
    table: &[u8],
    range: Range,
    reach: Reach,
    line: &EventLine,
    turn: Turn,
    behind: usize,
) -> Reach
    requires ahead { IsAhead range reach line.now turn }
    requires sound { IsSound range reach behind }
    requires room { behind < 2 ^ 63 }
    ensures after { result ≡ after (course_of table.now range) reach line.now turn }
    ensures sound { IsSound range result (behind + 1) }
{
    let _count = behind;
    match turn {
        Turn::Beside => Reach {
            begun: Some(line.acted.is_panic()),
            ..reach
        },
        Turn::Bad => Reach {
            raw: None,
            begun: None,
            ..met(table, range, reach, Origin::BadLine, line)
        },
        Turn::Weak => met(table, range, reach, Origin::WeakLine, line),
        Turn::Instead => Reach {
            begun: None,
            strays: reach.strays + 1,
            ..met(table, range, reach, Origin::WeakLine, line)
        },
        Turn::Stray => Reach {
            strays: reach.strays + 1,
            ..reach
        },
    }
}

/// Whether failures are held back at a bad line: where bank 1 or the own event would stop the machine.
fn is_held(how: Arrival, raw: Option<Event>) -> bool
    ensures { result ≡ has_stopper how origins.BadLine raw }
{
    has_stopper(how, own_at(Origin::BadLine, 0), raw)
}

/// Whether the line is right as what it is to the scrub.
fn is_scrubbed_line(
    script: &Script,
    report: &Traced<'_>,
    who: Who,
    how: Arrival,
    reach: Reach,
    line: &EventLine,
    turn: Turn,
) -> bool
    ensures { IsTrue result ↔ IsScrubbedLine script.now report.now who how reach line.now turn }
{
    let held = is_held(how, reach.raw);
    match turn {
        Turn::Beside => is_raw_line(script, report, who, how, held, reach.raw, line),
        Turn::Bad => {
            let panicked = reach.begun.unwrap_or(false);
            let own = own_at(Origin::BadLine, line.addr);
            is_line_of(
                script,
                report,
                who,
                how,
                either(held, panicked),
                2,
                own,
                line,
            )
        }
        Turn::Weak => {
            let own = own_at(Origin::WeakLine, line.addr);
            is_line_of(script, report, who, how, false, 2, own, line)
        }
        Turn::Instead | Turn::Stray => false,
    }
}

/// Whether one of the two is so.
fn either(a: bool, b: bool) -> bool
    ensures { result ≡ (a || b) }
{
    a || b
}

/// Whether the first is so, and the second not.
fn only(a: bool, b: bool) -> bool
    ensures { IsTrue result ↔ (IsTrue a × (b ≡ false)) }
{
    a && !b
}

/// The first line that is wrong, by the one found so far.
fn first_of(found: Option<usize>, right: bool, number: usize) -> Option<usize>
    ensures { result ≡ first_of found right number }
{
    match found {
        Some(first) => Some(first),
        None => if right { None } else { Some(number) },
    }
}

/// What came of the lines of a scrub: the first that is wrong, and how far the scrub has come behind the last.
#[derive(Clone, Copy)]
pub(crate) struct Scanned {
    pub wrong: Option<usize>,
    pub end: Reach,
}

/// Goes over the lines of a scrub.
pub(crate) fn scan(
    script: &Script,
    report: &Traced<'_>,
    who: Who,
    how: Arrival,
    table: &[u8],
    range: Range,
    start: Reach,
    lines: &[Shown],
) -> Scanned
    requires { IsSound range start 0 }
    ensures scanned { IsScanned (IsRightIn script.now report.now who how (course_of table.now range) start (shown_lines lines.now)) (shown_lines lines.now) result.wrong }
    ensures end { result.end ≡ after_all report.now (course_of table.now range) start (shown_lines lines.now) }
    ensures sound { IsSound range result.end (length lines.now) }
{
    let mut reach = start;
    let mut wrong = None;
    for number in 0..lines.len() {
        let line = &lines[number].line;
        let turn = turn(report, table, range, reach, line);
        let right = is_scrubbed_line(script, report, who, how, reach, line, turn);
        reach = after(table, range, reach, line, turn, number);
        let instead = comes_instead(report, table, range, reach, lines, number + 1);
        let good = only(right, instead);
        wrong = first_of(wrong, good, number);
    }
    Scanned { wrong, end: reach }
}

/// How many lines a scrub lacks where it has come so far.
pub(crate) fn lacking(table: &[u8], range: Range, reach: Reach, lines: usize) -> u64
    requires { IsSound range reach lines }
    ensures { result ≡ lacking (course_of table.now range) reach }
{
    let end = 2 * u64::from(range.last) + 2;
    passed_to(table, range, reach, end) + u64::from(reach.begun.is_some())
}
