ghost use Rattle.std.specs.Prelude.{◌≡◌, ◌↔◌, ◌<◌, ◌≤◌, ◌+◌, ◌^◌, ◌||◌, ℕ, true, None, IsTrue, IsBitSet, MatchOption, get_or, length};
ghost use Rattle.hwp_law.specs.Lines.{bad_lines_of};
ghost use Rattle.hwp_check_event_line.specs.Firsts.{IsScanned, shown_lines};
ghost use Rattle.hwp_check_event_line.specs.Found.{IsCandidate, beside, may_stop, of_access, own_found, stops};
ghost use Rattle.hwp_check_event_line.specs.Accesses.{IsAccessLine, IsOwnLine, asked_by_access, begins_in_panic};
ghost use Rattle.hwp_check_events.specs.Met.{access_by, lines_met};

use crate::known::Checks;
use hwp_banks::{Bank, Event, Origin};
use hwp_check_event_line::{Shown, Traced, has_stopper, is_bad_at, is_line_of, is_raw_line};
use hwp_law::{Arrival, EventLine, Frame, Line, Script, Who};

/// The lowest frame that is bad at a line.
fn first_bad(report: &Traced<'_>, at: Line) -> Option<Frame>
    requires { length report.now.frames ≤ 65536 }
    ensures { MatchOption result ((frame : ℕ) → IsBitSet (bad_lines_of report.now frame) at → ⊥) (λ frame. IsBitSet (bad_lines_of report.now frame.0) at) }
{
    for frame in 0..report.get().frames.len() {
        if is_bad_at(report, frame as u64, at) {
            return Some(Frame(frame as u16));
        }
    }
    None
}

/// A frame that is bad at a line, that of the event's address where it is.
fn candidate(report: &Traced<'_>, at: Line, addr: u64) -> Option<Frame>
    requires { length report.now.frames ≤ 65536 }
    ensures found { IsCandidate report.now at addr result }
    ensures small { at < 64 }
{
    let frame = addr / 4096;
    let _line = at.get();
    if is_bad_at(report, frame, at) {
        return Some(Frame(frame as u16));
    }
    first_bad(report, at)
}

/// What a machine check finds in the bank of its own event, where bank 1 holds this.
fn own_found(origin: Origin, raw: &mut Bank, frame: Frame, at: Line) -> Event
    ensures { result ≡ own_found origin raw.old frame at }
{
    let own = origin.event(frame, at);
    match origin {
        Origin::Fetch => {
            raw.log(own);
            match raw.take() {
                Some(event) => event,
                None => own,
            }
        }
        _ => own,
    }
}

/// What a machine check finds in bank 1 beside its own event.
fn beside(origin: Origin, raw: Option<Event>) -> Option<Event>
    ensures { result ≡ beside origin raw }
{
    match origin {
        Origin::Fetch => None,
        _ => raw,
    }
}

/// Whether failures are held back in the second line of an access's first machine check.
fn is_held(how: Arrival, checks: &Checks, beside: Option<Event>, lines: &[Shown]) -> bool
    ensures { result ≡ ((stops how (own_found checks.now.origin None (record { 0 = 0 }) checks.now.at) || may_stop how beside) || begins_in_panic (shown_lines lines.now)) }
{
    let own = own_found(checks.origin, &mut Bank::new(), Frame(0), checks.at);
    has_stopper(how, own, beside) || begins_in_panic(lines)
}

/// Whether the line tells the own event of a machine check of an access. Bank 1 is given up.
#[tactic(auto, using(crate::proofs::OwnLaws::own_none))]
fn is_own_line(
    script: &Script,
    report: &Traced<'_>,
    who: Who,
    how: Arrival,
    origin: Origin,
    at: Line,
    raw: &mut Bank,
    line: &EventLine,
) -> bool
    requires access { of_access origin ≡ true }
    requires frames { length report.now.frames ≤ 65536 }
    ensures { IsTrue result ↔ IsOwnLine script.now report.now who how origin at raw.old line.now }
{
    match candidate(report, at, line.addr) {
        Some(frame) => {
            let beside = beside(origin, raw.get());
            let own = own_found(origin, raw, frame, at);
            let held = has_stopper(how, own, beside);
            let bank = origin.bank() as u8;
            is_line_of(script, report, who, how, held, bank, own, line)
        }
        None => false,
    }
}

/// Whether the first line is a panic.
fn begins_in_panic(lines: &[Shown]) -> bool
    ensures { result ≡ begins_in_panic (shown_lines lines.now) }
{
    match lines.first() {
        Some(shown) => shown.line.acted.is_panic(),
        None => false,
    }
}

/// How many lines the machine checks ask, of which the first finds this in bank 1.
pub(crate) fn asked_by_access(checks: &Checks, copied: &[Line], raw: Option<Event>) -> u64
    requires few { checks.now.count + 1 < 2 ^ 64 }
    requires within { length copied.now ≤ checks.now.count }
    ensures { result ≡ asked_by_access (access_by checks.now copied.now raw) }
{
    let _copied = copied;
    if checks.count == 0 {
        return 0;
    }
    checks.count - 1
        + if beside(checks.origin, raw).is_some() {
            2
        } else {
            1
        }
}

/// The line of the machine check with this number.
fn met_at(checks: &Checks, copied: &[Line], number: u64) -> Line
    requires { number < checks.now.count }
    ensures { result ≡ get_or (lines_met checks.now copied.now) number 0 }
{
    match copied.get(number as usize) {
        Some(line) => *line,
        None => checks.at,
    }
}

/// Whether the line is right as the first one. Bank 1 is given up.
fn is_first_line(
    script: &Script,
    report: &Traced<'_>,
    who: Who,
    how: Arrival,
    checks: &Checks,
    copied: &[Line],
    raw: &mut Bank,
    line: &EventLine,
) -> bool
    requires access { of_access checks.now.origin ≡ true }
    requires frames { length report.now.frames ≤ 65536 }
    requires few { checks.now.count + 1 < 2 ^ 64 }
    requires within { length copied.now ≤ checks.now.count }
    ensures first { IsTrue result ↔ ((0 < asked_by_access (access_by checks.now copied.now raw.old)) × IsOwnLine script.now report.now who how checks.now.origin (get_or (lines_met checks.now copied.now) 0 0) raw.old line.now) }
    ensures kept { checks.now.count ≡ 0 → raw.new ≡ raw.old }
{
    if checks.count == 0 {
        return false;
    }
    let at = met_at(checks, copied, 0);
    is_own_line(script, report, who, how, checks.origin, at, raw, line)
}

/// Whether the line is right as the one with this number, not the first.
fn is_later_line(
    script: &Script,
    report: &Traced<'_>,
    who: Who,
    how: Arrival,
    checks: &Checks,
    copied: &[Line],
    raw: Option<Event>,
    lines: &[Shown],
    number: usize,
    line: &EventLine,
) -> bool
    requires access { of_access checks.now.origin ≡ true }
    requires frames { length report.now.frames ≤ 65536 }
    requires few { checks.now.count + 1 < 2 ^ 64 }
    requires within { length copied.now ≤ checks.now.count }
    requires later { 0 < number }
    ensures { IsTrue result ↔ IsAccessLine script.now report.now who how (access_by checks.now copied.now raw) (shown_lines lines.now) number line.now }
{
    if number as u64 >= asked_by_access(checks, copied, raw) {
        return false;
    }
    let beside = beside(checks.origin, raw);
    if number == 1 && beside.is_some() {
        let held = is_held(how, checks, beside, lines);
        return is_raw_line(script, report, who, how, held, beside, line);
    }
    let place = number as u64 - u64::from(beside.is_some());
    let at = met_at(checks, copied, place);
    let none = &mut Bank::new();
    is_own_line(script, report, who, how, checks.origin, at, none, line)
}

/// The first line that isn't the one that the machine checks ask at its place. Bank 1 is given up.
pub(crate) fn access_wrong(
    script: &Script,
    report: &Traced<'_>,
    who: Who,
    how: Arrival,
    checks: &Checks,
    copied: &[Line],
    raw: &mut Bank,
    lines: &[Shown],
) -> Option<usize>
    requires access { of_access checks.now.origin ≡ true }
    requires frames { length report.now.frames ≤ 65536 }
    requires few { checks.now.count + 1 < 2 ^ 64 }
    requires within { length copied.now ≤ checks.now.count }
    ensures scanned { IsScanned (IsAccessLine script.now report.now who how (access_by checks.now copied.now raw.old) (shown_lines lines.now)) (shown_lines lines.now) result }
    ensures kept { checks.now.count ≡ 0 → raw.new ≡ raw.old }
{
    let held = raw.get();
    if lines.is_empty() {
        return None;
    }
    let first = &lines[0].line;
    if !is_first_line(script, report, who, how, checks, copied, raw, first) {
        return Some(0);
    }
    for number in 1..lines.len() {
        let line = &lines[number].line;
        if !is_later_line(
            script, report, who, how, checks, copied, held, lines, number, line,
        ) {
            return Some(number);
        }
    }
    None
}
