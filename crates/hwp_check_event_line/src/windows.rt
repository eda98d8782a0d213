ghost use Rattle.std.specs.Prelude.{◌≡◌, ◌↔◌, ◌≤◌, IsTrue, drop, length, slice_get, take};
ghost use Rattle.std.specs.Option.{option_copied};
ghost use Rattle.hwp_law.specs.Lines.{marks_of};
ghost use Rattle.hwp_law.specs.Records.{WasPoisoned, ends_poisoned};
ghost use Rattle.hwp_check_event_line.specs.Nears.{AreNears, IsPast, run, runs};
ghost use Rattle.hwp_check_event_line.specs.Windows.{IsEdge, may_end, same};

use crate::nears::{MarkIndex, Nears, is_poisoning, says};
use crate::results::marks_at;
use hwp_law::{MarkLine, Report, Who};

/// The first place of a rising list whose number isn't below the bound.
fn edge(list: &[u32], bound: u64) -> usize
    ensures { IsEdge list.now bound result }
{
    let mut first = 0;
    let mut end = list.len();
    while first < end {
        let middle = first + (end - first) / 2;
        if u64::from(list[middle]) < bound {
            first = middle + 1;
        } else {
            end = middle;
        }
    }
    first
}

/// Whether the two are the same.
fn same(a: bool, b: bool) -> bool
    ensures { result ≡ same a b }
{
    if a { b } else { !b }
}

/// Whether the frame is poisoned behind so many marks.
fn ends_poisoned(marks: &[MarkLine], count: usize) -> bool
    requires { count ≤ length marks.now }
    ensures { result ≡ ends_poisoned (take count marks.now) }
{
    if count == 0 {
        false
    } else {
        is_poisoning(&marks[count - 1])
    }
}

/// How many marks from a place on say as much.
#[tactic(auto, using(crate::proofs::RunLaws::run_past, crate::proofs::RunLaws::run_said, crate::proofs::RunLaws::run_unsaid, crate::proofs::RunLaws::runs_long))]
fn run(marks: &[MarkLine], kept: &[usize], place: usize, poisoned: bool) -> usize
    requires { kept.now ≡ runs marks.now }
    ensures { result ≡ run poisoned (drop place marks.now) }
{
    match marks.get(place) {
        Some(mark) => { if says(poisoned, mark) { kept[place] } else { 0 } }
        None => 0,
    }
}

/// Whether the record ends so behind some number of marks from the first to the last one.
fn may_end(marks: &[MarkLine], kept: &[usize], first: usize, last: usize, poisoned: bool) -> bool
    requires kept { kept.now ≡ runs marks.now }
    requires within { first ≤ length marks.now }
    ensures { result ≡ may_end marks.now first last poisoned }
{
    if first > last {
        return false;
    }
    let before = ends_poisoned(marks, first);
    same(poisoned, before) || run(marks, kept, first, before) < last - first
}

/// Whether the frame with this record may have been poisoned, or not, while the command ran.
fn was_poisoned_by(marks: &[MarkLine], nears: &Nears, who: Who, poisoned: bool) -> bool
    requires { AreNears who.cpu marks.now nears.now }
    ensures { IsTrue result ↔ WasPoisoned marks.now who poisoned }
{
    let seq = u64::from(who.seq);
    let lows = nears.lows.as_slice();
    let highs = nears.highs.as_slice();
    let first = edge(lows, seq);
    let last = edge(highs, seq + 1);
    may_end(marks, nears.runs.as_slice(), first, last, poisoned)
}

/// The record of a frame. One that the report doesn't show has none.
pub(crate) fn marks_of(report: &Report, frame: u64) -> &[MarkLine]
    ensures { result.now ≡ marks_of report.now frame }
{
    marks_at(report.frames.as_slice(), frame as usize)
}

/// What is kept of a frame's record.
fn nears_at(past: &MarkIndex, frame: u64) -> Option<&Nears>
    ensures { option_copied result ≡ slice_get past.now.frames.items frame }
{
    past.frames.as_slice().get(frame as usize)
}

/// Whether a frame may have been poisoned, or not, while the command ran. One that the report doesn't show was not.
pub fn was_poisoned(report: &Report, past: &MarkIndex, who: Who, frame: u64, poisoned: bool) -> bool
    requires { IsPast who.cpu report.now.frames past.now }
    ensures { IsTrue result ↔ WasPoisoned (marks_of report.now frame) who poisoned }
{
    let marks = marks_of(report, frame);
    match nears_at(past, frame) {
        Some(nears) => was_poisoned_by(marks, nears, who, poisoned),
        None => !poisoned,
    }
}
