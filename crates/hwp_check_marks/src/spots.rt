ghost use Rattle.std.specs.Prelude.{◌≡◌, ◌+◌, ◌<◌, ◌^◌, nat_lt, ℕ, IfOk, OnOk, length};
ghost use Rattle.std.specs.List.{sum_by};
ghost use Rattle.hwp_check_rules.specs.Standing.{frame_height};
ghost use Rattle.hwp_check_frames.specs.Counts.{at_key};
ghost use Rattle.hwp_check_marks.specs.Spots.{frames_told, how_told, mark_told, marks_told, told_raise};

use hwp_check_frames::{Counts, Key, add_if, count, spot_of};
use hwp_check_rules::{Frame, FrameLine, How, MarkLine, OutOfMemory, Who};
use std::alloc::Global;
use std::collections::HashMap;

/// Whether the key was counted.
fn is_counted(lines: &Counts, key: Key) -> bool
    ensures { result ≡ nat_lt 0 (at_key lines.now key) }
{
    0 < count(lines, key)
}

/// Counts the key once more, where lines were counted with it.
fn add_told(marks: &mut Counts, lines: &Counts, key: Key) -> Result<(), OutOfMemory>
    requires room { (q : (ℕ × ℕ) × ℕ) → at_key marks.old q + 1 < 2 ^ 64 }
    ensures { OnOk result ((q : (ℕ × ℕ) × ℕ) → at_key marks.new q ≡ at_key marks.old q + told_raise lines.now key q) }
{
    add_if(marks, is_counted(lines, key), key)
}

/// Counts a poisoning of the frame, where it is a soft offline that a line beside an answer tells.
fn add_how(
    marks: &mut Counts,
    lines: &Counts,
    frame: u16,
    who: Who,
    how: How,
) -> Result<(), OutOfMemory>
    requires room { (q : (ℕ × ℕ) × ℕ) → at_key marks.old q + 1 < 2 ^ 64 }
    ensures { OnOk result ((q : (ℕ × ℕ) × ℕ) → at_key marks.new q ≡ at_key marks.old q + how_told lines.now frame q who how) }
{
    match how {
        How::Failure { .. } => Ok(()),
        How::Moved => add_told(marks, lines, spot_of(who, Frame(frame), true)),
        How::TakenFree => add_told(marks, lines, spot_of(who, Frame(frame), false)),
    }
}

/// Counts a mark so.
fn add_mark(
    marks: &mut Counts,
    lines: &Counts,
    frame: u16,
    mark: &MarkLine,
) -> Result<(), OutOfMemory>
    requires room { (q : (ℕ × ℕ) × ℕ) → at_key marks.old q + 1 < 2 ^ 64 }
    ensures { OnOk result ((q : (ℕ × ℕ) × ℕ) → at_key marks.new q ≡ at_key marks.old q + mark_told lines.now frame q mark.now) }
{
    match *mark {
        MarkLine::Poisoned { who, how, .. } => add_how(marks, lines, frame, who, how),
        MarkLine::Unpoisoned { .. } => Ok(()),
    }
}

/// Counts the marks of a frame so.
fn add_marks(
    marks: &mut Counts,
    lines: &Counts,
    frame: u16,
    list: &[MarkLine],
) -> Result<(), OutOfMemory>
    requires room { (q : (ℕ × ℕ) × ℕ) → at_key marks.old q + length list.now + 1 < 2 ^ 64 }
    ensures { OnOk result ((q : (ℕ × ℕ) × ℕ) → at_key marks.new q ≡ at_key marks.old q + marks_told lines.now frame q list.now) }
{
    for mark in list {
        add_mark(marks, lines, frame, mark)?;
    }
    Ok(())
}

/// How many marks of soft offlines each command has in each frame, where lines beside its answer tell of such.
pub(crate) fn spots_of(
    alloc: Global,
    lines: &Counts,
    many: u16,
    frames: &[FrameLine],
) -> Result<Counts, OutOfMemory>
    requires many { length frames.now ≡ many }
    requires small { sum_by frame_height frames.now + 2 < 2 ^ 64 }
    ensures { IfOk result (λ marks. (q : (ℕ × ℕ) × ℕ) → at_key marks q ≡ frames_told lines.now 0 q frames.now) }
{
    let mut marks = HashMap::new(alloc);
    for frame in 0..many {
        let list = frames[usize::from(frame)].marks.as_slice();
        add_marks(&mut marks, lines, frame, list)?;
    }
    Ok(marks)
}
