ghost use Rattle.std.specs.Prelude.{◌≡◌, ◌+◌, ◌<◌, ◌^◌, ℕ, IfOk, OnOk, length};
ghost use Rattle.std.specs.List.{sum_by};
ghost use Rattle.hwp_check_rules.specs.Standing.{frame_height};
ghost use Rattle.hwp_check_frames.specs.Counts.{at_key};
ghost use Rattle.hwp_check_frames.specs.Own.{how_own, own_raise};
ghost use Rattle.hwp_check_frames.specs.Own.{frames_own, marks_own};

use crate::counts::{Counts, add_if};
use hwp_check_rules::{FrameLine, How, MarkLine, OutOfMemory, Who};
use std::alloc::Global;
use std::collections::HashMap;

/// Counts a poisoning of the frame for its command, where an event caused it.
fn add_how(own: &mut Counts, frame: u16, who: Who, how: How) -> Result<(), OutOfMemory>
    requires room { (q : (ℕ × ℕ) × ℕ) → at_key own.old q + 1 < 2 ^ 64 }
    ensures { OnOk result ((q : (ℕ × ℕ) × ℕ) → at_key own.new q ≡ at_key own.old q + how_own frame q who how) }
{
    match how {
        How::Failure { hardware, .. } => {
            add_if(own, hardware, ((who.cpu.0, who.seq), u64::from(frame)))
        }
        How::Moved | How::TakenFree => Ok(()),
    }
}

/// Counts a mark so.
pub fn add_own(own: &mut Counts, frame: u16, mark: &MarkLine) -> Result<(), OutOfMemory>
    requires room { (q : (ℕ × ℕ) × ℕ) → at_key own.old q + 1 < 2 ^ 64 }
    ensures { OnOk result ((q : (ℕ × ℕ) × ℕ) → at_key own.new q ≡ at_key own.old q + own_raise frame q mark.now) }
{
    match *mark {
        MarkLine::Poisoned { who, how, .. } => add_how(own, frame, who, how),
        MarkLine::Unpoisoned { .. } => Ok(()),
    }
}

/// Counts the marks of a frame so.
fn add_owns(own: &mut Counts, frame: u16, marks: &[MarkLine]) -> Result<(), OutOfMemory>
    requires room { (q : (ℕ × ℕ) × ℕ) → at_key own.old q + length marks.now + 1 < 2 ^ 64 }
    ensures { OnOk result ((q : (ℕ × ℕ) × ℕ) → at_key own.new q ≡ at_key own.old q + marks_own frame q marks.now) }
{
    for mark in marks {
        add_own(own, frame, mark)?;
    }
    Ok(())
}

/// How many marks each command's events caused in each frame.
pub(crate) fn own_counts(
    alloc: Global,
    many: u16,
    frames: &[FrameLine],
) -> Result<Counts, OutOfMemory>
    requires many { length frames.now ≡ many }
    requires small { sum_by frame_height frames.now + 2 < 2 ^ 64 }
    ensures { IfOk result (λ own. (q : (ℕ × ℕ) × ℕ) → at_key own q ≡ frames_own 0 q frames.now) }
{
    let mut own = HashMap::new(alloc);
    for frame in 0..many {
        let marks = frames[usize::from(frame)].marks.as_slice();
        add_owns(&mut own, frame, marks)?;
    }
    Ok(own)
}
