ghost use Rattle.std.specs.Prelude.{◌≡◌, ◌+◌, ◌<◌, ◌^◌, ◌&&◌, ℕ, IfOk, OnOk, length};
ghost use Rattle.std.specs.List.{sum_by};
ghost use Rattle.hwp_check_rules.specs.Standing.{frame_height};
ghost use Rattle.hwp_check_frames.specs.Counts.{at_key};
ghost use Rattle.hwp_check_marks.specs.Needed.{frames_urgent, how_urgent, is_nine, mark_urgent, marks_urgent};

use crate::keys::key_of;
use crate::kinds::Kind;
use hwp_check_frames::{Counts, Noted, Rows, add_if, add_own, count, row_of};
use hwp_check_rules::{FrameLine, How, MarkLine, OutOfMemory, Who};
use std::alloc::Global;
use std::collections::HashMap;

/// Whether the line has the row of an access that needs the page.
fn is_nine(said: Option<Noted>) -> bool
    ensures { result ≡ is_nine said }
{
    match said {
        Some(noted) => noted.row == 9,
        None => false,
    }
}

/// Whether a poisoning is by an event whose line has such a row.
fn asks_for(hardware: bool, said: Option<Noted>) -> bool
    ensures { result ≡ (hardware && is_nine said) }
{
    hardware && is_nine(said)
}

/// Counts a poisoning by the command's event, where its event line asks for an entry that a thread needs.
fn add_how(
    urgent: &mut Counts,
    had: &Counts,
    rows: &Rows,
    frame: u16,
    who: Who,
    how: How,
) -> Result<(), OutOfMemory>
    requires room { (q : (ℕ × ℕ) × ℕ) → at_key urgent.old q + 1 < 2 ^ 64 }
    ensures { OnOk result ((q : (ℕ × ℕ) × ℕ) → at_key urgent.new q ≡ at_key urgent.old q + how_urgent rows.now (at_key had.now) frame q who how) }
{
    match how {
        How::Failure {
            hardware,
            situation,
            ..
        } => {
            let own = ((who.cpu.0, who.seq), u64::from(frame));
            let place = count(had, own);
            let asks = asks_for(hardware, row_of(rows, (own, place)));
            add_if(urgent, asks, key_of(who, Kind::Failure(situation)))?;
            Ok(())
        }
        How::Moved | How::TakenFree => Ok(()),
    }
}

/// Counts a mark so, where so many marks of each command stand before it.
fn add_mark(
    urgent: &mut Counts,
    had: &Counts,
    rows: &Rows,
    frame: u16,
    mark: &MarkLine,
) -> Result<(), OutOfMemory>
    requires room { (q : (ℕ × ℕ) × ℕ) → at_key urgent.old q + 1 < 2 ^ 64 }
    ensures { OnOk result ((q : (ℕ × ℕ) × ℕ) → at_key urgent.new q ≡ at_key urgent.old q + mark_urgent rows.now (at_key had.now) frame q mark.now) }
{
    match *mark {
        MarkLine::Poisoned { who, how, .. } => add_how(urgent, had, rows, frame, who, how),
        MarkLine::Unpoisoned { .. } => Ok(()),
    }
}

/// Counts the marks of a frame so.
fn add_marks(
    alloc: Global,
    urgent: &mut Counts,
    rows: &Rows,
    frame: u16,
    marks: &[MarkLine],
) -> Result<(), OutOfMemory>
    requires room { (q : (ℕ × ℕ) × ℕ) → at_key urgent.old q + length marks.now + 1 < 2 ^ 64 }
    ensures { OnOk result ((q : (ℕ × ℕ) × ℕ) → at_key urgent.new q ≡ at_key urgent.old q + marks_urgent rows.now (λ x. 0) frame q marks.now) }
{
    let mut had = HashMap::new(alloc);
    for mark in marks {
        add_mark(urgent, &had, rows, frame, mark)?;
        add_own(&mut had, frame, mark)?;
    }
    Ok(())
}

/// How often each key is counted by the marks whose event line asks for an entry that a thread needs.
pub(crate) fn urgent_counts(
    alloc: Global,
    rows: &Rows,
    many: u16,
    frames: &[FrameLine],
) -> Result<Counts, OutOfMemory>
    requires many { length frames.now ≡ many }
    requires small { sum_by frame_height frames.now + 2 < 2 ^ 64 }
    ensures { IfOk result (λ counts. (q : (ℕ × ℕ) × ℕ) → at_key counts q ≡ frames_urgent rows.now 0 q frames.now) }
{
    let mut counts = HashMap::new(alloc);
    for frame in 0..many {
        let marks = frames[usize::from(frame)].marks.as_slice();
        add_marks(alloc, &mut counts, rows, frame, marks)?;
    }
    Ok(counts)
}
