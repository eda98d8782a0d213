ghost use Rattle.std.specs.Prelude.{◌≡◌, ◌+◌, ◌<◌, ◌^◌, ℕ, IfOk, OnOk, length};
ghost use Rattle.std.specs.List.{sum_by};
ghost use Rattle.hwp_check_frames.specs.Counts.{at_key};
ghost use Rattle.hwp_check_marks.specs.Tallies.{entry_raise, frames_raise, how_raise, mark_raise, marks_raise, page_raise, pages_raise};
ghost use Rattle.hwp_check_rules.specs.Standing.{frame_height, page_height};

use crate::keys::key_of;
use crate::kinds::Kind;
use hwp_check_frames::{Counts, add, add_if};
use hwp_check_rules::{Entry, FrameLine, How, List, MarkLine, OutOfMemory, What, Who};
use std::alloc::Global;
use std::collections::HashMap;

/// Counts a poisoning by the command, once for each kind that it is of.
fn add_how(counts: &mut Counts, who: Who, how: How) -> Result<(), OutOfMemory>
    requires room { (q : (ℕ × ℕ) × ℕ) → at_key counts.old q + 2 < 2 ^ 64 }
    ensures { OnOk result ((q : (ℕ × ℕ) × ℕ) → at_key counts.new q ≡ at_key counts.old q + how_raise q who how) }
{
    match how {
        How::Failure {
            hardware,
            situation,
            ..
        } => {
            add(counts, key_of(who, Kind::Failure(situation)))?;
            add_if(counts, !hardware, key_of(who, Kind::Commanded))
        }
        How::Moved => add(counts, key_of(who, Kind::Moved)),
        How::TakenFree => Ok(()),
    }
}

/// Counts a mark.
pub(crate) fn add_mark(counts: &mut Counts, mark: &MarkLine) -> Result<(), OutOfMemory>
    requires room { (q : (ℕ × ℕ) × ℕ) → at_key counts.old q + 2 < 2 ^ 64 }
    ensures { OnOk result ((q : (ℕ × ℕ) × ℕ) → at_key counts.new q ≡ at_key counts.old q + mark_raise q mark.now) }
{
    match *mark {
        MarkLine::Poisoned { who, how, .. } => add_how(counts, who, how),
        MarkLine::Unpoisoned { who, .. } => add(counts, key_of(who, Kind::Commanded)),
    }
}

/// Counts marks.
fn add_marks(counts: &mut Counts, marks: &[MarkLine]) -> Result<(), OutOfMemory>
    requires room { (q : (ℕ × ℕ) × ℕ) → at_key counts.old q + length marks.now + 2 < 2 ^ 64 }
    ensures { OnOk result ((q : (ℕ × ℕ) × ℕ) → at_key counts.new q ≡ at_key counts.old q + marks_raise q marks.now) }
{
    for mark in marks {
        add_mark(counts, mark)?;
    }
    Ok(())
}

/// How often each key is counted by the marks of these records.
pub(crate) fn mark_counts(alloc: Global, frames: &[FrameLine]) -> Result<Counts, OutOfMemory>
    requires small { sum_by frame_height frames.now + 2 < 2 ^ 64 }
    ensures { IfOk result (λ counts. (q : (ℕ × ℕ) × ℕ) → at_key counts q ≡ frames_raise q frames.now) }
{
    let mut counts = HashMap::new(alloc);
    for frame in frames {
        add_marks(&mut counts, frame.marks.as_slice())?;
    }
    Ok(counts)
}

/// Counts an entry.
fn add_entry(counts: &mut Counts, entry: &Entry) -> Result<(), OutOfMemory>
    requires room { (q : (ℕ × ℕ) × ℕ) → at_key counts.old q + 1 < 2 ^ 64 }
    ensures { OnOk result ((q : (ℕ × ℕ) × ℕ) → at_key counts.new q ≡ at_key counts.old q + entry_raise q entry.now) }
{
    match &entry.what {
        What::Fail { situation, .. } => add(counts, key_of(entry.who, Kind::Failure(*situation))),
        What::Soft => add(counts, key_of(entry.who, Kind::Moved)),
        _ => Ok(()),
    }
}

/// Counts entries.
fn add_entries(counts: &mut Counts, entries: &[Entry]) -> Result<(), OutOfMemory>
    requires room { (q : (ℕ × ℕ) × ℕ) → at_key counts.old q + length entries.now + 1 < 2 ^ 64 }
    ensures { OnOk result ((q : (ℕ × ℕ) × ℕ) → at_key counts.new q ≡ at_key counts.old q + page_raise q entries.now) }
{
    for entry in entries {
        add_entry(counts, entry)?;
    }
    Ok(())
}

/// How often each key is counted by the entries of these histories.
pub(crate) fn entry_counts(alloc: Global, pages: &[List<Entry>]) -> Result<Counts, OutOfMemory>
    requires small { sum_by page_height pages.now + 2 < 2 ^ 64 }
    ensures { IfOk result (λ counts. (q : (ℕ × ℕ) × ℕ) → at_key counts q ≡ pages_raise q pages.now) }
{
    let mut counts = HashMap::new(alloc);
    for entries in pages {
        add_entries(&mut counts, entries.as_slice())?;
    }
    Ok(counts)
}
