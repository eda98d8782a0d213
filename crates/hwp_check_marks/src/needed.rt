ghost use Rattle.std.specs.Prelude.{◌≡◌, ◌+◌, ◌<◌, ◌^◌, ℕ, IfOk, OnOk, length};
ghost use Rattle.std.specs.List.{sum_by};
ghost use Rattle.hwp_check_rules.specs.Standing.{page_height};
ghost use Rattle.hwp_check_frames.specs.Counts.{at_key};
ghost use Rattle.hwp_check_marks.specs.Needed.{entry_needed, page_needed, pages_needed};

use crate::keys::key_of;
use crate::kinds::Kind;
use hwp_check_frames::{Counts, add_if};
use hwp_check_rules::{Entry, List, OutOfMemory, What};
use std::alloc::Global;
use std::collections::HashMap;

/// Counts an entry, where it is a failure that a thread needed the page for.
fn add_needed(counts: &mut Counts, entry: &Entry) -> Result<(), OutOfMemory>
    requires room { (q : (ℕ × ℕ) × ℕ) → at_key counts.old q + 1 < 2 ^ 64 }
    ensures { OnOk result ((q : (ℕ × ℕ) × ℕ) → at_key counts.new q ≡ at_key counts.old q + entry_needed q entry.now) }
{
    match &entry.what {
        What::Fail {
            situation,
            required,
            ..
        } => {
            let key = key_of(entry.who, Kind::Failure(*situation));
            add_if(counts, required.is_some(), key)
        }
        _ => Ok(()),
    }
}

/// Counts entries.
fn add_page(counts: &mut Counts, entries: &[Entry]) -> Result<(), OutOfMemory>
    requires room { (q : (ℕ × ℕ) × ℕ) → at_key counts.old q + length entries.now + 1 < 2 ^ 64 }
    ensures { OnOk result ((q : (ℕ × ℕ) × ℕ) → at_key counts.new q ≡ at_key counts.old q + page_needed q entries.now) }
{
    for entry in entries {
        add_needed(counts, entry)?;
    }
    Ok(())
}

/// How often each key is counted by the failures in these histories that a thread needed the page for.
pub(crate) fn needed_counts(alloc: Global, pages: &[List<Entry>]) -> Result<Counts, OutOfMemory>
    requires small { sum_by page_height pages.now + 2 < 2 ^ 64 }
    ensures { IfOk result (λ counts. (q : (ℕ × ℕ) × ℕ) → at_key counts q ≡ pages_needed q pages.now) }
{
    let mut counts = HashMap::new(alloc);
    for entries in pages {
        add_page(&mut counts, entries.as_slice())?;
    }
    Ok(counts)
}
