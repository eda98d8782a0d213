ghost use Rattle.std.specs.Prelude.{◌≡◌, ◌+◌, ◌<◌, ◌^◌, None, length, IfOk};
ghost use Rattle.std.specs.List.{sum_by};
ghost use Rattle.hwp_check_rules.specs.MarkFaults.{IsMisrequired};
ghost use Rattle.hwp_check_rules.specs.Standing.{entry_height, last_line, page_height};
ghost use Rattle.hwp_check_marks.specs.Needed.{differs, is_misneeded, is_misrequired};
ghost use Rattle.hwp_check_marks.specs.Walks.{IsLowest, walk_entries, walk_pages};

use crate::keys::{has_page, key_of};
use crate::kinds::Kind;
use crate::needed::needed_counts;
use crate::urgent::urgent_counts;
use hwp_check_frames::{Counts, count, said_of};
use hwp_check_rules::{
    Entry, List, OutOfMemory, Report, Script, Situation, What, Who, entries_height, entry_height,
    first_page_line, sooner_if,
};
use std::alloc::Global;

/// Whether not as many failures of the command needed the page as event lines ask.
fn differs(needed: &Counts, urgent: &Counts, who: Who, situation: Situation) -> bool
    ensures { result ≡ differs needed.now urgent.now who situation }
{
    let key = key_of(who, Kind::Failure(situation));
    count(needed, key) != count(urgent, key)
}

/// Whether the entry is a failure of such a command.
fn is_misneeded(needed: &Counts, urgent: &Counts, who: Who, what: &What) -> bool
    ensures { result ≡ is_misneeded needed.now urgent.now who what.now }
{
    match what {
        What::Fail { situation, .. } => {
            has_page(*situation) && differs(needed, urgent, who, *situation)
        }
        _ => false,
    }
}

/// The lowest line so far, and those of such entries of a page, the first of which is on the line.
fn walk_entries(
    needed: &Counts,
    urgent: &Counts,
    first: u64,
    found: Option<u64>,
    entries: &[Entry],
) -> Option<u64>
    requires room { first + sum_by entry_height entries.now < 2 ^ 64 }
    ensures { result ≡ walk_entries (is_misrequired needed.now urgent.now) (λ e line. line) first found entries.now }
{
    let mut lowest = found;
    let mut line = first;
    for entry in entries {
        let wrong = is_misneeded(needed, urgent, entry.who, &entry.what);
        lowest = sooner_if(wrong, lowest, line);
        line += entry_height(entry);
    }
    lowest
}

/// The lowest line of such entries of pages, the first of which has its heading on the line.
fn walk_pages(needed: &Counts, urgent: &Counts, first: u64, pages: &[List<Entry>]) -> Option<u64>
    requires room { first + sum_by page_height pages.now < 2 ^ 64 }
    ensures { result ≡ walk_pages (is_misrequired needed.now urgent.now) (λ e line. line) first None pages.now }
{
    let mut lowest = None;
    let mut line = first;
    for list in pages {
        let entries = list.as_slice();
        lowest = walk_entries(needed, urgent, line + 1, lowest, entries);
        line += 1 + entries_height(entries);
    }
    lowest
}

/// The first line of a failure of a command of which not as many failures needed the page as its event lines ask.
pub(crate) fn misrequired(
    alloc: Global,
    script: &Script,
    report: &Report,
) -> Result<Option<u64>, OutOfMemory>
    requires cpus { length report.now.cpus ≡ script.now.layout.cpus }
    requires frames { length report.now.frames ≡ script.now.layout.frames }
    requires room { last_line report.now < 2 ^ 64 }
    ensures { IfOk result (λ found. IsLowest (IsMisrequired report.now) found) }
{
    let pages = report.pages.as_slice();
    let needed = needed_counts(alloc, pages)?;
    let said = said_of(alloc, script.layout.cpus, report)?;
    let frames = report.frames.as_slice();
    let urgent = urgent_counts(alloc, &said.rows, script.layout.frames, frames)?;
    Ok(walk_pages(&needed, &urgent, first_page_line(report), pages))
}
