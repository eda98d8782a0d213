ghost use Rattle.std.specs.Prelude.{◌≡◌, ◌<◌, ◌^◌, None, length, IfOk};
ghost use Rattle.hwp_check_rules.specs.MarkFaults.{IsMarkLacking, home_of};
ghost use Rattle.hwp_check_rules.specs.Standing.{frame_line, last_line};
ghost use Rattle.hwp_check_rules.specs.hwp_law.Pairings.{is_soft};
ghost use Rattle.hwp_check_marks.specs.Lacking.{entry_home, has_fewer, is_lacking, kind_asked, lowest_entry, lowest_in};
ghost use Rattle.hwp_check_marks.specs.Lows.{AreHomes};
ghost use Rattle.hwp_check_marks.specs.Walks.{IsLowest};

use crate::keys::{has_page, key_of};
use crate::kinds::Kind;
use crate::lows::{Homes, homes_of, lowest_said};
use crate::tallies::{entry_counts, mark_counts};
use hwp_check_frames::{Counts, count};
use hwp_check_rules::{
    Command, Entry, List, OutOfMemory, Report, Script, What, Who, command_of, frame_at, sooner_if,
};
use std::alloc::Global;

/// The kind of marks that an entry asks for.
fn kind_asked(what: &What) -> Option<Kind>
    ensures { result ≡ kind_asked what.now }
{
    match what {
        What::Fail { situation, .. } => {
            if has_page(*situation) {
                Some(Kind::Failure(*situation))
            } else {
                None
            }
        }
        What::Soft => Some(Kind::Moved),
        _ => None,
    }
}

/// Whether the command has fewer marks of the kind than entries.
fn has_fewer(asked: &Counts, had: &Counts, who: Who, kind: Option<Kind>) -> bool
    ensures { result ≡ has_fewer asked.now had.now who kind }
{
    match kind {
        Some(kind) => {
            let key = key_of(who, kind);
            count(had, key) < count(asked, key)
        }
        None => false,
    }
}

/// The frame that a command's failures, or its soft offlines, are of.
fn home_of(script: &Script, report: &Report, homes: &Homes, who: Who, soft: bool) -> u64
    requires homes { AreHomes report.now homes.now }
    ensures { result ≡ home_of script.now report.now who soft }
{
    match command_of(script, who) {
        Some(Command::Inject { frame } | Command::Soft { frame }) => u64::from(frame.0),
        _ => lowest_said(report, homes, who, soft).unwrap_or(0),
    }
}

/// Whether the entry is a soft offline.
fn is_soft(what: &What) -> bool
    ensures { result ≡ is_soft what.now }
{
    matches!(what, What::Soft)
}

/// The lowest frame so far, and those of a page's entries that have not the marks that they ask for.
fn lowest_entry(
    script: &Script,
    report: &Report,
    asked: &Counts,
    had: &Counts,
    homes: &Homes,
    found: Option<u64>,
    entries: &[Entry],
) -> Option<u64>
    requires homes { AreHomes report.now homes.now }
    ensures { result ≡ lowest_entry (is_lacking asked.now had.now) (entry_home script.now report.now) found entries.now }
{
    let mut lowest = found;
    for entry in entries {
        let lacks = has_fewer(asked, had, entry.who, kind_asked(&entry.what));
        let home = home_of(script, report, homes, entry.who, is_soft(&entry.what));
        lowest = sooner_if(lacks, lowest, home);
    }
    lowest
}

/// The lowest frame of all entries that have not the marks that they ask for.
fn lowest_in(
    script: &Script,
    report: &Report,
    asked: &Counts,
    had: &Counts,
    homes: &Homes,
    pages: &[List<Entry>],
) -> Option<u64>
    requires homes { AreHomes report.now homes.now }
    ensures { result ≡ lowest_in (is_lacking asked.now had.now) (entry_home script.now report.now) None pages.now }
{
    let mut lowest = None;
    for entries in pages {
        lowest = lowest_entry(
            script,
            report,
            asked,
            had,
            homes,
            lowest,
            entries.as_slice(),
        );
    }
    lowest
}

/// The line of a frame, given its number; of a number that no frame has, the line behind the frames.
pub(crate) fn line_of(report: &Report, home: u64) -> u64
    requires room { last_line report.now < 2 ^ 64 }
    ensures { result ≡ frame_line report.now home }
{
    let frames = report.frames.len();
    let home = if home < frames as u64 {
        home as usize
    } else {
        frames
    };
    frame_at(report, home)
}

/// The first line of a frame to which a command belongs that has fewer marks than entries.
pub(crate) fn lacking(
    alloc: Global,
    script: &Script,
    report: &Report,
) -> Result<Option<u64>, OutOfMemory>
    requires cpus { length report.now.cpus ≡ script.now.layout.cpus }
    requires room { last_line report.now < 2 ^ 64 }
    ensures { IfOk result (λ found. IsLowest (IsMarkLacking script.now report.now) found) }
{
    let pages = report.pages.as_slice();
    let asked = entry_counts(alloc, pages)?;
    let had = mark_counts(alloc, report.frames.as_slice())?;
    let homes = homes_of(alloc, script.layout.cpus, report)?;
    match lowest_in(script, report, &asked, &had, &homes, pages) {
        Some(home) => Ok(Some(line_of(report, home))),
        None => Ok(None),
    }
}
