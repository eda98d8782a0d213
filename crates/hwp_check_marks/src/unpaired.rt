ghost use Rattle.std.specs.Prelude.{◌≡◌, ◌+◌, ◌<◌, ◌^◌, [], length, IfOk, MatchOption, None};
ghost use Rattle.std.specs.List.{sum_by};
ghost use Rattle.hwp_check_marks.specs.Tallies.{CountEntries, CountMarks, is_over, is_reached, may_have};
ghost use Rattle.hwp_check_marks.specs.Unpaired.{AllFew, IsExtra, IsFirstExtra, NoneExtra};
ghost use Rattle.hwp_check_rules.specs.Standing.{frame_height, last_line};
ghost use Rattle.hwp_check_rules.specs.Firsts.{IsFirstFault, IsClear};

use crate::keys::{has_page, key_of};
use crate::kinds::Kind;
use crate::tallies::{add_mark, entry_counts};
use hwp_check_frames::{Counts, count};
use hwp_check_rules::{FrameLine, How, MarkLine, OutOfMemory, Report, Who};
use std::alloc::Global;
use std::collections::HashMap;

/// How many marks of the kind a command may have that has so many entries.
fn may_have(kind: Kind, entries: u64) -> u64
    ensures { result ≡ may_have kind entries }
{
    match kind {
        Kind::Failure(_) | Kind::Moved => entries,
        Kind::Commanded => 1,
    }
}

/// Whether the command has had as many marks of the kind as it may.
fn is_reached(entries: &Counts, had: &Counts, who: Who, kind: Kind) -> bool
    ensures { result ≡ is_reached entries.now had.now who kind }
{
    let key = key_of(who, kind);
    may_have(kind, count(entries, key)) <= count(had, key)
}

/// Whether the mark is one too many of its command.
fn is_over(entries: &Counts, had: &Counts, mark: &MarkLine) -> bool
    ensures { result ≡ is_over entries.now had.now mark.now }
{
    match *mark {
        MarkLine::Poisoned { who, how, .. } => match how {
            How::Failure {
                hardware,
                situation,
                ..
            } => {
                (has_page(situation) && is_reached(entries, had, who, Kind::Failure(situation)))
                    || (!hardware && is_reached(entries, had, who, Kind::Commanded))
            }
            How::Moved => is_reached(entries, had, who, Kind::Moved),
            How::TakenFree => false,
        },
        MarkLine::Unpoisoned { who, .. } => is_reached(entries, had, who, Kind::Commanded),
    }
}

/// The place of the first mark of a record, below these frames, that is one too many. The marks before it are counted.
fn first_extra(
    report: &Report,
    entries: &Counts,
    had: &mut Counts,
    above: &[FrameLine],
    marks: &[MarkLine],
) -> Result<Option<usize>, OutOfMemory>
    requires entries { CountEntries report.now.pages entries.now }
    requires had { CountMarks above.now [] had.old }
    requires small { sum_by frame_height above.now + length marks.now + 2 < 2 ^ 64 }
    ensures found { IfOk result (λ found. MatchOption found (NoneExtra report.now above.now marks.now (length marks.now)) (λ place. IsFirstExtra report.now above.now marks.now place)) }
    ensures counted { IfOk result (λ found. found ≡ None → CountMarks above.now marks.now had.new) }
{
    for (place, mark) in marks.iter().enumerate() {
        if is_over(entries, had, mark) {
            return Ok(Some(place));
        }
        add_mark(had, mark)?;
    }
    Ok(None)
}

/// The line of the first mark that is one too many of its command.
pub(crate) fn unpaired(alloc: Global, report: &Report) -> Result<Option<u64>, OutOfMemory>
    requires room { last_line report.now < 2 ^ 64 }
    ensures { IfOk result (λ found. MatchOption found (IsClear (AllFew report.now) (IsExtra report.now)) (λ line. IsFirstFault (AllFew report.now) (IsExtra report.now) line)) }
{
    let frames = report.frames.as_slice();
    let entries = entry_counts(alloc, report.pages.as_slice())?;
    let mut had = HashMap::new(alloc);
    let mut heading = 4 + report.files.len() as u64;
    for (number, frame) in frames.iter().enumerate() {
        let marks = frame.marks.as_slice();
        match first_extra(report, &entries, &mut had, &frames[..number], marks)? {
            Some(place) => return Ok(Some(heading + 1 + place as u64)),
            None => heading += 1 + marks.len() as u64,
        }
    }
    Ok(None)
}
