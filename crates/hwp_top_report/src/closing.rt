ghost use Rattle.std.specs.Prelude.{◌≡◌, IfOk};
ghost use Rattle.hwp_plain.specs.hwp_core_rule.declared.State.{State};
ghost use Rattle.hwp_plain.specs.hwp_core_rule.Words.{words_of};
ghost use Rattle.hwp_top_report.specs.Closing.{AreWordsOf, IsClosing, IsOutcome};

use crate::frames::{frame_lines, poisoned_frames};
use crate::lines::all_lines;
use crate::notes::all_notes;
use crate::stopping::stop_of;
use crate::words::word;
use hwp_cpu_row::{Command, Entry, FileNo, Layout, List, OutOfMemory, Report, Row, SharedWord};
use std::alloc::Global;

/// The report of a run: of the words, in the frame rule's order, and the pages' histories of the board on which it ends, and of the
/// rows of its processors, which ran these commands. Its version is that of the script.
pub fn report(
    alloc: Global,
    layout: &Layout,
    words: &[u64],
    pages: List<List<Entry>>,
    lists: &[List<Command>],
    rows: &[List<Row>],
) -> Result<Report, OutOfMemory>
    requires ended { (s : State) × IsOutcome layout.now words.now pages lists.now rows.now s }
    ensures { IfOk result (λ report. (s : State) → IsOutcome layout.now words.now pages lists.now rows.now s → IsClosing layout.now s lists.now rows.now report) }
{
    let notes = all_notes(alloc, rows)?;
    let frames = frame_lines(alloc, layout, words, notes.as_slice())?;
    let files = file_losses(alloc, layout, words)?;
    let count = poisoned_frames(layout, words);
    let stop = stop_of(word(layout, words, SharedWord::Stop), lists, rows);
    let cpus = all_lines(alloc, rows)?;
    Ok(Report {
        version: layout.version,
        stop,
        count,
        files,
        frames,
        pages,
        cpus,
    })
}

/// For each file, how many losses there were.
fn file_losses(alloc: Global, layout: &Layout, words: &[u64]) -> Result<List<u64>, OutOfMemory>
    requires whole { AreWordsOf layout.now words.now }
    ensures { IfOk result (λ files. files ≡ (words_of layout.now words.now).losses) }
{
    let mut files = Vec::new(alloc);
    for file in 0..layout.files {
        files.push(word(layout, words, SharedWord::Loss(FileNo(file))))?;
    }
    Ok(List::from_vec(files))
}
