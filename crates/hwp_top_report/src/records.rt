ghost use Rattle.std.specs.Prelude.{◌≡◌, [], replicate, IfOk, OnOk};
ghost use Rattle.hwp_law_served.specs.Runs.{AreSorted, place_in};
ghost use Rattle.hwp_top_report.specs.Records.{AreGathered, GoOn, with_note};

use hwp_cpu_row::{Frame, List, MarkLine, OutOfMemory};
use std::alloc::Global;

/// So many empty records.
fn empty_records(alloc: Global, count: usize) -> Result<Vec<List<MarkLine>>, OutOfMemory>
    ensures { IfOk result (λ records. records.items ≡ replicate count []) }
{
    let mut records = Vec::new(alloc);
    for number in 0..count {
        let _frame = number;
        records.push(List::new(alloc))?;
    }
    Ok(records)
}

/// Adds a line to the record of its frame, if there is such a frame.
fn add(records: &mut Vec<List<MarkLine>>, note: (Frame, MarkLine)) -> Result<(), OutOfMemory>
    ensures { OnOk result (records.new.items ≡ with_note note records.old.items) }
{
    let at = note.0.0 as usize;
    if at < records.len() {
        records[at].push(note.1)?;
    }
    Ok(())
}

/// Adds the lines that a processor noted to the records of their frames.
fn add_all(records: &mut Vec<List<MarkLine>>, own: &[(Frame, MarkLine)]) -> Result<(), OutOfMemory>
    ensures { OnOk result (GoOn own.now records.old.items records.new.items) }
{
    for place in 0..own.len() {
        add(records, own[place])?;
    }
    Ok(())
}

/// The record of each frame: the lines that processors noted of it.
pub(crate) fn gather(
    alloc: Global,
    count: usize,
    notes: &[List<(Frame, MarkLine)>],
) -> Result<Vec<List<MarkLine>>, OutOfMemory>
    ensures { IfOk result (λ records. AreGathered notes.now count records.items) }
{
    let mut records = empty_records(alloc, count)?;
    for cpu in 0..notes.len() {
        add_all(&mut records, notes[cpu].as_slice())?;
    }
    Ok(records)
}

/// The lines of a record in the order of their places.
pub(crate) fn ordered(
    alloc: Global,
    gathered: &List<MarkLine>,
) -> Result<List<MarkLine>, OutOfMemory>
    ensures { IfOk result (λ list. AreSorted gathered.now list) }
{
    let copied = gathered.copy(alloc)?;
    let mut lines = copied.into_vec();
    lines.sort_unstable_by_key(|line| place_in(line));
    Ok(List::from_vec(lines))
}

/// The place of a line in its frame's record: each cycle begins with a poisoning.
fn place_in(line: &MarkLine) -> u64
    ensures { result ≡ place_in line.now }
{
    match *line {
        MarkLine::Poisoned { cycle, .. } => 2 * u64::from(cycle),
        MarkLine::Unpoisoned { cycle, .. } => 2 * u64::from(cycle) + 1,
    }
}
