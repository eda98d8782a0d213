ghost use Rattle.std.specs.Prelude.{◌≡◌, fold, true, slice_set, IfOk};
ghost use Rattle.hwp_check_processes.specs.Busy.{busy_by, guest_by, guests_by, marked_by, marked_in, told_by};

use hwp_check_rules::{Cpu, CpuLine, Entry, List, OutOfMemory, Report};
use std::alloc::Global;

/// Flags the command with the number.
fn mark(flags: &mut Vec<bool>, seq: u32)
    ensures { flags.new.items ≡ slice_set flags.old.items seq true }
{
    let at = seq as usize;
    if at < flags.len() {
        flags[at] = true;
    }
}

/// Flags the command of an entry, if it is one of the processor.
fn mark_entry(flags: &mut Vec<bool>, cpu: Cpu, entry: &Entry)
    ensures { flags.new.items ≡ marked_by cpu flags.old.items entry.now }
{
    if entry.who.cpu.0 == cpu.0 {
        mark(flags, entry.who.seq);
    }
}

/// The same of some entries.
fn mark_entries(flags: &mut Vec<bool>, cpu: Cpu, entries: &[Entry])
    ensures { flags.new.items ≡ marked_in cpu flags.old.items entries.now }
{
    for entry in entries {
        mark_entry(flags, cpu, entry);
    }
}

/// The same of all entries of a report.
fn mark_pages(flags: &mut Vec<bool>, cpu: Cpu, pages: &[List<Entry>])
    ensures { flags.new.items ≡ fold (marked_in cpu) flags.old.items pages.now }
{
    for page in pages {
        mark_entries(flags, cpu, page.as_slice());
    }
}

/// Flags the command of an event line.
fn mark_row(flags: &mut Vec<bool>, row: &CpuLine)
    ensures { flags.new.items ≡ told_by flags.old.items row.now }
{
    match row {
        CpuLine::Event(event) => mark(flags, event.seq),
        CpuLine::Offlined(_) | CpuLine::Guest(_) | CpuLine::Answer { .. } => {}
    }
}

/// The same of the event lines of a processor.
fn mark_rows(flags: &mut Vec<bool>, rows: &[CpuLine])
    ensures { flags.new.items ≡ fold told_by flags.old.items rows.now }
{
    for row in rows {
        mark_row(flags, row);
    }
}

/// Which of so many commands of a processor have an entry or an event line.
pub(crate) fn busy(
    alloc: Global,
    report: &Report,
    cpu: Cpu,
    commands: usize,
    rows: &[CpuLine],
) -> Result<Vec<bool>, OutOfMemory>
    ensures { IfOk result (λ flags. flags.items ≡ busy_by report.now cpu commands rows.now) }
{
    let mut flags = vec![in alloc; false; commands]?;
    mark_pages(&mut flags, cpu, report.pages.as_slice());
    mark_rows(&mut flags, rows);
    Ok(flags)
}

/// Flags the command of a guest's line.
fn mark_guest(flags: &mut Vec<bool>, row: &CpuLine)
    ensures { flags.new.items ≡ guest_by flags.old.items row.now }
{
    match row {
        CpuLine::Guest(line) => mark(flags, line.seq),
        CpuLine::Event(_) | CpuLine::Offlined(_) | CpuLine::Answer { .. } => {}
    }
}

/// The same of the guests' lines of a processor.
fn mark_guests(flags: &mut Vec<bool>, rows: &[CpuLine])
    ensures { flags.new.items ≡ fold guest_by flags.old.items rows.now }
{
    for row in rows {
        mark_guest(flags, row);
    }
}

/// Which of so many commands of a processor have a guest's line.
pub(crate) fn with_guests(
    alloc: Global,
    commands: usize,
    rows: &[CpuLine],
) -> Result<Vec<bool>, OutOfMemory>
    ensures { IfOk result (λ told. told.items ≡ guests_by commands rows.now) }
{
    let mut told = vec![in alloc; false; commands]?;
    mark_guests(&mut told, rows);
    Ok(told)
}
