ghost use Rattle.std.specs.Prelude.{◌≡◌, ◌++◌, map, IfOk, OnOk};
ghost use Rattle.hwp_law_served.specs.Rows.{end_lines, event_line, guest_at, lines_from, offlined_line, row_lines};
ghost use Rattle.hwp_top_report.specs.Closing.{AreTellable, IsTellable, lines_of_all};

use hwp_cpu_row::{
    Answer, CpuLine, EventLine, EventOutcome, GuestLine, List, OfflinedLine, Offlining,
    OutOfMemory, Row,
};
use std::alloc::Global;

/// The lines of all processors.
pub(crate) fn all_lines(
    alloc: Global,
    rows: &[List<Row>],
) -> Result<List<List<CpuLine>>, OutOfMemory>
    requires tellable { AreTellable rows.now }
    ensures { IfOk result (λ cpus. cpus ≡ lines_of_all rows.now) }
{
    let mut cpus = Vec::with_capacity(alloc, rows.len())?;
    for cpu in 0..rows.len() {
        cpus.push(lines_of(alloc, rows[cpu].as_slice())?)?;
    }
    Ok(List::from_vec(cpus))
}

/// The lines of a processor: for each command its events, the frames that were taken out of use beside it, the machine check
/// of a guest, and then its answer.
fn lines_of(alloc: Global, rows: &[Row]) -> Result<List<CpuLine>, OutOfMemory>
    requires tellable { IsTellable rows.now }
    ensures { IfOk result (λ lines. lines ≡ lines_from 0 rows.now) }
{
    let mut lines = Vec::new(alloc);
    for number in 0..rows.len() {
        add_row(&mut lines, number as u32, &rows[number])?;
    }
    Ok(List::from_vec(lines))
}

/// Adds the lines of a command with this number.
fn add_row(lines: &mut Vec<CpuLine>, seq: u32, row: &Row) -> Result<(), OutOfMemory>
    ensures { OnOk result (lines.new.items ≡ lines.old.items ++ row_lines seq row.now) }
{
    add_events(lines, seq, row.told.as_slice())?;
    add_offlined(lines, seq, row.offlined.as_slice())?;
    add_end(lines, seq, row.guest, row.answer)
}

/// Adds the line of a guest's machine check, if there was one, and that of the answer.
fn add_end(
    lines: &mut Vec<CpuLine>,
    seq: u32,
    guest: Option<GuestLine>,
    answer: Answer,
) -> Result<(), OutOfMemory>
    ensures { OnOk result (lines.new.items ≡ lines.old.items ++ end_lines seq guest answer) }
{
    if let Some(line) = guest {
        lines.push(CpuLine::Guest(guest_at(seq, line)))?;
    }
    lines.push(CpuLine::Answer { seq, answer })?;
    Ok(())
}

/// The line with this number.
fn guest_at(seq: u32, line: GuestLine) -> GuestLine
    ensures { result ≡ guest_at seq line }
{
    GuestLine { seq, ..line }
}

/// Adds a line for each event.
fn add_events(lines: &mut Vec<CpuLine>, seq: u32, told: &[EventOutcome]) -> Result<(), OutOfMemory>
    ensures { OnOk result (lines.new.items ≡ lines.old.items ++ map (event_line seq) told.now) }
{
    for event in told {
        lines.push(event_line(seq, event))?;
    }
    Ok(())
}

/// Adds a line for each frame that was taken out of use.
fn add_offlined(
    lines: &mut Vec<CpuLine>,
    seq: u32,
    offlined: &[Offlining],
) -> Result<(), OutOfMemory>
    ensures { OnOk result (lines.new.items ≡ lines.old.items ++ map (offlined_line seq) offlined.now) }
{
    for offlining in offlined {
        lines.push(offlined_line(seq, offlining))?;
    }
    Ok(())
}

/// The line of a frame that was taken out of use: what came of it.
fn offlined_line(seq: u32, offlining: &Offlining) -> CpuLine
    ensures { result ≡ offlined_line seq offlining.now }
{
    CpuLine::Offlined(OfflinedLine {
        seq,
        frame: offlining.frame,
        result: offlining.result,
    })
}

/// The line of an event: what its bank held, the row that graded it, and what was done.
fn event_line(seq: u32, told: &EventOutcome) -> CpuLine
    ensures { result ≡ event_line seq told.now }
{
    CpuLine::Event(EventLine {
        seq,
        bank: told.held.bank,
        status: told.held.event.status.0,
        addr: told.held.event.addr,
        misc: told.held.event.misc,
        row: told.held.grade.row,
        acted: told.acted,
    })
}
