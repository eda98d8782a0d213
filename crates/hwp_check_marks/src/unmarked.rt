ghost use Rattle.std.specs.Prelude.{◌≡◌, ◌<◌, ◌^◌, IfOk, None, length};
ghost use Rattle.hwp_check_rules.specs.MarkFaults.{IsSoftBeyond};
ghost use Rattle.hwp_check_rules.specs.Standing.{last_line};
ghost use Rattle.hwp_check_frames.specs.Index.{IsIndex};
ghost use Rattle.hwp_check_marks.specs.Unmarked.{frame_told, is_unmarked, lowest_row};
ghost use Rattle.hwp_check_marks.specs.Walks.{IsLowest};

use crate::lacking::line_of;
use crate::spots::spots_of;
use hwp_check_frames::{Counts, Index, count, marking, soft_lines, spot_of};
use hwp_check_rules::{Cpu, CpuLine, OutOfMemory, Report, Script, Who, rows_on, sooner_if};
use std::alloc::Global;

/// Whether the line tells of a soft offline, and its command has fewer marks of such in the frame than lines that say so.
fn is_unmarked(
    script: &Script,
    report: &Report,
    index: &Index,
    marks: &Counts,
    cpu: u8,
    row: &CpuLine,
) -> bool
    requires index { IsIndex report.now index.now }
    ensures { result ≡ is_unmarked script.now report.now marks.now cpu row.now }
{
    match *row {
        CpuLine::Offlined(line) => match marking(line.result) {
            Some(moved) => {
                let who = Who {
                    cpu: Cpu(cpu),
                    seq: line.seq,
                };
                let lines = soft_lines(script, report, index, who, line.frame, moved);
                count(marks, spot_of(who, line.frame, moved)) < lines
            }
            None => false,
        },
        CpuLine::Event(_) | CpuLine::Guest(_) | CpuLine::Answer { .. } => false,
    }
}

/// The frame that a line beside an answer tells of.
fn frame_told(row: &CpuLine) -> u64
    ensures { result ≡ frame_told row.now }
{
    match *row {
        CpuLine::Offlined(line) => u64::from(line.frame.0),
        CpuLine::Event(_) | CpuLine::Guest(_) | CpuLine::Answer { .. } => 0,
    }
}

/// The lowest frame so far, and those of such lines of the processor.
fn lower_rows(
    script: &Script,
    report: &Report,
    index: &Index,
    marks: &Counts,
    cpu: u8,
    found: Option<u64>,
    rows: &[CpuLine],
) -> Option<u64>
    requires index { IsIndex report.now index.now }
    ensures { result ≡ lowest_row (is_unmarked script.now report.now marks.now cpu) found rows.now }
{
    let mut lowest = found;
    for row in rows {
        let lacks = is_unmarked(script, report, index, marks, cpu, row);
        lowest = sooner_if(lacks, lowest, frame_told(row));
    }
    lowest
}

/// The first line of a frame in which a command has fewer marks of soft offlines than lines that say so, one of them beside its answer.
pub(crate) fn unmarked(
    alloc: Global,
    script: &Script,
    report: &Report,
    index: &Index,
) -> Result<Option<u64>, OutOfMemory>
    requires index { IsIndex report.now index.now }
    requires cpus { length report.now.cpus ≡ script.now.layout.cpus }
    requires frames { length report.now.frames ≡ script.now.layout.frames }
    requires room { last_line report.now < 2 ^ 64 }
    ensures { IfOk result (λ found. IsLowest (IsSoftBeyond script.now report.now) found) }
{
    let marks = spots_of(
        alloc,
        &index.beside,
        script.layout.frames,
        report.frames.as_slice(),
    )?;
    let mut lowest = None;
    for cpu in 0..script.layout.cpus {
        let rows = rows_on(report, Cpu(cpu));
        lowest = lower_rows(script, report, index, &marks, cpu, lowest, rows);
    }
    match lowest {
        Some(home) => Ok(Some(line_of(report, home))),
        None => Ok(None),
    }
}
