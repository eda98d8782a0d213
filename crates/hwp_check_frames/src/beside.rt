ghost use Rattle.std.specs.Prelude.{◌≡◌, ◌+◌, ◌<◌, ◌^◌, ℕ, IfOk, OnOk, length};
ghost use Rattle.hwp_check_rules.specs.Standing.{last_line};
ghost use Rattle.hwp_check_frames.specs.Beside.{AreBeside, marking, result_beside, row_beside, rows_beside, spot};
ghost use Rattle.hwp_check_frames.specs.Counts.{at_key};

use crate::counts::{Counts, Key, add};
use hwp_check_rules::{Cpu, CpuLine, Frame, OfflineResult, OutOfMemory, Report, Who, rows_on};
use std::alloc::Global;
use std::collections::HashMap;

/// What counts a command's soft offlines of the frame with this result: the content moved, or the frame was free.
pub fn spot_of(who: Who, frame: Frame, moved: bool) -> Key
    ensures { result ≡ spot who frame.0 moved }
{
    (
        (who.cpu.0, who.seq),
        u64::from(frame.0) * 2 + u64::from(moved),
    )
}

/// Whether the content moved, where the result leaves a mark; `None` for the other results.
pub fn marking(came: OfflineResult) -> Option<bool>
    ensures { result ≡ marking came }
{
    match came {
        OfflineResult::Moved(..) => Some(true),
        OfflineResult::TakenFree => Some(false),
        OfflineResult::Already
        | OfflineResult::HasBad(_)
        | OfflineResult::NoFrame
        | OfflineResult::Stopped => None,
    }
}

/// Counts what came of a frame, where that leaves a mark.
fn add_result(
    lines: &mut Counts,
    who: Who,
    frame: Frame,
    came: OfflineResult,
) -> Result<(), OutOfMemory>
    requires room { (q : (ℕ × ℕ) × ℕ) → at_key lines.old q + 1 < 2 ^ 64 }
    ensures { OnOk result ((q : (ℕ × ℕ) × ℕ) → at_key lines.new q ≡ at_key lines.old q + result_beside q who frame.0 came) }
{
    match marking(came) {
        Some(moved) => add(lines, spot_of(who, frame, moved)),
        None => Ok(()),
    }
}

/// Counts a line of the processor so.
fn add_row(lines: &mut Counts, cpu: u8, row: &CpuLine) -> Result<(), OutOfMemory>
    requires room { (q : (ℕ × ℕ) × ℕ) → at_key lines.old q + 1 < 2 ^ 64 }
    ensures { OnOk result ((q : (ℕ × ℕ) × ℕ) → at_key lines.new q ≡ at_key lines.old q + row_beside cpu q row.now) }
{
    match *row {
        CpuLine::Offlined(line) => {
            let who = Who {
                cpu: Cpu(cpu),
                seq: line.seq,
            };
            add_result(lines, who, line.frame, line.result)
        }
        CpuLine::Event(_) | CpuLine::Guest(_) | CpuLine::Answer { .. } => Ok(()),
    }
}

/// Counts the lines of the processor so.
fn add_rows(lines: &mut Counts, cpu: u8, rows: &[CpuLine]) -> Result<(), OutOfMemory>
    requires room { (q : (ℕ × ℕ) × ℕ) → at_key lines.old q + length rows.now + 1 < 2 ^ 64 }
    ensures { OnOk result ((q : (ℕ × ℕ) × ℕ) → at_key lines.new q ≡ at_key lines.old q + rows_beside cpu q rows.now) }
{
    for row in rows {
        add_row(lines, cpu, row)?;
    }
    Ok(())
}

/// How many lines of each command, beside its answer, say so of each frame.
pub(crate) fn lines_beside(alloc: Global, cpus: u8, report: &Report) -> Result<Counts, OutOfMemory>
    requires each { length report.now.cpus ≡ cpus }
    requires room { last_line report.now < 2 ^ 64 }
    ensures { IfOk result (λ lines. AreBeside report.now lines) }
{
    let mut lines = HashMap::new(alloc);
    for cpu in 0..cpus {
        add_rows(&mut lines, cpu, rows_on(report, Cpu(cpu)))?;
    }
    Ok(lines)
}
