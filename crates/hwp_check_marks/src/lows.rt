ghost use Rattle.std.specs.Prelude.{◌≡◌, ◌&&◌, ℕ, cond, not, is_some, length, IfOk, OnOk, Some};
ghost use Rattle.hwp_check_rules.specs.hwp_law.Records.{is_moved, result_of};
ghost use Rattle.hwp_check_rules.specs.hwp_report_text.Offlines.{offline_answer};
ghost use Rattle.hwp_check_rules.specs.MarkFaults.{lower, lowest_said};
ghost use Rattle.hwp_check_frames.specs.Counts.{is_pair};
ghost use Rattle.hwp_check_marks.specs.Lows.{AreHomes, AreLows, low_at, row_low, rows_low};

use hwp_check_frames::{is_result, marking};
use hwp_check_rules::{Acted, Cpu, CpuLine, OfflineResult, OutOfMemory, Report, Who, rows_on};
use std::alloc::Global;
use std::collections::HashMap;

/// For commands, by processor and number: the lowest frame that its lines name.
pub(crate) type Lows = HashMap<(u8, u32), u64>;

/// The lowest frames that the lines of commands name.
#[derive(Drop)]
pub(crate) struct Homes {
    /// For their failures: by event lines with a result.
    pub failures: Lows,
    /// For their soft offlines: by lines beside answers that say that the content moved.
    pub softs: Lows,
}

/// The lowest frame of a command.
fn low_of(lows: &Lows, key: (u8, u32)) -> Option<u64>
    ensures { result ≡ low_at lows.now key }
{
    lows.get(&key).copied()
}

/// The lowest frame that the command's lines name for its failures, or for its soft offlines.
pub(crate) fn lowest_said(report: &Report, homes: &Homes, who: Who, soft: bool) -> Option<u64>
    requires { AreHomes report.now homes.now }
    ensures { result ≡ lowest_said soft report.now who }
{
    let _report = report;
    let key = (who.cpu.0, who.seq);
    if soft {
        low_of(&homes.softs, key)
    } else {
        low_of(&homes.failures, key)
    }
}

/// Makes the lowest frame of a command lower, if this one is.
fn lower(lows: &mut Lows, key: (u8, u32), frame: u64) -> Result<(), OutOfMemory>
    ensures { OnOk result ((q : ℕ × ℕ) → low_at lows.new q ≡ cond (is_pair key q) (Some (lower frame (low_at lows.old key))) (low_at lows.old q)) }
{
    let low = match low_of(lows, key) {
        Some(before) => frame.min(before),
        None => frame,
    };
    lows.insert(key, low)?;
    Ok(())
}

/// Whether an event line names its frame.
fn names_failure(soft: bool, acted: Acted) -> bool
    ensures { result ≡ (not soft && is_some (result_of acted)) }
{
    !soft && is_result(acted)
}

/// Whether the content moved.
fn is_moved(came: OfflineResult) -> bool
    ensures { result ≡ is_moved (Some (offline_answer came)) }
{
    matches!(marking(came), Some(true))
}

/// Whether a line beside an answer names its frame.
fn names_soft(soft: bool, came: OfflineResult) -> bool
    ensures { result ≡ (soft && is_moved (Some (offline_answer came))) }
{
    soft && is_moved(came)
}

/// Notes a line of the processor.
fn lower_row(lows: &mut Lows, soft: bool, cpu: u8, row: &CpuLine) -> Result<(), OutOfMemory>
    ensures { OnOk result ((q : ℕ × ℕ) → low_at lows.new q ≡ row_low soft cpu q (low_at lows.old q) row.now) }
{
    match *row {
        CpuLine::Event(event) => {
            if names_failure(soft, event.acted) {
                lower(lows, (cpu, event.seq), event.addr / 4096)
            } else {
                Ok(())
            }
        }
        CpuLine::Offlined(line) => {
            if names_soft(soft, line.result) {
                lower(lows, (cpu, line.seq), u64::from(line.frame.0))
            } else {
                Ok(())
            }
        }
        CpuLine::Guest(_) | CpuLine::Answer { .. } => Ok(()),
    }
}

/// Notes the lines of the processor.
fn lower_rows(lows: &mut Lows, soft: bool, cpu: u8, rows: &[CpuLine]) -> Result<(), OutOfMemory>
    ensures { OnOk result ((q : ℕ × ℕ) → low_at lows.new q ≡ rows_low soft cpu q (low_at lows.old q) rows.now) }
{
    for row in rows {
        lower_row(lows, soft, cpu, row)?;
    }
    Ok(())
}

/// The lowest frame of each command, for its failures or for its soft offlines.
fn lows_of(alloc: Global, cpus: u8, report: &Report, soft: bool) -> Result<Lows, OutOfMemory>
    requires each { length report.now.cpus ≡ cpus }
    ensures { IfOk result (λ lows. AreLows soft report.now lows) }
{
    let mut lows = HashMap::new(alloc);
    for cpu in 0..cpus {
        lower_rows(&mut lows, soft, cpu, rows_on(report, Cpu(cpu)))?;
    }
    Ok(lows)
}

/// The lowest frames of each command.
pub(crate) fn homes_of(alloc: Global, cpus: u8, report: &Report) -> Result<Homes, OutOfMemory>
    requires each { length report.now.cpus ≡ cpus }
    ensures { IfOk result (λ homes. AreHomes report.now homes) }
{
    let failures = lows_of(alloc, cpus, report, false)?;
    let softs = lows_of(alloc, cpus, report, true)?;
    Ok(Homes { failures, softs })
}
