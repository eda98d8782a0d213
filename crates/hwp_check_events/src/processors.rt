ghost use Rattle.std.specs.Prelude.{◌≡◌, ◌≤◌, ◌<◌, ◌+◌, ◌*◌, ◌^◌, [], Some, length, slice_get, sum_by, All, IfOk};
ghost use Rattle.hwp_law.specs.hwp_report_text.declared.FrameLine.{FrameLine};
ghost use Rattle.hwp_check_event_line.specs.Reading.{copies_in};
ghost use Rattle.hwp_check_event_line.specs.Scripts.{IsDeclared};
ghost use Rattle.hwp_check_events.specs.Indexed.{all_checkers};
ghost use Rattle.hwp_check_events.specs.Walked.{IsProcessorJudged, IsTableOf};

use crate::indexed::IndexedProcessor;
use crate::misfits::Misfits;
use crate::walk::walk;
use hwp_check_event_line::{Traced, past_of, results_of};
use hwp_law::{Command, Cpu, List, OutOfMemory, Report, Script, VSlot, Who};
use std::alloc::Global;

/// A mask has 64 bits.
fn small(mask: u64)
    ensures { mask < 2 ^ 64 }
{
    let _mask = mask;
}

/// The masks of all frames have 64 bits.
pub fn small_masks(report: &Report)
    ensures { All (λ (l : FrameLine). (l.bad.0 < 2 ^ 64) × (l.weak.0 < 2 ^ 64)) report.now.frames }
{
    for line in report.frames.as_slice() {
        small(line.bad.0);
        small(line.weak.0);
    }
}

/// The table of marked lines before any command: two places for each frame, with no line.
fn empty_table(alloc: Global, frames: u16) -> Result<Vec<u8>, OutOfMemory>
    ensures { IfOk result (λ table. (length table.items ≡ 2 * frames) × IsTableOf [] table.items) }
{
    let mut table = Vec::new(alloc);
    table.resize(2 * usize::from(frames), 64)?;
    Ok(table)
}

/// What is wrong about the event lines of a processor with these commands, where so much is kept of the report for them.
fn kept_faults(
    alloc: Global,
    script: &Script,
    copies: &[List<Option<VSlot>>],
    report: &Traced<'_>,
    cpu: Cpu,
    commands: &[Command],
    checkers: &[Who],
) -> Result<Misfits, OutOfMemory>
    requires valid { IsDeclared script.now }
    requires frames { length report.now.frames ≤ 65536 }
    requires room { sum_by length report.now.pages + 1 < 2 ^ 64 }
    requires of_script { slice_get script.now.lists cpu.0 ≡ Some commands.now }
    requires checkers { checkers.now ≡ all_checkers report.now.pages }
    ensures { IfOk result (λ found. IsProcessorJudged script.now (copies_in copies.now) report.now cpu commands.now found) }
{
    small_masks(report.get());
    let processor = IndexedProcessor::new(alloc, script, copies, report, cpu, commands, checkers)?;
    let mut table = empty_table(alloc, script.layout.frames)?;
    Ok(walk(&processor, &mut table))
}

/// What is wrong about the event lines of a processor with these commands, by the machine checks that the histories show.
pub fn processor_faults(
    alloc: Global,
    script: &Script,
    copies: &[List<Option<VSlot>>],
    report: &Report,
    cpu: Cpu,
    commands: &[Command],
    checkers: &[Who],
) -> Result<Misfits, OutOfMemory>
    requires valid { IsDeclared script.now }
    requires frames { length report.now.frames ≤ 65536 }
    requires room { sum_by length report.now.pages + 1 < 2 ^ 64 }
    requires of_script { slice_get script.now.lists cpu.0 ≡ Some commands.now }
    requires checkers { checkers.now ≡ all_checkers report.now.pages }
    ensures { IfOk result (λ found. IsProcessorJudged script.now (copies_in copies.now) report.now cpu commands.now found) }
{
    let past = past_of(alloc, cpu, report.frames.as_slice())?;
    let results = results_of(alloc, cpu, report.frames.as_slice())?;
    let traced = Traced::new(cpu, report, &past, &results);
    kept_faults(alloc, script, copies, &traced, cpu, commands, checkers)
}
