ghost use Rattle.std.specs.Prelude.{◌≡◌, ◌+◌, ◌<◌, ◌^◌, IfOk, MatchOption, Some, length, slice_get};
ghost use Rattle.hwp_check_rules.specs.hwp_check_event_line.Scripts.{IsDeclared};
ghost use Rattle.hwp_check_rules.specs.Firsts.{IsLeast};
ghost use Rattle.hwp_check_rules.specs.Rules.{ShapeFits};
ghost use Rattle.hwp_check_rules.specs.Standing.{last_line};
ghost use Rattle.hwp_check_answers.specs.Offlining.{AreAllDue, AreAllOfflined, IsAnsweredIf, IsFirstOfflined, IsOfflinedLine};

use crate::events::line_of;
use crate::faults::offlined_faults;
use crate::placing::unanswered;
use hwp_check_rules::{Command, Cpu, CpuLine, OutOfMemory, Report, Script, cpu_at, watches};
use std::alloc::Global;

/// The number of a command that has no answer, on a processor that has a `watch`.
fn unanswered_if(
    alloc: Global,
    commands: &[Command],
    rows: &[CpuLine],
) -> Result<Option<usize>, OutOfMemory>
    ensures { IfOk result (λ found. IsAnsweredIf commands.now rows.now found) }
{
    if !watches(commands) {
        return Ok(None);
    }
    unanswered(alloc, commands, rows)
}

/// The first line of a processor, whose heading stands at `heading`, where its lines of frames taken out of use are wrong: the heading
/// where some lack, or where a command has no answer.
fn offlined_line(
    alloc: Global,
    script: &Script,
    report: &Report,
    cpu: Cpu,
    commands: &[Command],
    rows: &[CpuLine],
    heading: u64,
) -> Result<Option<u64>, OutOfMemory>
    requires valid { IsDeclared script.now }
    requires of_script { slice_get script.now.lists cpu.0 ≡ Some commands.now }
    requires of_report { slice_get report.now.cpus cpu.0 ≡ Some rows.now }
    requires room { heading + 1 + length rows.now < 2 ^ 64 }
    ensures { IfOk result (λ found. MatchOption found (AreAllDue script.now report.now cpu commands.now rows.now) (IsFirstOfflined script.now report.now cpu commands.now rows.now heading)) }
{
    let lacking = unanswered_if(alloc, commands, rows)?;
    match lacking {
        Some(_) => Ok(Some(heading)),
        None => {
            let found = offlined_faults(alloc, script, report, cpu, commands, rows)?;
            Ok(line_of(found, heading))
        }
    }
}

/// The first line of a report that tells a frame taken out of use which isn't due there, or the heading of a processor where such a line
/// lacks, or an answer.
pub(crate) fn offlined_lines(
    alloc: Global,
    script: &Script,
    report: &Report,
) -> Result<Option<u64>, OutOfMemory>
    requires valid { IsDeclared script.now }
    requires room { last_line report.now < 2 ^ 64 }
    requires shape { ShapeFits script.now report.now }
    ensures { IfOk result (λ found. MatchOption found (AreAllOfflined script.now report.now) (IsLeast (IsOfflinedLine script.now report.now))) }
{
    let mut line = cpu_at(report, 0);
    for cpu in 0..script.lists.len().min(report.cpus.len()) {
        let rows = report.cpus.as_slice()[cpu].as_slice();
        let commands = script.lists.as_slice()[cpu].as_slice();
        let found = offlined_line(alloc, script, report, Cpu(cpu as u8), commands, rows, line)?;
        if found.is_some() {
            return Ok(found);
        }
        line += 1 + rows.len() as u64;
    }
    Ok(None)
}
