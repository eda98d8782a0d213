ghost use Rattle.std.specs.Prelude.{◌≡◌, ◌<◌, ◌≤◌, ◌^◌, false, None, Ok, Some, IfOk, MatchOption, length};
ghost use Rattle.hwp_check_rules.specs.hwp_check_event_line.Scripts.{IsDeclared};
ghost use Rattle.hwp_check_rules.specs.hwp_law.Private.{ArePrivate};
ghost use Rattle.hwp_check_rules.specs.hwp_law.Commands.{has_fork};
ghost use Rattle.hwp_check_rules.specs.AnswerFaults.{IsPrivateFault};
ghost use Rattle.hwp_check_rules.specs.Firsts.{IsLeast};
ghost use Rattle.hwp_check_rules.specs.Standing.{last_line};
ghost use Rattle.hwp_check_processes.specs.Loads.{AreKeptOn, IsFirstOn};

use crate::loads::first_wrong;
use hwp_check_rules::{
    Cpu, OutOfMemory, Report, Script, commands_of, has_fork, pairs_of, row_at, rows_on,
};
use std::alloc::Global;

/// The first line of a processor that answers a load by a word that isn't private.
fn fault_on(
    alloc: Global,
    script: &Script,
    report: &Report,
    cpu: Cpu,
) -> Result<Option<u64>, OutOfMemory>
    requires room { last_line report.now < 2 ^ 64 }
    requires of_script { cpu.0 < length script.now.lists }
    requires of_report { cpu.0 < length report.now.cpus }
    ensures { IfOk result (λ found. MatchOption found (AreKeptOn script.now report.now cpu) (IsFirstOn script.now report.now cpu)) }
{
    let commands = commands_of(script, cpu);
    let rows = rows_on(report, cpu);
    let pairs = pairs_of(alloc, commands, rows)?;
    match first_wrong(
        &script.layout,
        report,
        cpu,
        commands,
        rows,
        pairs.as_slice(),
    ) {
        Some(row) => Ok(Some(row_at(report, cpu, row))),
        None => Ok(None),
    }
}

/// The first line of a report that answers a load by a word that isn't private, if one does.
fn first_fault(alloc: Global, script: &Script, report: &Report) -> Result<Option<u64>, OutOfMemory>
    requires few { length script.now.lists ≤ 256 }
    requires room { last_line report.now < 2 ^ 64 }
    ensures { IfOk result (λ found. MatchOption found (ArePrivate script.now report.now) (IsLeast (IsPrivateFault script.now report.now))) }
{
    for number in 0..script.lists.len().min(report.cpus.len()) {
        let found = fault_on(alloc, script, report, Cpu(number as u8))?;
        if let Some(line) = found {
            return Ok(Some(line));
        }
    }
    Ok(None)
}

/// Whether each load through a frozen translation was answered by the word of a full copy at the fork; else the first line of a report
/// that answers one by another. It takes no memory where no process forks.
pub fn private_fault(
    alloc: Global,
    script: &Script,
    report: &Report,
) -> Result<Option<u64>, OutOfMemory>
    requires valid { IsDeclared script.now }
    requires room { last_line report.now < 2 ^ 64 }
    ensures judged { IfOk result (λ found. MatchOption found (ArePrivate script.now report.now) (IsLeast (IsPrivateFault script.now report.now))) }
    ensures unforked { has_fork script.now ≡ false → result ≡ Ok None }
{
    if has_fork(script) {
        first_fault(alloc, script, report)
    } else {
        Ok(None)
    }
}
