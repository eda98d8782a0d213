ghost use Rattle.std.specs.Prelude.{IfOk, MatchOption};
ghost use Rattle.hwp_check_rules.specs.hwp_check_event_line.Scripts.{IsDeclared};
ghost use Rattle.hwp_check_rules.specs.Rules.{ShapeFits, LossesFit, AreAllAnswered};
ghost use Rattle.hwp_check_state.specs.Lost.{AreLosses};
ghost use Rattle.hwp_check_state.specs.Handles.{IsFirstLost, IsFirstTold};
ghost use Rattle.hwp_check_rules.specs.Firsts.{IsFirstFault};
ghost use Rattle.hwp_check_rules.specs.Faults.{IsLossFault};

use crate::lost::{Loss, lost, sorted_losses};
use crate::told::told_fault;
use hwp_check_rules::{
    Cpu, FileNo, OutOfMemory, Report, Script, commands_of, rows_on, sooner_if, soonest,
};
use std::alloc::Global;

/// The line of the first file that has another number of losses than the report says.
fn lost_fault(script: &Script, report: &Report, list: &[Loss]) -> Option<u64>
    requires losses { AreLosses script.now report.now list.now }
    requires shape { ShapeFits script.now report.now }
    ensures { IsFirstLost script.now report.now result }
{
    let files = report.files.as_slice();
    let mut found = None;
    for file in 0..script.layout.files {
        let wrong = files[usize::from(file)] != lost(script, report, list, FileNo(file));
        found = sooner_if(wrong, found, 4 + u64::from(file));
    }
    found
}

/// The line of the first file of which some processor was told a wrong number.
fn all_told_fault(
    alloc: Global,
    script: &Script,
    report: &Report,
    list: &[Loss],
) -> Result<Option<u64>, OutOfMemory>
    requires valid { IsDeclared script.now }
    requires losses { AreLosses script.now report.now list.now }
    requires shape { ShapeFits script.now report.now }
    requires answers { AreAllAnswered script.now report.now }
    ensures { IfOk result (λ found. IsFirstTold script.now report.now found) }
{
    let mut found = None;
    for number in 0..script.layout.cpus {
        let cpu = Cpu(number);
        let told = told_fault(
            alloc,
            script,
            report,
            list,
            cpu,
            commands_of(script, cpu),
            rows_on(report, cpu),
        )?;
        found = soonest(found, told);
    }
    Ok(found)
}

/// Whether each file has as many losses as the report says, and processors were told right numbers of them; else the line of the
/// first file that breaks this.
pub fn losses_fault(
    alloc: Global,
    script: &Script,
    report: &Report,
) -> Result<Option<u64>, OutOfMemory>
    requires valid { IsDeclared script.now }
    requires shape { ShapeFits script.now report.now }
    requires answers { AreAllAnswered script.now report.now }
    ensures { IfOk result (λ found. MatchOption found (LossesFit script.now report.now) (IsFirstFault (LossesFit script.now report.now) (IsLossFault script.now report.now))) }
{
    let list = sorted_losses(alloc, script, report)?;
    let lost = lost_fault(script, report, list.as_slice());
    let told = all_told_fault(alloc, script, report, list.as_slice())?;
    Ok(soonest(lost, told))
}
