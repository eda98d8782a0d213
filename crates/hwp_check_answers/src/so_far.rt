ghost use Rattle.std.specs.Prelude.{◌≡◌, IfOk, false, length, replicate};
ghost use Rattle.hwp_check_evidence.specs.Windows.{raised};
ghost use Rattle.hwp_check_answers.specs.Judging.{gone_after, gone_by, process_numbers};
ghost use Rattle.hwp_check_answers.specs.Walk.{AreSoFarAt};

use crate::judging::LinesSoFar;
use crate::processor::JudgedProcessor;
use hwp_check_causes::process_at;
use hwp_check_evidence::{no_floors, raise};
use hwp_check_rules::{Answer, Cpu, CpuLine, OutOfMemory, Proc, Script, Who};
use std::alloc::Global;

/// The numbers that a process can have.
const PROCESS_NUMBERS: usize = 256;

/// Flags the process, if there is one and the answer says that it had ended.
fn flag(gone: &mut Vec<bool>, process: Option<Proc>, answer: &Answer)
    requires { length gone.old.items ≡ process_numbers }
    ensures { gone.new.items ≡ gone_after gone.old.items process answer.now }
{
    if let Some(process) = process {
        if matches!(answer, Answer::Gone(_)) {
            gone[usize::from(process.0)] = true;
        }
    }
}

/// Flags the process of the line's command, if its answer says that it had ended.
fn flag_by(script: &Script, cpu: Cpu, gone: &mut Vec<bool>, row: &CpuLine)
    requires { length gone.old.items ≡ process_numbers }
    ensures { gone.new.items ≡ gone_by script.now cpu gone.old.items row.now }
{
    match row {
        CpuLine::Event(_) | CpuLine::Offlined(_) | CpuLine::Guest(_) => {}
        CpuLine::Answer { seq, answer } => {
            let who = Who { cpu, seq: *seq };
            flag(gone, process_at(script, who), answer);
        }
    }
}

/// Notes a line more.
pub(crate) fn note(processor: &JudgedProcessor<'_>, so_far: &mut LinesSoFar, row: &CpuLine)
    requires { length so_far.old.gone.items ≡ process_numbers }
    ensures floors { so_far.new.floors.items ≡ raised so_far.old.floors.items row.now }
    ensures gone { so_far.new.gone.items ≡ gone_by processor.now.script processor.now.cpu so_far.old.gone.items row.now }
{
    raise(&mut so_far.floors, row);
    flag_by(processor.script, processor.cpu, &mut so_far.gone, row);
}

/// Flags of so many processes, none set.
fn no_flags(alloc: Global, processes: usize) -> Result<Vec<bool>, OutOfMemory>
    ensures { IfOk result (λ flags. flags.items ≡ replicate processes false) }
{
    Ok(vec![in alloc; false; processes]?)
}

/// What is known before any line.
#[tactic(auto, using(crate::proofs::SoFarLaws::begins))]
pub(crate) fn begin(
    alloc: Global,
    processor: &JudgedProcessor<'_>,
) -> Result<LinesSoFar, OutOfMemory>
    ensures { IfOk result (λ so_far. AreSoFarAt processor.now 0 0 so_far) }
{
    let floors = no_floors(alloc, processor.report.pages.len())?;
    let gone = no_flags(alloc, PROCESS_NUMBERS)?;
    Ok(LinesSoFar { floors, gone })
}
