ghost use Rattle.std.specs.Prelude.{◌+◌, ◌<◌, ◌^◌, IfOk, MatchOption, length};
ghost use Rattle.hwp_check_rules.specs.hwp_check_event_line.Scripts.{IsDeclared};
ghost use Rattle.hwp_check_answers.specs.Sifting.{AreAllSound, IsCut, IsFirstAnswer};
ghost use Rattle.hwp_check_answers.specs.Walk.{AreGoodLines, AreSoundLines, IsFirstBadLine, IsUnsoundLine};
ghost use Rattle.hwp_check_rules.specs.Standing.{last_line};
ghost use Rattle.hwp_check_rules.specs.hwp_check_event_line.Reading.{copies_in};
ghost use Rattle.hwp_check_rules.specs.Rules.{ShapeFits, AreLegal};

use crate::placing::first_out;
use crate::processor::JudgedProcessor;
use crate::so_far::begin;
use crate::walk::first_bad;
use hwp_check_causes::known_of;
use hwp_check_rules::{
    Command, Cpu, CpuLine, List, OutOfMemory, Report, Script, VSlot, commands_of, cpu_at, rows_on,
};
use std::alloc::Global;

/// How many lines of a processor are in place.
#[tactic(auto, using(crate::proofs::SiftLaws::cut_none, crate::proofs::SiftLaws::cut_some))]
fn cut(commands: &[Command], rows: &[CpuLine]) -> usize
    ensures { IsCut commands.now rows.now result }
{
    match first_out(commands, rows) {
        Some(end) => end,
        None => rows.len(),
    }
}

/// The number of the first wrong answer among so many lines of a processor.
fn first_wrong(
    alloc: Global,
    processor: &JudgedProcessor<'_>,
    end: usize,
) -> Result<Option<usize>, OutOfMemory>
    requires { IsCut processor.now.commands processor.now.rows end }
    ensures { IfOk result (λ found. MatchOption found (AreGoodLines processor.now end) (IsFirstBadLine processor.now end)) }
{
    let start = begin(alloc, processor)?;
    Ok(first_bad(processor, end, start))
}

/// The line of the first wrong answer of a processor whose heading stands at `heading`, as far as its lines are in place.
fn unsound(
    alloc: Global,
    processor: &JudgedProcessor<'_>,
    heading: u64,
) -> Result<Option<u64>, OutOfMemory>
    requires { heading + 1 + length processor.now.rows < 2 ^ 64 }
    ensures { IfOk result (λ found. MatchOption found (AreSoundLines processor.now) (IsUnsoundLine processor.now heading)) }
{
    let end = cut(processor.commands, processor.rows);
    match first_wrong(alloc, processor, end)? {
        Some(row) => Ok(Some(heading + 1 + row as u64)),
        None => Ok(None),
    }
}

/// The line of the first wrong answer of a report, as far as lines are in place.
pub(crate) fn unsound_answers(
    alloc: Global,
    script: &Script,
    copies: &[List<Option<VSlot>>],
    report: &Report,
) -> Result<Option<u64>, OutOfMemory>
    requires valid { IsDeclared script.now }
    requires room { last_line report.now < 2 ^ 64 }
    requires shape { ShapeFits script.now report.now }
    requires histories { AreLegal script.now report.now }
    ensures { IfOk result (λ found. MatchOption found (AreAllSound script.now (copies_in copies.now) report.now) (IsFirstAnswer script.now (copies_in copies.now) report.now)) }
{
    let known = known_of(alloc, script, report)?;
    let mut line = cpu_at(report, 0);
    for number in 0..script.layout.cpus {
        let cpu = Cpu(number);
        let commands = commands_of(script, cpu);
        let rows = rows_on(report, cpu);
        let processor = JudgedProcessor::new(
            alloc, script, copies, report, &known, cpu, commands, rows,
        )?;
        let found = unsound(alloc, &processor, line)?;
        if found.is_some() {
            return Ok(found);
        }
        line += 1 + rows.len() as u64;
    }
    Ok(None)
}
