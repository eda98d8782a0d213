ghost use Rattle.std.specs.Prelude.{◌≡◌, IfOk, length};
ghost use Rattle.hwp_law.specs.Lines.{answered, answers_to};
ghost use Rattle.hwp_check_rules.specs.ActedOn.{noted};

use hwp_law::{Answer, Command, CpuLine, OutOfMemory};
use std::alloc::Global;

/// Notes a line's answer for its command, where the line is one of them.
fn note(answers: &mut Vec<Answer>, row: &CpuLine)
    ensures { answers.new.items ≡ noted row.now answers.old.items }
{
    if let CpuLine::Answer { seq, answer } = row {
        let place = *seq as usize;
        if place < answers.len() {
            answers[place] = *answer;
        }
    }
}

/// The answers of a processor's commands: of each the first with its number among the lines, or `stopped` where there is none. The lines
/// are read from the last one on, so the first answer counts.
pub fn answers_to(
    alloc: Global,
    commands: &[Command],
    rows: &[CpuLine],
) -> Result<Vec<Answer>, OutOfMemory>
    ensures many { IfOk result (λ answers. length answers.items ≡ length commands.now) }
    ensures first { IfOk result (λ answers. answers.items ≡ answers_to commands.now rows.now) }
{
    let mut answers = Vec::new(alloc);
    answers.resize(commands.len(), Answer::Stopped)?;
    for back in 0..rows.len() {
        note(&mut answers, &rows[rows.len() - 1 - back]);
    }
    Ok(answers)
}

/// The commands of a processor with their answers.
pub fn pairs_of(
    alloc: Global,
    commands: &[Command],
    rows: &[CpuLine],
) -> Result<Vec<(Command, Answer)>, OutOfMemory>
    ensures { IfOk result (λ pairs. pairs.items ≡ answered commands.now rows.now) }
{
    let answers = answers_to(alloc, commands, rows)?;
    let mut pairs = Vec::new(alloc);
    for number in 0..commands.len() {
        pairs.push((commands[number], answers[number]))?;
    }
    Ok(pairs)
}
