ghost use Rattle.std.specs.Prelude.{◌≡◌, ◌<◌, ◌↔◌, IsTrue, IfOk, MatchOption, Some, false, length, slice_get};
ghost use Rattle.hwp_check_rules.specs.Answered.{answers_next, is_well_before};
ghost use Rattle.hwp_check_answers.specs.Placing.{AreInPlace, AreSet, HasNone, HaveAnswers, IsFirstOut, IsOfNext, TellAnswers, marked};

use hwp_check_rules::{Command, CpuLine, OutOfMemory, is_answer, seq_of};
use std::alloc::Global;

/// Whether the row behind one is an answer.
fn answers_next(rows: &[CpuLine], row: usize) -> bool
    requires { row < length rows.now }
    ensures { result ≡ answers_next rows.now row }
{
    match rows.get(row + 1) {
        Some(line) => is_answer(line),
        None => false,
    }
}

/// Whether the line in a row, if it is a guest's, has an answer behind it.
fn is_well_before(rows: &[CpuLine], row: usize, line: &CpuLine) -> bool
    requires { row < length rows.now }
    ensures { result ≡ is_well_before rows.now row line.now }
{
    match line {
        CpuLine::Guest(_) => answers_next(rows, row),
        CpuLine::Event(_) | CpuLine::Offlined(_) | CpuLine::Answer { .. } => true,
    }
}

/// Whether the line in a row is of the command that comes next, where so many were answered, and, if it is a guest's, right before an
/// answer.
fn is_of_next(
    answered: usize,
    commands: usize,
    rows: &[CpuLine],
    row: usize,
    line: &CpuLine,
) -> bool
    requires { row < length rows.now }
    ensures { IsTrue result ↔ IsOfNext answered commands rows.now row line.now }
{
    let seq = seq_of(line) as usize;
    seq == answered && seq < commands && is_well_before(rows, row, line)
}

/// The number of the first line of a processor that is not of the command whose answer comes next, or a guest's line without an answer
/// right behind it.
pub(crate) fn first_out(commands: &[Command], rows: &[CpuLine]) -> Option<usize>
    ensures { MatchOption result (AreInPlace commands.now rows.now) (IsFirstOut commands.now rows.now) }
{
    let mut answered = 0;
    for number in 0..rows.len() {
        let row = &rows[number];
        if !is_of_next(answered, commands.len(), rows, number, row) {
            return Some(number);
        }
        answered += usize::from(is_answer(row));
    }
    None
}

/// Sets the flag of the command that the line answers.
fn mark(flags: &mut Vec<bool>, row: &CpuLine)
    ensures { flags.new.items ≡ marked row.now flags.old.items }
{
    match row {
        CpuLine::Event(_) | CpuLine::Offlined(_) | CpuLine::Guest(_) => {}
        CpuLine::Answer { seq, .. } => {
            let at = *seq as usize;
            if at < flags.len() {
                flags[at] = true;
            }
        }
    }
}

/// For each of so many commands whether it has an answer.
fn answered(alloc: Global, commands: usize, rows: &[CpuLine]) -> Result<Vec<bool>, OutOfMemory>
    ensures { IfOk result (λ flags. TellAnswers commands rows.now flags.items) }
{
    let mut flags = vec![in alloc; false; commands]?;
    for row in rows {
        mark(&mut flags, row);
    }
    Ok(flags)
}

/// The first flag that isn't set.
fn first_unset(flags: &[bool]) -> Option<usize>
    ensures { MatchOption result (AreSet flags.now) (λ i. slice_get flags.now i ≡ Some false) }
{
    for number in 0..flags.len() {
        if !flags[number] {
            return Some(number);
        }
    }
    None
}

/// The number of a command that has no answer.
pub(crate) fn unanswered(
    alloc: Global,
    commands: &[Command],
    rows: &[CpuLine],
) -> Result<Option<usize>, OutOfMemory>
    ensures { IfOk result (λ found. MatchOption found (HaveAnswers commands.now rows.now) (HasNone commands.now rows.now)) }
{
    let flags = answered(alloc, commands.len(), rows)?;
    Ok(first_unset(flags.as_slice()))
}
