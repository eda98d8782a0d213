ghost use Rattle.std.specs.Prelude.{◌≡◌, ℕ, cond, length, IfOk, OnOk, Some};
ghost use Rattle.hwp_check_rules.specs.hwp_law.Lines.{answer_of};
ghost use Rattle.hwp_check_frames.specs.Given.{AreGiven, first_of, given_at, row_given, rows_given};
ghost use Rattle.hwp_check_frames.specs.Counts.{is_pair};

use hwp_check_rules::{Answer, Cpu, CpuLine, OutOfMemory, Report, Who, rows_on};
use std::alloc::Global;
use std::collections::HashMap;

/// The answers of commands, by processor and number.
pub(crate) type Given = HashMap<(u8, u32), Answer>;

/// The answer that was noted.
fn given_at(given: &Given, key: (u8, u32)) -> Option<Answer>
    ensures { result ≡ given_at given.now key }
{
    given.get(&key).copied()
}

/// The answer of a command.
pub(crate) fn answer_in(report: &Report, given: &Given, who: Who) -> Option<Answer>
    requires { AreGiven report.now given.now }
    ensures { result ≡ answer_of report.now who }
{
    let _report = report;
    given_at(given, (who.cpu.0, who.seq))
}

/// Notes an answer, if the command has none yet.
fn give(given: &mut Given, key: (u8, u32), answer: Answer) -> Result<(), OutOfMemory>
    ensures { OnOk result ((q : ℕ × ℕ) → given_at given.new q ≡ cond (is_pair key q) (Some (first_of (given_at given.old key) answer)) (given_at given.old q)) }
{
    let first = match given_at(given, key) {
        Some(found) => found,
        None => answer,
    };
    given.insert(key, first)?;
    Ok(())
}

/// Notes a line of the processor.
fn give_row(given: &mut Given, cpu: u8, row: &CpuLine) -> Result<(), OutOfMemory>
    ensures { OnOk result ((q : ℕ × ℕ) → given_at given.new q ≡ row_given cpu q (given_at given.old q) row.now) }
{
    match *row {
        CpuLine::Answer { seq, answer } => give(given, (cpu, seq), answer),
        CpuLine::Event(_) | CpuLine::Offlined(_) | CpuLine::Guest(_) => Ok(()),
    }
}

/// Notes the lines of the processor.
fn give_rows(given: &mut Given, cpu: u8, rows: &[CpuLine]) -> Result<(), OutOfMemory>
    ensures { OnOk result ((q : ℕ × ℕ) → given_at given.new q ≡ rows_given cpu q (given_at given.old q) rows.now) }
{
    for row in rows {
        give_row(given, cpu, row)?;
    }
    Ok(())
}

/// The answer of each command.
pub(crate) fn given_of(alloc: Global, cpus: u8, report: &Report) -> Result<Given, OutOfMemory>
    requires each { length report.now.cpus ≡ cpus }
    ensures { IfOk result (λ given. AreGiven report.now given) }
{
    let mut given = HashMap::new(alloc);
    for cpu in 0..cpus {
        give_rows(&mut given, cpu, rows_on(report, Cpu(cpu)))?;
    }
    Ok(given)
}
