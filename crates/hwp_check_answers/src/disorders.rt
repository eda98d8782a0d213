ghost use Rattle.std.specs.Prelude.{◌≡◌, ◌+◌, ◌<◌, ◌^◌, IfOk, MatchOption, length};
ghost use Rattle.hwp_check_answers.specs.Disorders.{AreAllOrderly, AreOrderly, IsDisorder, IsFirstDisorder};
ghost use Rattle.hwp_check_rules.specs.Firsts.{IsLeast};
ghost use Rattle.hwp_check_rules.specs.Standing.{last_line};

use crate::placing::{first_out, unanswered};
use hwp_check_rules::{Command, CpuLine, OutOfMemory, Report, Script, cpu_at};
use std::alloc::Global;

/// The first line of a processor, whose heading stands at `heading`, that is not in its place: the heading where a command
/// has no answer.
fn disorder(
    alloc: Global,
    commands: &[Command],
    rows: &[CpuLine],
    heading: u64,
) -> Result<Option<u64>, OutOfMemory>
    requires { heading + 1 + length rows.now < 2 ^ 64 }
    ensures { IfOk result (λ found. MatchOption found (AreOrderly commands.now rows.now) (IsFirstDisorder commands.now rows.now heading)) }
{
    match unanswered(alloc, commands, rows)? {
        Some(_) => Ok(Some(heading)),
        None => match first_out(commands, rows) {
            Some(row) => Ok(Some(heading + 1 + row as u64)),
            None => Ok(None),
        },
    }
}

/// The first line of the report that is not in its place, or the heading of a processor where a command has no answer.
pub(crate) fn disorders(
    alloc: Global,
    script: &Script,
    report: &Report,
) -> Result<Option<u64>, OutOfMemory>
    requires room { last_line report.now < 2 ^ 64 }
    ensures { IfOk result (λ found. MatchOption found (AreAllOrderly script.now report.now) (IsLeast (IsDisorder script.now report.now))) }
{
    let mut line = cpu_at(report, 0);
    for cpu in 0..script.lists.len().min(report.cpus.len()) {
        let rows = report.cpus.as_slice()[cpu].as_slice();
        let found = disorder(alloc, script.lists.as_slice()[cpu].as_slice(), rows, line)?;
        if found.is_some() {
            return Ok(found);
        }
        line += 1 + rows.len() as u64;
    }
    Ok(None)
}
