ghost use Rattle.std.specs.Prelude.{◌≡◌, ◌≤◌, ◌<◌, ◌+◌, ◌^◌, IfOk, IfSome, MatchOption};
ghost use Rattle.hwp_check_rules.specs.hwp_check_event_line.Scripts.{IsDeclared};
ghost use Rattle.hwp_check_evidence.specs.hwp_law.Events.{AreEvents};
ghost use Rattle.hwp_check_rules.specs.Firsts.{IsLeast};
ghost use Rattle.hwp_check_rules.specs.Rules.{ShapeFits};
ghost use Rattle.hwp_check_rules.specs.Standing.{last_line};
ghost use Rattle.hwp_check_answers.specs.Joining.{BreakEvents, IsEventLine};
ghost use Rattle.hwp_check_answers.specs.Firsts.{line_of};
ghost use Rattle.hwp_check_rules.specs.hwp_check_event_line.Reading.{copies_in};

use hwp_check_events::{Misfits, checkers_of, processor_faults, small_masks};
use hwp_check_rules::{Cpu, List, OutOfMemory, Report, Script, VSlot, cpu_at};
use std::alloc::Global;

/// The first line of a processor, whose heading stands at `heading`, where its event lines are wrong.
pub(crate) fn line_of(found: Misfits, heading: u64) -> Option<u64>
    requires { IfSome found.wrong (λ row. heading + 1 + row < 2 ^ 64) }
    ensures { result ≡ line_of found heading }
{
    if found.lacks {
        return Some(heading);
    }
    match found.wrong {
        Some(row) => Some(heading + 1 + row as u64),
        None => None,
    }
}

/// The first line of a report that shows a wrong event line, or the heading of a processor where a command lacks one.
pub(crate) fn event_lines(
    alloc: Global,
    script: &Script,
    copies: &[List<Option<VSlot>>],
    report: &Report,
) -> Result<Option<u64>, OutOfMemory>
    requires valid { IsDeclared script.now }
    requires room { last_line report.now < 2 ^ 64 }
    requires shape { ShapeFits script.now report.now }
    ensures { IfOk result (λ found. MatchOption found (AreEvents script.now (copies_in copies.now) report.now) (IsLeast (IsEventLine script.now (copies_in copies.now) report.now))) }
{
    small_masks(report);
    let checkers = checkers_of(alloc, report)?;
    let all = checkers.as_slice();
    let mut line = cpu_at(report, 0);
    for cpu in 0..script.lists.len().min(report.cpus.len()) {
        let rows = report.cpus.as_slice()[cpu].as_slice();
        let commands = script.lists.as_slice()[cpu].as_slice();
        let found = processor_faults(alloc, script, copies, report, Cpu(cpu as u8), commands, all)?;
        let at = line_of(found, line);
        if at.is_some() {
            return Ok(at);
        }
        line += 1 + rows.len() as u64;
    }
    Ok(None)
}

/// Such a line breaks the rule of events.
pub(crate) fn lines_break(script: &Script, copies: &[List<Option<VSlot>>], report: &Report)
    requires { IsDeclared script.now }
    ensures { BreakEvents script.now (copies_in copies.now) report.now }
{
    let _script = script;
    let _copies = copies;
    small_masks(report);
}
