ghost use Rattle.std.specs.Prelude.{◌≡◌, [], IfOk, MatchOption, Some, length, slice_get};
ghost use Rattle.hwp_check_rules.specs.hwp_check_event_line.Scripts.{IsDeclared};
ghost use Rattle.hwp_check_answers.specs.Judged.{AreSuch, IsFirstOther, IsJudged, IsTold};
ghost use Rattle.hwp_check_answers.specs.Tallied.{due_in, is_of};

use crate::tally::scan;
use hwp_check_events::{Misfits, events_by_command};
use hwp_check_frames::dues_of;
use hwp_check_rules::{Command, Cpu, CpuLine, OutOfMemory, Report, Script, answers_to, watches};
use std::alloc::Global;

/// Whether the line is of a frame that one of so many commands took out of use.
fn is_of(commands: usize, row: &CpuLine) -> bool
    ensures { result ≡ is_of commands row.now }
{
    match row {
        CpuLine::Offlined(line) => (line.seq as usize) < commands,
        CpuLine::Event(_) | CpuLine::Guest(_) | CpuLine::Answer { .. } => false,
    }
}

/// The first line of a frame that one of so many commands took out of use.
fn first_of_any(commands: usize, rows: &[CpuLine]) -> Option<usize>
    ensures { MatchOption result (AreSuch (IsTold (due_in []) rows.now) commands rows.now (length rows.now)) (IsFirstOther (IsTold (due_in []) rows.now) commands rows.now) }
{
    for number in 0..rows.len() {
        if is_of(commands, &rows[number]) {
            return Some(number);
        }
    }
    None
}

/// What is wrong about a processor's lines of frames taken out of use: whether a command has fewer than frames that are due by its
/// notes, and the first row with one that isn't due at its place, or that an event line of its command stands behind. A processor
/// without a `watch` has none that is due, and then no memory is asked for.
pub(crate) fn offlined_faults(
    alloc: Global,
    script: &Script,
    report: &Report,
    cpu: Cpu,
    commands: &[Command],
    rows: &[CpuLine],
) -> Result<Misfits, OutOfMemory>
    requires valid { IsDeclared script.now }
    requires of_script { slice_get script.now.lists cpu.0 ≡ Some commands.now }
    requires of_report { slice_get report.now.cpus cpu.0 ≡ Some rows.now }
    ensures { IfOk result (λ found. IsJudged script.now report.now cpu commands.now rows.now found) }
{
    let _report = report;
    if !watches(commands) {
        return Ok(Misfits {
            lacks: false,
            wrong: first_of_any(commands.len(), rows),
        });
    }
    let events = events_by_command(alloc, commands.len(), rows)?;
    let answers = answers_to(alloc, commands, rows)?;
    let dues = dues_of(
        alloc,
        script,
        cpu,
        commands,
        rows,
        events.as_slice(),
        answers.as_slice(),
    )?;
    scan(alloc, rows, events.as_slice(), dues.as_slice())
}
