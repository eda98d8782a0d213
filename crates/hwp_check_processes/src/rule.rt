ghost use Rattle.std.specs.Prelude.{◌≡◌, ℕ, ◌<◌, ◌^◌, false, Some, IfOk, IsOk, MatchOption, length, slice_get};
ghost use Rattle.hwp_check_rules.specs.hwp_check_event_line.Scripts.{IsDeclared};
ghost use Rattle.hwp_check_rules.specs.hwp_geom.Layout.{has_guests};
ghost use Rattle.hwp_check_rules.specs.Firsts.{IsLeast};
ghost use Rattle.hwp_check_rules.specs.GuestFaults.{IsGuestFault};
ghost use Rattle.hwp_check_rules.specs.Standing.{last_line};
ghost use Rattle.hwp_check_processes.specs.Judging.{HasNoFaultOn, IsFirstOn, IsKnown};

use crate::admission::admissions;
use crate::busy::{busy, with_guests};
use crate::judging::{first_lacking, first_wrong};
use hwp_check_rules::{
    Admit, Command, Cpu, CpuLine, Layout, OutOfMemory, Report, Script, commands_of, cpu_at,
    pairs_of, row_at, rows_on,
};
use std::alloc::Global;

/// What is known of a processor's commands: whether guests admit them, which of them do something, and which have a guest's line.
/// Nothing where no process is a guest.
#[derive(Drop)]
struct Known {
    admits: Vec<Admit>,
    flags: Vec<bool>,
    told: Vec<bool>,
}

/// What is known of the commands of a processor with these lines.
fn known_of(
    alloc: Global,
    layout: &Layout,
    report: &Report,
    cpu: Cpu,
    commands: &[Command],
    rows: &[CpuLine],
) -> Result<Known, OutOfMemory>
    requires of_report { slice_get report.now.cpus cpu.0 ≡ Some rows.now }
    ensures known { IfOk result (λ known. IsKnown layout.now report.now cpu commands.now rows.now known.admits.items known.flags.items known.told.items) }
    ensures unguested { has_guests layout.now ≡ false → IsOk result }
{
    if !layout.has_guests() {
        return Ok(Known {
            admits: Vec::new(alloc),
            flags: Vec::new(alloc),
            told: Vec::new(alloc),
        });
    }
    let pairs = pairs_of(alloc, commands, rows)?;
    let admits = admissions(alloc, layout, commands, pairs.as_slice())?;
    let flags = busy(alloc, report, cpu, commands.len(), rows)?;
    let told = with_guests(alloc, commands.len(), rows)?;
    Ok(Known {
        admits,
        flags,
        told,
    })
}

/// The first line of a processor that breaks the rule, if one does: its heading, where a guest's line lacks.
fn fault_on(
    alloc: Global,
    script: &Script,
    report: &Report,
    cpu: Cpu,
) -> Result<Option<u64>, OutOfMemory>
    requires room { last_line report.now < 2 ^ 64 }
    requires of_script { cpu.0 < length script.now.lists }
    requires of_report { cpu.0 < length report.now.cpus }
    ensures judged { IfOk result (λ found. MatchOption found (HasNoFaultOn script.now report.now cpu) (IsFirstOn script.now report.now cpu)) }
    ensures unguested { has_guests script.now.layout ≡ false → IsOk result }
{
    let layout = &script.layout;
    let commands = commands_of(script, cpu);
    let rows = rows_on(report, cpu);
    let known = known_of(alloc, layout, report, cpu, commands, rows)?;
    if let Some(_) = first_lacking(layout, commands, rows, known.told.as_slice()) {
        return Ok(Some(cpu_at(report, usize::from(cpu.0))));
    }
    match first_wrong(
        layout,
        commands,
        rows,
        known.admits.as_slice(),
        known.flags.as_slice(),
    ) {
        Some(row) => Ok(Some(row_at(report, cpu, row))),
        None => Ok(None),
    }
}

/// Whether each access of a guest was answered as the guest admits it, and the guest was told of each that SIGBUS answered, by the
/// line right before the answer; else the first line of a report that breaks this. It takes no memory where no process is a guest.
pub fn guests_fault(
    alloc: Global,
    script: &Script,
    report: &Report,
) -> Result<Option<u64>, OutOfMemory>
    requires valid { IsDeclared script.now }
    requires room { last_line report.now < 2 ^ 64 }
    ensures judged { IfOk result (λ found. MatchOption found ((line : ℕ) → IsGuestFault script.now report.now line → ⊥) (IsLeast (IsGuestFault script.now report.now))) }
    ensures unguested { has_guests script.now.layout ≡ false → IsOk result }
{
    for number in 0..script.lists.len().min(report.cpus.len()) {
        let found = fault_on(alloc, script, report, Cpu(number as u8))?;
        if let Some(line) = found {
            return Ok(Some(line));
        }
    }
    Ok(None)
}
