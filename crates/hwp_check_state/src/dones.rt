ghost use Rattle.std.specs.Prelude.{◌≡◌, ◌≤◌, ◌++◌, ◌∷◌, [], cond, length, IfOk, OnOk};
ghost use Rattle.hwp_check_state.specs.Frames.{AreDoneOf, flagged};

use hwp_check_rules::{Command, Cpu, OutOfMemory, Report, Script, commands_of, done_of, rows_on};
use std::alloc::Global;

/// Adds a command that is flagged.
fn add_if(out: &mut Vec<Command>, flag: bool, command: Command) -> Result<(), OutOfMemory>
    ensures { OnOk result (out.new.items ≡ out.old.items ++ cond flag (command ∷ []) []) }
{
    if flag {
        out.push(command)?;
    }
    Ok(())
}

/// Adds the commands that are flagged.
fn add_flagged(
    out: &mut Vec<Command>,
    commands: &[Command],
    flags: &[bool],
) -> Result<(), OutOfMemory>
    requires { length flags.now ≡ length commands.now }
    ensures { OnOk result (out.new.items ≡ out.old.items ++ flagged commands.now flags.now) }
{
    for number in 0..commands.len() {
        add_if(out, flags[number], commands[number])?;
    }
    Ok(())
}

/// The commands that were answered `done`.
pub(crate) fn done_commands(
    alloc: Global,
    script: &Script,
    report: &Report,
) -> Result<Vec<Command>, OutOfMemory>
    requires { length script.now.lists ≤ 256 }
    ensures { IfOk result (λ list. AreDoneOf script.now report.now list.items) }
{
    let mut out = Vec::new(alloc);
    for number in 0..script.lists.len() {
        let cpu = Cpu(number as u8);
        let commands = commands_of(script, cpu);
        let flags = done_of(alloc, commands.len(), rows_on(report, cpu))?;
        add_flagged(&mut out, commands, flags.as_slice())?;
    }
    Ok(out)
}
