ghost use Rattle.std.specs.Prelude.{◌≡◌, [], ◌∷◌, ◌++◌, IfOk, OnOk, length, take};
ghost use Rattle.std.specs.List.{list_any};
ghost use Rattle.hwp_law.specs.Acting.{acting_script, copied_at};
ghost use Rattle.hwp_law.specs.Commands.{has_fork, is_fork};
ghost use Rattle.hwp_check_rules.specs.ActedOn.{AreActed, AreCopied, IsActedOn};
ghost use Rattle.hwp_check_event_line.specs.Reading.{copies_in};

use crate::acting::{acting, copied_from};
use crate::pairs::pairs_of;
use hwp_check_event_line::rows_at;
use hwp_law::{Answer, Command, Layout, List, OutOfMemory, Report, Script, VSlot};
use std::alloc::Global;

/// The script that the processors of a report acted on, and for each processor's commands the translation that they copied from, if
/// they copied.
#[derive(Drop)]
pub struct ActedScript {
    pub script: Script,
    pub copies: List<List<Option<VSlot>>>,
}

/// Whether the command forks a process.
fn is_fork(command: &Command) -> bool
    ensures { result ≡ is_fork command.now }
{
    matches!(*command, Command::Fork { .. })
}

/// Whether one of the commands forks a process.
fn forks(commands: &[Command]) -> bool
    ensures { result ≡ list_any is_fork commands.now }
{
    commands.iter().any(is_fork)
}

/// Whether a command of the script forks a process.
pub fn has_fork(script: &Script) -> bool
    ensures { result ≡ has_fork script.now }
{
    script
        .lists
        .as_slice()
        .iter()
        .any(|list| forks(list.as_slice()))
}

/// The pairs before the command with the number.
fn before(pairs: &[(Command, Answer)], number: usize) -> &[(Command, Answer)]
    ensures { result.now ≡ take number pairs.now }
{
    if number < pairs.len() {
        &pairs[..number]
    } else {
        pairs
    }
}

/// Adds an item at a list's end.
fn add<T: Drop>(list: &mut List<T>, item: T) -> Result<(), OutOfMemory>
    ensures { OnOk result (list.new ≡ list.old ++ item ∷ []) }
{
    list.push(item)?;
    Ok(())
}

/// What a processor with these commands and answers acted on.
fn acting_list(
    alloc: Global,
    layout: &Layout,
    commands: &[Command],
    pairs: &[(Command, Answer)],
) -> Result<List<Command>, OutOfMemory>
    ensures { IfOk result (AreActed layout.now pairs.now commands.now (length commands.now)) }
{
    let mut list = Vec::new(alloc);
    for number in 0..commands.len() {
        list.push(acting(layout, before(pairs, number), &commands[number]))?;
    }
    Ok(List::from_vec(list))
}

/// The translations that a processor with these commands and answers copied from.
fn copies_list(
    alloc: Global,
    layout: &Layout,
    commands: &[Command],
    pairs: &[(Command, Answer)],
) -> Result<List<Option<VSlot>>, OutOfMemory>
    ensures { IfOk result (AreCopied layout.now pairs.now commands.now (length commands.now)) }
{
    let mut list = Vec::new(alloc);
    for number in 0..commands.len() {
        list.push(copied_from(layout, before(pairs, number), &commands[number]))?;
    }
    Ok(List::from_vec(list))
}

/// What the processors acted on, and the translations that they copied from.
fn acted_lists(
    alloc: Global,
    script: &Script,
    report: &Report,
) -> Result<(List<List<Command>>, List<List<Option<VSlot>>>), OutOfMemory>
    ensures { IfOk result (λ lists. IsActedOn script.now report.now lists.0 lists.1 (length script.now.lists)) }
{
    let mut lists = List::new(alloc);
    let mut copies = List::new(alloc);
    for number in 0..script.lists.len() {
        let commands = script.lists.as_slice()[number].as_slice();
        let pairs = pairs_of(alloc, commands, rows_at(report, number))?;
        let list = acting_list(alloc, &script.layout, commands, pairs.as_slice())?;
        add(&mut lists, list)?;
        let own = copies_list(alloc, &script.layout, commands, pairs.as_slice())?;
        add(&mut copies, own)?;
    }
    Ok((lists, copies))
}

/// The script that the processors of the report acted on, and what they copied from. It takes memory for a second script.
pub fn acted_on(alloc: Global, script: &Script, report: &Report) -> Result<ActedScript, OutOfMemory>
    ensures script { IfOk result (λ acted. acted.script ≡ acting_script script.now report.now) }
    ensures copies { IfOk result (λ acted. copies_in acted.copies ≡ copied_at script.now report.now) }
{
    let (lists, copies) = acted_lists(alloc, script, report)?;
    let layout = script.layout.copy(alloc)?;
    let go = script.go.copy(alloc)?;
    Ok(ActedScript {
        script: Script { layout, lists, go },
        copies,
    })
}
