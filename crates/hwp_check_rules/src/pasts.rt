ghost use Rattle.std.specs.Prelude.{◌≡◌, ◌<◌, ◌≤◌, ◌+◌, ◌++◌, Some, is_some, length, IfOk, OnOk};
ghost use Rattle.std.specs.Int.{from_bool};
ghost use Rattle.std.specs.Option.{option_to_list};
ghost use Rattle.hwp_law.specs.SeenPolicies.{cpu_of_thread};
ghost use Rattle.hwp_check_rules.specs.Pasts.{AreCounts, AreDone, ArePasts, IsPast, noted, set_if, settings_by};

use crate::policies::set_if;
use crate::rows::commands_of;
use hwp_check_event_line::rows_on;
use hwp_law::{
    Answer, Command, Cpu, CpuLine, Layout, List, OutOfMemory, Policy, Report, Script, Thread,
};
use std::alloc::Global;

/// What is known of a thread: its processor, the policies that the processor's commands set, and how many there are before each
/// command and behind the last.
#[derive(Drop)]
pub struct ThreadPolicies {
    pub cpu: Cpu,
    pub policies: List<Policy>,
    pub done: List<u64>,
}

/// Notes a line of a processor among the commands that were done.
fn note(flags: &mut Vec<bool>, row: &CpuLine)
    ensures { flags.new.items ≡ noted row.now flags.old.items }
{
    if let CpuLine::Answer { seq, answer } = row {
        let place = *seq as usize;
        if place < flags.len() {
            flags[place] = matches!(answer, Answer::Done);
        }
    }
}

/// Which of so many commands were answered `done`. The lines are read from the last one on, so the first answer counts.
pub fn done_of(alloc: Global, count: usize, rows: &[CpuLine]) -> Result<Vec<bool>, OutOfMemory>
    ensures count { IfOk result (λ flags. length flags.items ≡ count) }
    ensures done { IfOk result (λ flags. AreDone rows.now flags.items) }
{
    let mut flags = Vec::new(alloc);
    flags.resize(count, false)?;
    for back in 0..rows.len() {
        note(&mut flags, &rows[rows.len() - 1 - back]);
    }
    Ok(flags)
}

/// Adds a policy, if there is one.
fn add_policy(list: &mut Vec<Policy>, policy: Option<Policy>) -> Result<(), OutOfMemory>
    ensures { OnOk result (list.new.items ≡ list.old.items ++ option_to_list policy) }
{
    if let Some(policy) = policy {
        list.push(policy)?;
    }
    Ok(())
}

/// The policies that the commands set for the thread, in order, of which these were done.
fn policies_of(
    alloc: Global,
    layout: &Layout,
    thread: Thread,
    commands: &[Command],
    done: &[bool],
) -> Result<List<Policy>, OutOfMemory>
    requires each { length done.now ≡ length commands.now }
    ensures { IfOk result (λ list. list ≡ settings_by layout.now thread commands.now done.now) }
{
    let mut list = Vec::new(alloc);
    for number in 0..commands.len() {
        add_policy(&mut list, set_if(layout, commands, done, number, thread))?;
    }
    Ok(List::from_vec(list))
}

/// Whether the command with the number was done and set the thread's policy, as 1 or 0.
fn sets(layout: &Layout, commands: &[Command], done: &[bool], number: usize, thread: Thread) -> u64
    requires each { length done.now ≡ length commands.now }
    requires within { number < length commands.now }
    ensures sets { result ≡ from_bool (is_some (set_if layout.now thread commands.now done.now number)) }
    ensures few { result ≤ 1 }
{
    if set_if(layout, commands, done, number, thread).is_some() {
        1
    } else {
        0
    }
}

/// How many policies there are before each of the commands and behind the last.
fn counts_of(
    alloc: Global,
    layout: &Layout,
    thread: Thread,
    commands: &[Command],
    done: &[bool],
) -> Result<List<u64>, OutOfMemory>
    requires each { length done.now ≡ length commands.now }
    ensures { IfOk result (AreCounts layout.now thread commands.now done.now (length commands.now + 1)) }
{
    let mut list = List::new(alloc);
    let mut count = 0;
    for number in 0..commands.len() {
        list.push(count)?;
        count += sets(layout, commands, done, number, thread);
    }
    list.push(count)?;
    Ok(list)
}

/// What is known of the thread, which is declared on this processor.
fn past_of(
    alloc: Global,
    script: &Script,
    report: &Report,
    thread: Thread,
    cpu: Cpu,
) -> Result<ThreadPolicies, OutOfMemory>
    requires { cpu_of_thread script.now thread ≡ Some cpu }
    ensures { IfOk result (λ past. IsPast script.now report.now thread past) }
{
    let commands = commands_of(script, cpu);
    let flags = done_of(alloc, commands.len(), rows_on(report, cpu))?;
    let layout = &script.layout;
    let policies = policies_of(alloc, layout, thread, commands, flags.as_slice())?;
    let done = counts_of(alloc, layout, thread, commands, flags.as_slice())?;
    Ok(ThreadPolicies {
        cpu,
        policies,
        done,
    })
}

/// What is known of each thread of the script.
pub fn pasts_of(
    alloc: Global,
    script: &Script,
    report: &Report,
) -> Result<Vec<ThreadPolicies>, OutOfMemory>
    requires { length script.now.layout.threads ≤ 256 }
    ensures { IfOk result (λ pasts. ArePasts script.now report.now pasts.items) }
{
    let mut pasts = Vec::new(alloc);
    let threads = script.layout.threads.as_slice();
    for number in 0..threads.len() {
        let thread = Thread(number as u8);
        pasts.push(past_of(alloc, script, report, thread, threads[number].cpu)?)?;
    }
    Ok(pasts)
}
