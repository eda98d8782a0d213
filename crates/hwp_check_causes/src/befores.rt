ghost use Rattle.std.specs.Prelude.{◌≡◌, ◌≤◌, ◌<◌, IfOk, length};
ghost use Rattle.hwp_check_causes.specs.Befores.{AreBefore, AreBeforeBy, policy_of};

use hwp_check_rules::{Command, CpuLine, Layout, OutOfMemory, Policy, done_of, policy_before};
use std::alloc::Global;

/// The policy of the thread of the command with the number, before it, where the earlier ones were done so.
fn policy_of(layout: &Layout, list: &[Command], done: &[bool], number: usize) -> Policy
    requires each { length done.now ≡ length list.now }
    requires within { number < length list.now }
    ensures { result ≡ policy_of layout.now list.now done.now number }
{
    match list[number] {
        Command::Prctl { thread, .. } => policy_before(layout, list, done, number, thread),
        _ => Policy::Default,
    }
}

/// The policies of the commands' threads, each before its command, of which these were done.
#[tactic(auto, using(crate::proofs::BeforeLaws::before_none))]
fn policies(
    alloc: Global,
    layout: &Layout,
    list: &[Command],
    done: &[bool],
) -> Result<Vec<Policy>, OutOfMemory>
    requires each { length done.now ≡ length list.now }
    ensures { IfOk result (λ policies. AreBeforeBy layout.now list.now done.now (length list.now) policies.items) }
{
    let mut policies = Vec::new(alloc);
    for number in 0..list.len() {
        policies.push(policy_of(layout, list, done, number))?;
    }
    Ok(policies)
}

/// The policies of the commands' threads, each before its command, where these are the lines of their processor.
pub fn policies_before(
    alloc: Global,
    layout: &Layout,
    list: &[Command],
    rows: &[CpuLine],
) -> Result<Vec<Policy>, OutOfMemory>
    ensures { IfOk result (λ policies. AreBefore layout.now list.now rows.now policies.items) }
{
    let done = done_of(alloc, list.len(), rows)?;
    policies(alloc, layout, list, done.as_slice())
}
