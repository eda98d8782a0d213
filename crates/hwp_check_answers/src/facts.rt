ghost use Rattle.std.specs.Prelude.{◌≡◌, ◌≤◌, IfOk, false, length, slice_index_or};
ghost use Rattle.hwp_check_evidence.specs.hwp_geom.Limits.{page_limit};
ghost use Rattle.hwp_check_evidence.specs.hwp_kill.declared.Policy.TheVariants.{Default};
ghost use Rattle.hwp_check_answers.specs.Facts.{AreFacts, AreNamings};
ghost use Rattle.hwp_check_causes.specs.Knowing.{IsOwn};
ghost use Rattle.hwp_check_rules.specs.hwp_check_event_line.Reading.{copies_in};

use crate::judging::Naming;
use hwp_check_causes::{CommandFacts, ProcessorFacts, own_of, policies_before};
use hwp_check_evidence::{event_counts, event_ends, names_of};
use hwp_check_rules::{
    Command, Cpu, CpuLine, Layout, List, OutOfMemory, Policy, Report, Script, VSlot,
};
use std::alloc::Global;

/// What is known of the commands of one processor by their numbers.
pub struct Facts {
    /// The policies of their threads before them.
    pub policies: Vec<Policy>,
    /// How many event lines they have.
    pub counts: Vec<u64>,
    /// Whether one of these stopped the machine, or was a panic.
    pub ends: Vec<bool>,
}

// Proved here once, and cited where one is let go.
impl Drop for Facts {
    fn drop(self) {
        let Facts {
            policies: _policies,
            counts: _counts,
            ends: _ends,
        } = self;
    }
}

/// What is known of the commands of a processor with these lines.
pub(crate) fn facts_of(
    alloc: Global,
    layout: &Layout,
    commands: &[Command],
    rows: &[CpuLine],
) -> Result<Facts, OutOfMemory>
    ensures { IfOk result (λ facts. AreFacts layout.now commands.now rows.now facts) }
{
    let policies = policies_before(alloc, layout, commands, rows)?;
    let counts = event_counts(alloc, commands.len(), rows)?;
    let ends = event_ends(alloc, commands.len(), rows)?;
    Ok(Facts {
        policies,
        counts,
        ends,
    })
}

/// What is known of a report for the answers of a processor, and the entries that its commands' lines name.
pub(crate) fn own_and_naming(
    alloc: Global,
    script: &Script,
    copies: &[List<Option<VSlot>>],
    report: &Report,
    cpu: Cpu,
    commands: &[Command],
    rows: &[CpuLine],
) -> Result<(ProcessorFacts, Naming), OutOfMemory>
    requires { length report.now.pages ≤ page_limit }
    ensures own { IfOk result (λ known. IsOwn script.now report.now cpu known.0) }
    ensures naming { IfOk result (λ known. AreNamings (copies_in copies.now) report.now cpu commands.now rows.now known.1) }
{
    let count = commands.len();
    let names = names_of(alloc, count, rows)?;
    let (own, others) = own_of(alloc, script, report, cpu, count, &names, copies)?;
    Ok((own, Naming { names, others }))
}

/// The policy at a number.
fn policy_at(facts: &Facts, seq: u32) -> Policy
    ensures { result ≡ slice_index_or facts.now.policies.items seq Default }
{
    match facts.policies.get(seq as usize) {
        Some(policy) => *policy,
        None => Policy::Default,
    }
}

/// The count at a number.
fn count_at(facts: &Facts, seq: u32) -> u64
    ensures { result ≡ slice_index_or facts.now.counts.items seq 0 }
{
    match facts.counts.get(seq as usize) {
        Some(count) => *count,
        None => 0,
    }
}

/// Whether the events of the command with the number ended the machine's run.
fn ends_at(facts: &Facts, seq: u32) -> bool
    ensures { result ≡ slice_index_or facts.now.ends.items seq false }
{
    match facts.ends.get(seq as usize) {
        Some(ends) => *ends,
        None => false,
    }
}

/// What is known of the command with the number.
pub(crate) fn told_at(facts: &Facts, seq: u32) -> CommandFacts
    ensures old { result.old ≡ slice_index_or facts.now.policies.items seq Default }
    ensures events { result.events ≡ slice_index_or facts.now.counts.items seq 0 }
    ensures ends { result.ends ≡ slice_index_or facts.now.ends.items seq false }
{
    CommandFacts {
        old: policy_at(facts, seq),
        events: count_at(facts, seq),
        ends: ends_at(facts, seq),
    }
}
