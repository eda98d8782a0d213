ghost use Rattle.std.specs.Prelude.{◌≡◌, ◌+◌, ◌<◌, ◌^◌, ℕ, IfOk, length, slice_index_or};
ghost use Rattle.hwp_check_evidence.specs.Counts.{AreCounts, AreFlags, counted, flagged_by};

use hwp_law::{CpuLine, OutOfMemory};
use std::alloc::Global;

/// Counts the line, if it is an event's.
fn count(counts: &mut Vec<u64>, row: &CpuLine)
    requires { (seq : ℕ) → slice_index_or counts.old.items seq 0 + 1 < 2 ^ 64 }
    ensures { counts.new.items ≡ counted counts.old.items row.now }
{
    match *row {
        CpuLine::Event(event) => {
            let at = event.seq as usize;
            if at < counts.len() {
                counts[at] += 1;
            }
        }
        CpuLine::Offlined(_) | CpuLine::Guest(_) | CpuLine::Answer { .. } => {}
    }
}

/// How many event lines each of so many commands of a processor has.
#[tactic(auto, using(crate::proofs::CountLaws::few_more, crate::proofs::CountLaws::few_none, crate::proofs::CountLaws::counts_many, crate::proofs::CountLaws::counts_are))]
pub fn event_counts(
    alloc: Global,
    commands: usize,
    rows: &[CpuLine],
) -> Result<Vec<u64>, OutOfMemory>
    ensures many { IfOk result (λ counts. length counts.items ≡ commands) }
    ensures counts { IfOk result (λ counts. AreCounts rows.now counts.items) }
{
    let mut counts = vec![in alloc; 0; commands]?;
    for row in rows {
        count(&mut counts, row);
    }
    Ok(counts)
}

/// Flags the command of the line, if it is of an event that stopped the machine, or was a panic.
fn flag(flags: &mut Vec<bool>, row: &CpuLine)
    ensures { flags.new.items ≡ flagged_by flags.old.items row.now }
{
    match *row {
        CpuLine::Event(event) => {
            let at = event.seq as usize;
            if (event.acted.is_stopping() || event.acted.is_panic()) && at < flags.len() {
                flags[at] = true;
            }
        }
        CpuLine::Offlined(_) | CpuLine::Guest(_) | CpuLine::Answer { .. } => {}
    }
}

/// For each of so many commands of a processor whether one of its events stopped the machine, or was a panic.
#[tactic(auto, using(crate::proofs::CountLaws::flags_many, crate::proofs::CountLaws::flags_are))]
pub fn event_ends(
    alloc: Global,
    commands: usize,
    rows: &[CpuLine],
) -> Result<Vec<bool>, OutOfMemory>
    ensures many { IfOk result (λ flags. length flags.items ≡ commands) }
    ensures flags { IfOk result (λ flags. AreFlags rows.now flags.items) }
{
    let mut flags = vec![in alloc; false; commands]?;
    for row in rows {
        flag(&mut flags, row);
    }
    Ok(flags)
}
