ghost use Rattle.std.specs.Prelude.{◌≡◌, ℕ, ◌^◌};
ghost use Rattle.hwp_core_rule.specs.Steps as tables;
ghost use Rattle.hwp_table_words.specs.Operations.{applied};

use hwp_core_rule::{
    CacheWord, Frame, FrameWord, HANDLED, LOCK, POISON, PolicyWord, REFERENCE, Step, StopWord,
};

/// An atomic operation on one word of the table, with its operands.
#[derive(Clone, Copy)]
pub enum Operation {
    Load,
    Swap(u64),
    Add(u64),
    Subtract(u64),
    And(u64),
    Or(u64),
    Xor(u64),
    /// A compare-and-exchange: the word that it expects, and the new one.
    Exchange(u64, u64),
}

/// The atomic operation that makes the step.
#[inline(always)]
pub(crate) fn operation_of(step: &Step) -> Operation
    ensures { (n : ℕ) → tables.word_after step.now n ≡ applied result n }
{
    match step {
        Step::Load { .. } | Step::ReportLost { .. } => Operation::Load,
        Step::Reserve { seen } => Operation::Exchange(*seen, seen.saturating_sub(1)),
        Step::TakeBit { frame } => Operation::And(!free_mask(*frame)),
        Step::GiveBit { frame } => Operation::Or(free_mask(*frame)),
        Step::Unreserve | Step::Lose { .. } => Operation::Add(1),
        Step::Adopt { .. } => Operation::Add(LOCK + REFERENCE),
        Step::GetRef { seen, count, .. } => {
            Operation::Exchange(*seen, seen.wrapping_add(u64::from(*count) * REFERENCE))
        }
        Step::PutRef { count, .. } => Operation::Subtract(u64::from(*count) * REFERENCE),
        Step::LockFrame { .. } | Step::LockPage { .. } => Operation::Or(LOCK),
        Step::UnlockFrame { .. } | Step::UnlockPage { .. } => Operation::And(!LOCK),
        Step::Retire { .. } => Operation::Xor(LOCK + HANDLED),
        Step::Revive { seen, .. } => Operation::Exchange(*seen, revived(*seen)),
        Step::SetOwner { page, .. } => Operation::Xor(FrameWord::owner_change(None, Some(*page))),
        Step::SetPte { pte, .. } => Operation::Swap(pte.pack()),
        Step::SetCache { frame, .. } => Operation::Swap(CacheWord { frame: *frame }.pack()),
        Step::Poison { .. } => Operation::Or(POISON),
        Step::CountPoison { hardware } => Operation::Add(1 + (u64::from(*hardware) << 32)),
        Step::Uncount => Operation::Subtract(1),
        Step::Spoil { line, .. } => Operation::Or(1 << line.get()),
        Step::Stop { cpu } => Operation::Exchange(0, u64::from(cpu.0) + 1),
        Step::GiveUp => Operation::Or(no_memory()),
        Step::Kill { page, .. } => Operation::Exchange(0, u64::from(page.0) + 1),
        Step::SetPolicy {
            policy,
            settings,
            ..
        } => {
            let settings = u64::from(*settings) + 1;
            let policy = *policy;
            Operation::Swap(PolicyWord { policy, settings }.pack())
        }
    }
}

/// The bit of a frame in its free word.
fn free_mask(frame: Frame) -> u64
    ensures { result ≡ tables.free_mask frame }
{
    1u64 << (frame.0 % 64)
}

/// The frame word of one more cycle (bit 44 up), without POISON, HANDLED and the reference of HANDLED.
fn revived(seen: u64) -> u64
    ensures { result ≡ tables.revived seen }
{
    seen.wrapping_add((1 << 44) - POISON - HANDLED - REFERENCE)
}

/// The bit of the stop word that tells want of memory.
fn no_memory() -> u64
    ensures { result ≡ 2 ^ 63 }
{
    let cpu = None;
    let no_memory = true;
    StopWord { cpu, no_memory }.pack()
}
