ghost use Rattle.std.specs.Prelude.{◌≡◌, ◌+◌, ◌*◌, ◌%◌, ◌^◌, bit_or};
ghost use Rattle.hwp_core_rule.specs.SlotMoves.{frame_slot, shelf_slot, slot_move, moved_out};
ghost use Rattle.hwp_core_rule.specs.Steps as tables;

use crate::shared_word::SharedWord;
use crate::slot_move::SlotMove;
use crate::step::Step;
use hwp_page::{Damage, Frame, Kind, Layout, Page, Policy};
use hwp_words::{
    CacheWord, FrameWord, HANDLED, LOCK, POISON, PageWord, PolicyWord, REFERENCE, StopWord,
};

impl Step {
    /// The word that the step touches.
    #[inline(always)]
    pub fn place(&self) -> SharedWord
        ensures { result ≡ tables.place_of self.now }
    {
        match self {
            Step::Load { place } => *place,
            Step::Reserve { .. } | Step::Unreserve => SharedWord::Available,
            Step::TakeBit { frame } | Step::GiveBit { frame } => free_place(*frame),
            Step::Adopt { frame } | Step::GetRef { frame, .. } => SharedWord::Frame(*frame),
            Step::PutRef { frame, .. } | Step::Revive { frame, .. } => SharedWord::Frame(*frame),
            Step::LockFrame { frame } | Step::UnlockFrame { frame } => SharedWord::Frame(*frame),
            Step::Retire { frame } | Step::SetOwner { frame, .. } => SharedWord::Frame(*frame),
            Step::Poison { frame, .. } => SharedWord::Frame(*frame),
            Step::LockPage { page } | Step::UnlockPage { page } => SharedWord::Page(*page),
            Step::SetPte { slot, .. } => SharedWord::Trans(*slot),
            Step::SetCache { page, .. } => SharedWord::Cache(*page),
            Step::CountPoison { .. } | Step::Uncount => SharedWord::Counter,
            Step::Spoil { frame, damage, .. } => damage_place(*frame, *damage),
            Step::Stop { .. } | Step::GiveUp => SharedWord::Stop,
            Step::Kill { process, .. } => SharedWord::Process(*process),
            Step::SetPolicy { thread, .. } => SharedWord::Policy(*thread),
            Step::Lose { file, .. } | Step::ReportLost { file } => SharedWord::Loss(*file),
        }
    }

    /// What the step makes of the word that it found.
    pub fn word_after(&self, found: u64) -> u64
        ensures { result ≡ tables.word_after self.now found }
    {
        match self {
            Step::Load { .. } | Step::ReportLost { .. } => found,
            Step::Reserve { seen } => exchanged(*seen, seen.saturating_sub(1), found),
            Step::TakeBit { frame } => found & !free_mask(*frame),
            Step::GiveBit { frame } => found | free_mask(*frame),
            Step::Unreserve | Step::Lose { .. } => found.wrapping_add(1),
            Step::Adopt { .. } => found.wrapping_add(LOCK + REFERENCE),
            Step::GetRef { seen, count, .. } => exchanged(*seen, referred(*seen, *count), found),
            Step::PutRef { count, .. } => found.wrapping_sub(u64::from(*count) * REFERENCE),
            Step::LockFrame { .. } | Step::LockPage { .. } => found | LOCK,
            Step::UnlockFrame { .. } | Step::UnlockPage { .. } => found & !LOCK,
            Step::Retire { .. } => found ^ (LOCK + HANDLED),
            Step::Revive { seen, .. } => exchanged(*seen, revived(*seen), found),
            Step::SetOwner { page, .. } => found ^ FrameWord::owner_change(None, Some(*page)),
            Step::SetPte { pte, .. } => pte.pack(),
            Step::SetCache { frame, .. } => CacheWord { frame: *frame }.pack(),
            Step::Poison { .. } => found | POISON,
            Step::CountPoison { hardware } => {
                found.wrapping_add(1 + (u64::from(*hardware) << 32))
            }
            Step::Uncount => found.wrapping_sub(1),
            Step::Spoil { line, .. } => found | (1 << line.get()),
            Step::Stop { cpu } => exchanged(0, u64::from(cpu.0) + 1, found),
            Step::GiveUp => given_up(found),
            Step::Kill { page, .. } => exchanged(0, u64::from(page.0) + 1, found),
            Step::SetPolicy {
                policy,
                settings,
                ..
            } => policy_set(*policy, *settings),
        }
    }

    /// Whether the step goes through at the word that it found.
    #[inline(always)]
    pub fn goes(&self, found: u64) -> bool
        ensures { result ≡ tables.goes self.now found }
    {
        match self {
            Step::Reserve { seen } | Step::GetRef { seen, .. } => found == *seen,
            Step::Revive { seen, .. } => found == *seen,
            Step::TakeBit { frame } => (found >> (frame.0 % 64)) % 2 == 1,
            Step::LockFrame { .. } => !FrameWord::unpack(found).locked,
            Step::LockPage { .. } => !PageWord::unpack(found).locked,
            Step::Poison { .. } => !FrameWord::unpack(found).poisoned,
            Step::Stop { .. } | Step::Kill { .. } => found == 0,
            _ => true,
        }
    }

    /// What the step does to a slot, at the word that it found.
    #[inline(always)]
    pub fn slot_move(&self, layout: &Layout, found: u64) -> SlotMove
        ensures { result ≡ slot_move layout.now self.now found }
    {
        match self {
            Step::Adopt { frame } => SlotMove::Out(frame_slot(*frame)),
            Step::LockFrame { frame } => moved_out(self.goes(found), frame_slot(*frame)),
            Step::UnlockFrame { frame } => SlotMove::Home(frame_slot(*frame)),
            Step::Retire { frame } => SlotMove::Home(frame_slot(*frame)),
            Step::LockPage { page } => moved_out(self.goes(found), shelf_slot(layout, *page)),
            Step::UnlockPage { page } => SlotMove::Home(shelf_slot(layout, *page)),
            _ => SlotMove::Stays,
        }
    }

    /// The kind of the step, as schedules name it; `None` for a load of a place that can't be loaded.
    #[inline(always)]
    pub fn kind(&self) -> Option<Kind>
        ensures { result ≡ tables.kind_of self.now }
    {
        match self {
            Step::Load { place } => load_kind(*place),
            Step::Reserve { .. } => Some(Kind::Reserve),
            Step::TakeBit { .. } => Some(Kind::TakeBit),
            Step::GiveBit { .. } => Some(Kind::GiveBit),
            Step::Unreserve => Some(Kind::Unreserve),
            Step::Adopt { .. } => Some(Kind::Adopt),
            Step::GetRef { .. } => Some(Kind::GetRef),
            Step::PutRef { .. } => Some(Kind::PutRef),
            Step::LockFrame { .. } => Some(Kind::LockFrame),
            Step::UnlockFrame { .. } => Some(Kind::UnlockFrame),
            Step::Retire { .. } => Some(Kind::Retire),
            Step::Revive { .. } => Some(Kind::Revive),
            Step::SetOwner { .. } => Some(Kind::SetOwner),
            Step::LockPage { .. } => Some(Kind::LockPage),
            Step::UnlockPage { .. } => Some(Kind::UnlockPage),
            Step::SetPte { .. } => Some(Kind::SetPte),
            Step::SetCache { .. } => Some(Kind::SetCache),
            Step::Poison { .. } => Some(Kind::Poison),
            Step::CountPoison { .. } => Some(Kind::CountPoison),
            Step::Uncount => Some(Kind::Uncount),
            Step::Spoil { .. } => Some(Kind::Spoil),
            Step::Stop { .. } => Some(Kind::Stop),
            Step::GiveUp => Some(Kind::GiveUp),
            Step::Kill { .. } => Some(Kind::Kill),
            Step::SetPolicy { .. } => Some(Kind::SetPolicy),
            Step::Lose { .. } => Some(Kind::Lose),
            Step::ReportLost { .. } => Some(Kind::ReportLost),
        }
    }
}

/// The word of a frame's free bit.
fn free_place(frame: Frame) -> SharedWord
    ensures { result ≡ tables.free_place frame }
{
    SharedWord::Free(u32::from(frame.0 / 64))
}

/// The bit of a frame in its free word.
fn free_mask(frame: Frame) -> u64
    ensures { result ≡ tables.free_mask frame }
{
    1u64 << (frame.0 % 64)
}

/// The word of a frame's bad lines, or of its weak lines.
fn damage_place(frame: Frame, damage: Damage) -> SharedWord
    ensures { result ≡ tables.damage_place frame damage }
{
    match damage {
        Damage::Bad => SharedWord::Bad(frame),
        Damage::Weak => SharedWord::Weak(frame),
    }
}

/// What a compare-and-exchange makes of the word that it found.
fn exchanged(seen: u64, new: u64, found: u64) -> u64
    ensures { result ≡ tables.exchanged seen new found }
{
    if found == seen { new } else { found }
}

/// The frame word with so many references more.
fn referred(seen: u64, count: u32) -> u64
    ensures { result ≡ (seen + count * 16) % 2 ^ 64 }
{
    seen.wrapping_add(u64::from(count) * REFERENCE)
}

/// The stop word, which now says that memory ran out.
fn given_up(found: u64) -> u64
    ensures { result ≡ bit_or found (2 ^ 63) }
{
    let refused = StopWord {
        cpu: None,
        no_memory: true,
    };
    found | refused.pack()
}

/// The policy word after one setting more than so many.
fn policy_set(policy: Policy, settings: u32) -> u64
    ensures { result ≡ tables.policy_at (settings + 1) policy }
{
    let word = PolicyWord {
        policy,
        settings: u64::from(settings) + 1,
    };
    word.pack()
}

/// The frame word of one more cycle (bit 44 up), without POISON, HANDLED and the reference of HANDLED.
fn revived(seen: u64) -> u64
    ensures { result ≡ tables.revived seen }
{
    seen.wrapping_add((1 << 44) - POISON - HANDLED - REFERENCE)
}

/// The slot of a frame.
fn frame_slot(frame: Frame) -> usize
    ensures { result ≡ frame_slot frame }
{
    usize::from(frame.0)
}

/// The shelf of a page.
fn shelf_slot(layout: &Layout, page: Page) -> usize
    ensures { result ≡ shelf_slot layout.now page }
{
    usize::from(layout.frames) + usize::from(page.0)
}

/// The slot goes out where the lock was taken.
fn moved_out(taken: bool, slot: usize) -> SlotMove
    ensures { result ≡ moved_out taken slot }
{
    if taken {
        SlotMove::Out(slot)
    } else {
        SlotMove::Stays
    }
}

/// The kind of a load.
#[inline(always)]
fn load_kind(place: SharedWord) -> Option<Kind>
    ensures { result ≡ tables.load_kind place }
{
    match place {
        SharedWord::Frame(_) => Some(Kind::LoadFrame),
        SharedWord::Trans(_) => Some(Kind::LoadPte),
        SharedWord::Cache(_) => Some(Kind::LoadCache),
        SharedWord::Free(_) => Some(Kind::LoadFree),
        SharedWord::Available => Some(Kind::LoadAvail),
        SharedWord::Bad(_) | SharedWord::Weak(_) => Some(Kind::LoadBad),
        SharedWord::Counter => Some(Kind::LoadCount),
        SharedWord::Process(_) => Some(Kind::LoadProc),
        SharedWord::Policy(_) => Some(Kind::LoadPolicy),
        SharedWord::Stop => Some(Kind::LoadStop),
        SharedWord::Page(_) | SharedWord::Loss(_) => None,
    }
}
