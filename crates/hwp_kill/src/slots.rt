ghost use Rattle.std.specs.Prelude.{◌≡◌, ◌↔◌, ◌<◌, ◌≤◌, ◌+◌, IsTrue, IfSome, MatchOption, length, slice_index};
ghost use Rattle.std.specs.Ordering.{nat_cmp};
ghost use Rattle.std.specs.FinSet as set;
ghost use Rattle.std.specs.Coded.{coded_ℕ};
ghost use Rattle.hwp_kill.specs.Members.{members, behind, AreEmptyBelow, EndAt};
ghost use Rattle.hwp_kill.specs.Lowest.{HasNoneFrom, IsLowestFrom};
ghost use Rattle.hwp_kill.specs.Limits.{slot_limit, word_limit};

use hwp_geom::{MAX_TRANS, OutOfMemory, VSlot, lowest_bit};
use std::alloc::Global;
use std::marker::Model;

/// How many translations a set can hold: as many as a layout can declare.
pub const SLOTS: usize = MAX_TRANS as usize;

/// The machine words of a set, with a bit for each translation.
const WORDS: usize = SLOTS / 64;

/// A set of translations, a bit for each in a row of machine words. Clauses see it as the set of their numbers.
#[derive(Drop)]
pub struct Slots {
    words: [u64; WORDS],
    /// The words from this one on are empty, so that a search ends here.
    top: u8,
}

impl Model for Slots {
    ghost Value = { set.FinSet nat_cmp };

    ghost coded = { set.code coded_ℕ };

    ghost view = { λ s. set.from_list (members s.words) };

    ghost invariant = { λ s. EndAt s.words s.top };
}

impl Slots {
    /// The empty set.
    pub fn new() -> Slots
        ensures { result ≡ set.empty }
    {
        Slots {
            words: [0; WORDS],
            top: 0,
        }
    }

    /// Whether a translation is in the set.
    pub fn has(&self, slot: VSlot) -> bool
        ensures { result ≡ set.contains self.now slot.0 }
    {
        let at = usize::from(slot.0);
        at < SLOTS && self.words[at / 64] & (1 << (at % 64)) != 0
    }

    /// Puts a translation into the set.
    pub fn insert(&mut self, slot: VSlot)
        requires { slot.0 < slot_limit }
        ensures { self.new ≡ set.insert self.old slot.0 }
    {
        let at = usize::from(slot.0);
        self.words[at / 64] |= 1 << (at % 64);
        if usize::from(self.top) <= at / 64 {
            self.top = (at / 64 + 1) as u8;
        }
    }

    /// Takes a translation out of the set.
    pub fn remove(&mut self, slot: VSlot)
        ensures { self.new ≡ set.remove self.old slot.0 }
    {
        let at = usize::from(slot.0);
        if at < SLOTS {
            self.words[at / 64] &= !(1 << (at % 64));
        }
    }

    /// Takes all translations out of the set.
    pub fn clear(&mut self)
        ensures { self.new ≡ set.empty }
    {
        for at in 0..usize::from(self.top) {
            self.words[at] = 0;
        }
        self.top = 0;
    }

    /// The lowest member that is not below a translation. It is `None` exactly where there is no such member.
    pub fn lowest_from(&self, slot: VSlot) -> Option<VSlot>
        ensures lowest { MatchOption result (HasNoneFrom self.now slot.0) (λ found. IsLowestFrom self.now slot.0 found.0) }
        ensures below { IfSome result (λ found. found.0 < slot_limit) }
    {
        let end = usize::from(self.top) * 64;
        let mut at = usize::from(slot.0);
        while at < end {
            if let Some(bit) = lowest_bit(self.words[at / 64], (at % 64) as u32) {
                return Some(VSlot((at / 64 * 64) as u16 + bit as u16));
            }
            at = (at / 64 + 1) * 64;
        }
        None
    }

    /// The same set once more.
    pub fn copy(&self) -> Slots
        ensures { result ≡ self.now }
    {
        Slots {
            words: self.words,
            top: self.top,
        }
    }
}

/// Room for a set of translations, made before the set is known, so that a task can hold the set when no memory may be asked for.
/// Clauses see nothing of it.
#[derive(Drop)]
pub struct SlotRoom {
    words: Vec<u64>,
}

impl Model for SlotRoom {
    ghost use Rattle.std.specs.Prelude.{[], ◌≡◌, ◌≤◌, vec_capacity};
    ghost use Rattle.hwp_kill.specs.Limits.{word_limit};

    ghost Value = { Unit {0} };

    ghost view = { λ r. tt };

    ghost invariant = { λ r. (r.words.items ≡ []) × (word_limit ≤ vec_capacity r.words) };
}

impl SlotRoom {
    /// Room for any set of translations.
    ///
    /// # Errors
    /// `OutOfMemory` where there is none.
    pub fn new(alloc: Global) -> Result<SlotRoom, OutOfMemory> {
        Ok(SlotRoom {
            words: Vec::with_capacity(alloc, WORDS)?,
        })
    }

    /// This set, held in the room.
    pub fn hold(self, slots: &Slots) -> HeldSlots
        ensures { result ≡ slots.now }
    {
        let top = usize::from(slots.top);
        let first = first_used(&slots.words, top);
        let end = end_used(&slots.words, first, top);
        let used = &slots.words[first..end];
        let mut words = self.words;
        for word in used {
            words.push_reserved(*word);
        }
        HeldSlots {
            first: first as u8,
            words,
        }
    }
}

/// The first word with a member of those below `top`, and `top` where none of them has one.
fn first_used(words: &[u64], top: usize) -> usize
    requires { EndAt words.now top }
    ensures few { result ≤ top }
    ensures empty { AreEmptyBelow words.now result }
{
    for at in 0..top {
        if words[at] != 0 {
            return at;
        }
    }
    top
}

/// Where the words from `first` on end: behind the last with a member.
fn end_used(words: &[u64], first: usize, top: usize) -> usize
    requires order { first ≤ top }
    requires end { EndAt words.now top }
    ensures order { first ≤ result }
    ensures end { EndAt words.now result }
{
    let mut end = top;
    while first < end && words[end - 1] == 0 {
        end -= 1;
    }
    end
}

/// A set of translations that a task holds: of a set's words those from the first to the last with a member, in memory of its own.
/// Clauses see it as the set of their numbers.
#[derive(Drop)]
pub struct HeldSlots {
    /// How many words stand before these, all empty.
    first: u8,
    words: Vec<u64>,
}

impl Model for HeldSlots {
    ghost Value = { set.FinSet nat_cmp };

    ghost coded = { set.code coded_ℕ };

    ghost view = { λ h. set.from_list (members (behind h.first h.words.items)) };

    ghost invariant = { λ h. h.first + length h.words.items ≤ word_limit };
}

impl HeldSlots {
    /// Whether a translation is in the set.
    pub fn has(&self, slot: VSlot) -> bool
        ensures { result ≡ set.contains self.now slot.0 }
    {
        let at = usize::from(slot.0);
        let first = usize::from(self.first);
        word_behind(first, &self.words, at / 64) & (1 << (at % 64)) != 0
    }

    /// The lowest member that is not below a translation. It is `None` exactly where there is no such member.
    pub fn lowest_from(&self, slot: VSlot) -> Option<VSlot>
        ensures lowest { MatchOption result (HasNoneFrom self.now slot.0) (λ found. IsLowestFrom self.now slot.0 found.0) }
        ensures below { IfSome result (λ found. found.0 < slot_limit) }
    {
        let first = usize::from(self.first);
        let end = (first + self.words.len()) * 64;
        let mut at = usize::from(slot.0).max(first * 64);
        while at < end {
            if let Some(bit) = lowest_bit(self.words[at / 64 - first], (at % 64) as u32) {
                return Some(VSlot((at / 64 * 64) as u16 + bit as u16));
            }
            at = (at / 64 + 1) * 64;
        }
        None
    }

    /// Whether the set has no member.
    pub fn is_empty(&self) -> bool
        ensures { IsTrue result ↔ (self.now ≡ set.empty) }
    {
        self.lowest_from(VSlot(0)).is_none()
    }
}

/// The word at a place, where `first` empty words stand before these.
fn word_behind(first: usize, words: &[u64], at: usize) -> u64
    ensures { result ≡ slice_index (behind first words.now) at }
{
    if at < first || words.len() <= at - first {
        0
    } else {
        words[at - first]
    }
}
