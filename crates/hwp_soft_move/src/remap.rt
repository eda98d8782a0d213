ghost use Rattle.std.specs.Prelude.{◌≡◌, ◌≤◌, is_none};
ghost use Rattle.hwp_claim_frame.specs.hwp_kill.Limits.{slot_limit};
ghost use Rattle.hwp_soft_move.specs.Remaps.{Follows, IsBegun, IsCount, Shows, plan};

use hwp_claim_frame::{Frame, HeldSlots, Page, Pte, Step, VSlot, Who};
use std::snapshot::Snapshot;

/// Writes the translations that lead to the frame of a page, in rising order, so that they lead to another one (Linux
/// remove_migration_ptes). It is a part of the task that holds the set of them.
#[derive(Drop)]
pub struct Remap {
    who: Who,
    page: Page,
    from: Frame,
    to: Frame,
    slots: Snapshot<HeldSlots>,
    /// How many references to the frame that the page leaves the command has once the cache word names it no more.
    count: u32,
    /// The one that comes.
    next: Option<VSlot>,
}

/// How many translations are in the set.
pub(crate) fn count(slots: &HeldSlots) -> u32
    ensures members { IsCount slots.now result }
    ensures few { result ≤ slot_limit }
{
    let mut count = 0;
    let mut at = VSlot(0);
    while let Some(slot) = slots.lowest_from(at) {
        count += 1;
        at = VSlot(slot.0 + 1);
    }
    count
}

impl Remap {
    /// The command writes these translations, which lead to `from`. In the end it has so many references to that frame, with
    /// that of the cache word.
    pub fn new(who: Who, page: Page, from: Frame, to: Frame, slots: &HeldSlots, count: u32) -> Remap
        ensures { IsBegun who page from to slots.now count result }
    {
        let next = slots.lowest_from(VSlot(0));
        Remap {
            who,
            page,
            from,
            to,
            slots: Snapshot::of(slots),
            count,
            next,
        }
    }

    /// Whether all are written.
    pub fn is_over(&self) -> bool
        ensures { result ≡ is_none self.now.next }
    {
        self.next.is_none()
    }

    /// The step by which the next one is written.
    pub fn plan(&self) -> Option<Step>
        ensures { result ≡ plan self.now }
    {
        match self.next {
            Some(slot) => Some(Step::SetPte {
                slot,
                pte: Pte::At(self.to),
            }),
            None => None,
        }
    }

    /// The next one is written. `slots` are the translations that it began with.
    pub fn settle(&mut self, slots: &HeldSlots)
        requires same { self.old.slots.value ≡ slots.now }
        requires shows { Shows self.old }
        ensures { Follows self.old self.new }
    {
        if let Some(slot) = self.next {
            self.next = slots.lowest_from(VSlot(slot.0 + 1));
        }
    }
}
