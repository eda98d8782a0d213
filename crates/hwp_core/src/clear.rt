ghost use Rattle.std.specs.Prelude.{◌≡◌, is_none};
ghost use Rattle.hwp_core.specs.Clears.{IsBegun, pte_of};

use crate::let_go::let_go_of;
use hwp_core_rule::{
    Body, Frame, HeldSlots, Layout, Page, Pte, Ranked, Step, Task, Turn, VSlot, Who,
};

/// Writes the translations that lead to a page's frame, in rising order, so that they no longer do: empty, or with a poison
/// entry (Linux try_to_unmap).
#[derive(Drop)]
pub struct Clear {
    who: Who,
    page: Page,
    frame: Frame,
    slots: HeldSlots,
    barred: bool,
    /// How many references to the frame the command has in the end: one of its own, that of the cache word, and one for each
    /// translation that is written.
    count: u32,
    /// The one that comes.
    next: Option<VSlot>,
}

impl Clear {
    /// The command writes these translations, which lead to the page's frame; with poison entries where they are barred.
    pub fn new(who: Who, page: Page, frame: Frame, slots: HeldSlots, barred: bool) -> Clear
        ensures { IsBegun who page frame slots barred result }
    {
        let next = slots.lowest_from(VSlot(0));
        Clear {
            who,
            page,
            frame,
            slots,
            barred,
            count: 2,
            next,
        }
    }

    /// Whether all are written.
    pub fn is_over(&self) -> bool
        ensures { result ≡ is_none self.now.next }
    {
        self.next.is_none()
    }

    /// The frame to which they lead.
    pub fn frame(&self) -> Frame
        ensures { result ≡ self.now.frame }
    {
        self.frame
    }

    /// How many references to the frame the command has, once the cache word names it no more.
    pub fn count(&self) -> u32
        ensures { result ≡ self.now.count }
    {
        self.count
    }
}

fn pte_of(barred: bool) -> Pte
    ensures { result ≡ pte_of barred }
{
    if barred { Pte::Poison } else { Pte::Empty }
}

impl Task for Clear {
    ghost use Rattle.hwp_core.specs.Clears as clears;

    ghost task = { clears.task };

    fn who(&self) -> Who {
        self.who
    }

    fn plan(&self) -> Option<Step> {
        match self.next {
            Some(slot) => Some(Step::SetPte {
                slot,
                pte: pte_of(self.barred),
            }),
            None => None,
        }
    }

    fn give(&mut self) -> Option<Body> {
        None
    }

    fn settle(&mut self, _layout: &Layout, _found: u64, body: Option<Body>) -> Turn {
        let_go_of(body);
        if let Some(slot) = self.next {
            self.count += 1;
            self.next = self.slots.lowest_from(VSlot(slot.0 + 1));
        }
        Turn::Moved
    }
}

impl Ranked for Clear {
    fn class(&self) -> u8 {
        1
    }

    fn ranked() {}
}
