ghost use Rattle.std.specs.Prelude.{◌≡◌, ◌-◌, is_none};
ghost use Rattle.hwp_claim_frame.specs.hwp_core.Refers as refers;
ghost use Rattle.hwp_claim_frame.specs.hwp_core_rule.declared.Turn.TheVariants.{Moved};
ghost use Rattle.hwp_soft_move.specs.declared.relocate.RelocateAt.TheVariants as states;
ghost use Rattle.hwp_soft_move.specs.Relocations.{IsBegun, plan, StartsRemap, after_remap};

use crate::remap::{Remap, count};
use hwp_claim_frame::{
    At, Body, Frame, HeldSlots, Layout, Page, Ranked, Refer, Release, Step, Task, Turn, Who,
    let_go_of,
};

/// Puts a page that is held into another frame, which is held too, and its old frame out of use: the poison of that is counted,
/// the translations and the page's cache word lead to the other frame, to which the page's body goes home, and then the old
/// frame is retired and the page let go (Linux migrate_pages).
#[derive(Drop)]
pub struct Relocate {
    transfer: Transfer,
    /// The translations in use.
    maps: HeldSlots,
    done: At,
    body: Option<Body>,
    at: RelocateAt,
}

/// Of which page it is, and from which frame to which one.
#[derive(Clone, Copy)]
struct Transfer {
    who: Who,
    page: Page,
    from: Frame,
    to: Frame,
    /// How many references to the old frame the command has in the end: its own, that of the cache word, and one for each
    /// translation.
    count: u32,
}

#[derive(Drop)]
enum RelocateAt {
    Count,
    SetOwner,
    Refer { refer: Refer },
    Remap { remap: Remap },
    SetCache,
    ClearOwner,
    UnlockFrame,
    Release { release: Release },
    PutRef,
    Retire,
    UnlockPage,
    Over,
}

impl Relocate {
    /// The command puts the page into the frame `to`, by the last entry of its body, which is this one. These translations of
    /// the page are in use.
    pub fn new(
        who: Who,
        page: Page,
        from: Frame,
        to: Frame,
        maps: HeldSlots,
        done: At,
        body: Body,
    ) -> Relocate
        ensures { IsBegun who page from to maps done body result }
    {
        let transfer = Transfer {
            who,
            page,
            from,
            to,
            count: count(&maps) + 2,
        };
        Relocate {
            transfer,
            maps,
            done,
            body: Some(body),
            at: RelocateAt::Count,
        }
    }

    /// Whether the page is let go.
    pub fn is_over(&self) -> bool
        ensures { result ≡ is_none (plan self.now) }
    {
        match &self.at {
            RelocateAt::Count
            | RelocateAt::SetOwner
            | RelocateAt::SetCache
            | RelocateAt::ClearOwner
            | RelocateAt::UnlockFrame
            | RelocateAt::PutRef
            | RelocateAt::Retire
            | RelocateAt::UnlockPage => false,
            RelocateAt::Refer { refer } => refer.is_over(),
            RelocateAt::Remap { remap } => remap.is_over(),
            RelocateAt::Release { release } => release.is_over(),
            RelocateAt::Over => true,
        }
    }

    /// The references that the page had beside the first one are taken to the new frame.
    fn start_refer(&self) -> RelocateAt
        ensures { result ≡ states.Refer (refers.begin self.now.transfer.who self.now.transfer.to (self.now.transfer.count - 1)) }
    {
        let count = self.transfer.count.saturating_sub(1);
        RelocateAt::Refer {
            refer: Refer::new(self.transfer.who, self.transfer.to, count),
        }
    }

    /// The translations begin to be written.
    fn start_remap(&self) -> RelocateAt
        ensures { StartsRemap self.now.transfer self.now.maps result }
    {
        let transfer = self.transfer;
        let remap = Remap::new(
            transfer.who,
            transfer.page,
            transfer.from,
            transfer.to,
            &self.maps,
            transfer.count,
        );
        after_remap(remap)
    }

    fn set(&mut self, at: RelocateAt)
        ensures { self.new ≡ record self.old { at = at } }
    {
        self.at = at;
    }

    /// The step moved the command there; the body that it met is let go.
    fn move_to(&mut self, at: RelocateAt, got: Option<Body>) -> Turn
        ensures there { self.new ≡ record self.old { at = at } }
        ensures moved { result ≡ Moved }
    {
        let_go_of(got);
        self.set(at);
        Turn::Moved
    }
}

/// Once all translations are written, the cache word is.
fn after_remap(remap: Remap) -> RelocateAt
    ensures { result ≡ after_remap remap }
{
    if remap.is_over() {
        RelocateAt::SetCache
    } else {
        RelocateAt::Remap { remap }
    }
}

impl Task for Relocate {
    ghost use Rattle.hwp_soft_move.specs.Relocating as relocating;

    ghost task = { relocating.task };

    fn who(&self) -> Who {
        self.transfer.who
    }

    fn plan(&self) -> Option<Step> {
        match &self.at {
            RelocateAt::Count => Some(Step::CountPoison { hardware: false }),
            RelocateAt::SetOwner => Some(Step::SetOwner {
                frame: self.transfer.to,
                page: self.transfer.page,
                owned: true,
            }),
            RelocateAt::Refer { refer } => refer.plan(),
            RelocateAt::Remap { remap } => remap.plan(),
            RelocateAt::SetCache => Some(Step::SetCache {
                page: self.transfer.page,
                frame: Some(self.transfer.to),
            }),
            RelocateAt::ClearOwner => Some(Step::SetOwner {
                frame: self.transfer.from,
                page: self.transfer.page,
                owned: false,
            }),
            RelocateAt::UnlockFrame => Some(Step::UnlockFrame {
                frame: self.transfer.to,
            }),
            RelocateAt::Release { release } => release.plan(),
            RelocateAt::PutRef => Some(Step::PutRef {
                frame: self.transfer.from,
                count: self.transfer.count.saturating_sub(1),
            }),
            RelocateAt::Retire => Some(Step::Retire {
                frame: self.transfer.from,
            }),
            RelocateAt::UnlockPage => Some(Step::UnlockPage {
                page: self.transfer.page,
            }),
            RelocateAt::Over => None,
        }
    }

    fn give(&mut self) -> Option<Body> {
        match &self.at {
            RelocateAt::UnlockFrame => self.body.take(),
            _ => None,
        }
    }

    fn settle(&mut self, layout: &Layout, found: u64, body: Option<Body>) -> Turn {
        match &mut self.at {
            RelocateAt::Count => self.move_to(RelocateAt::SetOwner, body),
            RelocateAt::SetOwner => self.move_to(self.start_refer(), body),
            RelocateAt::Refer { refer } => {
                let turn = refer.settle(layout, found, body);
                if refer.is_over() {
                    self.set(self.start_remap());
                }
                turn
            }
            RelocateAt::Remap { remap } => {
                remap.settle(&self.maps);
                if remap.is_over() {
                    self.set(RelocateAt::SetCache);
                }
                Turn::Moved
            }
            RelocateAt::SetCache => self.move_to(RelocateAt::ClearOwner, body),
            RelocateAt::ClearOwner => self.move_to(RelocateAt::UnlockFrame, body),
            RelocateAt::UnlockFrame => {
                let release = Release::new(self.transfer.who, self.transfer.to, 1);
                self.move_to(RelocateAt::Release { release }, body)
            }
            RelocateAt::Release { release } => {
                let _turn = release.settle(layout, found, body);
                if release.is_over() {
                    self.set(RelocateAt::PutRef);
                }
                Turn::Moved
            }
            RelocateAt::PutRef => self.move_to(RelocateAt::Retire, body),
            RelocateAt::Retire => self.move_to(RelocateAt::UnlockPage, body),
            RelocateAt::UnlockPage | RelocateAt::Over => self.move_to(RelocateAt::Over, body),
        }
    }
}

impl Ranked for Relocate {
    fn class(&self) -> u8 {
        match &self.at {
            RelocateAt::UnlockPage => 2,
            RelocateAt::Over => 4,
            RelocateAt::Count
            | RelocateAt::SetOwner
            | RelocateAt::Refer { .. }
            | RelocateAt::Remap { .. }
            | RelocateAt::SetCache
            | RelocateAt::ClearOwner
            | RelocateAt::UnlockFrame
            | RelocateAt::Release { .. }
            | RelocateAt::PutRef
            | RelocateAt::Retire => 1,
        }
    }

    fn ranked() {}
}
