ghost use Rattle.std.specs.Prelude.{◌≡◌, is_none};
ghost use Rattle.hwp_core.specs.Vacates.{begin, plan};

use crate::let_go::let_go_of;
use crate::release::Release;
use hwp_core_rule::{Body, Frame, Layout, Page, Ranked, Step, Task, Turn, Who};
use std::cmp::min;

/// Takes a page that is held out of its frame: the page's cache word names no frame and the frame gets no owner, the frame is
/// unlocked and released, the page's body goes onto its shelf, and the page is unlocked (this project's rule).
#[derive(Drop)]
pub struct Vacate {
    who: Who,
    page: Page,
    frame: Frame,
    count: u32,
    body: Option<Body>,
    at: VacateAt,
}

#[derive(Clone, Copy)]
enum VacateAt {
    SetCache,
    SetOwner,
    UnlockFrame,
    Release { release: Release },
    UnlockPage,
    Over,
}

impl Vacate {
    /// The command takes the page out of the frame. It has so many references to the frame, less that of the cache word.
    pub fn new(who: Who, page: Page, frame: Frame, count: u32, body: Body) -> Vacate
        ensures { result ≡ begin who page frame count body }
    {
        Vacate {
            who,
            page,
            frame,
            count,
            body: Some(body),
            at: VacateAt::SetCache,
        }
    }

    /// Whether the page is let go.
    pub fn is_over(&self) -> bool
        ensures { result ≡ is_none (plan self.now) }
    {
        match &self.at {
            VacateAt::SetCache
            | VacateAt::SetOwner
            | VacateAt::UnlockFrame
            | VacateAt::UnlockPage => false,
            VacateAt::Release { release } => release.is_over(),
            VacateAt::Over => true,
        }
    }
}

impl Task for Vacate {
    ghost use Rattle.hwp_core.specs.Vacates as vacates;

    ghost task = { vacates.task };

    fn who(&self) -> Who {
        self.who
    }

    fn plan(&self) -> Option<Step> {
        match &self.at {
            VacateAt::SetCache => Some(Step::SetCache {
                page: self.page,
                frame: None,
            }),
            VacateAt::SetOwner => Some(Step::SetOwner {
                frame: self.frame,
                page: self.page,
                owned: false,
            }),
            VacateAt::UnlockFrame => Some(Step::UnlockFrame { frame: self.frame }),
            VacateAt::Release { release } => release.plan(),
            VacateAt::UnlockPage => Some(Step::UnlockPage { page: self.page }),
            VacateAt::Over => None,
        }
    }

    fn give(&mut self) -> Option<Body> {
        match self.at {
            VacateAt::UnlockPage => self.body.take(),
            _ => None,
        }
    }

    fn settle(&mut self, layout: &Layout, found: u64, body: Option<Body>) -> Turn {
        match &mut self.at {
            VacateAt::SetCache => {
                let_go_of(body);
                self.at = VacateAt::SetOwner;
                Turn::Moved
            }
            VacateAt::SetOwner => {
                let_go_of(body);
                self.at = VacateAt::UnlockFrame;
                Turn::Moved
            }
            VacateAt::UnlockFrame => {
                let_go_of(body);
                self.at = VacateAt::Release {
                    release: Release::new(self.who, self.frame, self.count),
                };
                Turn::Moved
            }
            VacateAt::Release { release } => {
                let turn = release.settle(layout, found, body);
                if release.is_over() {
                    self.at = VacateAt::UnlockPage;
                }
                turn
            }
            VacateAt::UnlockPage => {
                let_go_of(body);
                self.at = VacateAt::Over;
                Turn::Moved
            }
            VacateAt::Over => {
                let_go_of(body);
                Turn::Moved
            }
        }
    }
}

impl Ranked for Vacate {
    fn class(&self) -> u8 {
        match &self.at {
            VacateAt::SetCache | VacateAt::SetOwner | VacateAt::UnlockFrame => 1,
            VacateAt::Release { release } => min(release.class(), 2),
            VacateAt::UnlockPage => 2,
            VacateAt::Over => 4,
        }
    }

    fn ranked() {}
}
