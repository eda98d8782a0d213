ghost use Rattle.std.specs.Prelude.{◌≡◌, is_some, is_none};

use crate::let_go::let_go_of;
use crate::release::Release;
use hwp_core_rule::{Body, Frame, Layout, Page, Ranked, Step, Task, Turn, Who};
use std::cmp::min;

/// Lets a page go: its body goes home, to the frame that it is in, which is unlocked and released, or to the page's shelf;
/// and the page is unlocked (this project's rule).
#[derive(Drop)]
pub struct Unhold {
    who: Who,
    page: Page,
    at: UnholdAt,
}

#[derive(Drop)]
enum UnholdAt {
    UnlockFrame {
        frame: Frame,
        count: u32,
        body: Option<Body>,
    },
    Release {
        release: Release,
    },
    UnlockPage {
        body: Option<Body>,
    },
    Over,
}

/// What an `Unhold` came to (this project's rule).
#[derive(Clone, Copy, PartialEq, Eq)]
pub enum UnholdAnswer {
    /// The page is let go.
    Done,
}

impl Unhold {
    ghost use Rattle.hwp_core.specs.Unholds.{begin, plan, answer};

    /// The command lets the page go, with the frame that it is in, if any, so many references to that frame, and the
    /// page's body.
    pub fn new(who: Who, page: Page, frame: Option<Frame>, count: u32, body: Body) -> Unhold
        ensures { result ≡ begin who page frame count body }
    {
        Unhold {
            who,
            page,
            at: match frame {
                Some(frame) => UnholdAt::UnlockFrame {
                    frame,
                    count,
                    body: Some(body),
                },
                None => UnholdAt::UnlockPage { body: Some(body) },
            },
        }
    }

    /// Whether the page is let go.
    pub fn is_over(&self) -> bool
        ensures { result ≡ is_none (plan self.now) }
    {
        match self.at {
            UnholdAt::UnlockFrame { .. } | UnholdAt::UnlockPage { .. } => false,
            UnholdAt::Release { release } => release.is_over(),
            UnholdAt::Over => true,
        }
    }

    /// What the task came to; `None` until it is over.
    pub fn answer(&self) -> Option<UnholdAnswer>
        ensures answer { result ≡ answer self.now }
        ensures over { is_some result ≡ is_none (plan self.now) }
    {
        if self.is_over() {
            Some(UnholdAnswer::Done)
        } else {
            None
        }
    }

    fn set(&mut self, at: UnholdAt)
        ensures { self.new ≡ record self.old { at = at } }
    {
        self.at = at;
    }
}

impl Task for Unhold {
    ghost use Rattle.hwp_core.specs.Unholds as unholds;

    ghost task = { unholds.task };

    fn who(&self) -> Who {
        self.who
    }

    fn plan(&self) -> Option<Step> {
        match self.at {
            UnholdAt::UnlockFrame { frame, .. } => Some(Step::UnlockFrame { frame }),
            UnholdAt::Release { release } => release.plan(),
            UnholdAt::UnlockPage { .. } => Some(Step::UnlockPage { page: self.page }),
            UnholdAt::Over => None,
        }
    }

    fn give(&mut self) -> Option<Body> {
        match &mut self.at {
            UnholdAt::UnlockFrame { body, .. } => body.take(),
            UnholdAt::UnlockPage { body } => body.take(),
            UnholdAt::Release { .. } | UnholdAt::Over => None,
        }
    }

    fn settle(&mut self, layout: &Layout, found: u64, body: Option<Body>) -> Turn {
        match &mut self.at {
            UnholdAt::UnlockFrame { frame, count, .. } => {
                let_go_of(body);
                let release = Release::new(self.who, *frame, *count);
                self.set(UnholdAt::Release { release });
                Turn::Moved
            }
            UnholdAt::Release { release } => {
                let turn = release.settle(layout, found, body);
                if release.is_over() {
                    self.set(UnholdAt::UnlockPage { body: None });
                }
                turn
            }
            UnholdAt::UnlockPage { .. } => {
                let_go_of(body);
                self.set(UnholdAt::Over);
                Turn::Moved
            }
            UnholdAt::Over => {
                let_go_of(body);
                Turn::Moved
            }
        }
    }
}

impl Ranked for Unhold {
    fn class(&self) -> u8 {
        match self.at {
            UnholdAt::UnlockFrame { .. } => 1,
            UnholdAt::Release { release } => min(release.class(), 2),
            UnholdAt::UnlockPage { .. } => 2,
            UnholdAt::Over => 4,
        }
    }

    fn ranked() {}
}
