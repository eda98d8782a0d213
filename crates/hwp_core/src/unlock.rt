ghost use Rattle.std.specs.Prelude.{◌≡◌, Option, is_none};

use crate::let_go::let_go_of;
use crate::release::Release;
use hwp_core_rule::{Body, Frame, Layout, Ranked, Step, Task, Turn, Who};

/// Lets a frame go that is held without its page: its body, if it has one, goes home, the frame is unlocked, and its
/// reference is given back (this project's rule).
#[derive(Drop)]
pub struct Unlock {
    who: Who,
    at: UnlockAt,
}

#[derive(Drop)]
enum UnlockAt {
    UnlockFrame { frame: Frame, body: Option<Body> },
    Release { release: Release },
    Over,
}

impl Unlock {
    ghost use Rattle.hwp_core.specs.Unlocks.{begin, plan};

    /// The command has the frame's lock, one reference to it and the body that was in it, if any, but no page's lock.
    pub fn new(who: Who, frame: Frame, body: Option<Body>) -> Unlock
        ensures { result ≡ begin who frame body }
    {
        Unlock {
            who,
            at: UnlockAt::UnlockFrame { frame, body },
        }
    }

    /// Whether the frame is let go.
    pub fn is_over(&self) -> bool
        ensures { result ≡ is_none (plan self.now) }
    {
        match &self.at {
            UnlockAt::UnlockFrame { .. } => false,
            UnlockAt::Release { release } => release.is_over(),
            UnlockAt::Over => true,
        }
    }

    fn set(&mut self, at: UnlockAt)
        ensures { self.new ≡ record self.old { at = at } }
    {
        self.at = at;
    }
}

impl Task for Unlock {
    ghost use Rattle.hwp_core.specs.Unlocks as unlocks;

    ghost task = { unlocks.task };

    fn who(&self) -> Who {
        self.who
    }

    fn plan(&self) -> Option<Step> {
        match &self.at {
            UnlockAt::UnlockFrame { frame, .. } => Some(Step::UnlockFrame { frame: *frame }),
            UnlockAt::Release { release } => release.plan(),
            UnlockAt::Over => None,
        }
    }

    fn give(&mut self) -> Option<Body> {
        match &mut self.at {
            UnlockAt::UnlockFrame { body, .. } => body.take(),
            UnlockAt::Release { .. } | UnlockAt::Over => None,
        }
    }

    fn settle(&mut self, layout: &Layout, found: u64, body: Option<Body>) -> Turn {
        match &mut self.at {
            UnlockAt::UnlockFrame { frame, .. } => {
                let_go_of(body);
                let release = Release::new(self.who, *frame, 1);
                self.set(UnlockAt::Release { release });
                Turn::Moved
            }
            UnlockAt::Release { release } => {
                let turn = release.settle(layout, found, body);
                if release.is_over() {
                    self.set(UnlockAt::Over);
                }
                turn
            }
            UnlockAt::Over => {
                let_go_of(body);
                Turn::Moved
            }
        }
    }
}

impl Ranked for Unlock {
    fn class(&self) -> u8 {
        match &self.at {
            UnlockAt::UnlockFrame { .. } => 1,
            UnlockAt::Release { release } => release.class(),
            UnlockAt::Over => 4,
        }
    }

    fn ranked() {}
}
