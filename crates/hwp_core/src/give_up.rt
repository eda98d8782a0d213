ghost use Rattle.std.specs.Prelude.{◌≡◌, Option, is_none};

use crate::let_go::let_go_of;
use crate::unhold::Unhold;
use crate::unlock::Unlock;
use hwp_core_rule::{Body, Frame, Layout, Page, Ranked, Step, Task, Turn, Who};

/// Ends a command for which memory was refused: its body goes home, what it holds is let go, and the stop word tells the
/// other processors. That last turn is `NoMemory` (this project's rule).
#[derive(Drop)]
pub struct GiveUp {
    who: Who,
    at: GiveUpAt,
}

#[derive(Drop)]
enum GiveUpAt {
    Unhold { unhold: Unhold },
    Unlock { unlock: Unlock },
    GiveUp,
    Over,
}

impl GiveUp {
    ghost use Rattle.hwp_core.specs.GiveUps.{with_page, with_frame, plan};

    /// The command holds the page, with the frame that it is in, if any, so many references to that frame, and the page's
    /// body.
    pub fn with_page(who: Who, page: Page, frame: Option<Frame>, count: u32, body: Body) -> GiveUp
        ensures { result ≡ with_page who page frame count body }
    {
        GiveUp {
            who,
            at: GiveUpAt::Unhold {
                unhold: Unhold::new(who, page, frame, count, body),
            },
        }
    }

    /// The command has the frame's lock, one reference to it and the body that was in it, but not the page's lock.
    pub fn with_frame(who: Who, frame: Frame, body: Body) -> GiveUp
        ensures { result ≡ with_frame who frame body }
    {
        GiveUp {
            who,
            at: GiveUpAt::Unlock {
                unlock: Unlock::new(who, frame, Some(body)),
            },
        }
    }

    /// Whether the command has ended.
    pub fn is_over(&self) -> bool
        ensures { result ≡ is_none (plan self.now) }
    {
        match &self.at {
            GiveUpAt::Unhold { unhold } => unhold.is_over(),
            GiveUpAt::Unlock { unlock } => unlock.is_over(),
            GiveUpAt::GiveUp => false,
            GiveUpAt::Over => true,
        }
    }

    fn set(&mut self, at: GiveUpAt)
        ensures { self.new ≡ record self.old { at = at } }
    {
        self.at = at;
    }
}

impl Task for GiveUp {
    ghost use Rattle.hwp_core.specs.GiveUps as give_ups;

    ghost task = { give_ups.task };

    fn who(&self) -> Who {
        self.who
    }

    fn plan(&self) -> Option<Step> {
        match &self.at {
            GiveUpAt::Unhold { unhold } => unhold.plan(),
            GiveUpAt::Unlock { unlock } => unlock.plan(),
            GiveUpAt::GiveUp => Some(Step::GiveUp),
            GiveUpAt::Over => None,
        }
    }

    fn give(&mut self) -> Option<Body> {
        match &mut self.at {
            GiveUpAt::Unhold { unhold } => unhold.give(),
            GiveUpAt::Unlock { unlock } => unlock.give(),
            GiveUpAt::GiveUp | GiveUpAt::Over => None,
        }
    }

    fn settle(&mut self, layout: &Layout, found: u64, body: Option<Body>) -> Turn {
        match &mut self.at {
            GiveUpAt::Unhold { unhold } => {
                let turn = unhold.settle(layout, found, body);
                if unhold.is_over() {
                    self.set(GiveUpAt::GiveUp);
                }
                turn
            }
            GiveUpAt::Unlock { unlock } => {
                let turn = unlock.settle(layout, found, body);
                if unlock.is_over() {
                    self.set(GiveUpAt::GiveUp);
                }
                turn
            }
            GiveUpAt::GiveUp => {
                let_go_of(body);
                self.set(GiveUpAt::Over);
                Turn::NoMemory
            }
            GiveUpAt::Over => {
                let_go_of(body);
                Turn::Moved
            }
        }
    }
}

impl Ranked for GiveUp {
    fn class(&self) -> u8 {
        match &self.at {
            GiveUpAt::Unhold { unhold } => unhold.class(),
            GiveUpAt::Unlock { unlock } => unlock.class(),
            GiveUpAt::GiveUp | GiveUpAt::Over => 4,
        }
    }

    fn ranked() {}
}
