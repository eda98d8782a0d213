ghost use Rattle.std.specs.Prelude.{◌≡◌, Option};
ghost use Rattle.hwp_soft_move.specs.Discards.{begin, answer, poisoned};

use hwp_claim_frame::{
    Body, Frame, FrameWord, Layout, Ranked, Step, Task, Turn, Unlock, Who, let_go_of,
};

/// Puts a locked frame in which no page is out of use: poisons it, counts that, and retires it (Linux page_handle_poison).
#[derive(Drop)]
pub struct Discard {
    who: Who,
    frame: Frame,
    at: DiscardAt,
}

#[derive(Drop)]
enum DiscardAt {
    /// The frame was free before, or in use.
    Poison { used: bool },
    Count { cycle: u32 },
    /// `None` where the frame was poisoned already.
    Retire { cycle: Option<u32> },
    Unlock { unlock: Unlock },
    Over { cycle: Option<u32> },
}

impl Discard {
    /// The command has the frame's lock and one reference to it. It was in use, or free.
    pub fn new(who: Who, frame: Frame, used: bool) -> Discard
        ensures { result ≡ begin who frame used }
    {
        Discard {
            who,
            frame,
            at: DiscardAt::Poison { used },
        }
    }

    /// In which cycle of the frame it is poisoned, `Some(None)` where it was poisoned already; `None` until the frame is let go.
    pub fn answer(&self) -> Option<Option<u32>>
        ensures { result ≡ answer self.now }
    {
        match &self.at {
            DiscardAt::Over { cycle } => Some(*cycle),
            DiscardAt::Poison { .. }
            | DiscardAt::Count { .. }
            | DiscardAt::Retire { .. }
            | DiscardAt::Unlock { .. } => None,
        }
    }

    fn set(&mut self, at: DiscardAt)
        ensures { self.new ≡ record self.old { at = at } }
    {
        self.at = at;
    }
}

/// A frame that was poisoned already goes out of use where it was free before, and else is let go.
fn poisoned(who: Who, frame: Frame, used: bool, found: u64) -> DiscardAt
    ensures { result ≡ poisoned who frame used found }
{
    let word = FrameWord::unpack(found);
    if !word.poisoned {
        DiscardAt::Count { cycle: word.cycle }
    } else if used {
        DiscardAt::Unlock {
            unlock: Unlock::new(who, frame, None),
        }
    } else {
        DiscardAt::Retire { cycle: None }
    }
}

impl Task for Discard {
    ghost use Rattle.hwp_soft_move.specs.Discards as discards;

    ghost task = { discards.task };

    fn who(&self) -> Who {
        self.who
    }

    fn plan(&self) -> Option<Step> {
        match &self.at {
            DiscardAt::Poison { .. } => Some(Step::Poison {
                frame: self.frame,
                hardware: false,
            }),
            DiscardAt::Count { .. } => Some(Step::CountPoison { hardware: false }),
            DiscardAt::Retire { .. } => Some(Step::Retire { frame: self.frame }),
            DiscardAt::Unlock { unlock } => unlock.plan(),
            DiscardAt::Over { .. } => None,
        }
    }

    fn give(&mut self) -> Option<Body> {
        match &mut self.at {
            DiscardAt::Unlock { unlock } => unlock.give(),
            _ => None,
        }
    }

    fn settle(&mut self, layout: &Layout, found: u64, body: Option<Body>) -> Turn {
        match &mut self.at {
            DiscardAt::Poison { used } => {
                let at = poisoned(self.who, self.frame, *used, found);
                let_go_of(body);
                self.set(at);
                Turn::Moved
            }
            DiscardAt::Count { cycle } => {
                let cycle = Some(*cycle);
                let_go_of(body);
                self.set(DiscardAt::Retire { cycle });
                Turn::Moved
            }
            DiscardAt::Retire { cycle } => {
                let cycle = *cycle;
                let_go_of(body);
                self.set(DiscardAt::Over { cycle });
                Turn::Moved
            }
            DiscardAt::Unlock { unlock } => {
                let _turn = unlock.settle(layout, found, body);
                if unlock.is_over() {
                    self.set(DiscardAt::Over { cycle: None });
                }
                Turn::Moved
            }
            DiscardAt::Over { .. } => {
                let_go_of(body);
                Turn::Moved
            }
        }
    }
}

impl Ranked for Discard {
    fn class(&self) -> u8 {
        match &self.at {
            DiscardAt::Poison { .. } | DiscardAt::Count { .. } | DiscardAt::Retire { .. } => 1,
            DiscardAt::Unlock { unlock } => unlock.class(),
            DiscardAt::Over { .. } => 4,
        }
    }

    fn ranked() {}
}
