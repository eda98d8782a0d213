ghost use Rattle.std.specs.Prelude.{◌≡◌, is_none};

use crate::let_go::let_go_of;
use hwp_core_rule::{Body, Frame, Layout, Ranked, SharedWord, Step, Task, Turn, Who};

/// Takes more references to a frame that the processor has references to already (Linux get_page).
#[derive(Clone, Copy)]
pub struct Refer {
    who: Who,
    frame: Frame,
    count: u32,
    at: ReferAt,
}

#[derive(Clone, Copy)]
enum ReferAt {
    Load,
    Get { seen: u64 },
    Over,
}

impl Refer {
    ghost use Rattle.hwp_core.specs.Refers.{begin, plan};

    /// The command takes so many references to the frame more.
    pub fn new(who: Who, frame: Frame, count: u32) -> Refer
        ensures { result ≡ begin who frame count }
    {
        Refer {
            who,
            frame,
            count,
            at: ReferAt::Load,
        }
    }

    /// The frame.
    pub fn frame(&self) -> Frame
        ensures { result ≡ self.now.frame }
    {
        self.frame
    }

    /// Whether the references are taken.
    pub fn is_over(&self) -> bool
        ensures { result ≡ is_none (plan self.now) }
    {
        matches!(self.at, ReferAt::Over)
    }
}

impl Task for Refer {
    ghost use Rattle.hwp_core.specs.Refers as refers;

    ghost task = { refers.task };

    fn who(&self) -> Who {
        self.who
    }

    fn plan(&self) -> Option<Step> {
        match self.at {
            ReferAt::Load => Some(Step::Load {
                place: SharedWord::Frame(self.frame),
            }),
            ReferAt::Get { seen } => Some(Step::GetRef {
                frame: self.frame,
                seen,
                count: self.count,
            }),
            ReferAt::Over => None,
        }
    }

    fn give(&mut self) -> Option<Body> {
        None
    }

    fn settle(&mut self, _layout: &Layout, found: u64, body: Option<Body>) -> Turn {
        let_go_of(body);
        match self.at {
            ReferAt::Load => {
                self.at = ReferAt::Get { seen: found };
                Turn::Moved
            }
            ReferAt::Get { seen } => {
                if found == seen {
                    self.at = ReferAt::Over;
                    Turn::Moved
                } else {
                    self.at = ReferAt::Get { seen: found };
                    Turn::Changed(found)
                }
            }
            ReferAt::Over => Turn::Moved,
        }
    }
}

impl Ranked for Refer {
    fn class(&self) -> u8 {
        4
    }

    fn ranked() {}
}
