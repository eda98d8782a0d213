ghost use Rattle.std.specs.Prelude.{◌≡◌, is_some, is_none};

use hwp_core::{Body, Frame, Layout, Ranked, SharedWord, Step, Task, Turn, Who, let_go_of};

/// Takes a poisoned frame out of the free ones, so that nothing is ever put into it: the frame then has one reference, and
/// the processor has its lock (Linux take_page_off_buddy, within memory_failure).
#[derive(Clone, Copy)]
pub struct Grab {
    who: Who,
    frame: Frame,
    at: GrabAt,
}

#[derive(Clone, Copy)]
enum GrabAt {
    LoadAvailable,
    Reserve { seen: u64 },
    TakeBit,
    Unreserve,
    Adopt,
    LookAgain,
    Grabbed { word: u64 },
}

/// What a `Grab` came to (this project's rule).
#[derive(Clone, Copy)]
pub enum GrabAnswer {
    /// The frame was not to be had: its word has to be looked at again.
    LookAgain,
    /// The frame is taken. Its word was this.
    Grabbed(u64),
}

impl Grab {
    ghost use Rattle.hwp_claim_frame.specs.Grabs.{begin, plan, answer, at_available};

    /// The command takes this frame, which it saw without references.
    pub fn new(who: Who, frame: Frame) -> Grab
        ensures { result ≡ begin who frame }
    {
        Grab {
            who,
            frame,
            at: GrabAt::LoadAvailable,
        }
    }

    /// What the task came to; `None` until it is over.
    pub fn answer(&self) -> Option<GrabAnswer>
        ensures answer { result ≡ answer self.now }
        ensures over { is_some result ≡ is_none (plan self.now) }
    {
        match self.at {
            GrabAt::LookAgain => Some(GrabAnswer::LookAgain),
            GrabAt::Grabbed { word } => Some(GrabAnswer::Grabbed(word)),
            GrabAt::LoadAvailable
            | GrabAt::Reserve { .. }
            | GrabAt::TakeBit
            | GrabAt::Unreserve
            | GrabAt::Adopt => None,
        }
    }

    fn at_available(word: u64) -> GrabAt
        ensures { result ≡ at_available word }
    {
        if word == 0 {
            GrabAt::LookAgain
        } else {
            GrabAt::Reserve { seen: word }
        }
    }
}

impl Task for Grab {
    ghost use Rattle.hwp_claim_frame.specs.Grabs as grabs;

    ghost task = { grabs.task };

    fn who(&self) -> Who {
        self.who
    }

    fn plan(&self) -> Option<Step> {
        match self.at {
            GrabAt::LoadAvailable => Some(Step::Load {
                place: SharedWord::Available,
            }),
            GrabAt::Reserve { seen } => Some(Step::Reserve { seen }),
            GrabAt::TakeBit => Some(Step::TakeBit { frame: self.frame }),
            GrabAt::Unreserve => Some(Step::Unreserve),
            GrabAt::Adopt => Some(Step::Adopt { frame: self.frame }),
            GrabAt::LookAgain | GrabAt::Grabbed { .. } => None,
        }
    }

    fn give(&mut self) -> Option<Body> {
        None
    }

    fn settle(&mut self, _layout: &Layout, found: u64, body: Option<Body>) -> Turn {
        let_go_of(body);
        match self.at {
            GrabAt::LoadAvailable => {
                self.at = Grab::at_available(found);
                if found == 0 {
                    Turn::Waits(found)
                } else {
                    Turn::Moved
                }
            }
            GrabAt::Reserve { seen } => {
                if found == seen {
                    self.at = GrabAt::TakeBit;
                    Turn::Moved
                } else {
                    self.at = Grab::at_available(found);
                    Turn::Changed(found)
                }
            }
            GrabAt::TakeBit => {
                if (Step::TakeBit { frame: self.frame }).goes(found) {
                    self.at = GrabAt::Adopt;
                    Turn::Moved
                } else {
                    self.at = GrabAt::Unreserve;
                    Turn::Waits(found)
                }
            }
            GrabAt::Unreserve => {
                self.at = GrabAt::LookAgain;
                Turn::Moved
            }
            GrabAt::Adopt => {
                self.at = GrabAt::Grabbed { word: found };
                Turn::Moved
            }
            GrabAt::LookAgain | GrabAt::Grabbed { .. } => Turn::Moved,
        }
    }
}

impl Ranked for Grab {
    fn class(&self) -> u8 {
        match self.at {
            GrabAt::LoadAvailable | GrabAt::Reserve { .. } | GrabAt::LookAgain => 4,
            GrabAt::TakeBit | GrabAt::Unreserve | GrabAt::Adopt | GrabAt::Grabbed { .. } => 1,
        }
    }

    fn ranked() {}
}
