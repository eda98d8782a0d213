ghost use Rattle.std.specs.Prelude.{◌≡◌, ◌^◌, ◌<◌, is_some, is_none};

use hwp_core::{
    Body, Frame, FrameWord, FreeWord, Layout, Ranked, SharedWord, Step, Task, Turn, Who, let_go_of,
};

/// Takes a free frame, the lowest that it is shown: it then has one reference, and the processor has its lock. A poisoned one
/// is retired, and another one looked for (Linux alloc_page).
#[derive(Clone, Copy)]
pub struct Take {
    who: Who,
    at: TakeAt,
}

#[derive(Clone, Copy)]
enum TakeAt {
    LoadAvailable,
    Reserve { seen: u64 },
    LoadFree { number: u32 },
    TakeBit { frame: Frame },
    Adopt { frame: Frame },
    Retire { frame: Frame },
    Over { frame: Option<Frame> },
}

/// What a `Take` came to (this project's rule).
#[derive(Clone, Copy, PartialEq, Eq)]
pub enum TakeAnswer {
    /// The frame is taken.
    Taken(Frame),
    /// No frame was available.
    NoFrame,
}

impl Take {
    ghost use Rattle.hwp_evict.specs.Takes.{begin, plan, answer, at_available, at_adopted, at_free, after_word, has_bit};

    /// The command takes a free frame.
    pub fn new(who: Who) -> Take
        ensures { result ≡ begin who }
    {
        Take {
            who,
            at: TakeAt::LoadAvailable,
        }
    }

    /// What the task came to; `None` until it is over.
    pub fn answer(&self) -> Option<TakeAnswer>
        ensures answer { result ≡ answer self.now }
        ensures over { is_some result ≡ is_none (plan self.now) }
    {
        match self.at {
            TakeAt::Over { frame: Some(frame) } => Some(TakeAnswer::Taken(frame)),
            TakeAt::Over { frame: None } => Some(TakeAnswer::NoFrame),
            TakeAt::LoadAvailable
            | TakeAt::Reserve { .. }
            | TakeAt::LoadFree { .. }
            | TakeAt::TakeBit { .. }
            | TakeAt::Adopt { .. }
            | TakeAt::Retire { .. } => None,
        }
    }

    fn at_available(word: u64) -> TakeAt
        ensures { result ≡ at_available word }
    {
        if word == 0 {
            TakeAt::Over { frame: None }
        } else {
            TakeAt::Reserve { seen: word }
        }
    }

    fn after_word(layout: &Layout, number: u32) -> u32
        requires { number < 2 ^ 10 }
        ensures { result ≡ after_word layout.now number }
    {
        let words = (u32::from(layout.frames) + 63) / 64;
        if number + 1 < words { number + 1 } else { 0 }
    }

    fn at_free(layout: &Layout, number: u32, word: u64) -> TakeAt
        requires { number < 2 ^ 10 }
        ensures { result ≡ at_free layout.now number word }
    {
        match FreeWord::unpack(word).lowest() {
            Some(bit) => TakeAt::TakeBit {
                frame: Frame((number * 64 + bit) as u16),
            },
            None => TakeAt::LoadFree {
                number: Take::after_word(layout, number),
            },
        }
    }

    fn at_adopted(frame: Frame, word: u64) -> TakeAt
        ensures { result ≡ at_adopted frame word }
    {
        if FrameWord::unpack(word).poisoned {
            TakeAt::Retire { frame }
        } else {
            TakeAt::Over { frame: Some(frame) }
        }
    }
}

ghost use Rattle.hwp_evict.specs.Takes.{has_bit};

/// The free word has the frame's bit.
fn has_bit(frame: Frame, word: u64) -> bool
    ensures { result ≡ has_bit frame word }
{
    (word >> (u32::from(frame.0) % 64)) % 2 == 1
}

impl Task for Take {
    ghost use Rattle.hwp_evict.specs.Takes as takes;

    ghost task = { takes.task };

    fn who(&self) -> Who {
        self.who
    }

    fn plan(&self) -> Option<Step> {
        match self.at {
            TakeAt::LoadAvailable => Some(Step::Load {
                place: SharedWord::Available,
            }),
            TakeAt::Reserve { seen } => Some(Step::Reserve { seen }),
            TakeAt::LoadFree { number } => Some(Step::Load {
                place: SharedWord::Free(number),
            }),
            TakeAt::TakeBit { frame } => Some(Step::TakeBit { frame }),
            TakeAt::Adopt { frame } => Some(Step::Adopt { frame }),
            TakeAt::Retire { frame } => Some(Step::Retire { frame }),
            TakeAt::Over { .. } => None,
        }
    }

    fn give(&mut self) -> Option<Body> {
        None
    }

    fn settle(&mut self, layout: &Layout, found: u64, body: Option<Body>) -> Turn {
        let_go_of(body);
        match self.at {
            TakeAt::LoadAvailable => {
                self.at = Take::at_available(found);
                Turn::Moved
            }
            TakeAt::Reserve { seen } => {
                if found == seen {
                    self.at = TakeAt::LoadFree { number: 0 };
                    Turn::Moved
                } else {
                    self.at = Take::at_available(found);
                    Turn::Changed(found)
                }
            }
            TakeAt::LoadFree { number } => {
                self.at = Take::at_free(layout, number, found);
                Turn::Moved
            }
            TakeAt::TakeBit { frame } => {
                if has_bit(frame, found) {
                    self.at = TakeAt::Adopt { frame };
                    Turn::Moved
                } else {
                    let number = u32::from(frame.0) / 64;
                    self.at = TakeAt::LoadFree { number };
                    Turn::Changed(found)
                }
            }
            TakeAt::Adopt { frame } => {
                self.at = Take::at_adopted(frame, found);
                Turn::Moved
            }
            TakeAt::Retire { .. } => {
                self.at = TakeAt::LoadAvailable;
                Turn::Moved
            }
            TakeAt::Over { .. } => Turn::Moved,
        }
    }
}

impl Ranked for Take {
    fn class(&self) -> u8 {
        match self.at {
            TakeAt::LoadAvailable | TakeAt::Reserve { .. } | TakeAt::Over { frame: None } => 4,
            TakeAt::LoadFree { .. }
            | TakeAt::TakeBit { .. }
            | TakeAt::Adopt { .. }
            | TakeAt::Retire { .. }
            | TakeAt::Over { frame: Some(_) } => 1,
        }
    }

    fn ranked() {}
}
