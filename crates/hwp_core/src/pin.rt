ghost use Rattle.std.specs.Prelude.{◌≡◌, is_some, is_none};

use hwp_core_rule::{Body, Frame, FrameWord, Layout, Ranked, SharedWord, Step, Task, Turn, Who};

/// Takes one reference to a frame, where it is in use (Linux get_page_unless_zero).
#[derive(Clone, Copy)]
pub struct Pin {
    who: Who,
    frame: Frame,
    at: PinAt,
}

#[derive(Clone, Copy)]
enum PinAt {
    Load,
    Get { seen: u64 },
    Held { word: u64 },
    Gone { word: u64 },
}

/// What a `Pin` came to, with the word of the frame from which it follows (this project's rule).
#[derive(Clone, Copy)]
pub enum PinAnswer {
    /// The processor has the reference; the word was this before.
    Held(u64),
    /// The frame has no reference, or its failure was handled. None was taken.
    Gone(u64),
}

impl Pin {
    ghost use Rattle.hwp_core.specs.Pins.{begin, plan, answer, at_word};

    /// The command takes a reference to the frame.
    pub fn new(who: Who, frame: Frame) -> Pin
        ensures { result ≡ begin who frame }
    {
        Pin {
            who,
            frame,
            at: PinAt::Load,
        }
    }

    /// What the task came to; `None` until it is over.
    pub fn answer(&self) -> Option<PinAnswer>
        ensures answer { result ≡ answer self.now }
        ensures over { is_some result ≡ is_none (plan self.now) }
    {
        match self.at {
            PinAt::Load | PinAt::Get { .. } => None,
            PinAt::Held { word } => Some(PinAnswer::Held(word)),
            PinAt::Gone { word } => Some(PinAnswer::Gone(word)),
        }
    }

    /// The frame.
    pub fn frame(&self) -> Frame
        ensures { result ≡ self.now.frame }
    {
        self.frame
    }

    fn at_word(word: u64) -> PinAt
        ensures { result ≡ at_word word }
    {
        let frame = FrameWord::unpack(word);
        if frame.count == 0 || frame.handled {
            PinAt::Gone { word }
        } else {
            PinAt::Get { seen: word }
        }
    }
}

impl Task for Pin {
    ghost use Rattle.hwp_core.specs.Pins as pins;

    ghost task = { pins.task };

    fn who(&self) -> Who {
        self.who
    }

    fn plan(&self) -> Option<Step> {
        match self.at {
            PinAt::Load => Some(Step::Load {
                place: SharedWord::Frame(self.frame),
            }),
            PinAt::Get { seen } => Some(Step::GetRef {
                frame: self.frame,
                seen,
                count: 1,
            }),
            PinAt::Held { .. } | PinAt::Gone { .. } => None,
        }
    }

    fn give(&mut self) -> Option<Body> {
        None
    }

    fn settle(&mut self, _layout: &Layout, found: u64, _body: Option<Body>) -> Turn {
        match self.at {
            PinAt::Load => {
                self.at = Pin::at_word(found);
                Turn::Moved
            }
            PinAt::Get { seen } => {
                if found == seen {
                    self.at = PinAt::Held { word: seen };
                    Turn::Moved
                } else {
                    self.at = Pin::at_word(found);
                    Turn::Changed(found)
                }
            }
            PinAt::Held { .. } | PinAt::Gone { .. } => Turn::Moved,
        }
    }
}

impl Ranked for Pin {
    fn class(&self) -> u8 {
        4
    }

    fn ranked() {}
}
