ghost use Rattle.std.specs.Prelude.{◌≡◌, is_some, is_none};

use hwp_core_rule::{Body, Frame, FrameWord, Layout, Ranked, Step, Task, Turn, Who};

/// Gives references to a frame back. Where they were its last ones the frame becomes free, or, where it is poisoned, is
/// retired (Linux put_page).
#[derive(Clone, Copy)]
pub struct Release {
    who: Who,
    frame: Frame,
    count: u32,
    at: ReleaseAt,
}

#[derive(Clone, Copy)]
enum ReleaseAt {
    Put,
    Give { word: u64 },
    Unreserve { word: u64 },
    Adopt { word: u64 },
    Retire { word: u64 },
    Back { word: u64 },
}

/// What a `Release` came to, by the word of the frame that giving the references back showed (this project's rule).
#[derive(Clone, Copy, PartialEq, Eq)]
pub enum ReleaseAnswer {
    /// The references are given back: others are left, or the frame wasn't poisoned and is free.
    Done,
    /// They were the last ones of a poisoned frame, which is retired.
    Retired,
}

impl Release {
    ghost use Rattle.hwp_core.specs.Releases.{begin, plan, answer, answer_of};

    /// The command gives so many references to the frame back.
    pub fn new(who: Who, frame: Frame, count: u32) -> Release
        ensures { result ≡ begin who frame count }
    {
        Release {
            who,
            frame,
            count,
            at: ReleaseAt::Put,
        }
    }

    /// Whether the references are given back.
    pub fn is_over(&self) -> bool
        ensures { result ≡ is_none (plan self.now) }
    {
        matches!(self.at, ReleaseAt::Back { .. })
    }

    /// What the task came to; `None` until it is over.
    pub fn answer(&self) -> Option<ReleaseAnswer>
        ensures answer { result ≡ answer self.now }
        ensures over { is_some result ≡ is_none (plan self.now) }
    {
        match self.at {
            ReleaseAt::Put
            | ReleaseAt::Give { .. }
            | ReleaseAt::Unreserve { .. }
            | ReleaseAt::Adopt { .. }
            | ReleaseAt::Retire { .. } => None,
            ReleaseAt::Back { word } => Some(Release::answer_of(self.count, word)),
        }
    }

    fn answer_of(count: u32, word: u64) -> ReleaseAnswer
        ensures { result ≡ answer_of count word }
    {
        let frame = FrameWord::unpack(word);
        if frame.count == count && frame.poisoned {
            ReleaseAnswer::Retired
        } else {
            ReleaseAnswer::Done
        }
    }
}

impl Release {
    ghost use Rattle.hwp_core.specs.Releases.{next_at};
    ghost use Rattle.hwp_core.specs.declared.release.ReleaseAt.TheVariants.{Put};

    fn after_put(count: u32, found: u64) -> ReleaseAt
        ensures { result ≡ next_at count Put found }
    {
        let word = FrameWord::unpack(found);
        if word.count != count {
            ReleaseAt::Back { word: found }
        } else if word.poisoned {
            ReleaseAt::Adopt { word: found }
        } else {
            ReleaseAt::Give { word: found }
        }
    }
}

impl Task for Release {
    ghost use Rattle.hwp_core.specs.Releases as releases;

    ghost task = { releases.task };

    fn who(&self) -> Who {
        self.who
    }

    fn plan(&self) -> Option<Step> {
        match self.at {
            ReleaseAt::Put => Some(Step::PutRef {
                frame: self.frame,
                count: self.count,
            }),
            ReleaseAt::Give { .. } => Some(Step::GiveBit { frame: self.frame }),
            ReleaseAt::Unreserve { .. } => Some(Step::Unreserve),
            ReleaseAt::Adopt { .. } => Some(Step::Adopt { frame: self.frame }),
            ReleaseAt::Retire { .. } => Some(Step::Retire { frame: self.frame }),
            ReleaseAt::Back { .. } => None,
        }
    }

    fn give(&mut self) -> Option<Body> {
        None
    }

    fn settle(&mut self, _layout: &Layout, found: u64, _body: Option<Body>) -> Turn {
        self.at = match self.at {
            ReleaseAt::Put => Release::after_put(self.count, found),
            ReleaseAt::Give { word } => ReleaseAt::Unreserve { word },
            ReleaseAt::Adopt { word } => ReleaseAt::Retire { word },
            ReleaseAt::Unreserve { word } | ReleaseAt::Retire { word } | ReleaseAt::Back { word } =>
                { ReleaseAt::Back { word } }
        };
        Turn::Moved
    }
}

impl Ranked for Release {
    fn class(&self) -> u8 {
        match self.at {
            ReleaseAt::Put | ReleaseAt::Back { .. } => 4,
            ReleaseAt::Give { .. }
            | ReleaseAt::Unreserve { .. }
            | ReleaseAt::Adopt { .. }
            | ReleaseAt::Retire { .. } => 1,
        }
    }

    fn ranked() {}
}
