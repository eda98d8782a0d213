ghost use Rattle.std.specs.Prelude.{◌≡◌};
ghost use Rattle.hwp_claim_frame.specs.hwp_core_rule.declared.Turn.TheVariants.{Moved};
ghost use Rattle.hwp_soft.specs.Unpoisons.{after_bad, after_count, after_frame, after_revive, after_stop, answer, begin, is_revivable};

use hwp_claim_frame::{
    Body, CounterWord, Frame, FrameWord, Layout, Mask, Ranked, Scheduled, SharedWord, Step, Task,
    Turn, Who, is_stopped,
};

/// What an `Unpoison` came to (this project's rule).
#[derive(Clone, Copy)]
pub enum UnpoisonAnswer {
    /// The frame's poison of this cycle is taken back, and the frame is free.
    Done { cycle: u32 },
    /// A processor had stopped the machine.
    Stopped,
    /// The frame wasn't poisoned.
    NotPoisoned,
    /// The hardware had reported a failure.
    HardwareSeen,
    /// The frame has these bad lines.
    HasBad(Mask),
    /// The frame was in use, with so many references.
    InUse { count: u32 },
}

/// Takes a frame's poison back: a frame that failed comes into use again (Linux unpoison_memory).
#[derive(Clone, Copy)]
pub struct Unpoison {
    who: Who,
    frame: Frame,
    at: UnpoisonAt,
}

#[derive(Clone, Copy)]
enum UnpoisonAt {
    LoadStop,
    LoadFrame,
    LoadCount { seen: u64 },
    LoadBad { seen: u64 },
    Revive { seen: u64 },
    Uncount { cycle: u32 },
    GiveBit { cycle: u32 },
    Unreserve { cycle: u32 },
    Over { answer: UnpoisonAnswer },
}

impl Unpoison {
    /// The command takes this frame's poison back.
    pub fn new(who: Who, frame: Frame) -> Unpoison
        ensures { result ≡ begin who frame }
    {
        Unpoison {
            who,
            frame,
            at: UnpoisonAt::LoadStop,
        }
    }

    /// The frame whose poison is taken back.
    pub fn frame(&self) -> Frame
        ensures { result ≡ self.now.frame }
    {
        self.frame
    }

    /// What the task came to; `None` until it is over.
    pub fn answer(&self) -> Option<UnpoisonAnswer>
        ensures { result ≡ answer self.now }
    {
        match self.at {
            UnpoisonAt::Over { answer } => Some(answer),
            UnpoisonAt::LoadStop
            | UnpoisonAt::LoadFrame
            | UnpoisonAt::LoadCount { .. }
            | UnpoisonAt::LoadBad { .. }
            | UnpoisonAt::Revive { .. }
            | UnpoisonAt::Uncount { .. }
            | UnpoisonAt::GiveBit { .. }
            | UnpoisonAt::Unreserve { .. } => None,
        }
    }

    /// The step moved the command there.
    fn move_to(&mut self, at: UnpoisonAt) -> Turn
        ensures there { self.new ≡ record self.old { at = at } }
        ensures moved { result ≡ Moved }
    {
        self.at = at;
        Turn::Moved
    }
}

/// The frame's failure has been handled, and nobody has the frame.
fn is_revivable(seen: u64) -> bool
    ensures { result ≡ is_revivable seen }
{
    let word = FrameWord::unpack(seen);
    word.handled && !word.locked && word.owner.is_none() && word.count == 1
}

fn after_stop(word: u64) -> UnpoisonAt
    ensures { result ≡ after_stop word }
{
    if is_stopped(word) {
        UnpoisonAt::Over {
            answer: UnpoisonAnswer::Stopped,
        }
    } else {
        UnpoisonAt::LoadFrame
    }
}

fn after_frame(seen: u64) -> UnpoisonAt
    ensures { result ≡ after_frame seen }
{
    if FrameWord::unpack(seen).poisoned {
        UnpoisonAt::LoadCount { seen }
    } else {
        UnpoisonAt::Over {
            answer: UnpoisonAnswer::NotPoisoned,
        }
    }
}

fn after_count(seen: u64, word: u64) -> UnpoisonAt
    ensures { result ≡ after_count seen word }
{
    if CounterWord::unpack(word).hardware == 0 {
        UnpoisonAt::LoadBad { seen }
    } else {
        UnpoisonAt::Over {
            answer: UnpoisonAnswer::HardwareSeen,
        }
    }
}

fn after_bad(seen: u64, word: u64) -> UnpoisonAt
    ensures { result ≡ after_bad seen word }
{
    if word != 0 {
        UnpoisonAt::Over {
            answer: UnpoisonAnswer::HasBad(Mask(word)),
        }
    } else if is_revivable(seen) {
        UnpoisonAt::Revive { seen }
    } else {
        UnpoisonAt::Over {
            answer: UnpoisonAnswer::InUse {
                count: FrameWord::unpack(seen).count,
            },
        }
    }
}

/// A word that has changed meanwhile is looked at again.
fn after_revive(seen: u64, word: u64) -> UnpoisonAt
    ensures { result ≡ after_revive seen word }
{
    if word == seen {
        UnpoisonAt::Uncount {
            cycle: FrameWord::unpack(word).cycle,
        }
    } else {
        UnpoisonAt::LoadFrame
    }
}

impl Task for Unpoison {
    ghost use Rattle.hwp_soft.specs.Unpoisons as unpoisons;

    ghost task = { unpoisons.task };

    fn who(&self) -> Who {
        self.who
    }

    fn plan(&self) -> Option<Step> {
        match self.at {
            UnpoisonAt::LoadStop => Some(Step::Load {
                place: SharedWord::Stop,
            }),
            UnpoisonAt::LoadFrame => Some(Step::Load {
                place: SharedWord::Frame(self.frame),
            }),
            UnpoisonAt::LoadCount { .. } => Some(Step::Load {
                place: SharedWord::Counter,
            }),
            UnpoisonAt::LoadBad { .. } => Some(Step::Load {
                place: SharedWord::Bad(self.frame),
            }),
            UnpoisonAt::Revive { seen } => Some(Step::Revive {
                frame: self.frame,
                seen,
            }),
            UnpoisonAt::Uncount { .. } => Some(Step::Uncount),
            UnpoisonAt::GiveBit { .. } => Some(Step::GiveBit { frame: self.frame }),
            UnpoisonAt::Unreserve { .. } => Some(Step::Unreserve),
            UnpoisonAt::Over { .. } => None,
        }
    }

    fn give(&mut self) -> Option<Body> {
        None
    }

    fn settle(&mut self, _layout: &Layout, found: u64, _body: Option<Body>) -> Turn {
        match self.at {
            UnpoisonAt::LoadStop => self.move_to(after_stop(found)),
            UnpoisonAt::LoadFrame => self.move_to(after_frame(found)),
            UnpoisonAt::LoadCount { seen } => self.move_to(after_count(seen, found)),
            UnpoisonAt::LoadBad { seen } => self.move_to(after_bad(seen, found)),
            UnpoisonAt::Revive { seen } => {
                self.at = after_revive(seen, found);
                if found == seen {
                    Turn::Moved
                } else {
                    Turn::Changed(found)
                }
            }
            UnpoisonAt::Uncount { cycle } => self.move_to(UnpoisonAt::GiveBit { cycle }),
            UnpoisonAt::GiveBit { cycle } => self.move_to(UnpoisonAt::Unreserve { cycle }),
            UnpoisonAt::Unreserve { cycle } => {
                let answer = UnpoisonAnswer::Done { cycle };
                self.move_to(UnpoisonAt::Over { answer })
            }
            UnpoisonAt::Over { .. } => Turn::Moved,
        }
    }
}

impl Ranked for Unpoison {
    fn class(&self) -> u8 {
        match self.at {
            UnpoisonAt::Uncount { .. }
            | UnpoisonAt::GiveBit { .. }
            | UnpoisonAt::Unreserve { .. } => 1,
            UnpoisonAt::LoadStop
            | UnpoisonAt::LoadFrame
            | UnpoisonAt::LoadCount { .. }
            | UnpoisonAt::LoadBad { .. }
            | UnpoisonAt::Revive { .. }
            | UnpoisonAt::Over { .. } => 4,
        }
    }

    fn ranked() {}
}

impl Scheduled for Unpoison {
    fn tells() {}
}
