ghost use Rattle.std.specs.Prelude.{◌≡◌};

use hwp_core_rule::{
    Body, Layout, Ranked, Scheduled, SharedWord, Step, Task, Turn, Who, is_stopped,
};

/// A command that only looks whether the machine has stopped: all that it does else is its processor's own (this project's
/// rule).
#[derive(Clone, Copy)]
pub struct ReadStop {
    who: Who,
    at: ReadStopAt,
}

#[derive(Clone, Copy)]
enum ReadStopAt {
    LoadStop,
    Over { answer: ReadStopAnswer },
}

/// What a `ReadStop` came to (this project's rule).
#[derive(Clone, Copy)]
pub enum ReadStopAnswer {
    /// The machine goes on.
    Done,
    /// A processor had stopped the machine.
    Stopped,
}

impl ReadStop {
    ghost use Rattle.hwp_cpu_control.specs.ReadStops.{answer, answer_to, begin};

    /// The command looks whether the machine has stopped.
    pub fn new(who: Who) -> ReadStop
        ensures { result ≡ begin who }
    {
        ReadStop {
            who,
            at: ReadStopAt::LoadStop,
        }
    }

    /// What the task came to; `None` until it is over.
    pub fn answer(&self) -> Option<ReadStopAnswer>
        ensures { result ≡ answer self.now }
    {
        match self.at {
            ReadStopAt::LoadStop => None,
            ReadStopAt::Over { answer } => Some(answer),
        }
    }

    fn answer_to(found: u64) -> ReadStopAnswer
        ensures { result ≡ answer_to found }
    {
        if is_stopped(found) {
            ReadStopAnswer::Stopped
        } else {
            ReadStopAnswer::Done
        }
    }
}

impl Task for ReadStop {
    ghost use Rattle.hwp_cpu_control.specs.ReadStops as read_stops;

    ghost task = { read_stops.task };

    fn who(&self) -> Who {
        self.who
    }

    fn plan(&self) -> Option<Step> {
        match self.at {
            ReadStopAt::LoadStop => Some(Step::Load {
                place: SharedWord::Stop,
            }),
            ReadStopAt::Over { .. } => None,
        }
    }

    fn give(&mut self) -> Option<Body> {
        None
    }

    fn settle(&mut self, _layout: &Layout, found: u64, _body: Option<Body>) -> Turn {
        if let ReadStopAt::LoadStop = self.at {
            self.at = ReadStopAt::Over {
                answer: ReadStop::answer_to(found),
            };
        }
        Turn::Moved
    }
}

impl Ranked for ReadStop {
    fn class(&self) -> u8 {
        4
    }

    fn ranked() {}
}

impl Scheduled for ReadStop {
    fn tells() {}
}
