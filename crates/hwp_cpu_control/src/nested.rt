ghost use Rattle.std.specs.Prelude.{◌≡◌};

use hwp_core_rule::{
    Body, Layout, Ranked, Scheduled, SharedWord, Step, Task, Turn, Who, is_stopped,
};

/// A machine check inside a machine check, which shuts the processor down and so stops the machine (Intel SDM vol. 3).
#[derive(Clone, Copy)]
pub struct Nested {
    who: Who,
    at: NestedAt,
}

#[derive(Clone, Copy)]
enum NestedAt {
    LoadStop,
    Stop,
    Over { answer: Option<NestedAnswer> },
}

/// What a `Nested` came to (this project's rule).
#[derive(Clone, Copy)]
pub enum NestedAnswer {
    /// This command stopped the machine.
    Shutdown,
    /// Another one had stopped the machine.
    Stopped,
}

impl Nested {
    ghost use Rattle.hwp_cpu_control.specs.Nesteds.{after_stop, answer, at_start, begin, turn_of_stop};

    /// The command is a machine check inside a machine check.
    pub fn new(who: Who) -> Nested
        ensures { result ≡ begin who }
    {
        Nested {
            who,
            at: NestedAt::LoadStop,
        }
    }

    /// What the task came to; `None` until it is over, and where it gave up because another had given up because memory ran out.
    pub fn answer(&self) -> Option<NestedAnswer>
        ensures { result ≡ answer self.now }
    {
        match self.at {
            NestedAt::LoadStop | NestedAt::Stop => None,
            NestedAt::Over { answer } => answer,
        }
    }

    fn at_start(found: u64) -> NestedAt
        ensures { result ≡ at_start found }
    {
        if is_stopped(found) {
            NestedAt::Over {
                answer: Some(NestedAnswer::Stopped),
            }
        } else {
            NestedAt::Stop
        }
    }

    fn after_stop(found: u64) -> Option<NestedAnswer>
        ensures { result ≡ after_stop found }
    {
        if found == 0 {
            Some(NestedAnswer::Shutdown)
        } else if is_stopped(found) {
            Some(NestedAnswer::Stopped)
        } else {
            None
        }
    }

    fn turn_of_stop(found: u64) -> Turn
        ensures { result ≡ turn_of_stop found }
    {
        if found == 0 {
            Turn::Moved
        } else if is_stopped(found) {
            Turn::Changed(found)
        } else {
            Turn::NoMemory
        }
    }
}

impl Task for Nested {
    ghost use Rattle.hwp_cpu_control.specs.Nesteds as nesteds;

    ghost task = { nesteds.task };

    fn who(&self) -> Who {
        self.who
    }

    fn plan(&self) -> Option<Step> {
        match self.at {
            NestedAt::LoadStop => Some(Step::Load {
                place: SharedWord::Stop,
            }),
            NestedAt::Stop => Some(Step::Stop { cpu: self.who.cpu }),
            NestedAt::Over { .. } => None,
        }
    }

    fn give(&mut self) -> Option<Body> {
        None
    }

    fn settle(&mut self, _layout: &Layout, found: u64, _body: Option<Body>) -> Turn {
        match self.at {
            NestedAt::LoadStop => {
                self.at = Nested::at_start(found);
                Turn::Moved
            }
            NestedAt::Stop => {
                self.at = NestedAt::Over {
                    answer: Nested::after_stop(found),
                };
                Nested::turn_of_stop(found)
            }
            NestedAt::Over { .. } => Turn::Moved,
        }
    }
}

impl Ranked for Nested {
    fn class(&self) -> u8 {
        4
    }

    fn ranked() {}
}

impl Scheduled for Nested {
    fn tells() {}
}
