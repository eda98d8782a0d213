ghost use Rattle.std.specs.Prelude.{◌≡◌};

use hwp_core_rule::{
    Body, Damage, Frame, Layout, Line, Ranked, Scheduled, SharedWord, Step, Task, Turn, Who,
    is_stopped,
};

/// A command by which a line of a frame goes bad, or weak (this project's rule).
#[derive(Clone, Copy)]
pub struct Spoil {
    who: Who,
    frame: Frame,
    line: Line,
    damage: Damage,
    at: SpoilAt,
}

#[derive(Clone, Copy)]
enum SpoilAt {
    LoadStop,
    Spoil,
    Over { answer: SpoilAnswer },
}

/// What a `Spoil` came to (this project's rule).
#[derive(Clone, Copy)]
pub enum SpoilAnswer {
    /// The line is bad, or weak.
    Done,
    /// A processor had stopped the machine.
    Stopped,
}

impl Spoil {
    ghost use Rattle.hwp_cpu_control.specs.Spoils.{answer, at_start, begin};

    /// The command by which this line of the frame goes bad, or weak.
    pub fn new(who: Who, frame: Frame, line: Line, damage: Damage) -> Spoil
        ensures { result ≡ begin who frame line damage }
    {
        Spoil {
            who,
            frame,
            line,
            damage,
            at: SpoilAt::LoadStop,
        }
    }

    /// What the task came to; `None` until it is over.
    pub fn answer(&self) -> Option<SpoilAnswer>
        ensures { result ≡ answer self.now }
    {
        match self.at {
            SpoilAt::LoadStop | SpoilAt::Spoil => None,
            SpoilAt::Over { answer } => Some(answer),
        }
    }

    fn at_start(found: u64) -> SpoilAt
        ensures { result ≡ at_start found }
    {
        if is_stopped(found) {
            SpoilAt::Over {
                answer: SpoilAnswer::Stopped,
            }
        } else {
            SpoilAt::Spoil
        }
    }
}

impl Task for Spoil {
    ghost use Rattle.hwp_cpu_control.specs.Spoils as spoils;

    ghost task = { spoils.task };

    fn who(&self) -> Who {
        self.who
    }

    fn plan(&self) -> Option<Step> {
        match self.at {
            SpoilAt::LoadStop => Some(Step::Load {
                place: SharedWord::Stop,
            }),
            SpoilAt::Spoil => Some(Step::Spoil {
                frame: self.frame,
                line: self.line,
                damage: self.damage,
            }),
            SpoilAt::Over { .. } => None,
        }
    }

    fn give(&mut self) -> Option<Body> {
        None
    }

    fn settle(&mut self, _layout: &Layout, found: u64, _body: Option<Body>) -> Turn {
        match self.at {
            SpoilAt::LoadStop => self.at = Spoil::at_start(found),
            SpoilAt::Spoil => {
                self.at = SpoilAt::Over {
                    answer: SpoilAnswer::Done,
                };
            }
            SpoilAt::Over { .. } => {}
        }
        Turn::Moved
    }
}

impl Ranked for Spoil {
    fn class(&self) -> u8 {
        4
    }

    fn ranked() {}
}

impl Scheduled for Spoil {
    fn tells() {}
}
