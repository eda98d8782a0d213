ghost use Rattle.std.specs.Prelude.{◌≡◌};

use hwp_core_rule::{
    Body, Layout, Page, Proc, ProcessWord, Ranked, Scheduled, SharedWord, Step, Task, Turn, Who,
    is_stopped,
};

/// An access that its guest doesn't admit: it looks whether the machine and its process go on, and touches no page (this project's rule).
#[derive(Clone, Copy)]
pub struct Denied {
    who: Who,
    process: Proc,
    why: Denial,
    at: DeniedAt,
}

/// Why a guest doesn't admit an access (this project's rule).
#[derive(Clone, Copy)]
pub enum Denial {
    /// Its guest frame is bad.
    BadFrame,
    /// The guest is stopped.
    Stopped,
}

#[derive(Clone, Copy)]
enum DeniedAt {
    LoadStop,
    LoadProcess,
    Over { answer: DeniedAnswer },
}

/// What a `Denied` came to (this project's rule).
#[derive(Clone, Copy)]
pub enum DeniedAnswer {
    /// The guest answers.
    Denied,
    /// The thread's process has ended, by a signal in the history of this page.
    Gone(Page),
    /// A processor had stopped the machine.
    Stopped,
}

impl Denied {
    ghost use Rattle.hwp_cpu_control.specs.Denieds.{answer, at_process, at_start, begin};

    /// A thread of the process makes an access that its guest doesn't admit.
    pub fn new(who: Who, process: Proc, why: Denial) -> Denied
        ensures { result ≡ begin who process why }
    {
        Denied {
            who,
            process,
            why,
            at: DeniedAt::LoadStop,
        }
    }

    /// What the task came to; `None` until it is over.
    pub fn answer(&self) -> Option<DeniedAnswer>
        ensures { result ≡ answer self.now }
    {
        match self.at {
            DeniedAt::LoadStop | DeniedAt::LoadProcess => None,
            DeniedAt::Over { answer } => Some(answer),
        }
    }

    /// Why the guest doesn't admit it.
    pub fn why(&self) -> Denial
        ensures { result ≡ self.now.why }
    {
        self.why
    }

    fn at_start(found: u64) -> DeniedAt
        ensures { result ≡ at_start found }
    {
        if is_stopped(found) {
            DeniedAt::Over {
                answer: DeniedAnswer::Stopped,
            }
        } else {
            DeniedAt::LoadProcess
        }
    }

    fn at_process(found: u64) -> DeniedAt
        ensures { result ≡ at_process found }
    {
        match ProcessWord::unpack(found).ended_by {
            Some(page) => DeniedAt::Over {
                answer: DeniedAnswer::Gone(page),
            },
            None => DeniedAt::Over {
                answer: DeniedAnswer::Denied,
            },
        }
    }
}

impl Task for Denied {
    ghost use Rattle.hwp_cpu_control.specs.Denieds as denieds;

    ghost task = { denieds.task };

    fn who(&self) -> Who {
        self.who
    }

    fn plan(&self) -> Option<Step> {
        match self.at {
            DeniedAt::LoadStop => Some(Step::Load {
                place: SharedWord::Stop,
            }),
            DeniedAt::LoadProcess => Some(Step::Load {
                place: SharedWord::Process(self.process),
            }),
            DeniedAt::Over { .. } => None,
        }
    }

    fn give(&mut self) -> Option<Body> {
        None
    }

    fn settle(&mut self, _layout: &Layout, found: u64, _body: Option<Body>) -> Turn {
        match self.at {
            DeniedAt::LoadStop => self.at = Denied::at_start(found),
            DeniedAt::LoadProcess => self.at = Denied::at_process(found),
            DeniedAt::Over { .. } => {}
        }
        Turn::Moved
    }
}

impl Ranked for Denied {
    fn class(&self) -> u8 {
        4
    }

    fn ranked() {}
}

impl Scheduled for Denied {
    fn tells() {}
}
