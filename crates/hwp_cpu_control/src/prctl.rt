ghost use Rattle.std.specs.Prelude.{◌≡◌, ◌^◌, ◌<◌};

use hwp_core_rule::{
    Body, Layout, Page, Policy, PolicyWord, Proc, ProcessWord, Ranked, Reply, Scheduled,
    SharedWord, Step, Task, Thread, Turn, Who, is_stopped, prctl,
};

/// A thread calls prctl(2), with PR_MCE_KILL or PR_MCE_KILL_GET where the arguments say so.
#[derive(Clone, Copy)]
pub struct Prctl {
    who: Who,
    thread: Thread,
    process: Proc,
    arguments: [u64; 5],
    at: PrctlAt,
}

#[derive(Clone, Copy)]
enum PrctlAt {
    LoadStop,
    LoadProcess,
    LoadPolicy,
    SetPolicy { policy: Policy, settings: u32 },
    Over { answer: PrctlAnswer },
}

/// What a `Prctl` came to (this project's rule).
#[derive(Clone, Copy)]
pub enum PrctlAnswer {
    /// The call was made, with this reply.
    Replied(Reply),
    /// The thread's process has ended, by a signal in the history of this page.
    Gone(Page),
    /// A processor had stopped the machine.
    Stopped,
}

impl Prctl {
    ghost use Rattle.hwp_cpu_control.specs.Prctls.{answer, at_policy, at_process, at_start, begin};

    /// The thread, which is one of the process, calls prctl(2) with an operation and its four arguments.
    pub fn new(who: Who, thread: Thread, process: Proc, arguments: [u64; 5]) -> Prctl
        ensures { result ≡ begin who thread process arguments }
    {
        Prctl {
            who,
            thread,
            process,
            arguments,
            at: PrctlAt::LoadStop,
        }
    }

    /// What the task came to; `None` until it is over.
    pub fn answer(&self) -> Option<PrctlAnswer>
        ensures { result ≡ answer self.now }
    {
        match self.at {
            PrctlAt::LoadStop
            | PrctlAt::LoadProcess
            | PrctlAt::LoadPolicy
            | PrctlAt::SetPolicy { .. } => None,
            PrctlAt::Over { answer } => Some(answer),
        }
    }

    fn at_start(found: u64) -> PrctlAt
        ensures { result ≡ at_start found }
    {
        if is_stopped(found) {
            PrctlAt::Over {
                answer: PrctlAnswer::Stopped,
            }
        } else {
            PrctlAt::LoadProcess
        }
    }

    fn at_process(found: u64) -> PrctlAt
        ensures { result ≡ at_process found }
    {
        match ProcessWord::unpack(found).ended_by {
            Some(page) => PrctlAt::Over {
                answer: PrctlAnswer::Gone(page),
            },
            None => PrctlAt::LoadPolicy,
        }
    }

    fn at_policy(arguments: [u64; 5], found: u64) -> PrctlAt
        requires few { found < 2 ^ 34 }
        ensures { result ≡ at_policy arguments found }
    {
        let word = PolicyWord::unpack(found);
        match prctl(word.policy, arguments) {
            Reply::Set(policy) => PrctlAt::SetPolicy {
                policy,
                settings: word.settings as u32,
            },
            reply => PrctlAt::Over {
                answer: PrctlAnswer::Replied(reply),
            },
        }
    }
}

impl Task for Prctl {
    ghost use Rattle.hwp_cpu_control.specs.Prctls as prctls;

    ghost task = { prctls.task };

    fn who(&self) -> Who {
        self.who
    }

    fn plan(&self) -> Option<Step> {
        match self.at {
            PrctlAt::LoadStop => Some(Step::Load {
                place: SharedWord::Stop,
            }),
            PrctlAt::LoadProcess => Some(Step::Load {
                place: SharedWord::Process(self.process),
            }),
            PrctlAt::LoadPolicy => Some(Step::Load {
                place: SharedWord::Policy(self.thread),
            }),
            PrctlAt::SetPolicy { policy, settings } => Some(Step::SetPolicy {
                thread: self.thread,
                policy,
                settings,
            }),
            PrctlAt::Over { .. } => None,
        }
    }

    fn give(&mut self) -> Option<Body> {
        None
    }

    fn settle(&mut self, _layout: &Layout, found: u64, _body: Option<Body>) -> Turn {
        match self.at {
            PrctlAt::LoadStop => self.at = Prctl::at_start(found),
            PrctlAt::LoadProcess => self.at = Prctl::at_process(found),
            PrctlAt::LoadPolicy => self.at = Prctl::at_policy(self.arguments, found),
            PrctlAt::SetPolicy { policy, .. } => {
                self.at = PrctlAt::Over {
                    answer: PrctlAnswer::Replied(Reply::Set(policy)),
                };
            }
            PrctlAt::Over { .. } => {}
        }
        Turn::Moved
    }
}

impl Ranked for Prctl {
    fn class(&self) -> u8 {
        4
    }

    fn ranked() {}
}

impl Scheduled for Prctl {
    fn tells() {}
}
