ghost use Rattle.std.specs.Prelude.{◌≡◌, ◌+◌, ◌≤◌, ◌<◌, cond, [], ◌∷◌, ◌++◌, length, take};
ghost use Rattle.hwp_core_rule.specs.hwp_geom.Limits.{thread_limit};
ghost use Rattle.hwp_cpu_control.specs.Forks.{target_at, threads_of};

use hwp_core_rule::{
    Body, Layout, Page, Policy, PolicyWord, Proc, ProcessWord, Ranked, Scheduled, SharedWord, Step,
    Task, Thread, Turn, Who, is_stopped,
};

/// A thread forks its process: each thread of the child gets the thread's own policy, one after the other.
#[derive(Clone, Copy)]
pub struct Fork {
    who: Who,
    thread: Thread,
    process: Proc,
    targets: Targets,
    at: ForkAt,
}

#[derive(Clone, Copy)]
enum ForkAt {
    LoadStop,
    LoadProcess,
    LoadPolicy,
    /// The policy is set for this thread of the child, before which so many have got it.
    SetPolicy {
        policy: Policy,
        target: Thread,
        before: u8,
    },
    Over {
        answer: ForkAnswer,
    },
}

/// What a `Fork` came to (this project's rule).
#[derive(Clone, Copy)]
pub enum ForkAnswer {
    /// The child was made, and each of its threads has this policy.
    Done(Policy),
    /// The thread's process has ended, by a signal in the history of this page.
    Gone(Page),
    /// A processor had stopped the machine.
    Stopped,
}

/// The most threads of a process.
const MAX_TARGETS: usize = 32;

/// The threads of a process, in rising order.
#[derive(Clone, Copy)]
pub struct Targets {
    threads: [Thread; MAX_TARGETS],
    count: u8,
}

impl Targets {
    /// The threads of the process.
    pub fn of(layout: &Layout, process: Proc) -> Targets
        requires few { length layout.now.threads ≤ thread_limit }
        ensures few { result.count ≤ length layout.now.threads }
        ensures room { length result.threads ≡ thread_limit }
        ensures listed { take result.count result.threads ≡ threads_of process 0 layout.now.threads }
    {
        let mut targets = Targets {
            threads: [Thread(0); MAX_TARGETS],
            count: 0,
        };
        for (number, thread) in layout.threads.as_slice().iter().enumerate() {
            targets.push(Thread(number as u8), thread.process.0 == process.0);
        }
        targets
    }

    /// With the thread behind those that are there, if it is one of them.
    fn push(&mut self, thread: Thread, is_one: bool)
        requires few { self.old.count < thread_limit }
        requires room { length self.old.threads ≡ thread_limit }
        ensures few { self.new.count ≤ self.old.count + 1 }
        ensures room { length self.new.threads ≡ thread_limit }
        ensures listed { take self.new.count self.new.threads ≡ take self.old.count self.old.threads ++ cond is_one (thread ∷ []) [] }
    {
        if is_one {
            self.threads[usize::from(self.count)] = thread;
            self.count += 1;
        }
    }

    /// The thread before which there are so many.
    fn get(&self, before: u8) -> Option<Thread>
        ensures { result ≡ target_at self.now before }
    {
        if before < self.count {
            self.threads.get(usize::from(before)).copied()
        } else {
            None
        }
    }
}

impl Fork {
    ghost use Rattle.hwp_cpu_control.specs.Forks.{answer, at_policy, at_process, at_start, at_target, begin};

    /// The thread, which is one of the process, makes the process of these threads its child.
    pub fn new(who: Who, thread: Thread, process: Proc, targets: Targets) -> Fork
        ensures { result ≡ begin who thread process targets }
    {
        Fork {
            who,
            thread,
            process,
            targets,
            at: ForkAt::LoadStop,
        }
    }

    /// What the task came to; `None` until it is over.
    pub fn answer(&self) -> Option<ForkAnswer>
        ensures { result ≡ answer self.now }
    {
        match self.at {
            ForkAt::LoadStop
            | ForkAt::LoadProcess
            | ForkAt::LoadPolicy
            | ForkAt::SetPolicy { .. } => None,
            ForkAt::Over { answer } => Some(answer),
        }
    }

    fn at_start(found: u64) -> ForkAt
        ensures { result ≡ at_start found }
    {
        if is_stopped(found) {
            ForkAt::Over {
                answer: ForkAnswer::Stopped,
            }
        } else {
            ForkAt::LoadProcess
        }
    }

    fn at_process(found: u64) -> ForkAt
        ensures { result ≡ at_process found }
    {
        match ProcessWord::unpack(found).ended_by {
            Some(page) => ForkAt::Over {
                answer: ForkAnswer::Gone(page),
            },
            None => ForkAt::LoadPolicy,
        }
    }

    fn at_policy(targets: &Targets, found: u64) -> ForkAt
        ensures { result ≡ at_policy targets.now found }
    {
        Fork::at_target(targets, PolicyWord::unpack(found).policy, 0)
    }

    /// Where so many threads of the child have got the policy.
    fn at_target(targets: &Targets, policy: Policy, before: u8) -> ForkAt
        ensures { result ≡ at_target targets.now policy before }
    {
        match targets.get(before) {
            Some(target) => ForkAt::SetPolicy {
                policy,
                target,
                before,
            },
            None => ForkAt::Over {
                answer: ForkAnswer::Done(policy),
            },
        }
    }
}

impl Task for Fork {
    ghost use Rattle.hwp_cpu_control.specs.Forks as forks;

    ghost task = { forks.task };

    fn who(&self) -> Who {
        self.who
    }

    fn plan(&self) -> Option<Step> {
        match self.at {
            ForkAt::LoadStop => Some(Step::Load {
                place: SharedWord::Stop,
            }),
            ForkAt::LoadProcess => Some(Step::Load {
                place: SharedWord::Process(self.process),
            }),
            ForkAt::LoadPolicy => Some(Step::Load {
                place: SharedWord::Policy(self.thread),
            }),
            ForkAt::SetPolicy { policy, target, .. } => Some(Step::SetPolicy {
                thread: target,
                policy,
                settings: 0,
            }),
            ForkAt::Over { .. } => None,
        }
    }

    fn give(&mut self) -> Option<Body> {
        None
    }

    fn settle(&mut self, _layout: &Layout, found: u64, _body: Option<Body>) -> Turn {
        match self.at {
            ForkAt::LoadStop => self.at = Fork::at_start(found),
            ForkAt::LoadProcess => self.at = Fork::at_process(found),
            ForkAt::LoadPolicy => self.at = Fork::at_policy(&self.targets, found),
            ForkAt::SetPolicy { policy, before, .. } => {
                self.at = Fork::at_target(&self.targets, policy, before + 1);
            }
            ForkAt::Over { .. } => {}
        }
        Turn::Moved
    }
}

impl Ranked for Fork {
    fn class(&self) -> u8 {
        4
    }

    fn ranked() {}
}

impl Scheduled for Fork {
    fn tells() {}
}
