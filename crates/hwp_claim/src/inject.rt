ghost use Rattle.std.specs.Prelude.{◌≡◌};
ghost use Rattle.hwp_claim.specs.Injects.{answer, begin, loaded};

use crate::fail::{Fail, FailAnswer};
use hwp_claim_frame::{
    Body, Frame, Layout, Ranked, Scheduled, SharedWord, Step, Task, Turn, Who, is_stopped,
    let_go_of,
};
use std::alloc::Global;
use std::mem;

/// A command by which a frame fails, as software asked (after Linux hwpoison-inject; this project's rule).
pub struct Inject {
    alloc: Global,
    who: Who,
    frame: Frame,
    at: InjectAt,
}

#[derive(Drop)]
enum InjectAt {
    LoadStop,
    Fail { fail: Fail },
    Stopped,
}

// by hand, since what lets such a command go cites what is proved here; with a derive it proves anew how each part goes
impl Drop for Inject {
    fn drop(self) {
        let Inject {
            alloc: _,
            who: _,
            frame: _,
            at: _,
        } = self;
    }
}

impl Inject {
    /// The command at its beginning.
    pub fn new(alloc: Global, who: Who, frame: Frame) -> Inject
        ensures { result ≡ begin alloc who frame }
    {
        Inject {
            alloc,
            who,
            frame,
            at: InjectAt::LoadStop,
        }
    }

    /// The frame that fails.
    pub fn frame(&self) -> Frame
        ensures { result ≡ self.now.frame }
    {
        self.frame
    }

    /// What the failure came to; `None` until it is over, and where it gave up because memory ran out.
    pub fn answer(&self) -> Option<FailAnswer>
        ensures { result ≡ answer self.now }
    {
        match &self.at {
            InjectAt::LoadStop => None,
            InjectAt::Fail { fail } => fail.answer(),
            InjectAt::Stopped => Some(FailAnswer::Stopped),
        }
    }
}

/// The failure begins, unless the machine has stopped.
fn loaded(alloc: Global, layout: &Layout, who: Who, frame: Frame, found: u64) -> InjectAt
    ensures { result ≡ loaded layout.now.recovery alloc who frame found }
{
    if is_stopped(found) {
        return InjectAt::Stopped;
    }
    InjectAt::Fail {
        fail: Fail::new(alloc, layout, who, frame, None, false),
    }
}

impl Task for Inject {
    ghost use Rattle.hwp_claim.specs.Injects as injects;

    ghost task = { injects.task };

    fn who(&self) -> Who {
        self.who
    }

    fn plan(&self) -> Option<Step> {
        match &self.at {
            InjectAt::LoadStop => Some(Step::Load {
                place: SharedWord::Stop,
            }),
            InjectAt::Fail { fail } => fail.plan(),
            InjectAt::Stopped => None,
        }
    }

    fn give(&mut self) -> Option<Body> {
        match &mut self.at {
            InjectAt::Fail { fail } => fail.give(),
            InjectAt::LoadStop | InjectAt::Stopped => None,
        }
    }

    fn settle(&mut self, layout: &Layout, found: u64, body: Option<Body>) -> Turn {
        match &mut self.at {
            InjectAt::LoadStop => {
                let_go_of(body);
                let at = loaded(self.alloc, layout, self.who, self.frame, found);
                drop(mem::replace(&mut self.at, at));
                Turn::Moved
            }
            InjectAt::Fail { fail } => fail.settle(layout, found, body),
            InjectAt::Stopped => {
                let_go_of(body);
                Turn::Moved
            }
        }
    }
}

impl Ranked for Inject {
    fn class(&self) -> u8 {
        match &self.at {
            InjectAt::Fail { fail } => fail.class(),
            InjectAt::LoadStop | InjectAt::Stopped => 4,
        }
    }

    fn ranked() {}
}

impl Scheduled for Inject {
    fn tells() {}
}
