ghost use Rattle.std.specs.Prelude.{◌≡◌};
ghost use Rattle.std.specs.Option.{unwrap_or};
ghost use Rattle.hwp_claim.specs.declared.fail.FailAt.TheVariants as states;
ghost use Rattle.hwp_claim.specs.Fails.{begin, answer, after_act, AfterClaim, IsCached, pageless};

use hwp_claim_act::Act;
use hwp_claim_frame::{
    At, Body, Claim, ClaimAnswer, Frame, Layout, Ranked, Scheduled, Situation, Step, Task, Thread,
    Turn, Who, let_go_of,
};
use std::alloc::Global;
use std::mem;

/// A memory failure of a frame: it poisons the frame, takes it from those that use it, acts on the page that is in it, and
/// puts it out of use (Linux memory_failure).
pub struct Fail {
    alloc: Global,
    who: Who,
    frame: Frame,
    required: Option<Thread>,
    hardware: bool,
    at: FailAt,
}

#[derive(Drop)]
enum FailAt {
    Claim { claim: Claim },
    Act { cycle: u32, act: Act },
    Over { answer: FailAnswer },
}

/// What a memory failure that came to its result found. Small fields stand together, so that they take less room.
#[derive(Clone, Copy)]
pub struct Found {
    pub situation: Situation,
    /// Whether it signalled the thread that needs the page now.
    pub signalled: bool,
    /// The cycle of the frame.
    pub cycle: u32,
    /// Its entry, where a page was in the frame.
    pub at: Option<At>,
}

/// What a `Fail` came to (this project's rule).
#[derive(Clone, Copy)]
pub enum FailAnswer {
    /// The machine is stopped.
    Stopped,
    /// The frame was poisoned already.
    Already,
    /// The failure came to its result, and found this.
    Done(Found),
}

// by hand, since what lets a failure go cites what is proved here; with a derive it proves anew how each part goes
impl Drop for Fail {
    fn drop(self) {
        let Fail {
            alloc: _,
            who: _,
            frame: _,
            required: _,
            hardware: _,
            at,
        } = self;
        drop(at);
    }
}

impl Fail {
    /// The command's failure of this frame, where `required` is the thread that needs its page now; a bank of the processor
    /// reported it or not.
    pub fn new(
        alloc: Global,
        layout: &Layout,
        who: Who,
        frame: Frame,
        required: Option<Thread>,
        hardware: bool,
    ) -> Fail
        ensures { result ≡ begin alloc who frame required hardware layout.now.recovery }
    {
        Fail {
            alloc,
            who,
            frame,
            required,
            hardware,
            at: FailAt::Claim {
                claim: Claim::new(layout, who, frame, hardware),
            },
        }
    }

    /// What it came to; `None` until it is over, and where it gave up.
    pub fn answer(&self) -> Option<FailAnswer>
        ensures { result ≡ answer self.now }
    {
        match &self.at {
            FailAt::Over { answer } => Some(*answer),
            FailAt::Claim { .. } | FailAt::Act { .. } => None,
        }
    }
}

/// No page was in the frame.
fn pageless(situation: Situation, cycle: u32) -> FailAnswer
    ensures { result ≡ pageless situation cycle }
{
    FailAnswer::Done(Found {
        situation,
        cycle,
        at: None,
        signalled: false,
    })
}

/// Once the page is let go, the failure is over.
fn after_act(cycle: u32, act: &Act) -> Option<FailAt>
    ensures { unwrap_or result (states.Act cycle act.now) ≡ after_act cycle act.now }
{
    let failed = act.answer()?;
    Some(FailAt::Over {
        answer: FailAnswer::Done(Found {
            situation: failed.situation,
            cycle,
            at: Some(failed.at),
            signalled: failed.signalled,
        }),
    })
}

/// The failure acts on the page in the frame.
fn begin_act(cycle: u32, act: Act) -> FailAt
    ensures { result ≡ after_act cycle act }
{
    match after_act(cycle, &act) {
        Some(over) => {
            drop(act);
            over
        }
        None => FailAt::Act { cycle, act },
    }
}

/// The claim, which left nothing held, is let go, and the failure is over.
fn ended(_claim: Claim, answer: FailAnswer) -> FailAt
    ensures { result ≡ states.Over answer }
{
    FailAt::Over { answer }
}

/// Once the frame is taken from those that use it, the failure is over, or acts on the page in it.
fn after_claim(
    alloc: Global,
    who: Who,
    frame: Frame,
    required: Option<Thread>,
    claim: Claim,
) -> FailAt
    requires { IsCached claim }
    ensures { AfterClaim who frame required claim result }
{
    match claim.answer() {
        None => FailAt::Claim { claim },
        Some(ClaimAnswer::Stopped) => ended(claim, FailAnswer::Stopped),
        Some(ClaimAnswer::Already) => ended(claim, FailAnswer::Already),
        Some(ClaimAnswer::Free { cycle }) => ended(claim, pageless(Situation::Free, cycle)),
        Some(ClaimAnswer::Kernel { cycle }) => ended(claim, pageless(Situation::Kernel, cycle)),
        Some(ClaimAnswer::Owned { cycle, page }) => {
            let body = claim.body();
            begin_act(cycle, Act::new(alloc, who, page, frame, required, body))
        }
    }
}

impl Fail {
    fn set(&mut self, at: FailAt)
        ensures { self.new ≡ record self.old { at = at } }
    {
        // in one call, and not part by part
        drop(mem::replace(&mut self.at, at));
    }
}

impl Task for Fail {
    ghost use Rattle.hwp_claim.specs.Fails as fails;

    ghost task = { fails.task };

    fn who(&self) -> Who {
        self.who
    }

    fn plan(&self) -> Option<Step> {
        match &self.at {
            FailAt::Claim { claim } => claim.plan(),
            FailAt::Act { act, .. } => act.plan(),
            FailAt::Over { .. } => None,
        }
    }

    fn give(&mut self) -> Option<Body> {
        match &mut self.at {
            FailAt::Claim { claim } => claim.give(),
            FailAt::Act { act, .. } => act.give(),
            FailAt::Over { .. } => None,
        }
    }

    fn settle(&mut self, layout: &Layout, found: u64, body: Option<Body>) -> Turn {
        match &mut self.at {
            FailAt::Claim { claim } => {
                let turn = claim.settle(layout, found, body);
                if claim.answer().is_some() {
                    let over = FailAt::Over {
                        answer: FailAnswer::Stopped,
                    };
                    match mem::replace(&mut self.at, over) {
                        FailAt::Claim { claim } => {
                            let at = after_claim(
                                self.alloc,
                                self.who,
                                self.frame,
                                self.required,
                                claim,
                            );
                            self.set(at);
                        }
                        _ => unreachable!(),
                    }
                }
                turn
            }
            FailAt::Act { cycle, act } => {
                let turn = act.settle(layout, found, body);
                if let Some(over) = after_act(*cycle, act) {
                    self.set(over);
                }
                turn
            }
            FailAt::Over { .. } => {
                let_go_of(body);
                Turn::Moved
            }
        }
    }
}

impl Ranked for Fail {
    fn class(&self) -> u8 {
        match &self.at {
            FailAt::Claim { claim } => claim.class(),
            FailAt::Act { act, .. } => act.class().min(3),
            FailAt::Over { .. } => 4,
        }
    }

    fn ranked() {}
}

impl Scheduled for Fail {
    fn tells() {}
}
