ghost use Rattle.std.specs.Prelude.{◌≡◌, ◌==◌, Option, true};
ghost use Rattle.std.specs.Option.{unwrap_or};
ghost use Rattle.hwp_claim_frame.specs.declared.claim.ClaimAt.TheVariants as states;
ghost use Rattle.hwp_claim_frame.specs.Claims.{start, begin, answer, is_owned, IsBody, stopped, stop_turn, poisoned, is_done, looked, grabbed, after_grab, after_meet, after_unlock};

use crate::grab::{Grab, GrabAnswer};
use crate::meet::{Meet, MeetAnswer, is_ended};
use hwp_core::{
    Body, Frame, FrameWord, Layout, Page, Ranked, SharedWord, Step, Task, Turn, Unlock, Who,
    is_stopped, let_go_of,
};

/// Poisons a frame, and takes it from those that use it, or could: out of the free ones, or under its locks (Linux
/// memory_failure). From its poison on the failure is the command's own, until it is ended.
#[derive(Drop)]
pub struct Claim {
    who: Who,
    frame: Frame,
    hardware: bool,
    at: ClaimAt,
}

#[derive(Drop)]
enum ClaimAt {
    Stop,
    Poison,
    Count { cycle: u32 },
    Look { cycle: u32 },
    Grab { cycle: u32, grab: Grab },
    Meet { cycle: u32, meet: Meet },
    Unlock { cycle: u32, unlock: Unlock },
    Retire { cycle: u32 },
    GaveUp,
    Stopped,
    Already,
    Free { cycle: u32 },
    Kernel { cycle: u32 },
    Owned { cycle: u32, page: Page, body: Body },
}

/// What a `Claim` came to (this project's rule).
#[derive(Clone, Copy)]
pub enum ClaimAnswer {
    /// The machine is stopped. Nothing is held.
    Stopped,
    /// The frame was poisoned already. Nothing is held.
    Already,
    /// In this cycle of the frame no page was in it, and it is out of use. Nothing is held.
    Free { cycle: u32 },
    /// The frame is the kernel's. Nothing is held.
    Kernel { cycle: u32 },
    /// This page is locked, and so is the frame, which it is in; and the page's body is in hand.
    Owned { cycle: u32, page: Page },
}

impl Claim {
    /// The command poisons this frame, by a report of the hardware or not; a machine that doesn't recover is stopped.
    pub fn new(layout: &Layout, who: Who, frame: Frame, hardware: bool) -> Claim
        ensures { result ≡ begin who frame hardware layout.now.recovery }
    {
        Claim {
            who,
            frame,
            hardware,
            at: start(layout.recovery),
        }
    }

    /// What the task came to; `None` until it is over, and where another has given up because memory ran out.
    pub fn answer(&self) -> Option<ClaimAnswer>
        ensures { result ≡ answer self.now }
    {
        match &self.at {
            ClaimAt::Stopped => Some(ClaimAnswer::Stopped),
            ClaimAt::Already => Some(ClaimAnswer::Already),
            ClaimAt::Free { cycle } => Some(ClaimAnswer::Free { cycle: *cycle }),
            ClaimAt::Kernel { cycle } => Some(ClaimAnswer::Kernel { cycle: *cycle }),
            ClaimAt::Owned { cycle, page, .. } => Some(ClaimAnswer::Owned {
                cycle: *cycle,
                page: *page,
            }),
            ClaimAt::Stop
            | ClaimAt::Poison
            | ClaimAt::Count { .. }
            | ClaimAt::Look { .. }
            | ClaimAt::Grab { .. }
            | ClaimAt::Meet { .. }
            | ClaimAt::Unlock { .. }
            | ClaimAt::Retire { .. }
            | ClaimAt::GaveUp => None,
        }
    }

    /// The body of the page that is in the frame.
    pub fn body(self) -> Body
        requires owned { is_owned self ≡ true }
        ensures { IsBody self result }
    {
        match self.at {
            ClaimAt::Owned { body, .. } => body,
            ClaimAt::Stop
            | ClaimAt::Poison
            | ClaimAt::Count { .. }
            | ClaimAt::Look { .. }
            | ClaimAt::Grab { .. }
            | ClaimAt::Meet { .. }
            | ClaimAt::Unlock { .. }
            | ClaimAt::Retire { .. }
            | ClaimAt::GaveUp
            | ClaimAt::Stopped
            | ClaimAt::Already
            | ClaimAt::Free { .. }
            | ClaimAt::Kernel { .. } => unreachable!(),
        }
    }
}

fn start(recovery: bool) -> ClaimAt
    ensures { result ≡ start recovery }
{
    if recovery {
        ClaimAt::Poison
    } else {
        ClaimAt::Stop
    }
}

fn poisoned(found: u64) -> ClaimAt
    ensures { result ≡ poisoned found }
{
    let word = FrameWord::unpack(found);
    if word.poisoned {
        ClaimAt::Already
    } else {
        ClaimAt::Count { cycle: word.cycle }
    }
}

fn is_done(cycle: u32, found: u64) -> bool
    ensures { result ≡ is_done cycle found }
{
    is_ended(cycle, found) || FrameWord::unpack(found).handled
}

/// What is to be done about the word of the poisoned frame.
fn looked(who: Who, frame: Frame, cycle: u32, found: u64) -> ClaimAt
    ensures { result ≡ looked who frame cycle found }
{
    let word = FrameWord::unpack(found);
    if word.kernel {
        ClaimAt::Kernel { cycle }
    } else if is_done(cycle, found) {
        ClaimAt::Free { cycle }
    } else if word.count == 0 {
        ClaimAt::Grab {
            cycle,
            grab: Grab::new(who, frame),
        }
    } else {
        ClaimAt::Meet {
            cycle,
            meet: Meet::new(who, frame, Some(cycle), found),
        }
    }
}

fn grabbed(who: Who, frame: Frame, cycle: u32, word: u64) -> ClaimAt
    ensures { result ≡ grabbed who frame cycle word }
{
    if is_ended(cycle, word) {
        ClaimAt::Unlock {
            cycle,
            unlock: Unlock::new(who, frame, None),
        }
    } else {
        ClaimAt::Retire { cycle }
    }
}

fn after_grab(who: Who, frame: Frame, cycle: u32, grab: &Grab) -> Option<ClaimAt>
    ensures { unwrap_or result (states.Grab cycle grab.now) ≡ after_grab who frame cycle grab.now }
{
    match grab.answer()? {
        GrabAnswer::LookAgain => Some(ClaimAt::Look { cycle }),
        GrabAnswer::Grabbed(word) => Some(grabbed(who, frame, cycle, word)),
    }
}

fn after_meet(cycle: u32, meet: &mut Meet) -> Option<ClaimAt>
    ensures { unwrap_or result (states.Meet cycle meet.new) ≡ after_meet cycle meet.old }
{
    match meet.answer()? {
        MeetAnswer::LookAgain => Some(ClaimAt::Look { cycle }),
        MeetAnswer::Ended => Some(ClaimAt::Free { cycle }),
        MeetAnswer::Free => Some(ClaimAt::Retire { cycle }),
        MeetAnswer::Owned(page) => Some(ClaimAt::Owned {
            cycle,
            page,
            body: meet.take_body(),
        }),
    }
}

fn after_unlock(cycle: u32, unlock: &Unlock) -> Option<ClaimAt>
    ensures { unwrap_or result (states.Unlock cycle unlock.now) ≡ after_unlock cycle unlock.now }
{
    if unlock.is_over() {
        Some(ClaimAt::Free { cycle })
    } else {
        None
    }
}

impl Claim {
    fn set(&mut self, at: ClaimAt)
        ensures { self.new ≡ record self.old { at = at } }
    {
        self.at = at;
    }

    /// The state that follows, if another one does, with the turn of the step.
    fn follow(&mut self, after: Option<ClaimAt>, turn: Turn) -> Turn
        ensures at { self.new ≡ record self.old { at = unwrap_or after self.old.at } }
        ensures turn { result ≡ turn }
    {
        if let Some(at) = after {
            self.set(at);
        }
        turn
    }

    fn stop(&mut self, found: u64) -> Turn
        ensures at { self.new ≡ record self.old { at = stopped found } }
        ensures turn { result ≡ stop_turn found }
    {
        if found == 0 {
            self.set(ClaimAt::Stopped);
            Turn::Moved
        } else if is_stopped(found) {
            self.set(ClaimAt::Stopped);
            Turn::Changed(found)
        } else {
            self.set(ClaimAt::GaveUp);
            Turn::NoMemory
        }
    }
}

impl Task for Claim {
    ghost use Rattle.hwp_claim_frame.specs.Claims as claims;

    ghost task = { claims.task };

    fn who(&self) -> Who {
        self.who
    }

    fn plan(&self) -> Option<Step> {
        match &self.at {
            ClaimAt::Stop => Some(Step::Stop { cpu: self.who.cpu }),
            ClaimAt::Poison => Some(Step::Poison {
                frame: self.frame,
                hardware: self.hardware,
            }),
            ClaimAt::Count { .. } => Some(Step::CountPoison {
                hardware: self.hardware,
            }),
            ClaimAt::Look { .. } => Some(Step::Load {
                place: SharedWord::Frame(self.frame),
            }),
            ClaimAt::Grab { grab, .. } => grab.plan(),
            ClaimAt::Meet { meet, .. } => meet.plan(),
            ClaimAt::Unlock { unlock, .. } => unlock.plan(),
            ClaimAt::Retire { .. } => Some(Step::Retire { frame: self.frame }),
            ClaimAt::GaveUp
            | ClaimAt::Stopped
            | ClaimAt::Already
            | ClaimAt::Free { .. }
            | ClaimAt::Kernel { .. }
            | ClaimAt::Owned { .. } => None,
        }
    }

    fn give(&mut self) -> Option<Body> {
        match &mut self.at {
            ClaimAt::Meet { meet, .. } => meet.give(),
            ClaimAt::Unlock { unlock, .. } => unlock.give(),
            ClaimAt::Stop
            | ClaimAt::Poison
            | ClaimAt::Count { .. }
            | ClaimAt::Look { .. }
            | ClaimAt::Grab { .. }
            | ClaimAt::Retire { .. }
            | ClaimAt::GaveUp
            | ClaimAt::Stopped
            | ClaimAt::Already
            | ClaimAt::Free { .. }
            | ClaimAt::Kernel { .. }
            | ClaimAt::Owned { .. } => None,
        }
    }

    fn settle(&mut self, layout: &Layout, found: u64, body: Option<Body>) -> Turn {
        match &mut self.at {
            ClaimAt::Stop => {
                let_go_of(body);
                self.stop(found)
            }
            ClaimAt::Poison => {
                let_go_of(body);
                self.follow(Some(poisoned(found)), Turn::Moved)
            }
            ClaimAt::Count { cycle } => {
                let at = ClaimAt::Look { cycle: *cycle };
                let_go_of(body);
                self.follow(Some(at), Turn::Moved)
            }
            ClaimAt::Look { cycle } => {
                let at = looked(self.who, self.frame, *cycle, found);
                let_go_of(body);
                self.follow(Some(at), Turn::Moved)
            }
            ClaimAt::Grab { cycle, grab } => {
                let turn = grab.settle(layout, found, body);
                let after = after_grab(self.who, self.frame, *cycle, grab);
                self.follow(after, turn)
            }
            ClaimAt::Meet { cycle, meet } => {
                let turn = meet.settle(layout, found, body);
                let after = after_meet(*cycle, meet);
                self.follow(after, turn)
            }
            ClaimAt::Unlock { cycle, unlock } => {
                let _turn = unlock.settle(layout, found, body);
                let after = after_unlock(*cycle, unlock);
                self.follow(after, Turn::Moved)
            }
            ClaimAt::Retire { cycle } => {
                let at = ClaimAt::Free { cycle: *cycle };
                let_go_of(body);
                self.follow(Some(at), Turn::Moved)
            }
            ClaimAt::GaveUp
            | ClaimAt::Stopped
            | ClaimAt::Already
            | ClaimAt::Free { .. }
            | ClaimAt::Kernel { .. }
            | ClaimAt::Owned { .. } => {
                let_go_of(body);
                Turn::Moved
            }
        }
    }
}

impl Ranked for Claim {
    fn class(&self) -> u8 {
        match &self.at {
            ClaimAt::Count { .. } | ClaimAt::Look { .. } => 3,
            ClaimAt::Grab { grab, .. } => grab.class().min(3),
            ClaimAt::Meet { meet, .. } => meet.class().min(3),
            ClaimAt::Unlock { unlock, .. } => unlock.class().min(3),
            ClaimAt::Retire { .. } | ClaimAt::Owned { .. } => 1,
            ClaimAt::Stop
            | ClaimAt::Poison
            | ClaimAt::GaveUp
            | ClaimAt::Stopped
            | ClaimAt::Already
            | ClaimAt::Free { .. }
            | ClaimAt::Kernel { .. } => 4,
        }
    }

    fn ranked() {}
}
