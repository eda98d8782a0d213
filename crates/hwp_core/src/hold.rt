ghost use Rattle.std.specs.Prelude.{◌≡◌, is_some, true};

use crate::pin::{Pin, PinAnswer};
use crate::unhold::Unhold;
use hwp_core_rule::{
    Body, Frame, Layout, Page, Ranked, SharedWord, Step, Task, Turn, Who, frame_in,
};

/// Locks a page and, where the page is in a frame, takes a reference to that frame and locks it too; and takes the page's
/// body in hand, from the frame or from the page's shelf (this project's rule).
#[derive(Drop)]
pub struct Hold {
    who: Who,
    page: Page,
    at: HoldAt,
}

#[derive(Drop)]
enum HoldAt {
    LockPage,
    LoadCache { body: Option<Body> },
    Pin { pin: Pin },
    LockFrame { frame: Frame },
    Held { frame: Option<Frame>, body: Body },
}

impl Hold {
    ghost use Rattle.std.specs.Prelude.{None};
    ghost use Rattle.hwp_core_rule.specs.Views.{frame_in};
    ghost use Rattle.hwp_core.specs.Holds.{begin, answer, named_at, locked_at, IsBody};
    ghost use Rattle.hwp_core.specs.Unholds.{LetsGo};

    /// The command holds the page.
    pub fn new(who: Who, page: Page) -> Hold
        ensures { result ≡ begin who page }
    {
        Hold {
            who,
            page,
            at: HoldAt::LockPage,
        }
    }

    /// The frame that the page is in and that is locked, if any; `None` until the task is over.
    pub fn answer(&self) -> Option<Option<Frame>>
        ensures { result ≡ answer self.now }
    {
        match self.at {
            HoldAt::Held { frame, .. } => Some(frame),
            HoldAt::LockPage
            | HoldAt::LoadCache { .. }
            | HoldAt::Pin { .. }
            | HoldAt::LockFrame { .. } => None,
        }
    }

    /// The page's body, when the task is over.
    pub fn body(self) -> Body
        requires over { is_some (answer self) ≡ true }
        ensures { IsBody self result }
    {
        let Hold {
            who: _,
            page: _,
            at,
        } = self;
        match at {
            HoldAt::Held { body, .. } => body,
            HoldAt::LockPage
            | HoldAt::LoadCache { .. }
            | HoldAt::Pin { .. }
            | HoldAt::LockFrame { .. } => unreachable!(),
        }
    }

    /// Lets the page go, when the task is over, with its body as it was taken.
    pub fn let_go(self) -> Unhold
        requires over { is_some (answer self) ≡ true }
        ensures { LetsGo self result }
    {
        let Hold { who, page, at } = self;
        match at {
            HoldAt::Held { frame, body } => Unhold::new(who, page, frame, 1, body),
            HoldAt::LockPage
            | HoldAt::LoadCache { .. }
            | HoldAt::Pin { .. }
            | HoldAt::LockFrame { .. } => unreachable!(),
        }
    }

    fn at_cache(who: Who, body: Option<Body>, found: u64) -> HoldAt
        requires { frame_in found ≡ None → is_some body ≡ true }
        ensures { result ≡ named_at who body (frame_in found) }
    {
        match frame_in(found) {
            Some(frame) => HoldAt::Pin {
                pin: Pin::new(who, frame),
            },
            None => match body {
                Some(body) => HoldAt::Held { frame: None, body },
                None => unreachable!(),
            },
        }
    }

    fn set(&mut self, at: HoldAt)
        ensures { self.new ≡ record self.old { at = at } }
    {
        self.at = at;
    }

    fn at_locked(frame: Frame, body: Option<Body>) -> HoldAt
        requires { is_some body ≡ true }
        ensures { result ≡ locked_at frame body }
    {
        match body {
            Some(body) => HoldAt::Held {
                frame: Some(frame),
                body,
            },
            None => unreachable!(),
        }
    }
}

ghost use Rattle.hwp_core.specs.Holds.{is_free};

/// The lock's word says that it was free.
fn is_free(word: u64) -> bool
    ensures { result ≡ is_free word }
{
    word & 1 == 0
}

impl Task for Hold {
    ghost use Rattle.hwp_core.specs.Holds as holds;

    ghost task = { holds.task };

    fn who(&self) -> Who {
        self.who
    }

    fn plan(&self) -> Option<Step> {
        match self.at {
            HoldAt::LockPage => Some(Step::LockPage { page: self.page }),
            HoldAt::LoadCache { .. } => Some(Step::Load {
                place: SharedWord::Cache(self.page),
            }),
            HoldAt::Pin { pin } => pin.plan(),
            HoldAt::LockFrame { frame } => Some(Step::LockFrame { frame }),
            HoldAt::Held { .. } => None,
        }
    }

    fn give(&mut self) -> Option<Body> {
        None
    }

    fn settle(&mut self, layout: &Layout, found: u64, body: Option<Body>) -> Turn {
        match &mut self.at {
            HoldAt::LockPage => {
                if is_free(found) {
                    self.set(HoldAt::LoadCache { body });
                    Turn::Moved
                } else {
                    Turn::Waits(found)
                }
            }
            HoldAt::LoadCache { body } => {
                let body = body.take();
                self.set(Hold::at_cache(self.who, body, found));
                Turn::Moved
            }
            HoldAt::Pin { pin } => {
                let turn = pin.settle(layout, found, body);
                if let Some(PinAnswer::Held(_)) = pin.answer() {
                    let frame = pin.frame();
                    self.set(HoldAt::LockFrame { frame });
                }
                turn
            }
            HoldAt::LockFrame { frame } => {
                if is_free(found) {
                    let at = Hold::at_locked(*frame, body);
                    self.set(at);
                    Turn::Moved
                } else {
                    Turn::Waits(found)
                }
            }
            HoldAt::Held { .. } => Turn::Moved,
        }
    }
}

impl Ranked for Hold {
    fn class(&self) -> u8 {
        match self.at {
            HoldAt::LockPage => 4,
            HoldAt::LoadCache { .. } | HoldAt::Pin { .. } | HoldAt::LockFrame { .. } => 2,
            HoldAt::Held { frame, .. } => if frame.is_some() { 1 } else { 2 },
        }
    }

    fn ranked() {}
}
