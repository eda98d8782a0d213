ghost use Rattle.std.specs.Prelude.{◌≡◌, None};
ghost use Rattle.hwp_evict.specs.Fills.{HasRoomFor, brought};

use crate::take::{Take, TakeAnswer};
use hwp_core::{
    Body, Entry, Frame, Layout, Page, Ranked, Refer, Step, Task, Turn, What, Who, let_go_of,
};

/// Puts a page that is held, and in no frame, into a free frame: the first half of a fault on it (this project's rule).
#[derive(Drop)]
pub struct Fill {
    who: Who,
    page: Page,
    body: Body,
    at: FillAt,
}

#[derive(Clone, Copy)]
enum FillAt {
    Take { take: Take },
    SetOwner { frame: Frame },
    Refer { refer: Refer },
    SetCache { frame: Frame },
    Over { frame: Option<Frame> },
}

/// What a `Fill` came to (this project's rule).
#[derive(Clone, Copy)]
pub enum FillAnswer {
    /// The page is in the frame, whose lock and one reference the processor has.
    Filled(Frame),
    /// No frame was available.
    NoFrame,
}

impl Fill {
    ghost use Rattle.hwp_evict.specs.Fills.{begin, plan, answer};

    /// The command puts the page into a frame. The body has room for one entry more.
    pub fn new(who: Who, page: Page, body: Body) -> Fill
        ensures { result ≡ begin who page body }
    {
        Fill {
            who,
            page,
            body,
            at: FillAt::Take {
                take: Take::new(who),
            },
        }
    }

    /// What the task came to; `None` until it is over.
    pub fn answer(&self) -> Option<FillAnswer>
        ensures { result ≡ answer self.now }
    {
        match &self.at {
            FillAt::Over { frame: Some(frame) } => Some(FillAnswer::Filled(*frame)),
            FillAt::Over { frame: None } => Some(FillAnswer::NoFrame),
            FillAt::Take { .. }
            | FillAt::SetOwner { .. }
            | FillAt::Refer { .. }
            | FillAt::SetCache { .. } => None,
        }
    }

    /// The page's body, when the task is over.
    pub fn body(self) -> Body
        requires over { plan self ≡ None }
        ensures { result ≡ self.body }
    {
        self.body
    }
}

/// Appends the entry that the page was brought into a frame.
fn bring(who: Who, body: &mut Body)
    requires { HasRoomFor body.old }
    ensures { body.new ≡ brought who body.old }
{
    body.append(Entry {
        who,
        what: What::FaultIn,
    });
}

impl Task for Fill {
    ghost use Rattle.hwp_evict.specs.Fills as fills;

    ghost task = { fills.task };

    fn who(&self) -> Who {
        self.who
    }

    fn plan(&self) -> Option<Step> {
        match &self.at {
            FillAt::Take { take } => take.plan(),
            FillAt::SetOwner { frame } => Some(Step::SetOwner {
                frame: *frame,
                page: self.page,
                owned: true,
            }),
            FillAt::Refer { refer } => refer.plan(),
            FillAt::SetCache { frame } => Some(Step::SetCache {
                page: self.page,
                frame: Some(*frame),
            }),
            FillAt::Over { .. } => None,
        }
    }

    fn give(&mut self) -> Option<Body> {
        None
    }

    fn settle(&mut self, layout: &Layout, found: u64, body: Option<Body>) -> Turn {
        match &mut self.at {
            FillAt::Take { take } => {
                let turn = take.settle(layout, found, body);
                match take.answer() {
                    Some(TakeAnswer::Taken(frame)) => self.at = FillAt::SetOwner { frame },
                    Some(TakeAnswer::NoFrame) => self.at = FillAt::Over { frame: None },
                    None => {}
                }
                turn
            }
            FillAt::SetOwner { frame } => {
                let refer = Refer::new(self.who, *frame, 1);
                let_go_of(body);
                self.at = FillAt::Refer { refer };
                Turn::Moved
            }
            FillAt::Refer { refer } => {
                let turn = refer.settle(layout, found, body);
                if refer.is_over() {
                    let frame = refer.frame();
                    self.at = FillAt::SetCache { frame };
                }
                turn
            }
            FillAt::SetCache { frame } => {
                let frame = Some(*frame);
                let_go_of(body);
                bring(self.who, &mut self.body);
                self.at = FillAt::Over { frame };
                Turn::Moved
            }
            FillAt::Over { .. } => {
                let_go_of(body);
                Turn::Moved
            }
        }
    }
}

impl Ranked for Fill {
    fn class(&self) -> u8 {
        match &self.at {
            FillAt::Take { take } => { if take.class() == 1 { 1 } else { 2 } }
            FillAt::SetOwner { .. }
            | FillAt::Refer { .. }
            | FillAt::SetCache { .. }
            | FillAt::Over { frame: Some(_) } => 1,
            FillAt::Over { frame: None } => 2,
        }
    }

    fn ranked() {}
}
