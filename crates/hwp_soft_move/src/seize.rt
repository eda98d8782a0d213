ghost use Rattle.std.specs.Prelude.{◌≡◌, true};
ghost use Rattle.hwp_soft_move.specs.Seizes.{begin, answer, is_owned, IsBody, looked};

use hwp_claim_frame::{
    Body, Frame, FrameWord, Grab, GrabAnswer, Layout, Meet, MeetAnswer, Page, Ranked, SharedWord,
    Step, Task, Turn, Who, let_go_of,
};
use std::mem;

/// Takes a good frame from those that use it, or could: out of the free ones, or under its locks (Linux get_hwpoison_page, within
/// soft_offline_page).
#[derive(Drop)]
pub struct Seize {
    who: Who,
    frame: Frame,
    at: SeizeAt,
}

#[derive(Drop)]
enum SeizeAt {
    Look,
    Grab { grab: Grab },
    Meet { meet: Meet },
    Kernel,
    Already,
    Grabbed,
    Free,
    Owned { page: Page, body: Body },
}

/// What a `Seize` came to (this project's rule).
#[derive(Clone, Copy)]
pub enum SeizeAnswer {
    /// The frame is the kernel's. Nothing is held.
    Kernel,
    /// The frame was poisoned. Nothing is held.
    Already,
    /// The frame was free, and is locked.
    Grabbed,
    /// The frame was in use, but no page is in it, and it is locked.
    Free,
    /// This page is locked, and so is the frame, which it is in; and the page's body is in hand.
    Owned(Page),
}

impl Seize {
    /// The command seizes this frame.
    pub fn new(who: Who, frame: Frame) -> Seize
        ensures { result ≡ begin who frame }
    {
        Seize {
            who,
            frame,
            at: SeizeAt::Look,
        }
    }

    /// What the task came to; `None` until it is over.
    pub fn answer(&self) -> Option<SeizeAnswer>
        ensures { result ≡ answer self.now }
    {
        match &self.at {
            SeizeAt::Look | SeizeAt::Grab { .. } | SeizeAt::Meet { .. } => None,
            SeizeAt::Kernel => Some(SeizeAnswer::Kernel),
            SeizeAt::Already => Some(SeizeAnswer::Already),
            SeizeAt::Grabbed => Some(SeizeAnswer::Grabbed),
            SeizeAt::Free => Some(SeizeAnswer::Free),
            SeizeAt::Owned { page, .. } => Some(SeizeAnswer::Owned(*page)),
        }
    }

    /// The body of the page that is in the frame.
    pub fn body(self) -> Body
        requires owned { is_owned self ≡ true }
        ensures { IsBody self result }
    {
        match self.at {
            SeizeAt::Owned { body, .. } => body,
            SeizeAt::Look
            | SeizeAt::Grab { .. }
            | SeizeAt::Meet { .. }
            | SeizeAt::Kernel
            | SeizeAt::Already
            | SeizeAt::Grabbed
            | SeizeAt::Free => unreachable!(),
        }
    }

    fn set(&mut self, at: SeizeAt)
        ensures { self.new ≡ record self.old { at = at } }
    {
        self.at = at;
    }
}

/// What is to be done about the frame's word.
fn looked(who: Who, frame: Frame, found: u64) -> SeizeAt
    ensures { result ≡ looked who frame found }
{
    let word = FrameWord::unpack(found);
    if word.kernel {
        SeizeAt::Kernel
    } else if word.poisoned {
        SeizeAt::Already
    } else if word.count == 0 {
        SeizeAt::Grab {
            grab: Grab::new(who, frame),
        }
    } else {
        SeizeAt::Meet {
            meet: Meet::new(who, frame, None, found),
        }
    }
}

impl Task for Seize {
    ghost use Rattle.hwp_soft_move.specs.Seizes as seizes;

    ghost task = { seizes.task };

    fn who(&self) -> Who {
        self.who
    }

    fn plan(&self) -> Option<Step> {
        match &self.at {
            SeizeAt::Look => Some(Step::Load {
                place: SharedWord::Frame(self.frame),
            }),
            SeizeAt::Grab { grab } => grab.plan(),
            SeizeAt::Meet { meet } => meet.plan(),
            SeizeAt::Kernel
            | SeizeAt::Already
            | SeizeAt::Grabbed
            | SeizeAt::Free
            | SeizeAt::Owned { .. } => None,
        }
    }

    fn give(&mut self) -> Option<Body> {
        match &mut self.at {
            SeizeAt::Meet { meet } => meet.give(),
            _ => None,
        }
    }

    fn settle(&mut self, layout: &Layout, found: u64, body: Option<Body>) -> Turn {
        match &mut self.at {
            SeizeAt::Look => {
                let_go_of(body);
                self.set(looked(self.who, self.frame, found));
                Turn::Moved
            }
            SeizeAt::Grab { grab } => {
                let turn = grab.settle(layout, found, body);
                match grab.answer() {
                    None => {}
                    Some(GrabAnswer::LookAgain) => self.set(SeizeAt::Look),
                    Some(GrabAnswer::Grabbed(_)) => self.set(SeizeAt::Grabbed),
                }
                turn
            }
            SeizeAt::Meet { meet } => {
                let turn = meet.settle(layout, found, body);
                match meet.answer() {
                    None => {}
                    Some(MeetAnswer::LookAgain | MeetAnswer::Ended) => self.set(SeizeAt::Look),
                    Some(MeetAnswer::Free) => self.set(SeizeAt::Free),
                    Some(MeetAnswer::Owned(page)) => {
                        match mem::replace(&mut self.at, SeizeAt::Look) {
                            SeizeAt::Meet { meet } => {
                                let body = meet.body();
                                self.set(SeizeAt::Owned { page, body });
                            }
                            _ => unreachable!(),
                        }
                    }
                }
                turn
            }
            SeizeAt::Kernel
            | SeizeAt::Already
            | SeizeAt::Grabbed
            | SeizeAt::Free
            | SeizeAt::Owned { .. } => {
                let_go_of(body);
                Turn::Moved
            }
        }
    }
}

impl Ranked for Seize {
    fn class(&self) -> u8 {
        match &self.at {
            SeizeAt::Grab { grab } => grab.class(),
            SeizeAt::Meet { meet } => meet.class(),
            SeizeAt::Look | SeizeAt::Kernel | SeizeAt::Already => 4,
            SeizeAt::Grabbed | SeizeAt::Free | SeizeAt::Owned { .. } => 1,
        }
    }

    fn ranked() {}
}
