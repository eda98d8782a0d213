ghost use Rattle.std.specs.Prelude.{◌≡◌, is_none};
ghost use Rattle.hwp_claim_act.specs.Abandons.{begin, answer, kill_at, after_owner};

use hwp_core::{
    At, Body, FileNo, Frame, Layout, Page, Proc, Ranked, SignalList, Situation, Step, Task, Thread,
    Turn, Who,
};
use std::mem;
use std::snapshot::Snapshot;

/// What a memory failure came to for the page in its frame (this project's rule).
#[derive(Clone, Copy)]
pub struct Failed {
    /// What it found.
    pub situation: Situation,
    /// The thread that needs the page now.
    pub required: Option<Thread>,
    /// Its entry.
    pub at: At,
    /// Whether it signalled that thread.
    pub signalled: bool,
}

/// Takes a page out of its failed frame for good, once no translation leads there: the page's cache word names no frame and
/// the frame gets no owner, a loss of the page's file is counted, the processes end whose threads have no handler, and the
/// frame is put out of use; then the page is let go (Linux page_action, collect_procs, kill_procs).
#[derive(Drop)]
pub struct Abandon {
    who: Who,
    page: Page,
    frame: Frame,
    count: u32,
    losses: Losses,
    failed: Failed,
    body: Option<Body>,
    at: AbandonAt,
}

/// What a memory failure costs besides the page.
#[derive(Drop)]
pub struct Losses {
    /// The file that lost content.
    pub file: Option<FileNo>,
    /// The signals to threads without a handler.
    pub endings: SignalList,
}

#[derive(Clone, Copy)]
enum AbandonAt {
    SetCache,
    SetOwner,
    Lose { file: FileNo },
    Kill { number: usize, process: Proc },
    PutRef,
    Retire,
    UnlockPage,
    Over,
}

impl Abandon {
    /// The command takes the page out of the frame, by the last entry of its body. It has so many references to the frame,
    /// with that of the cache word.
    pub fn new(
        who: Who,
        page: Page,
        frame: Frame,
        count: u32,
        losses: Losses,
        failed: Failed,
        body: Body,
    ) -> Abandon
        ensures { result ≡ begin who page frame count losses failed body }
    {
        Abandon {
            who,
            page,
            frame,
            count,
            losses,
            failed,
            body: Some(body),
            at: AbandonAt::SetCache,
        }
    }

    /// What it came to; `None` until the page is let go.
    pub fn answer(&self) -> Option<Failed>
        ensures { result ≡ answer self.now }
    {
        match self.at {
            AbandonAt::Over => Some(self.failed),
            AbandonAt::SetCache
            | AbandonAt::SetOwner
            | AbandonAt::Lose { .. }
            | AbandonAt::Kill { .. }
            | AbandonAt::PutRef
            | AbandonAt::Retire
            | AbandonAt::UnlockPage => None,
        }
    }
}

/// The process of the ending signal of this number is the next that ends; after the last one the references are given back.
fn kill_at(endings: &SignalList, number: usize) -> AbandonAt
    ensures { result ≡ kill_at endings.now number }
{
    match endings.as_slice().get(number) {
        Some(signal) => AbandonAt::Kill {
            number,
            process: signal.process,
        },
        None => AbandonAt::PutRef,
    }
}

/// Once the frame has no owner, the loss is counted, if there is one.
fn after_owner(losses: &Losses) -> AbandonAt
    ensures { result ≡ after_owner losses.now }
{
    match losses.file {
        Some(file) => AbandonAt::Lose { file },
        None => kill_at(&losses.endings, 0),
    }
}

impl Task for Abandon {
    ghost use Rattle.hwp_claim_act.specs.Abandoned as abandoned;

    ghost task = { abandoned.task };

    fn who(&self) -> Who {
        self.who
    }

    fn plan(&self) -> Option<Step> {
        match self.at {
            AbandonAt::SetCache => Some(Step::SetCache {
                page: self.page,
                frame: None,
            }),
            AbandonAt::SetOwner => Some(Step::SetOwner {
                frame: self.frame,
                page: self.page,
                owned: false,
            }),
            AbandonAt::Lose { file } => match &self.body {
                Some(body) => Some(Step::Lose {
                    file,
                    body: Snapshot::of(body),
                }),
                None => None,
            },
            AbandonAt::Kill { process, .. } => match &self.body {
                Some(body) => Some(Step::Kill {
                    process,
                    page: self.page,
                    body: Snapshot::of(body),
                }),
                None => None,
            },
            AbandonAt::PutRef => Some(Step::PutRef {
                frame: self.frame,
                count: self.count.saturating_sub(1),
            }),
            AbandonAt::Retire => Some(Step::Retire { frame: self.frame }),
            AbandonAt::UnlockPage => Some(Step::UnlockPage { page: self.page }),
            AbandonAt::Over => None,
        }
    }

    fn give(&mut self) -> Option<Body> {
        match self.at {
            AbandonAt::UnlockPage => mem::replace(&mut self.body, None),
            _ => None,
        }
    }

    fn settle(&mut self, _layout: &Layout, _found: u64, _body: Option<Body>) -> Turn {
        self.at = match self.at {
            AbandonAt::SetCache => AbandonAt::SetOwner,
            AbandonAt::SetOwner => after_owner(&self.losses),
            AbandonAt::Lose { .. } => kill_at(&self.losses.endings, 0),
            AbandonAt::Kill { number, .. } => kill_at(&self.losses.endings, number + 1),
            AbandonAt::PutRef => AbandonAt::Retire,
            AbandonAt::Retire => AbandonAt::UnlockPage,
            AbandonAt::UnlockPage | AbandonAt::Over => AbandonAt::Over,
        };
        Turn::Moved
    }
}

impl Ranked for Abandon {
    fn class(&self) -> u8 {
        match self.at {
            AbandonAt::UnlockPage => 2,
            AbandonAt::Over => 4,
            AbandonAt::SetCache
            | AbandonAt::SetOwner
            | AbandonAt::Lose { .. }
            | AbandonAt::Kill { .. }
            | AbandonAt::PutRef
            | AbandonAt::Retire => 1,
        }
    }

    fn ranked() {}
}
