ghost use Rattle.std.specs.Prelude.{◌≡◌, Option, is_some, is_none, true, cond};

use hwp_core::{
    Body, Frame, FrameWord, Layout, Page, Ranked, Release, Step, Task, Turn, Who, let_go_of,
};
use std::mem;

/// Meets a frame that is in use: takes a reference to it and its lock, and before that the lock of the page that is in it, if
/// any; and looks, under the locks, whether the frame is still what it was (Linux memory_failure, from get_hwpoison_page on, and
/// soft_offline_in_use_page).
#[derive(Drop)]
pub struct Meet {
    who: Who,
    frame: Frame,
    /// That of the failure that the frame is met for, if it is met for one.
    cycle: Option<u32>,
    at: MeetAt,
}

#[derive(Drop)]
enum MeetAt {
    GetRef {
        seen: u64,
    },
    LockFree,
    LockPage {
        page: Page,
    },
    LockOwned {
        page: Page,
        shelf: Option<Body>,
    },
    Unlock {
        body: Option<Body>,
        ended: bool,
    },
    UnlockFrame {
        page: Page,
        shelf: Option<Body>,
        body: Option<Body>,
        ended: bool,
    },
    UnlockPage {
        page: Page,
        shelf: Option<Body>,
        ended: bool,
    },
    Release {
        release: Release,
        ended: bool,
    },
    Back {
        ended: bool,
    },
    Free,
    Owned {
        page: Page,
        body: Body,
    },
}

/// What a `Meet` came to (this project's rule).
#[derive(Clone, Copy)]
pub enum MeetAnswer {
    /// The frame changed meanwhile: its word has to be looked at again. Nothing is held.
    LookAgain,
    /// Others have ended the failure. Nothing is held.
    Ended,
    /// The frame is locked, and no page is in it.
    Free,
    /// This page is locked, and so is the frame, which it is in; and the page's body is in hand.
    Owned(Page),
}

impl Meet {
    ghost use Rattle.hwp_claim_frame.specs.Meets.{begin, plan, answer, is_owned, IsBody};

    /// The command meets the frame, for its failure of this cycle or for none. Its word was `seen`.
    pub fn new(who: Who, frame: Frame, cycle: Option<u32>, seen: u64) -> Meet
        ensures { result ≡ begin who frame cycle seen }
    {
        Meet {
            who,
            frame,
            cycle,
            at: MeetAt::GetRef { seen },
        }
    }

    /// What the task came to; `None` until it is over.
    pub fn answer(&self) -> Option<MeetAnswer>
        ensures answer { result ≡ answer self.now }
        ensures over { is_some result ≡ is_none (plan self.now) }
    {
        match &self.at {
            MeetAt::Release { release, ended } => {
                if release.is_over() {
                    Some(back(*ended))
                } else {
                    None
                }
            }
            MeetAt::Back { ended } => Some(back(*ended)),
            MeetAt::Free => Some(MeetAnswer::Free),
            MeetAt::Owned { page, .. } => Some(MeetAnswer::Owned(*page)),
            MeetAt::GetRef { .. }
            | MeetAt::LockFree
            | MeetAt::LockPage { .. }
            | MeetAt::LockOwned { .. }
            | MeetAt::Unlock { .. }
            | MeetAt::UnlockFrame { .. }
            | MeetAt::UnlockPage { .. } => None,
        }
    }

    /// The body of the page that the frame was met with.
    pub fn body(self) -> Body
        requires owned { is_owned self ≡ true }
        ensures { IsBody self result }
    {
        match self.at {
            MeetAt::Owned { body, .. } => body,
            MeetAt::GetRef { .. }
            | MeetAt::LockFree
            | MeetAt::LockPage { .. }
            | MeetAt::LockOwned { .. }
            | MeetAt::Unlock { .. }
            | MeetAt::UnlockFrame { .. }
            | MeetAt::UnlockPage { .. }
            | MeetAt::Release { .. }
            | MeetAt::Back { .. }
            | MeetAt::Free => unreachable!(),
        }
    }

    /// The body of the page that the frame was met with, out of the task.
    pub(crate) fn take_body(&mut self) -> Body
        requires owned { is_owned self.old ≡ true }
        ensures { IsBody self.old result }
    {
        match mem::replace(&mut self.at, MeetAt::Free) {
            MeetAt::Owned { body, .. } => body,
            MeetAt::GetRef { .. }
            | MeetAt::LockFree
            | MeetAt::LockPage { .. }
            | MeetAt::LockOwned { .. }
            | MeetAt::Unlock { .. }
            | MeetAt::UnlockFrame { .. }
            | MeetAt::UnlockPage { .. }
            | MeetAt::Release { .. }
            | MeetAt::Back { .. }
            | MeetAt::Free => unreachable!(),
        }
    }
}

ghost use Rattle.hwp_core.specs.Holds.{is_free};
ghost use Rattle.hwp_claim_frame.specs.Meets.{
  back,
  is_ended,
  has_ended,
  is_taken,
  is_owner,
  referenced,
  owner_in,
  free_at,
  owned_at,
  released,
};

fn back(ended: bool) -> MeetAnswer
    ensures { result ≡ back ended }
{
    if ended {
        MeetAnswer::Ended
    } else {
        MeetAnswer::LookAgain
    }
}

/// The lock's word says that it was free.
fn is_free(word: u64) -> bool
    ensures { result ≡ is_free word }
{
    word & 1 == 0
}

/// The failure of this cycle has ended: the frame isn't poisoned, or is so in another cycle.
pub(crate) fn is_ended(cycle: u32, word: u64) -> bool
    ensures { result ≡ is_ended cycle word }
{
    let frame = FrameWord::unpack(word);
    !(frame.poisoned && frame.cycle == cycle)
}

/// The failure that the frame is met for, if it is met for one, has ended.
fn has_ended(cycle: Option<u32>, word: u64) -> bool
    ensures { result ≡ has_ended cycle word }
{
    match cycle {
        Some(cycle) => is_ended(cycle, word),
        None => false,
    }
}

/// The frame is out of use already, or a page's.
fn is_taken(word: u64) -> bool
    ensures { result ≡ is_taken word }
{
    let frame = FrameWord::unpack(word);
    frame.handled || frame.owner.is_some()
}

/// The page is in the frame.
fn is_owner(page: Page, word: u64) -> bool
    ensures { result ≡ is_owner page word }
{
    match FrameWord::unpack(word).owner {
        Some(owner) => owner.0 == page.0,
        None => false,
    }
}

fn referenced(seen: u64) -> MeetAt
    ensures { result ≡ referenced (owner_in seen) }
{
    match FrameWord::unpack(seen).owner {
        Some(page) => MeetAt::LockPage { page },
        None => MeetAt::LockFree,
    }
}

fn free_at(cycle: Option<u32>, found: u64, got: Option<Body>) -> MeetAt
    ensures { result ≡ free_at got (has_ended cycle found) (is_taken found) }
{
    if has_ended(cycle, found) {
        MeetAt::Unlock {
            body: got,
            ended: true,
        }
    } else if is_taken(found) {
        MeetAt::Unlock {
            body: got,
            ended: false,
        }
    } else {
        let_go_of(got);
        MeetAt::Free
    }
}

fn owned_at(
    page: Page,
    cycle: Option<u32>,
    found: u64,
    shelf: Option<Body>,
    got: Option<Body>,
) -> MeetAt
    ensures { result ≡ owned_at page shelf got (has_ended cycle found) (is_owner page found) }
{
    if has_ended(cycle, found) {
        MeetAt::UnlockFrame {
            page,
            shelf,
            body: got,
            ended: true,
        }
    } else if is_owner(page, found) {
        match got {
            Some(body) => {
                drop(shelf);
                MeetAt::Owned { page, body }
            }
            None => MeetAt::LockOwned { page, shelf },
        }
    } else {
        MeetAt::UnlockFrame {
            page,
            shelf,
            body: got,
            ended: false,
        }
    }
}

ghost use Rattle.std.specs.Prelude.{◌==◌, false};
ghost use Rattle.std.specs.Option.{unwrap_or};
ghost use Rattle.hwp_core.specs.hwp_core_rule.declared.Turn.TheVariants.{Changed, Moved, Waits};
ghost use Rattle.hwp_claim_frame.specs.declared.meet.MeetAt.TheVariants.{
  Back,
  LockOwned,
  Release as Releasing,
};
ghost use Rattle.hwp_core.specs.Releases.{begin as begin_release};

fn released(release: &Release, ended: bool) -> Option<MeetAt>
    ensures { unwrap_or result (Releasing release.now ended) ≡ released release.now ended }
{
    if release.is_over() {
        Some(MeetAt::Back { ended })
    } else {
        None
    }
}

impl Meet {
    fn set(&mut self, at: MeetAt)
        ensures { self.new ≡ record self.old { at = at } }
    {
        self.at = at;
    }

    /// The state that follows, if another one does, with the turn of the step.
    fn follow(&mut self, after: Option<MeetAt>, turn: Turn) -> Turn
        ensures at { self.new ≡ record self.old { at = unwrap_or after self.old.at } }
        ensures turn { result ≡ turn }
    {
        if let Some(at) = after {
            self.set(at);
        }
        turn
    }

    fn get_ref(&mut self, seen: u64, found: u64) -> Turn
        ensures at { self.new ≡ record self.old { at = cond (found == seen) (referenced (owner_in seen)) (Back false) } }
        ensures turn { result ≡ cond (found == seen) Moved (Changed found) }
    {
        if found == seen {
            self.set(referenced(seen));
            Turn::Moved
        } else {
            self.set(MeetAt::Back { ended: false });
            Turn::Changed(found)
        }
    }

    fn lock_free(&mut self, found: u64, got: Option<Body>) -> Turn
        ensures at { self.new ≡ record self.old { at = cond (is_free found) (free_at got (has_ended self.old.cycle found) (is_taken found)) self.old.at } }
        ensures turn { result ≡ cond (is_free found) Moved (Waits found) }
    {
        if is_free(found) {
            self.set(free_at(self.cycle, found, got));
            Turn::Moved
        } else {
            let_go_of(got);
            Turn::Waits(found)
        }
    }

    fn lock_page(&mut self, page: Page, found: u64, got: Option<Body>) -> Turn
        ensures at { self.new ≡ record self.old { at = cond (is_free found) (LockOwned page got) self.old.at } }
        ensures turn { result ≡ cond (is_free found) Moved (Waits found) }
    {
        if is_free(found) {
            self.set(MeetAt::LockOwned { page, shelf: got });
            Turn::Moved
        } else {
            let_go_of(got);
            Turn::Waits(found)
        }
    }

    /// The last lock is given back, and now the reference is to be.
    fn give_back(&mut self, ended: bool) -> Turn
        ensures at { self.new ≡ record self.old { at = Releasing (begin_release self.old.who self.old.frame 1) ended } }
        ensures turn { result ≡ Moved }
    {
        let release = Release::new(self.who, self.frame, 1);
        self.set(MeetAt::Release { release, ended });
        Turn::Moved
    }
}

impl Task for Meet {
    ghost use Rattle.hwp_claim_frame.specs.Meets as meets;

    ghost task = { meets.task };

    fn who(&self) -> Who {
        self.who
    }

    fn plan(&self) -> Option<Step> {
        match &self.at {
            MeetAt::GetRef { seen } => Some(Step::GetRef {
                frame: self.frame,
                seen: *seen,
                count: 1,
            }),
            MeetAt::LockFree | MeetAt::LockOwned { .. } => {
                Some(Step::LockFrame { frame: self.frame })
            }
            MeetAt::LockPage { page } => Some(Step::LockPage { page: *page }),
            MeetAt::Unlock { .. } | MeetAt::UnlockFrame { .. } => {
                Some(Step::UnlockFrame { frame: self.frame })
            }
            MeetAt::UnlockPage { page, .. } => Some(Step::UnlockPage { page: *page }),
            MeetAt::Release { release, .. } => release.plan(),
            MeetAt::Back { .. } | MeetAt::Free | MeetAt::Owned { .. } => None,
        }
    }

    fn give(&mut self) -> Option<Body> {
        match &mut self.at {
            MeetAt::Unlock { body, .. } => body.take(),
            MeetAt::UnlockFrame { body, .. } => body.take(),
            MeetAt::UnlockPage { shelf, .. } => shelf.take(),
            MeetAt::GetRef { .. }
            | MeetAt::LockFree
            | MeetAt::LockPage { .. }
            | MeetAt::LockOwned { .. }
            | MeetAt::Release { .. }
            | MeetAt::Back { .. }
            | MeetAt::Free
            | MeetAt::Owned { .. } => None,
        }
    }

    fn settle(&mut self, layout: &Layout, found: u64, body: Option<Body>) -> Turn {
        match &mut self.at {
            MeetAt::GetRef { seen } => {
                let seen = *seen;
                let_go_of(body);
                self.get_ref(seen, found)
            }
            MeetAt::LockFree => self.lock_free(found, body),
            MeetAt::LockPage { page } => {
                let page = *page;
                self.lock_page(page, found, body)
            }
            MeetAt::LockOwned { page, shelf } => {
                if !is_free(found) {
                    let_go_of(body);
                    return Turn::Waits(found);
                }
                let at = owned_at(*page, self.cycle, found, shelf.take(), body);
                self.follow(Some(at), Turn::Moved)
            }
            MeetAt::Unlock { ended, .. } | MeetAt::UnlockPage { ended, .. } => {
                let ended = *ended;
                let_go_of(body);
                self.give_back(ended)
            }
            MeetAt::UnlockFrame {
                page,
                shelf,
                ended,
                ..
            } => {
                let (page, shelf, ended) = (*page, shelf.take(), *ended);
                let_go_of(body);
                self.follow(Some(MeetAt::UnlockPage { page, shelf, ended }), Turn::Moved)
            }
            MeetAt::Release { release, ended } => {
                let turn = release.settle(layout, found, body);
                let after = released(release, *ended);
                self.follow(after, turn)
            }
            MeetAt::Back { .. } | MeetAt::Free | MeetAt::Owned { .. } => {
                let_go_of(body);
                Turn::Moved
            }
        }
    }
}

impl Ranked for Meet {
    fn class(&self) -> u8 {
        match &self.at {
            MeetAt::GetRef { .. }
            | MeetAt::LockFree
            | MeetAt::LockPage { .. }
            | MeetAt::Back { .. } => 4,
            MeetAt::LockOwned { .. } | MeetAt::UnlockPage { .. } => 2,
            MeetAt::Unlock { .. }
            | MeetAt::UnlockFrame { .. }
            | MeetAt::Free
            | MeetAt::Owned { .. } => 1,
            MeetAt::Release { release, .. } => release.class(),
        }
    }

    fn ranked() {}
}
