ghost use Rattle.std.specs.Prelude.{◌≡◌, ◌<◌, true, None};
ghost use Rattle.hwp_core.specs.hwp_core_rule.declared.Turn.TheVariants.{Moved};
ghost use Rattle.hwp_claim_act.specs.declared.act.ActAt.TheVariants as states;
ghost use Rattle.hwp_claim_act.specs.Failing.{CanEnter};
ghost use Rattle.hwp_claim_act.specs.Acts.{AfterRead, Begins, CanReadOn, Enters, Follows, IsAtClear, Shows, Starts, abandoned, after_clear, answer, given_up};

use crate::abandon::{Abandon, Failed, Losses};
use crate::failing::{Entered, bars, enter};
use crate::read_policies::{ReadPolicies, Rooms};
use hwp_core::{
    Body, Clear, Frame, GiveUp, Layout, List, Page, Ranked, Seen, Step, Task, Thread, Turn, Who,
};
use std::alloc::Global;
use std::mem;

/// A memory failure acts on the page in its frame: it reads the policies of the threads that it may signal, makes its entry,
/// takes the translations to the frame away, and the page out of the frame for good (Linux hwpoison_user_mappings and
/// page_action). The page is held, with its frame.
#[derive(Drop)]
pub struct Act {
    who: Who,
    page: Page,
    frame: Frame,
    at: ActAt,
}

#[derive(Drop)]
enum ActAt {
    Read {
        read: ReadPolicies,
    },
    Clear {
        clear: Clear,
        losses: Losses,
        failed: Failed,
        body: Body,
    },
    Abandon {
        abandon: Abandon,
    },
    GiveUp {
        give_up: GiveUp,
    },
    /// `None` where it gave up.
    Over {
        failed: Option<Failed>,
    },
}

impl Act {
    /// The command's failure acts on the page in this frame, where `required` is the thread that needs the page now.
    pub fn new(
        alloc: Global,
        who: Who,
        page: Page,
        frame: Frame,
        required: Option<Thread>,
        body: Body,
    ) -> Act
        requires cached { body.state.cached ≡ true }
        ensures begun { (result.who ≡ who) × (result.page ≡ page) × (result.frame ≡ frame) }
        ensures starts { Starts who page frame required body result.at }
    {
        Act {
            who,
            page,
            frame,
            at: start(alloc, who, page, frame, required, body),
        }
    }

    /// What it came to; `None` until the page is let go, and where it gave up.
    pub fn answer(&self) -> Option<Failed>
        ensures { result ≡ answer self.now }
    {
        match &self.at {
            ActAt::Over { failed } => *failed,
            ActAt::Read { .. }
            | ActAt::Clear { .. }
            | ActAt::Abandon { .. }
            | ActAt::GiveUp { .. } => None,
        }
    }

    fn set(&mut self, at: ActAt)
        ensures { self.new ≡ record self.old { at = at } }
    {
        self.at = at;
    }

    /// What the state owns, to go on with.
    fn take(&mut self) -> ActAt
        ensures taken { result ≡ self.old.at }
        ensures left { self.new ≡ record self.old { at = states.Over None } }
    {
        mem::replace(&mut self.at, ActAt::Over { failed: None })
    }

    /// Clears the next translation; after the last one the page leaves its frame.
    fn clear_more(&mut self, layout: &Layout, found: u64, got: Option<Body>)
        requires clearing { IsAtClear self.old.at }
        requires shows { Shows self.old found }
        ensures { Follows self.old found self.new Moved }
    {
        let ActAt::Clear { clear, .. } = &mut self.at else {
            unreachable!();
        };
        let _turn = clear.settle(layout, found, got);
        if clear.is_over() {
            let count = clear.count();
            match self.take() {
                ActAt::Clear {
                    losses,
                    failed,
                    body,
                    ..
                } => {
                    let entered = Entered {
                        body,
                        losses,
                        failed,
                    };
                    self.set(abandoned(self.who, self.page, self.frame, count, entered));
                }
                _ => unreachable!(),
            }
        }
    }
}

/// Room is made for the entry, and the failure begins.
fn start(
    alloc: Global,
    who: Who,
    page: Page,
    frame: Frame,
    required: Option<Thread>,
    body: Body,
) -> ActAt
    requires cached { body.state.cached ≡ true }
    ensures { Starts who page frame required body result }
{
    let mut body = body;
    match body.room() {
        Ok(()) => begin(alloc, who, page, frame, required, body),
        Err(_) => given_up(who, page, frame, body),
    }
}

/// Room is made for the signals, for the translations and, where the failure signals, for the policies, which are read then; else the entry is made.
fn begin(
    alloc: Global,
    who: Who,
    page: Page,
    frame: Frame,
    required: Option<Thread>,
    body: Body,
) -> ActAt
    requires cached { body.state.cached ≡ true }
    requires room { 0 < body.spare }
    ensures { Begins who page frame required body result }
{
    let Ok(room) = Rooms::new(alloc) else {
        return given_up(who, page, frame, body);
    };
    let signalling = body.state().situation().signals();
    if signalling {
        match Vec::with_capacity(alloc, body.layout().threads.len()) {
            Ok(seen) => {
                let read = ReadPolicies::new(who, frame, required, body, seen, room);
                after_read(who, page, frame, read)
            }
            Err(_) => given_up(who, page, frame, body),
        }
    } else {
        go_out(who, page, frame, required, body, List::new(alloc), room)
    }
}

/// Memory is refused, and the command gives up.
fn given_up(who: Who, page: Page, frame: Frame, body: Body) -> ActAt
    ensures { result ≡ given_up who page frame body }
{
    ActAt::GiveUp {
        give_up: GiveUp::with_page(who, page, Some(frame), 1, body),
    }
}

/// Once all policies are read, the entry is made.
fn after_read(who: Who, page: Page, frame: Frame, read: ReadPolicies) -> ActAt
    requires { CanReadOn read }
    ensures { AfterRead who page frame read result }
{
    if read.is_over() {
        let required = read.required();
        let (body, seen, room) = read.into_parts();
        go_out(who, page, frame, required, body, seen, room)
    } else {
        ActAt::Read { read }
    }
}

/// The entry is made, and the translations that were in use are written.
fn go_out(
    who: Who,
    page: Page,
    frame: Frame,
    required: Option<Thread>,
    body: Body,
    seen: List<Seen>,
    room: Rooms,
) -> ActAt
    requires { CanEnter required body seen }
    ensures { Enters who page frame required body seen result }
{
    let Rooms { signals, slots } = room;
    let maps = slots.hold(&body.state().maps);
    let barred = bars(body.state().situation());
    let entered = enter(who, required, body, seen, signals);
    let clear = Clear::new(who, page, frame, maps, barred);
    after_clear(who, page, frame, clear, entered)
}

/// Where all are written already, the page leaves its frame.
fn after_clear(who: Who, page: Page, frame: Frame, clear: Clear, entered: Entered) -> ActAt
    ensures { result ≡ after_clear who page frame clear entered }
{
    if clear.is_over() {
        abandoned(who, page, frame, clear.count(), entered)
    } else {
        let Entered {
            body,
            losses,
            failed,
        } = entered;
        ActAt::Clear {
            clear,
            losses,
            failed,
            body,
        }
    }
}

/// The page leaves its frame, to which the command has so many references.
fn abandoned(who: Who, page: Page, frame: Frame, count: u32, entered: Entered) -> ActAt
    ensures { result ≡ abandoned who page frame count entered }
{
    let Entered {
        body,
        losses,
        failed,
    } = entered;
    ActAt::Abandon {
        abandon: Abandon::new(who, page, frame, count, losses, failed, body),
    }
}

impl Task for Act {
    ghost use Rattle.hwp_claim_act.specs.Acting as acting;

    ghost task = { acting.task };

    fn who(&self) -> Who {
        self.who
    }

    fn plan(&self) -> Option<Step> {
        match &self.at {
            ActAt::Read { read } => read.plan(),
            ActAt::Clear { clear, .. } => clear.plan(),
            ActAt::Abandon { abandon } => abandon.plan(),
            ActAt::GiveUp { give_up } => give_up.plan(),
            ActAt::Over { .. } => None,
        }
    }

    fn give(&mut self) -> Option<Body> {
        match &mut self.at {
            ActAt::Abandon { abandon } => abandon.give(),
            ActAt::GiveUp { give_up } => give_up.give(),
            _ => None,
        }
    }

    fn settle(&mut self, layout: &Layout, found: u64, body: Option<Body>) -> Turn {
        match &mut self.at {
            ActAt::Read { read } => {
                let _turn = read.settle(layout, found, body);
                if read.is_over() {
                    match self.take() {
                        ActAt::Read { read } => {
                            self.set(after_read(self.who, self.page, self.frame, read));
                        }
                        _ => unreachable!(),
                    }
                }
                Turn::Moved
            }
            ActAt::Clear { .. } => {
                self.clear_more(layout, found, body);
                Turn::Moved
            }
            ActAt::Abandon { abandon } => {
                let _turn = abandon.settle(layout, found, body);
                if let Some(failed) = abandon.answer() {
                    self.set(ActAt::Over {
                        failed: Some(failed),
                    });
                }
                Turn::Moved
            }
            ActAt::GiveUp { give_up } => {
                let turn = give_up.settle(layout, found, body);
                if give_up.is_over() {
                    self.set(ActAt::Over { failed: None });
                }
                turn
            }
            ActAt::Over { .. } => Turn::Moved,
        }
    }
}

impl Ranked for Act {
    fn class(&self) -> u8 {
        match &self.at {
            ActAt::Read { read } => read.class(),
            ActAt::Clear { clear, .. } => clear.class(),
            ActAt::Abandon { abandon } => abandon.class(),
            ActAt::GiveUp { give_up } => give_up.class(),
            ActAt::Over { .. } => 4,
        }
    }

    fn ranked() {}
}
