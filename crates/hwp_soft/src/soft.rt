ghost use Rattle.std.specs.Prelude.{◌≡◌, false, true, cond, Some};
ghost use Rattle.hwp_claim_frame.specs.hwp_core.Releases as releases;
ghost use Rattle.hwp_claim_frame.specs.hwp_core_rule.declared.Turn.TheVariants.{Answered, Moved};
ghost use Rattle.hwp_soft.specs.declared.soft.SoftAt.TheVariants as states;
ghost use Rattle.hwp_soft.specs.Softs.{begin, answer, is_held, is_movable, IsHeld, after_stop, after_seize, AfterBad, given_up, after_take_by, AfterPoison, CanMakeEntry, Moves, let_go, ended, Shows, Follows};

use crate::movable::Movable;
use hwp_claim_frame::{
    At, Body, Entry, Frame, FrameWord, GiveUp, Layout, Mask, Page, Ranked, Release, Scheduled,
    SharedWord, SlotRoom, Step, Task, Turn, Unhold, What, Who, is_stopped, let_go_of,
};
use hwp_evict::{Take, TakeAnswer};
use hwp_soft_move::{Discard, Relocate, Seize, SeizeAnswer};
use std::mem;

/// What a `Soft` came to (this project's rule).
#[derive(Clone, Copy)]
pub enum SoftAnswer {
    /// The machine has stopped.
    Stopped,
    /// The frame is the kernel's.
    Kernel,
    /// The frame was poisoned.
    Already,
    /// The frame has these bad lines.
    HasBad(Mask),
    /// No other frame was available.
    NoFrame,
    /// No page was in the frame, and in this cycle it is out of use.
    TakenFree { cycle: u32 },
    /// The page in the frame is in this one now, by this entry; in this cycle its old frame is out of use.
    Moved { frame: Frame, at: At, cycle: u32 },
}

/// Takes a frame out of use while its content is still good: a page in it moves to another frame, and a free frame is taken out of
/// the free ones (Linux soft_offline_page).
pub struct Soft {
    who: Who,
    frame: Frame,
    at: SoftAt,
}

#[derive(Drop)]
enum SoftAt {
    LoadStop,
    Seize {
        seize: Seize,
    },
    Discard {
        discard: Discard,
    },
    LoadBad {
        page: Page,
        body: Body,
    },
    Take {
        page: Page,
        body: Movable,
        take: Take,
    },
    Poison {
        page: Page,
        body: Movable,
        to: Frame,
    },
    UnlockSpare {
        page: Page,
        body: Body,
        to: Frame,
    },
    ReleaseSpare {
        page: Page,
        body: Body,
        release: Release,
    },
    Relocate {
        relocate: Relocate,
        answer: SoftAnswer,
    },
    Unhold {
        unhold: Unhold,
        answer: SoftAnswer,
    },
    GiveUp {
        give_up: GiveUp,
    },
    Over {
        answer: SoftAnswer,
    },
}

// by hand, since what lets a soft offline go cites what is proved here; with a derive it proves anew how each part goes
impl Drop for Soft {
    fn drop(self) {
        let Soft {
            who: _,
            frame: _,
            at,
        } = self;
        drop(at);
    }
}

impl Soft {
    /// The command takes this frame out of use.
    pub fn new(who: Who, frame: Frame) -> Soft
        ensures { result ≡ begin who frame }
    {
        Soft {
            who,
            frame,
            at: SoftAt::LoadStop,
        }
    }

    /// The frame that it takes out of use.
    pub fn frame(&self) -> Frame
        ensures { result ≡ self.now.frame }
    {
        self.frame
    }

    /// What the task came to; `None` until it is over, and where it gave up.
    pub fn answer(&self) -> Option<SoftAnswer>
        ensures { result ≡ answer self.now }
    {
        match &self.at {
            SoftAt::Over { answer } => Some(*answer),
            SoftAt::LoadStop
            | SoftAt::Seize { .. }
            | SoftAt::Discard { .. }
            | SoftAt::LoadBad { .. }
            | SoftAt::Take { .. }
            | SoftAt::Poison { .. }
            | SoftAt::UnlockSpare { .. }
            | SoftAt::ReleaseSpare { .. }
            | SoftAt::Relocate { .. }
            | SoftAt::Unhold { .. }
            | SoftAt::GiveUp { .. } => None,
        }
    }

    fn set(&mut self, at: SoftAt)
        ensures { self.new ≡ record self.old { at = at } }
    {
        drop(mem::replace(&mut self.at, at));
    }

    /// The step moved the command there; the body that it met is let go.
    fn move_to(&mut self, at: SoftAt, got: Option<Body>) -> Turn
        ensures there { self.new ≡ record self.old { at = at } }
        ensures moved { result ≡ Moved }
    {
        let_go_of(got);
        self.set(at);
        Turn::Moved
    }

    /// The step led there, by this turn, and answers the command where it ended it.
    fn step_to(&mut self, at: SoftAt, turn: Turn) -> Turn
        ensures there { self.new ≡ record self.old { at = at } }
        ensures turn { result ≡ ended at turn }
    {
        let turn = ended(&at, turn);
        self.set(at);
        turn
    }

    fn end(&mut self, answer: SoftAnswer) -> Turn
        ensures over { self.new ≡ record self.old { at = states.Over answer } }
        ensures answered { result ≡ Answered }
    {
        self.set(SoftAt::Over { answer });
        Turn::Answered
    }

    /// Where a part is over, the command is too.
    fn end_with(&mut self, over: bool, answer: SoftAnswer, turn: Turn) -> Turn
        ensures there { self.new ≡ record self.old { at = cond over (states.Over answer) self.old.at } }
        ensures turn { result ≡ cond over Answered turn }
    {
        if over { self.end(answer) } else { turn }
    }

    /// The page that is held and its body, for the state that comes next.
    fn take_page(&mut self) -> (Page, Body)
        requires held { is_held self.old.at ≡ true }
        requires plain { is_movable self.old.at ≡ false }
        ensures left { self.new ≡ record self.old { at = states.LoadStop } }
        ensures held { IsHeld self.old.at result.0 result.1 }
    {
        match mem::replace(&mut self.at, SoftAt::LoadStop) {
            SoftAt::LoadBad { page, body }
            | SoftAt::UnlockSpare { page, body, .. }
            | SoftAt::ReleaseSpare { page, body, .. } => (page, body),
            SoftAt::LoadStop
            | SoftAt::Seize { .. }
            | SoftAt::Discard { .. }
            | SoftAt::Take { .. }
            | SoftAt::Poison { .. }
            | SoftAt::Relocate { .. }
            | SoftAt::Unhold { .. }
            | SoftAt::GiveUp { .. }
            | SoftAt::Over { .. } => unreachable!(),
        }
    }

    /// The page that is to move and its body, for the state that comes next.
    fn take_movable(&mut self) -> (Page, Movable)
        requires { is_movable self.old.at ≡ true }
        ensures left { self.new ≡ record self.old { at = states.LoadStop } }
        ensures held { IsHeld self.old.at result.0 result.1 }
    {
        match mem::replace(&mut self.at, SoftAt::LoadStop) {
            SoftAt::Take { page, body, .. } | SoftAt::Poison { page, body, .. } => (page, body),
            SoftAt::LoadStop
            | SoftAt::Seize { .. }
            | SoftAt::Discard { .. }
            | SoftAt::LoadBad { .. }
            | SoftAt::UnlockSpare { .. }
            | SoftAt::ReleaseSpare { .. }
            | SoftAt::Relocate { .. }
            | SoftAt::Unhold { .. }
            | SoftAt::GiveUp { .. }
            | SoftAt::Over { .. } => unreachable!(),
        }
    }

    /// What follows a step while the page is held.
    fn settle_held(&mut self, layout: &Layout, found: u64, got: Option<Body>) -> Turn
        requires held { is_held self.old.at ≡ true }
        requires shows { Shows self.old found got }
        ensures { Follows layout.now self.old found got self.new result }
    {
        match &mut self.at {
            SoftAt::LoadBad { .. } => {
                let (page, body) = self.take_page();
                self.move_to(after_bad(self.who, self.frame, page, body, found), got)
            }
            SoftAt::Take { take, .. } => {
                let turn = take.settle(layout, found, got);
                if let Some(answer) = take.answer() {
                    let (page, body) = self.take_movable();
                    self.set(after_take(self.who, self.frame, page, body, answer));
                }
                turn
            }
            SoftAt::Poison { to, .. } => {
                let to = *to;
                let (page, body) = self.take_movable();
                self.move_to(
                    after_poison(self.who, self.frame, page, body, to, found),
                    got,
                )
            }
            SoftAt::UnlockSpare { to, .. } => {
                let to = *to;
                let (page, body) = self.take_page();
                self.move_to(release_spare(self.who, page, body, to), got)
            }
            SoftAt::ReleaseSpare { release, .. } => {
                let _turn = release.settle(layout, found, got);
                if release.is_over() {
                    let (page, body) = self.take_page();
                    self.set(let_go(self.who, self.frame, page, body, SoftAnswer::Already));
                }
                Turn::Moved
            }
            _ => unreachable!(),
        }
    }
}

fn after_stop(who: Who, frame: Frame, word: u64) -> SoftAt
    ensures { result ≡ after_stop who frame word }
{
    if is_stopped(word) {
        SoftAt::Over {
            answer: SoftAnswer::Stopped,
        }
    } else {
        SoftAt::Seize {
            seize: Seize::new(who, frame),
        }
    }
}

/// Once the frame is seized, one without a page goes out of use, and the bad lines of one with a page are read.
fn after_seize(who: Who, frame: Frame, seize: Seize) -> SoftAt
    ensures { result ≡ after_seize who frame seize }
{
    match seize.answer() {
        None => SoftAt::Seize { seize },
        Some(SeizeAnswer::Kernel) => {
            drop(seize);
            SoftAt::Over {
                answer: SoftAnswer::Kernel,
            }
        }
        Some(SeizeAnswer::Already) => {
            drop(seize);
            SoftAt::Over {
                answer: SoftAnswer::Already,
            }
        }
        Some(SeizeAnswer::Grabbed) => {
            drop(seize);
            SoftAt::Discard {
                discard: Discard::new(who, frame, false),
            }
        }
        Some(SeizeAnswer::Free) => {
            drop(seize);
            SoftAt::Discard {
                discard: Discard::new(who, frame, true),
            }
        }
        Some(SeizeAnswer::Owned(page)) => SoftAt::LoadBad {
            page,
            body: seize.body(),
        },
    }
}

/// The page is let go as it was.
fn let_go(who: Who, frame: Frame, page: Page, body: Body, answer: SoftAnswer) -> SoftAt
    ensures { result ≡ let_go who frame page body answer }
{
    SoftAt::Unhold {
        unhold: Unhold::new(who, page, Some(frame), 1, body),
        answer,
    }
}

/// The bad lines of the frame are read: with none another frame is taken, once there is room for the entry and for the
/// translations in use.
fn after_bad(who: Who, frame: Frame, page: Page, body: Body, word: u64) -> SoftAt
    ensures { AfterBad who frame page body word result }
{
    if word != 0 {
        return let_go(who, frame, page, body, SoftAnswer::HasBad(Mask(word)));
    }
    let Ok(room) = SlotRoom::new(body.alloc()) else {
        return given_up(who, frame, page, body);
    };
    let mut body = body;
    match body.room() {
        Ok(()) => SoftAt::Take {
            page,
            body: Movable::new(body, room),
            take: Take::new(who),
        },
        Err(_) => given_up(who, frame, page, body),
    }
}

/// Memory is refused, and the command gives up.
fn given_up(who: Who, frame: Frame, page: Page, body: Body) -> SoftAt
    ensures { result ≡ given_up who frame page body }
{
    SoftAt::GiveUp {
        give_up: GiveUp::with_page(who, page, Some(frame), 1, body),
    }
}

fn after_take(who: Who, frame: Frame, page: Page, body: Movable, answer: TakeAnswer) -> SoftAt
    ensures { (t : Take) → result ≡ after_take_by who frame page body t (Some answer) }
{
    match answer {
        TakeAnswer::Taken(to) => SoftAt::Poison { page, body, to },
        TakeAnswer::NoFrame => let_go(who, frame, page, body.into_body(), SoftAnswer::NoFrame),
    }
}

/// The page moves to the other frame, by the entry that is made.
fn relocate(who: Who, frame: Frame, page: Page, body: Movable, to: Frame, cycle: u32) -> SoftAt
    requires { CanMakeEntry body }
    ensures { Moves who frame page body to cycle result }
{
    let (mut body, maps) = body.into_parts();
    let at = At {
        page,
        entry: body.len(),
    };
    body.append(Entry {
        who,
        what: What::Soft,
    });
    SoftAt::Relocate {
        relocate: Relocate::new(who, page, frame, to, maps, at, body),
        answer: SoftAnswer::Moved {
            frame: to,
            at,
            cycle,
        },
    }
}

/// A frame that was poisoned meanwhile is left, and the other one given back.
fn after_poison(who: Who, frame: Frame, page: Page, body: Movable, to: Frame, found: u64) -> SoftAt
    requires { CanMakeEntry body }
    ensures { AfterPoison who frame page body to found result }
{
    let word = FrameWord::unpack(found);
    if word.poisoned {
        SoftAt::UnlockSpare {
            page,
            body: body.into_body(),
            to,
        }
    } else {
        relocate(who, frame, page, body, to, word.cycle)
    }
}

/// The other frame's lock is given back, and now its reference is to be.
fn release_spare(who: Who, page: Page, body: Body, to: Frame) -> SoftAt
    ensures { result ≡ states.ReleaseSpare page body (releases.begin who to 1) }
{
    SoftAt::ReleaseSpare {
        page,
        body,
        release: Release::new(who, to, 1),
    }
}

/// The turn that ended the command answers it.
fn ended(at: &SoftAt, turn: Turn) -> Turn
    ensures { result ≡ ended at.now turn }
{
    if matches!(at, SoftAt::Over { .. }) {
        Turn::Answered
    } else {
        turn
    }
}

impl Task for Soft {
    ghost use Rattle.hwp_soft.specs.Offline as offline;

    ghost task = { offline.task };

    fn who(&self) -> Who {
        self.who
    }

    fn plan(&self) -> Option<Step> {
        match &self.at {
            SoftAt::LoadStop => Some(Step::Load {
                place: SharedWord::Stop,
            }),
            SoftAt::Seize { seize } => seize.plan(),
            SoftAt::Discard { discard } => discard.plan(),
            SoftAt::LoadBad { .. } => Some(Step::Load {
                place: SharedWord::Bad(self.frame),
            }),
            SoftAt::Take { take, .. } => take.plan(),
            SoftAt::Poison { .. } => Some(Step::Poison {
                frame: self.frame,
                hardware: false,
            }),
            SoftAt::UnlockSpare { to, .. } => Some(Step::UnlockFrame { frame: *to }),
            SoftAt::ReleaseSpare { release, .. } => release.plan(),
            SoftAt::Relocate { relocate, .. } => relocate.plan(),
            SoftAt::Unhold { unhold, .. } => unhold.plan(),
            SoftAt::GiveUp { give_up } => give_up.plan(),
            SoftAt::Over { .. } => None,
        }
    }

    fn give(&mut self) -> Option<Body> {
        match &mut self.at {
            SoftAt::Seize { seize } => seize.give(),
            SoftAt::Discard { discard } => discard.give(),
            SoftAt::Relocate { relocate, .. } => relocate.give(),
            SoftAt::Unhold { unhold, .. } => unhold.give(),
            SoftAt::GiveUp { give_up } => give_up.give(),
            _ => None,
        }
    }

    fn settle(&mut self, layout: &Layout, found: u64, body: Option<Body>) -> Turn {
        match &mut self.at {
            SoftAt::LoadStop => {
                let_go_of(body);
                self.step_to(after_stop(self.who, self.frame, found), Turn::Moved)
            }
            SoftAt::Seize { seize } => {
                let turn = seize.settle(layout, found, body);
                if seize.answer().is_none() {
                    return turn;
                }
                match mem::replace(&mut self.at, SoftAt::LoadStop) {
                    SoftAt::Seize { seize } => {
                        self.step_to(after_seize(self.who, self.frame, seize), turn)
                    }
                    _ => unreachable!(),
                }
            }
            SoftAt::Discard { discard } => {
                let turn = discard.settle(layout, found, body);
                match discard.answer() {
                    None => turn,
                    Some(None) => self.end(SoftAnswer::Already),
                    Some(Some(cycle)) => self.end(SoftAnswer::TakenFree { cycle }),
                }
            }
            SoftAt::LoadBad { .. }
            | SoftAt::Take { .. }
            | SoftAt::Poison { .. }
            | SoftAt::UnlockSpare { .. }
            | SoftAt::ReleaseSpare { .. } => self.settle_held(layout, found, body),
            SoftAt::Relocate { relocate, answer } => {
                let turn = relocate.settle(layout, found, body);
                let (over, answer) = (relocate.is_over(), *answer);
                self.end_with(over, answer, turn)
            }
            SoftAt::Unhold { unhold, answer } => {
                let turn = unhold.settle(layout, found, body);
                let (over, answer) = (unhold.is_over(), *answer);
                self.end_with(over, answer, turn)
            }
            SoftAt::GiveUp { give_up } => give_up.settle(layout, found, body),
            SoftAt::Over { .. } => {
                let_go_of(body);
                Turn::Moved
            }
        }
    }
}

impl Ranked for Soft {
    fn class(&self) -> u8 {
        match &self.at {
            SoftAt::LoadStop | SoftAt::Over { .. } => 4,
            SoftAt::Seize { seize } => seize.class(),
            SoftAt::Discard { discard } => discard.class(),
            SoftAt::LoadBad { .. }
            | SoftAt::Take { .. }
            | SoftAt::Poison { .. }
            | SoftAt::UnlockSpare { .. }
            | SoftAt::ReleaseSpare { .. } => 1,
            SoftAt::Relocate { relocate, .. } => relocate.class(),
            SoftAt::Unhold { unhold, .. } => unhold.class(),
            SoftAt::GiveUp { give_up } => give_up.class(),
        }
    }

    fn ranked() {}
}

impl Scheduled for Soft {
    fn tells() {}
}
