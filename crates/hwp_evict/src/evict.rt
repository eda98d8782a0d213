ghost use Rattle.std.specs.Prelude.{◌≡◌, ◌↔◌, IsTrue, MatchResult};
ghost use Rattle.hwp_evict.specs.declared.evict.EvictAt.TheVariants as states;
ghost use Rattle.std.specs.FinSet as set;
ghost use Rattle.hwp_evict.specs.declared.evict.Eviction.TheVariants as evictions;
ghost use Rattle.hwp_evict.specs.Evictions.{entry_of, copies, absence, IsJudged};
ghost use Rattle.hwp_evict.specs.Evicts.{begin, answer, CanEnter, CanEnterHeld, CanMakeEntry, after_stop, AfterHold, AfterHeld, AfterBad, Enters, GoesOut, Follows, IsLeaving, Shows, StartsClearing, freed, given_up, refused, with_entry, after_clear, turn_after};

use hwp_core::{
    At, Body, Clear, Entry, Frame, GiveUp, HeldSlots, Hold, Layout, Mask, Page, PageState, Pte,
    Ranked, Scheduled, SharedWord, SlotRoom, Slots, Step, Task, Turn, Unhold, VSlot, Vacate, What,
    Who, is_stopped, let_go_of,
};
use std::mem;

/// How much of a page leaves its frame (this project's rule).
#[derive(Clone, Copy)]
pub enum Eviction {
    /// A translation is no longer in use.
    Free { slot: VSlot },
    /// The content is written to the file (Linux writepage).
    Sync,
    /// The page leaves its frame; its content stands behind it.
    Drop,
    /// The content is swapped out, and the page leaves its frame.
    Out,
}

/// Why a page is left as it is (this project's rule).
#[derive(Clone, Copy)]
pub enum Refusal {
    /// The translation is not in use.
    NotMapped,
    /// No frame holds the page.
    NotResident,
    /// The page is locked in memory.
    Locked,
    /// The page's content doesn't stand behind it.
    Dirty,
    /// A translation to the page is in use.
    Mapped,
    /// The page's frame has these bad lines.
    BadLines(Mask),
}

/// What an `Evict` came to (this project's rule).
#[derive(Clone, Copy)]
pub enum EvictAnswer {
    /// The machine has stopped.
    Stopped,
    /// It was done, by this entry.
    Done(At),
    /// The page was left as it was after so many entries.
    Refused(Refusal, At),
}

/// A command by which a page, or a part of it, leaves its frame.
#[derive(Drop)]
pub struct Evict {
    who: Who,
    page: Page,
    what: Eviction,
    at: EvictAt,
}

#[derive(Drop)]
enum EvictAt {
    LoadStop,
    Hold {
        hold: Hold,
    },
    LoadBad {
        frame: Frame,
        body: Body,
    },
    SetPte {
        slot: VSlot,
        frame: Frame,
        body: Body,
        done: At,
    },
    Clear {
        clear: Clear,
        body: Body,
        done: At,
    },
    Vacate {
        vacate: Vacate,
        done: At,
    },
    Unhold {
        unhold: Unhold,
        answer: EvictAnswer,
    },
    GiveUp {
        give_up: GiveUp,
    },
    Over {
        answer: EvictAnswer,
    },
}

impl Eviction {
    /// The entry that the command makes.
    fn entry(self) -> What
        ensures { result ≡ entry_of self }
    {
        match self {
            Eviction::Free { slot } => What::Free { slot },
            Eviction::Sync => What::Sync,
            Eviction::Drop => What::Drop,
            Eviction::Out => What::Out,
        }
    }

    /// Whether the command copies the page's content, and reads the bad lines of its frame before.
    fn copies(self) -> bool
        ensures { result ≡ copies self }
    {
        match self {
            Eviction::Free { .. } | Eviction::Drop => false,
            Eviction::Sync | Eviction::Out => true,
        }
    }

    /// Why the command is refused where no frame holds the page.
    fn absence(self) -> Refusal
        ensures { result ≡ absence self }
    {
        match self {
            Eviction::Free { .. } => Refusal::NotMapped,
            Eviction::Sync | Eviction::Drop | Eviction::Out => Refusal::NotResident,
        }
    }

    /// Why the command is refused, where a frame holds the page.
    fn refusal(self, state: &PageState) -> Option<Refusal>
        ensures { IsJudged self state.now result }
    {
        match self {
            Eviction::Free { slot } => {
                if state.maps.has(slot) {
                    None
                } else {
                    Some(Refusal::NotMapped)
                }
            }
            Eviction::Sync => None,
            Eviction::Out => {
                if state.locked {
                    Some(Refusal::Locked)
                } else {
                    None
                }
            }
            Eviction::Drop => {
                if state.locked {
                    Some(Refusal::Locked)
                } else if state.dirty || state.back.is_none() {
                    Some(Refusal::Dirty)
                } else if is_empty(&state.maps) {
                    None
                } else {
                    Some(Refusal::Mapped)
                }
            }
        }
    }
}

/// Whether the set has no member.
fn is_empty(slots: &Slots) -> bool
    ensures { IsTrue result ↔ (slots.now ≡ set.empty) }
{
    slots.lowest_from(VSlot(0)).is_none()
}

impl Evict {
    /// The command takes the translation, which is one to the page, out of use.
    pub fn free_slot(who: Who, slot: VSlot, page: Page) -> Evict
        ensures { result ≡ begin who page (evictions.Free slot) }
    {
        Evict::new(who, page, Eviction::Free { slot })
    }

    /// The command writes the page's content to the file that stands behind it.
    pub fn sync_page(who: Who, page: Page) -> Evict
        ensures { result ≡ begin who page evictions.Sync }
    {
        Evict::new(who, page, Eviction::Sync)
    }

    /// The command takes the page out of its frame, where its content stands behind it.
    pub fn drop_page(who: Who, page: Page) -> Evict
        ensures { result ≡ begin who page evictions.Drop }
    {
        Evict::new(who, page, Eviction::Drop)
    }

    /// The command writes the page's content to swap, and takes the page out of its frame.
    pub fn out_page(who: Who, page: Page) -> Evict
        ensures { result ≡ begin who page evictions.Out }
    {
        Evict::new(who, page, Eviction::Out)
    }

    fn new(who: Who, page: Page, what: Eviction) -> Evict
        ensures { result ≡ begin who page what }
    {
        Evict {
            who,
            page,
            what,
            at: EvictAt::LoadStop,
        }
    }

    /// What the task came to; `None` until it is over, and where it gave up.
    pub fn answer(&self) -> Option<EvictAnswer>
        ensures { result ≡ answer self.now }
    {
        match self.at {
            EvictAt::Over { answer } => Some(answer),
            EvictAt::LoadStop
            | EvictAt::Hold { .. }
            | EvictAt::LoadBad { .. }
            | EvictAt::SetPte { .. }
            | EvictAt::Clear { .. }
            | EvictAt::Vacate { .. }
            | EvictAt::Unhold { .. }
            | EvictAt::GiveUp { .. } => None,
        }
    }

    fn set(&mut self, at: EvictAt)
        ensures { self.new ≡ record self.old { at = at } }
    {
        self.at = at;
    }

    /// What the state owns, to go on with.
    fn take(&mut self) -> EvictAt
        ensures taken { result ≡ self.old.at }
        ensures left { self.new ≡ record self.old { at = states.LoadStop } }
    {
        mem::replace(&mut self.at, EvictAt::LoadStop)
    }

    /// The turn that ends the command answers it.
    fn end(&mut self, answer: EvictAnswer) -> Turn
        ensures over { self.new ≡ record self.old { at = states.Over answer } }
        ensures turn { result ≡ turn_after (states.Over answer) }
    {
        self.set(EvictAt::Over { answer });
        Turn::Answered
    }

    /// The machine has stopped, or the page is held next.
    fn start(&mut self, word: u64) -> Turn
        ensures at { self.new ≡ record self.old { at = after_stop self.old.who self.old.page word } }
        ensures turn { result ≡ turn_after (after_stop self.old.who self.old.page word) }
    {
        if is_stopped(word) {
            self.end(EvictAnswer::Stopped)
        } else {
            let hold = Hold::new(self.who, self.page);
            self.set(EvictAt::Hold { hold });
            Turn::Moved
        }
    }

    /// Runs one more step of taking the page out of its frame, or of letting it go.
    fn leave(&mut self, layout: &Layout, found: u64, got: Option<Body>) -> Turn
        requires leaving { IsLeaving self.old.at }
        requires shows { Shows self.old found got }
        ensures { Follows self.old found got self.new result }
    {
        match &mut self.at {
            EvictAt::Clear { clear, .. } => {
                let _turn = clear.settle(layout, found, got);
                if clear.is_over() {
                    match self.take() {
                        EvictAt::Clear { clear, body, done } => {
                            self.set(after_clear(self.who, self.page, clear, body, done));
                        }
                        _ => unreachable!(),
                    }
                }
                Turn::Moved
            }
            EvictAt::Vacate { vacate, done } => {
                let _turn = vacate.settle(layout, found, got);
                if vacate.is_over() {
                    let answer = EvictAnswer::Done(*done);
                    self.end(answer)
                } else {
                    Turn::Moved
                }
            }
            EvictAt::Unhold { unhold, answer } => {
                let _turn = unhold.settle(layout, found, got);
                if unhold.is_over() {
                    let answer = *answer;
                    self.end(answer)
                } else {
                    Turn::Moved
                }
            }
            _ => unreachable!(),
        }
    }
}

fn after_hold(who: Who, page: Page, what: Eviction, hold: Hold) -> EvictAt
    requires { CanEnterHeld what hold.at }
    ensures { AfterHold who page what hold result }
{
    match hold.answer() {
        None => EvictAt::Hold { hold },
        Some(frame) => held(who, page, what, frame, hold.body()),
    }
}

/// The page is held, and the command is refused or goes on.
fn held(who: Who, page: Page, what: Eviction, frame: Option<Frame>, body: Body) -> EvictAt
    requires { CanEnter what frame body }
    ensures { AfterHeld who page what frame body result }
{
    let Some(inside) = frame else {
        return refused(who, page, None, body, what.absence());
    };
    match what.refusal(body.state()) {
        Some(refusal) => refused(who, page, Some(inside), body, refusal),
        None => {
            if what.copies() {
                EvictAt::LoadBad {
                    frame: inside,
                    body,
                }
            } else {
                enter(who, page, what, inside, body)
            }
        }
    }
}

/// The bad lines of the frame are read: with none the command goes on.
fn after_bad(who: Who, page: Page, what: Eviction, frame: Frame, body: Body, word: u64) -> EvictAt
    requires { CanMakeEntry what body }
    ensures { AfterBad who page what frame body word result }
{
    if word == 0 {
        enter(who, page, what, frame, body)
    } else {
        refused(who, page, Some(frame), body, Refusal::BadLines(Mask(word)))
    }
}

/// The command is refused, and lets the page go.
fn refused(who: Who, page: Page, frame: Option<Frame>, body: Body, refusal: Refusal) -> EvictAt
    ensures { result ≡ refused who page frame body refusal }
{
    let at = At {
        page,
        entry: body.len(),
    };
    EvictAt::Unhold {
        unhold: Unhold::new(who, page, frame, 1, body),
        answer: EvictAnswer::Refused(refusal, at),
    }
}

/// The body with the command's entry; or as it was, where memory for the entry is refused.
fn make_entry(who: Who, what: Eviction, body: Body) -> Result<Body, Body>
    requires { CanMakeEntry what body }
    ensures { MatchResult result (λ b. b ≡ with_entry who (entry_of what) body b.spare) (λ b. b ≡ body) }
{
    let mut body = body;
    match body.room() {
        Err(_) => Err(body),
        Ok(()) => {
            body.append(Entry {
                who,
                what: what.entry(),
            });
            Ok(body)
        }
    }
}

/// What the command does once its entry is made, where these translations were in use before.
fn go_out(
    who: Who,
    page: Page,
    what: Eviction,
    frame: Frame,
    maps: HeldSlots,
    body: Body,
    done: At,
) -> EvictAt
    ensures { GoesOut who page what frame maps body done result }
{
    match what {
        Eviction::Free { slot } => EvictAt::SetPte {
            slot,
            frame,
            body,
            done,
        },
        Eviction::Sync => EvictAt::Unhold {
            unhold: Unhold::new(who, page, Some(frame), 1, body),
            answer: EvictAnswer::Done(done),
        },
        Eviction::Drop => EvictAt::Vacate {
            vacate: Vacate::new(who, page, frame, 2, body),
            done,
        },
        Eviction::Out => start_clearing(who, page, frame, maps, body, done),
    }
}

/// The translations that were in use are written, one by one.
fn start_clearing(
    who: Who,
    page: Page,
    frame: Frame,
    maps: HeldSlots,
    body: Body,
    done: At,
) -> EvictAt
    ensures { StartsClearing who page frame maps body done result }
{
    let clear = Clear::new(who, page, frame, maps, false);
    after_clear(who, page, clear, body, done)
}

/// Once all are written, the page leaves its frame.
fn after_clear(who: Who, page: Page, clear: Clear, body: Body, done: At) -> EvictAt
    ensures { result ≡ after_clear who page clear body done }
{
    if clear.is_over() {
        EvictAt::Vacate {
            vacate: Vacate::new(who, page, clear.frame(), clear.count(), body),
            done,
        }
    } else {
        EvictAt::Clear { clear, body, done }
    }
}

/// The command makes its entry, or gives up where memory for it is refused.
fn enter(who: Who, page: Page, what: Eviction, frame: Frame, body: Body) -> EvictAt
    requires { CanMakeEntry what body }
    ensures { Enters who page what frame body result }
{
    let done = At {
        page,
        entry: body.len(),
    };
    let Ok(room) = SlotRoom::new(body.alloc()) else {
        return given_up(who, page, frame, body);
    };
    let maps = room.hold(&body.state().maps);
    match make_entry(who, what, body) {
        Ok(body) => go_out(who, page, what, frame, maps, body, done),
        Err(body) => given_up(who, page, frame, body),
    }
}

/// Memory is refused, and the command gives up.
fn given_up(who: Who, page: Page, frame: Frame, body: Body) -> EvictAt
    ensures { result ≡ given_up who page frame body }
{
    EvictAt::GiveUp {
        give_up: GiveUp::with_page(who, page, Some(frame), 1, body),
    }
}

/// The translation is written, and the page is let go.
fn freed(who: Who, page: Page, frame: Frame, body: Body, done: At) -> EvictAt
    ensures { result ≡ freed who page frame body done }
{
    EvictAt::Unhold {
        unhold: Unhold::new(who, page, Some(frame), 2, body),
        answer: EvictAnswer::Done(done),
    }
}

impl Task for Evict {
    ghost use Rattle.hwp_evict.specs.Evicts as evicts;

    ghost task = { evicts.task };

    fn who(&self) -> Who {
        self.who
    }

    fn plan(&self) -> Option<Step> {
        match &self.at {
            EvictAt::LoadStop => Some(Step::Load {
                place: SharedWord::Stop,
            }),
            EvictAt::Hold { hold } => hold.plan(),
            EvictAt::LoadBad { frame, .. } => Some(Step::Load {
                place: SharedWord::Bad(*frame),
            }),
            EvictAt::SetPte { slot, .. } => Some(Step::SetPte {
                slot: *slot,
                pte: Pte::Empty,
            }),
            EvictAt::Clear { clear, .. } => clear.plan(),
            EvictAt::Vacate { vacate, .. } => vacate.plan(),
            EvictAt::Unhold { unhold, .. } => unhold.plan(),
            EvictAt::GiveUp { give_up } => give_up.plan(),
            EvictAt::Over { .. } => None,
        }
    }

    fn give(&mut self) -> Option<Body> {
        match &mut self.at {
            EvictAt::Vacate { vacate, .. } => vacate.give(),
            EvictAt::Unhold { unhold, .. } => unhold.give(),
            EvictAt::GiveUp { give_up } => give_up.give(),
            _ => None,
        }
    }

    fn settle(&mut self, layout: &Layout, found: u64, body: Option<Body>) -> Turn {
        match &mut self.at {
            EvictAt::LoadStop => {
                let_go_of(body);
                self.start(found)
            }
            EvictAt::Hold { hold } => {
                let turn = hold.settle(layout, found, body);
                if hold.answer().is_some() {
                    match self.take() {
                        EvictAt::Hold { hold } => {
                            self.set(after_hold(self.who, self.page, self.what, hold));
                        }
                        _ => unreachable!(),
                    }
                }
                turn
            }
            EvictAt::LoadBad { .. } => {
                let_go_of(body);
                match self.take() {
                    EvictAt::LoadBad { frame, body } => {
                        self.set(after_bad(self.who, self.page, self.what, frame, body, found));
                        Turn::Moved
                    }
                    _ => unreachable!(),
                }
            }
            EvictAt::SetPte { frame, done, .. } => {
                let_go_of(body);
                let (frame, done) = (*frame, *done);
                match self.take() {
                    EvictAt::SetPte { body, .. } => {
                        self.set(freed(self.who, self.page, frame, body, done));
                        Turn::Moved
                    }
                    _ => unreachable!(),
                }
            }
            EvictAt::Clear { .. } | EvictAt::Vacate { .. } | EvictAt::Unhold { .. } => {
                self.leave(layout, found, body)
            }
            EvictAt::GiveUp { give_up } => give_up.settle(layout, found, body),
            EvictAt::Over { .. } => {
                let_go_of(body);
                Turn::Moved
            }
        }
    }
}

impl Ranked for Evict {
    fn class(&self) -> u8 {
        match &self.at {
            EvictAt::LoadStop | EvictAt::Over { .. } => 4,
            EvictAt::Hold { hold } => hold.class(),
            EvictAt::LoadBad { .. } | EvictAt::SetPte { .. } | EvictAt::Clear { .. } => 1,
            EvictAt::Vacate { vacate, .. } => vacate.class(),
            EvictAt::Unhold { unhold, .. } => unhold.class(),
            EvictAt::GiveUp { give_up } => give_up.class(),
        }
    }

    fn ranked() {}
}

impl Scheduled for Evict {
    fn tells() {}
}
