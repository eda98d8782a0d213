ghost use Rattle.std.specs.Prelude.{◌≡◌, ◌↔◌, Option, IsBitSet, IsTrue, is_none};
ghost use Rattle.hwp_fault.specs.declared.access.AccessAt.TheVariants as states;

use crate::fault::{Fault, FaultAnswer};
use crate::touch::{AccessKind, Touch};
use hwp_core::{
    FrameWord, GiveUp, Pin, PinAnswer, ProcessWord, Ranked, Scheduled, SharedWord, Step, Task,
    Turn, Unlock, frame_in, is_stopped,
};
use hwp_page::{
    At, Body, Entry, Frame, Layout, Line, Mask, Met, Page, Proc, Thread, VSlot, What, Who,
};
use std::mem;

/// A thread reads or writes a line of a page through a translation; where the translation leads to no frame, the page is
/// brought in (this project's rule).
#[derive(Drop)]
pub struct Access {
    request: Request,
    at: AccessAt,
}

/// Who accesses what: the thread is one of the process, and the translation one of the process to the page.
#[derive(Clone, Copy)]
pub struct Request {
    pub who: Who,
    pub thread: Thread,
    pub process: Proc,
    pub slot: VSlot,
    pub page: Page,
    pub line: Line,
    pub kind: AccessKind,
}

/// What an `Access` came to (this project's rule).
#[derive(Clone, Copy)]
pub enum AccessAnswer {
    /// This word was read: the entry at the place.
    Value { word: u64, at: At },
    /// The word was written: the entry at the place.
    Stored { at: At },
    /// The line was bad in this frame, so its content was neither read nor written: the entry at the place.
    Checked { frame: Frame, at: At },
    /// The access was answered by SIGBUS, because the translation has a poison entry or the page's content is lost: the
    /// entry at the place.
    Sigbus { at: At },
    /// No frame was available for the page.
    NoFrame,
    /// The thread's process has ended, by a signal in the history of this page.
    Gone { page: Page },
    /// A processor had stopped the machine.
    Stopped,
}

#[derive(Drop)]
enum AccessAt {
    LoadStop,
    LoadProcess,
    LoadTranslation,
    Pin {
        pin: Pin,
    },
    LockFrame {
        frame: Frame,
    },
    LoadAgain {
        frame: Frame,
        body: Option<Body>,
    },
    LoadBad {
        frame: Frame,
        body: Body,
    },
    Unlock {
        unlock: Unlock,
        then: Option<AccessAnswer>,
    },
    Fault {
        fault: Fault,
    },
    GiveUp {
        give_up: GiveUp,
    },
    Over {
        answer: AccessAnswer,
    },
}

impl Access {
    ghost use Rattle.std.specs.Prelude.{unwrap_or};
    ghost use Rattle.hwp_core.specs.hwp_core_rule.declared.Turn.TheVariants.{Moved};
    ghost use Rattle.hwp_fault.specs.Accesses.{begin, again, answer, at_start, at_process, at_translation, LoadsBad, LocksFrame, LooksAgain, followed, leads_to, let_go_at, pinned, unlocked, after_fault};
    ghost use Rattle.std.specs.Prelude.{is_some, true};

    /// The access at its beginning.
    pub fn new(request: Request) -> Access
        ensures { result ≡ begin request }
    {
        Access {
            request,
            at: AccessAt::LoadStop,
        }
    }

    /// The access once more, after a machine check in its command: it begins with the word of the process.
    pub fn again(request: Request) -> Access
        ensures { result ≡ again request }
    {
        Access {
            request,
            at: AccessAt::LoadProcess,
        }
    }

    /// What the task came to; `None` until it is over, and where the command was given up because memory ran out.
    pub fn answer(&self) -> Option<AccessAnswer>
        ensures { result ≡ answer self.now }
    {
        match self.at {
            AccessAt::Over { answer } => Some(answer),
            AccessAt::LoadStop
            | AccessAt::LoadProcess
            | AccessAt::LoadTranslation
            | AccessAt::Pin { .. }
            | AccessAt::LockFrame { .. }
            | AccessAt::LoadAgain { .. }
            | AccessAt::LoadBad { .. }
            | AccessAt::Unlock { .. }
            | AccessAt::Fault { .. }
            | AccessAt::GiveUp { .. } => None,
        }
    }

    fn at_start(found: u64) -> AccessAt
        ensures { result ≡ at_start found }
    {
        if is_stopped(found) {
            AccessAt::Over {
                answer: AccessAnswer::Stopped,
            }
        } else {
            AccessAt::LoadProcess
        }
    }

    fn at_process(found: u64) -> AccessAt
        ensures { result ≡ at_process found }
    {
        match ProcessWord::unpack(found).ended_by {
            Some(page) => AccessAt::Over {
                answer: AccessAnswer::Gone { page },
            },
            None => AccessAt::LoadTranslation,
        }
    }

    /// What follows the step of a pin; `None` where it goes on.
    fn pinned(pin: &Pin) -> Option<AccessAt>
        ensures { unwrap_or result (states.Pin pin.now) ≡ pinned pin.now }
    {
        match pin.answer() {
            Some(PinAnswer::Held(_)) => Some(AccessAt::LockFrame { frame: pin.frame() }),
            Some(PinAnswer::Gone(_)) => Some(AccessAt::LoadTranslation),
            None => None,
        }
    }

    /// What follows a step of letting the frame go; `None` where that goes on.
    fn unlocked(unlock: &Unlock, then: Option<AccessAnswer>) -> Option<AccessAt>
        ensures { unwrap_or result (states.Unlock unlock.now then) ≡ unlocked unlock.now then }
    {
        if !unlock.is_over() {
            return None;
        }
        match then {
            Some(answer) => Some(AccessAt::Over { answer }),
            None => Some(AccessAt::LoadTranslation),
        }
    }

    /// What follows a step of the page fault; `None` where that goes on.
    fn after_fault(fault: &Fault) -> Option<AccessAt>
        ensures { unwrap_or result (states.Fault fault.now) ≡ after_fault fault.now }
    {
        match fault.answer() {
            Some(FaultAnswer::Again) => Some(AccessAt::LoadTranslation),
            Some(FaultAnswer::NoFrame { .. }) => Some(AccessAt::Over {
                answer: AccessAnswer::NoFrame,
            }),
            Some(FaultAnswer::Sigbus { at }) => Some(AccessAt::Over {
                answer: AccessAnswer::Sigbus { at },
            }),
            None => None,
        }
    }

    /// Inline, because its caller knows which state was there: on its own it would read out all of that state to let it go.
    #[inline(always)]
    fn set(&mut self, at: AccessAt)
        ensures { self.new ≡ record self.old { at = at } }
    {
        self.at = at;
    }

    /// Goes on to the state, where there is one, with the turn of the step before it.
    #[inline(always)]
    fn follow(&mut self, next: Option<AccessAt>, turn: Turn) -> Turn
        ensures at { self.new ≡ record self.old { at = unwrap_or next self.old.at } }
        ensures turn { result ≡ turn }
    {
        if let Some(at) = next {
            self.set(at);
        }
        turn
    }

    /// Goes on to the state; the body that the step before it met is let go.
    #[inline(always)]
    fn go(&mut self, at: AccessAt, got: Option<Body>) -> Turn
        ensures at { self.new ≡ record self.old { at = at } }
        ensures turn { result ≡ Moved }
    {
        self.set(at);
        moved(got)
    }

    /// The stop word was read. What a step needs room for stands in a function of its own, so that the other steps don't clear it.
    fn on_stop_word(&mut self, found: u64, got: Option<Body>) -> Turn
        ensures at { self.new ≡ record self.old { at = at_start found } }
        ensures turn { result ≡ Moved }
    {
        self.go(Access::at_start(found), got)
    }

    /// The word of the process was read.
    fn on_process_word(&mut self, found: u64, got: Option<Body>) -> Turn
        ensures at { self.new ≡ record self.old { at = at_process found } }
        ensures turn { result ≡ Moved }
    {
        self.go(Access::at_process(found), got)
    }

    /// The translation's word was read.
    fn on_translation_word(&mut self, found: u64, got: Option<Body>) -> Turn
        ensures at { self.new ≡ record self.old { at = at_translation self.old.request found } }
        ensures turn { result ≡ Moved }
    {
        let at = self.request.at_translation(found);
        self.go(at, got)
    }

    /// The translation's word was read again, under the frame's lock.
    fn on_word_again(
        &mut self,
        frame: Frame,
        held: Option<Body>,
        found: u64,
        got: Option<Body>,
    ) -> Turn
        requires taken { leads_to frame found ≡ true → is_some held ≡ true }
        ensures at { LooksAgain self.old.request frame held found self.new.at }
        ensures rest { self.new ≡ record self.old { at = self.new.at } }
        ensures turn { result ≡ Moved }
    {
        let at = self.request.at_again(frame, held, found);
        self.go(at, got)
    }

    /// The frame's lock was tried.
    fn on_lock(&mut self, frame: Frame, found: u64, got: Option<Body>) -> Turn
        requires at { self.old.at ≡ states.LockFrame frame }
        ensures at { LocksFrame frame found got self.new.at result }
        ensures rest { self.new ≡ record self.old { at = self.new.at } }
    {
        let (next, turn) = locked(frame, found, got);
        self.follow(next, turn)
    }

    /// The frame's bad lines were read.
    fn on_bad_lines(&mut self, found: u64, got: Option<Body>) -> Turn
        requires bad { LoadsBad self.old.request self.old.at }
        ensures at { self.new ≡ record self.old { at = let_go_at self.old.request self.old.at found } }
        ensures turn { result ≡ Moved }
    {
        match mem::replace(&mut self.at, AccessAt::LoadStop) {
            AccessAt::LoadBad { frame, body } => {
                let at = self.request.let_go(frame, body, found);
                self.go(at, got)
            }
            _ => unreachable!(),
        }
    }

    /// Goes on where the part whose step this turn was is over.
    fn on_part(&mut self, turn: Turn) -> Turn
        ensures at { self.new ≡ record self.old { at = followed self.old.at } }
        ensures turn { result ≡ turn }
    {
        match &self.at {
            AccessAt::Pin { pin } => {
                let next = Access::pinned(pin);
                self.follow(next, turn)
            }
            AccessAt::Unlock { unlock, then } => {
                let next = Access::unlocked(unlock, *then);
                self.follow(next, turn)
            }
            AccessAt::Fault { fault } => {
                let next = Access::after_fault(fault);
                self.follow(next, turn)
            }
            _ => turn,
        }
    }
}

impl Request {
    ghost use Rattle.std.specs.Prelude.{is_some, true};
    ghost use Rattle.hwp_fault.specs.Accesses.{at_translation, LooksAgain, Prepares, Reaches, check_of, checked, entered, entry_of, leads_to, let_go, reached, reply, touch_of, what_of, word_in, word_reply};

    fn at_translation(&self, found: u64) -> AccessAt
        ensures { result ≡ at_translation self.now found }
    {
        match frame_in(found) {
            Some(frame) => AccessAt::Pin {
                pin: Pin::new(self.who, frame),
            },
            None => AccessAt::Fault {
                fault: Fault::new(self.who, self.page, self.slot, self.touch()),
            },
        }
    }

    fn touch(&self) -> Touch
        ensures { result ≡ touch_of self.now }
    {
        Touch {
            thread: self.thread,
            process: self.process,
            line: self.line,
            kind: self.kind,
        }
    }

    /// What follows the translation's word, read again under the frame's lock.
    fn at_again(&self, frame: Frame, body: Option<Body>, found: u64) -> AccessAt
        requires taken { leads_to frame found ≡ true → is_some body ≡ true }
        ensures { LooksAgain self.now frame body found result }
    {
        if leads_to(frame, found) {
            match body {
                Some(body) => self.prepared(frame, body),
                None => unreachable!(),
            }
        } else {
            AccessAt::Unlock {
                unlock: Unlock::new(self.who, frame, body),
                then: None,
            }
        }
    }

    /// Makes room for the entry; where that is refused, the command is given up.
    fn prepared(&self, frame: Frame, body: Body) -> AccessAt
        ensures { Prepares self.now frame body result }
    {
        let mut body = body;
        match body.room() {
            Ok(()) => AccessAt::LoadBad { frame, body },
            Err(_) => AccessAt::GiveUp {
                give_up: GiveUp::with_frame(self.who, frame, body),
            },
        }
    }

    /// Makes the entry of the access, and lets the frame go; `mask` has the frame's bad lines.
    fn let_go(&self, frame: Frame, body: Body, mask: u64) -> AccessAt
        requires { Reaches self.now body }
        ensures { result ≡ let_go self.now frame body mask }
    {
        let mut body = body;
        let answer = self.reach(frame, &mut body, mask);
        AccessAt::Unlock {
            unlock: Unlock::new(self.who, frame, Some(body)),
            then: Some(answer),
        }
    }

    /// Makes the entry of the access, by whether its line is bad; `mask` has the frame's bad lines.
    fn reach(&self, frame: Frame, body: &mut Body, mask: u64) -> AccessAnswer
        requires { Reaches self.now body.old }
        ensures body { body.new ≡ reached self.now mask body.old }
        ensures reply { result ≡ reply self.now frame mask body.old }
    {
        if is_bad(mask, self.line) {
            self.check(frame, body, mask)
        } else {
            self.touch_word(body, mask)
        }
    }

    /// Makes the entry that the line is bad.
    fn check(&self, frame: Frame, body: &mut Body, mask: u64) -> AccessAnswer
        requires reaches { Reaches self.now body.old }
        requires bad { IsBitSet mask self.now.line }
        ensures body { body.new ≡ entered self.now (check_of self.now mask) body.old }
        ensures reply { result ≡ checked self.now frame body.old }
    {
        let at = At {
            page: self.page,
            entry: body.len(),
        };
        let check = Entry {
            who: self.who,
            what: What::Mce {
                slot: self.slot,
                line: self.line,
                mask: Mask(mask),
            },
        };
        body.append(check);
        AccessAnswer::Checked { frame, at }
    }

    /// Reads or writes the word, and makes the entry of it.
    fn touch_word(&self, body: &mut Body, mask: u64) -> AccessAnswer
        requires reaches { Reaches self.now body.old }
        requires good { ¬ IsBitSet mask self.now.line }
        ensures body { body.new ≡ entered self.now (what_of self.now mask (word_in self.now body.old)) body.old }
        ensures reply { result ≡ word_reply self.now body.old }
    {
        let at = At {
            page: self.page,
            entry: body.len(),
        };
        let word = body.state().val.get(self.line);
        let entry = self.entry(mask, word);
        body.append(entry);
        match self.kind {
            AccessKind::Load => AccessAnswer::Value { word, at },
            AccessKind::Store { .. } => AccessAnswer::Stored { at },
        }
    }

    fn entry(&self, mask: u64, word: u64) -> Entry
        ensures { result ≡ entry_of self.now (what_of self.now mask word) }
    {
        let mask = Mask(mask);
        match self.kind {
            AccessKind::Load => Entry {
                who: self.who,
                what: What::Load {
                    slot: self.slot,
                    line: self.line,
                    met: Met::Word { mask, word },
                },
            },
            AccessKind::Store { word } => Entry {
                who: self.who,
                what: What::Store {
                    slot: self.slot,
                    line: self.line,
                    met: Met::Word { mask, word },
                },
            },
        }
    }
}

ghost use Rattle.std.specs.Prelude.{unwrap_or};
ghost use Rattle.hwp_core.specs.hwp_core_rule.declared.Turn.TheVariants.{Moved};
ghost use Rattle.hwp_fault.specs.Accesses.{LocksFrame, is_bad, leads_to};

/// The turn of a step that moved; the body that it met is let go. Each way out of a function that lets it go itself proves anew how
/// it goes.
pub(crate) fn moved(_got: Option<Body>) -> Turn
    ensures { result ≡ Moved }
{
    Turn::Moved
}

/// What follows a try of the frame's lock, with the turn of that; `None` where it is tried again.
fn locked(frame: Frame, found: u64, got: Option<Body>) -> (Option<AccessAt>, Turn)
    ensures { LocksFrame frame found got (unwrap_or result.0 (states.LockFrame frame)) result.1 }
{
    if FrameWord::unpack(found).locked {
        drop(got);
        (None, Turn::Waits(found))
    } else {
        (Some(AccessAt::LoadAgain { frame, body: got }), Turn::Moved)
    }
}

/// The line is one of the bad ones, which `mask` has.
fn is_bad(mask: u64, line: Line) -> bool
    ensures value { result ≡ is_bad mask line }
    ensures bit { IsTrue result ↔ IsBitSet mask line }
{
    Mask(mask).has(line)
}

/// The translation's word leads to the frame.
fn leads_to(frame: Frame, word: u64) -> bool
    ensures { result ≡ leads_to frame word }
{
    match frame_in(word) {
        Some(named) => named.0 == frame.0,
        None => false,
    }
}

impl Task for Access {
    ghost use Rattle.hwp_fault.specs.Accesses as accesses;

    ghost task = { accesses.task };

    fn who(&self) -> Who {
        self.request.who
    }

    fn plan(&self) -> Option<Step> {
        match &self.at {
            AccessAt::LoadStop => Some(Step::Load {
                place: SharedWord::Stop,
            }),
            AccessAt::LoadProcess => Some(Step::Load {
                place: SharedWord::Process(self.request.process),
            }),
            AccessAt::LoadTranslation | AccessAt::LoadAgain { .. } => Some(Step::Load {
                place: SharedWord::Trans(self.request.slot),
            }),
            AccessAt::Pin { pin } => pin.plan(),
            AccessAt::LockFrame { frame } => Some(Step::LockFrame { frame: *frame }),
            AccessAt::LoadBad { frame, .. } => Some(Step::Load {
                place: SharedWord::Bad(*frame),
            }),
            AccessAt::Unlock { unlock, .. } => unlock.plan(),
            AccessAt::Fault { fault } => fault.plan(),
            AccessAt::GiveUp { give_up } => give_up.plan(),
            AccessAt::Over { .. } => None,
        }
    }

    fn give(&mut self) -> Option<Body> {
        match &mut self.at {
            AccessAt::Unlock { unlock, .. } => unlock.give(),
            AccessAt::Fault { fault } => fault.give(),
            AccessAt::GiveUp { give_up } => give_up.give(),
            _ => None,
        }
    }

    fn settle(&mut self, layout: &Layout, found: u64, body: Option<Body>) -> Turn {
        match &mut self.at {
            AccessAt::LoadStop => self.on_stop_word(found, body),
            AccessAt::LoadProcess => self.on_process_word(found, body),
            AccessAt::LoadTranslation => self.on_translation_word(found, body),
            AccessAt::Pin { pin } => {
                let turn = pin.settle(layout, found, body);
                self.on_part(turn)
            }
            AccessAt::LockFrame { frame } => {
                let frame = *frame;
                self.on_lock(frame, found, body)
            }
            AccessAt::LoadAgain { frame, body: held } => {
                let frame = *frame;
                let held = held.take();
                self.on_word_again(frame, held, found, body)
            }
            AccessAt::LoadBad { .. } => self.on_bad_lines(found, body),
            AccessAt::Unlock { unlock, .. } => {
                let _turn = unlock.settle(layout, found, body);
                self.on_part(Turn::Moved)
            }
            AccessAt::Fault { fault } => {
                let turn = fault.settle(layout, found, body);
                if fault.answer().is_none() {
                    return turn;
                }
                self.on_part(turn)
            }
            AccessAt::GiveUp { give_up } => give_up.settle(layout, found, body),
            AccessAt::Over { .. } => moved(body),
        }
    }
}

impl Ranked for Access {
    fn class(&self) -> u8 {
        match &self.at {
            AccessAt::LoadAgain { .. } | AccessAt::LoadBad { .. } => 1,
            AccessAt::Unlock { unlock, .. } => unlock.class(),
            AccessAt::Fault { fault } => fault.class(),
            AccessAt::GiveUp { give_up } => give_up.class(),
            AccessAt::LoadStop
            | AccessAt::LoadProcess
            | AccessAt::LoadTranslation
            | AccessAt::Pin { .. }
            | AccessAt::LockFrame { .. }
            | AccessAt::Over { .. } => 4,
        }
    }

    fn ranked() {}
}

impl Scheduled for Access {
    fn tells() {}
}
