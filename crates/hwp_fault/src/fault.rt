ghost use Rattle.std.specs.Prelude.{◌≡◌};
ghost use Rattle.hwp_fault.specs.declared.fault.FaultAt.TheVariants as states;

use crate::access::moved;
use crate::map_in::MapIn;
use crate::touch::Touch;
use hwp_core::{GiveUp, Hold, Pte, Ranked, SharedWord, Step, Task, Turn, Unhold};
use hwp_evict::{Fill, FillAnswer};
use hwp_page::{At, Body, Entry, Frame, Layout, Page, VSlot, Who};
use std::mem;
use std::snapshot::Snapshot;

/// Brings a page into a frame, where it is in none, and a translation of it into use (Linux handle_mm_fault). Where the
/// translation has a poison entry or the page's content is lost, the access is answered by SIGBUS (Linux hwpoison.rst), which
/// ends a process whose thread has no handler. Where memory for an entry is refused the command is given up.
#[derive(Drop)]
pub struct Fault {
    who: Who,
    page: Page,
    slot: VSlot,
    touch: Touch,
    at: FaultAt,
}

#[derive(Drop)]
enum FaultAt {
    Hold {
        hold: Hold,
    },
    LoadPte {
        frame: Option<Frame>,
        body: Body,
    },
    Kill {
        frame: Option<Frame>,
        body: Body,
        at: At,
    },
    Fill {
        fill: Fill,
    },
    MapIn {
        map_in: MapIn,
    },
    Unhold {
        unhold: Unhold,
        answer: FaultAnswer,
    },
    GiveUp {
        give_up: GiveUp,
    },
    Over {
        answer: Option<FaultAnswer>,
    },
}

/// What a `Fault` came to (this project's rule).
#[derive(Clone, Copy)]
pub enum FaultAnswer {
    /// The translation led to a frame: the access starts over.
    Again,
    /// No frame was available for the page, which after so many entries was in none.
    NoFrame { at: At },
    /// The access was answered by SIGBUS: the entry at the place.
    Sigbus { at: At },
}

impl Fault {
    ghost use Rattle.std.specs.Prelude.{true, unwrap_or};
    ghost use Rattle.hwp_core.specs.hwp_core_rule.declared.Turn.TheVariants.{Moved};
    ghost use Rattle.hwp_page.specs.Step.{IsRefused};
    ghost use Rattle.hwp_fault.specs.Touches.{refused};
    ghost use Rattle.hwp_fault.specs.Faults.{begin, answer, let_go, CanGoOn, CanRefuse, FollowsAt, GoesOn, IsRoomed, ShowsAt, after_hold, after_map_in, after_refusal, after_unhold, after_give_up, is_refused, IsLoaded, IsRefusal, IsFilled};

    /// The command brings the page in, and the translation, which is one of the page, into use; or else the touch, by a
    /// process of the translation, is refused.
    pub fn new(who: Who, page: Page, slot: VSlot, touch: Touch) -> Fault
        ensures { result ≡ begin who page slot touch }
    {
        Fault {
            who,
            page,
            slot,
            touch,
            at: FaultAt::Hold {
                hold: Hold::new(who, page),
            },
        }
    }

    /// What the task came to; `None` until it is over, and where the command was given up.
    pub fn answer(&self) -> Option<FaultAnswer>
        ensures { result ≡ answer self.now }
    {
        match self.at {
            FaultAt::Over { answer } => answer,
            FaultAt::Hold { .. }
            | FaultAt::LoadPte { .. }
            | FaultAt::Kill { .. }
            | FaultAt::Fill { .. }
            | FaultAt::MapIn { .. }
            | FaultAt::Unhold { .. }
            | FaultAt::GiveUp { .. } => None,
        }
    }

    #[inline(never)]
    fn let_go(
        who: Who,
        page: Page,
        frame: Option<Frame>,
        body: Body,
        answer: FaultAnswer,
    ) -> FaultAt
        ensures { result ≡ let_go who page frame body answer }
    {
        FaultAt::Unhold {
            unhold: Unhold::new(who, page, frame, 1, body),
            answer,
        }
    }

    /// Makes room for an entry, and goes on to the part that appends it; or gives up.
    #[inline(never)]
    fn with_room(who: Who, page: Page, slot: VSlot, frame: Option<Frame>, mut body: Body) -> FaultAt
        ensures { IsRoomed who page slot frame body result }
    {
        match body.room() {
            Ok(()) => match frame {
                Some(frame) => FaultAt::MapIn {
                    map_in: MapIn::new(who, page, slot, frame, body),
                },
                None => FaultAt::Fill {
                    fill: Fill::new(who, page, body),
                },
            },
            Err(_) => FaultAt::GiveUp {
                give_up: GiveUp::with_page(who, page, frame, 1, body),
            },
        }
    }

    fn after_hold(hold: Hold) -> FaultAt
        ensures { result ≡ after_hold hold }
    {
        match hold.answer() {
            Some(frame) => FaultAt::LoadPte {
                frame,
                body: hold.body(),
            },
            None => FaultAt::Hold { hold },
        }
    }

    fn after_pte(&self, layout: &Layout, frame: Option<Frame>, body: Body, pte: Pte) -> FaultAt
        requires allowed { is_refused pte body.state ≡ true → IsRefused body.layout body.page body.state self.now.touch.thread self.now.slot }
        ensures { IsLoaded layout.now self.now.who self.now.page self.now.slot self.now.touch frame body pte result }
    {
        match pte {
            Pte::At(_) => Fault::let_go(self.who, self.page, frame, body, FaultAnswer::Again),
            Pte::Poison => self.refuse(layout, frame, body),
            Pte::Empty => {
                if body.state().lost {
                    self.refuse(layout, frame, body)
                } else {
                    Fault::with_room(self.who, self.page, self.slot, frame, body)
                }
            }
        }
    }

    /// Makes room for the entry that the access is answered by SIGBUS, and appends it; or gives up.
    #[inline(never)]
    fn refuse(&self, layout: &Layout, frame: Option<Frame>, mut body: Body) -> FaultAt
        requires allowed { IsRefused body.layout body.page body.state self.now.touch.thread self.now.slot }
        ensures { IsRefusal layout.now self.now.who self.now.page self.now.slot self.now.touch frame body result }
    {
        match body.room() {
            Ok(()) => {
                let at = At {
                    page: self.page,
                    entry: body.len(),
                };
                self.enter(&mut body);
                self.after_refusal(layout, frame, body, at)
            }
            Err(_) => FaultAt::GiveUp {
                give_up: GiveUp::with_page(self.who, self.page, frame, 1, body),
            },
        }
    }

    /// Appends the entry that the access is answered by SIGBUS.
    fn enter(&self, body: &mut Body)
        requires { CanRefuse self.now.slot self.now.touch body.old }
        ensures { body.new ≡ refused self.now.who self.now.slot self.now.touch body.old }
    {
        body.append(Entry {
            who: self.who,
            what: self.touch.refusal(self.slot),
        });
    }

    /// Ends the process where its thread has no handler; or lets the page go at once.
    fn after_refusal(&self, layout: &Layout, frame: Option<Frame>, body: Body, at: At) -> FaultAt
        ensures { result ≡ after_refusal layout.now self.now.who self.now.page self.now.touch frame body at }
    {
        if self.touch.ends(layout) {
            FaultAt::Kill { frame, body, at }
        } else {
            Fault::let_go(self.who, self.page, frame, body, FaultAnswer::Sigbus { at })
        }
    }

    fn after_fill(who: Who, page: Page, slot: VSlot, fill: Fill) -> FaultAt
        ensures { IsFilled who page slot fill result }
    {
        match fill.answer() {
            Some(FillAnswer::Filled(frame)) => {
                Fault::with_room(who, page, slot, Some(frame), fill.body())
            }
            Some(FillAnswer::NoFrame) => {
                let body = fill.body();
                let at = At {
                    page,
                    entry: body.len(),
                };
                Fault::let_go(who, page, None, body, FaultAnswer::NoFrame { at })
            }
            None => FaultAt::Fill { fill },
        }
    }

    fn after_map_in(who: Who, page: Page, map_in: MapIn) -> FaultAt
        ensures { result ≡ after_map_in who page map_in }
    {
        if map_in.is_over() {
            let frame = map_in.frame();
            Fault::let_go(who, page, Some(frame), map_in.body(), FaultAnswer::Again)
        } else {
            FaultAt::MapIn { map_in }
        }
    }

    /// What follows a step of letting the page go; `None` where that goes on.
    fn after_unhold(unhold: &Unhold, answer: FaultAnswer) -> Option<FaultAt>
        ensures { unwrap_or result (states.Unhold unhold.now answer) ≡ after_unhold unhold.now answer }
    {
        if unhold.is_over() {
            Some(FaultAt::Over {
                answer: Some(answer),
            })
        } else {
            None
        }
    }

    /// What follows a step of giving the command up; `None` where that goes on.
    fn after_give_up(give_up: &GiveUp) -> Option<FaultAt>
        ensures { unwrap_or result (states.GiveUp give_up.now) ≡ after_give_up give_up.now }
    {
        if give_up.is_over() {
            Some(FaultAt::Over { answer: None })
        } else {
            None
        }
    }

    fn set(&mut self, at: FaultAt)
        ensures { self.new ≡ record self.old { at = at } }
    {
        self.at = at;
    }

    /// Goes on to the state, where there is one, with the turn of the step before it.
    fn follow(&mut self, next: Option<FaultAt>, turn: Turn) -> Turn
        ensures at { self.new ≡ record self.old { at = unwrap_or next self.old.at } }
        ensures turn { result ≡ turn }
    {
        if let Some(at) = next {
            self.set(at);
        }
        turn
    }

    /// What follows a state from which the page's body goes on, and the word that its step loaded.
    fn after(&self, layout: &Layout, at: FaultAt, found: u64) -> FaultAt
        requires { CanGoOn self.now.slot self.now.touch at found }
        ensures { GoesOn layout.now self.now.who self.now.page self.now.slot self.now.touch at found result }
    {
        match at {
            FaultAt::Hold { hold } => Fault::after_hold(hold),
            FaultAt::LoadPte { frame, body } => {
                self.after_pte(layout, frame, body, Pte::unpack(found))
            }
            FaultAt::Kill { frame, body, at } => {
                Fault::let_go(self.who, self.page, frame, body, FaultAnswer::Sigbus { at })
            }
            FaultAt::Fill { fill } => Fault::after_fill(self.who, self.page, self.slot, fill),
            FaultAt::MapIn { map_in } => Fault::after_map_in(self.who, self.page, map_in),
            FaultAt::Unhold { unhold, answer } => FaultAt::Unhold { unhold, answer },
            FaultAt::GiveUp { give_up } => FaultAt::GiveUp { give_up },
            FaultAt::Over { answer } => FaultAt::Over { answer },
        }
    }

    /// Goes on from such a state.
    fn go_on(&mut self, layout: &Layout, found: u64)
        requires { CanGoOn self.old.slot self.old.touch self.old.at found }
        ensures at { GoesOn layout.now self.old.who self.old.page self.old.slot self.old.touch self.old.at found self.new.at }
        ensures rest { self.new ≡ record self.old { at = self.new.at } }
    {
        let at = mem::replace(&mut self.at, FaultAt::Over { answer: None });
        let next = self.after(layout, at, found);
        self.set(next);
    }

    /// Goes on to the state that follows a step, with the turn that it was.
    fn settled(&mut self, layout: &Layout, found: u64, got: Option<Body>) -> Turn
        requires { ShowsAt self.old.slot self.old.touch self.old.at found got }
        ensures at { FollowsAt layout.now self.old.who self.old.page self.old.slot self.old.touch self.old.at found got self.new.at result }
        ensures rest { self.new ≡ record self.old { at = self.new.at } }
    {
        match &mut self.at {
            FaultAt::Hold { hold } => {
                let turn = hold.settle(layout, found, got);
                if hold.answer().is_some() {
                    self.go_on(layout, found);
                }
                turn
            }
            FaultAt::LoadPte { .. } | FaultAt::Kill { .. } => {
                self.go_on(layout, found);
                moved(got)
            }
            FaultAt::Fill { fill } => {
                let turn = fill.settle(layout, found, got);
                if fill.answer().is_some() {
                    self.go_on(layout, found);
                }
                turn
            }
            FaultAt::MapIn { map_in } => {
                let turn = map_in.settle(layout, found, got);
                if map_in.is_over() {
                    self.go_on(layout, found);
                }
                turn
            }
            FaultAt::Unhold { unhold, answer } => {
                let _turn = unhold.settle(layout, found, got);
                let next = Fault::after_unhold(unhold, *answer);
                self.follow(next, Turn::Moved)
            }
            FaultAt::GiveUp { give_up } => {
                let turn = give_up.settle(layout, found, got);
                let next = Fault::after_give_up(give_up);
                self.follow(next, turn)
            }
            FaultAt::Over { .. } => moved(got),
        }
    }
}

impl Task for Fault {
    ghost use Rattle.hwp_fault.specs.Faults as faults;

    ghost task = { faults.task };

    fn who(&self) -> Who {
        self.who
    }

    fn plan(&self) -> Option<Step> {
        match &self.at {
            FaultAt::Hold { hold } => hold.plan(),
            FaultAt::LoadPte { .. } => Some(Step::Load {
                place: SharedWord::Trans(self.slot),
            }),
            FaultAt::Kill { body, .. } => Some(Step::Kill {
                process: self.touch.process,
                page: self.page,
                body: Snapshot::of(body),
            }),
            FaultAt::Fill { fill } => fill.plan(),
            FaultAt::MapIn { map_in } => map_in.plan(),
            FaultAt::Unhold { unhold, .. } => unhold.plan(),
            FaultAt::GiveUp { give_up } => give_up.plan(),
            FaultAt::Over { .. } => None,
        }
    }

    fn give(&mut self) -> Option<Body> {
        match &mut self.at {
            FaultAt::Unhold { unhold, .. } => unhold.give(),
            FaultAt::GiveUp { give_up } => give_up.give(),
            _ => None,
        }
    }

    fn settle(&mut self, layout: &Layout, found: u64, body: Option<Body>) -> Turn {
        self.settled(layout, found, body)
    }
}

impl Ranked for Fault {
    fn class(&self) -> u8 {
        match &self.at {
            FaultAt::Hold { hold } => hold.class(),
            FaultAt::LoadPte { frame, .. } | FaultAt::Kill { frame, .. } => if frame.is_some() {
                1
            } else {
                2
            },
            FaultAt::Fill { fill } => fill.class(),
            FaultAt::MapIn { map_in } => map_in.class(),
            FaultAt::Unhold { unhold, .. } => unhold.class(),
            FaultAt::GiveUp { give_up } => give_up.class(),
            FaultAt::Over { .. } => 4,
        }
    }

    fn ranked() {}
}
