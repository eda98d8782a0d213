ghost use Rattle.std.specs.Prelude.{◌≡◌, ◌≤◌, length, MatchOption};
ghost use Rattle.hwp_claim.specs.hwp_geom.Bits.{HasNoBitFrom, IsLowestBit};
ghost use Rattle.hwp_claim.specs.hwp_banks.Events.{bank_count};
ghost use Rattle.hwp_claim.specs.hwp_banks.Banks.{empty_banks};
ghost use Rattle.hwp_scrub.specs.Visits.{with_bad};
ghost use Rattle.hwp_scrub.specs.Scrubs.{AfterBad, AfterWeak, BeginsCheck, MeetsWeak, after_handler, after_stop, answer, begin, checked, give_up, gone_on, kept, kept_line};

use hwp_claim::{
    Acted, BANKS, Bank, Body, Event, EventOutcome, Frame, Handler, Held, Layout, Line, List,
    McgBits, Mode, Origin, Ranked, Scheduled, SharedWord, Step, Task, ToldLines, Turn, Who, grade,
    is_stopped, let_go_of, lowest_bit, no_events,
};
use std::alloc::Global;
use std::mem;
use std::snapshot::Snapshot;

/// The scrubber, which goes over frames in rising order. The lowest bad line of each is a machine check, which is acted on; the
/// lowest weak line is logged, told and taken out at once (this project's rule).
pub struct Scrub {
    alloc: Global,
    who: Who,
    first: Frame,
    last: Frame,
    /// What the banks held at the beginning.
    before: Snapshot<[Bank; BANKS]>,
    banks: [Bank; BANKS],
    lines: ToldLines,
    at: ScrubAt,
}

#[derive(Drop)]
enum ScrubAt {
    LoadStop,
    LoadBad { frame: Frame },
    /// The machine check of the frame's lowest bad line.
    Handle { frame: Frame, handler: Handler },
    LoadWeak { frame: Frame },
    GiveUp,
    /// No answer: the command gave up because memory ran out.
    Over { answer: Option<ScrubAnswer> },
}

/// What a `Scrub` came to (this project's rule).
#[derive(Clone, Copy)]
pub enum ScrubAnswer {
    /// It went over all its frames.
    Scrubbed,
    /// The machine is stopped.
    Stopped,
}

/// The scrubber can be started again behind a machine check.
const RESTARTS: McgBits = McgBits {
    ripv: true,
    eipv: true,
};

// by hand, since what lets a scrub go cites what is proved here; with a derive it proves anew how each part goes
impl Drop for Scrub {
    fn drop(self) {
        let Scrub {
            alloc: _,
            who: _,
            first: _,
            last: _,
            before: _,
            banks: _,
            lines: _,
            at: _,
        } = self;
    }
}

impl Scrub {
    /// The command at its beginning, over the frames from the first to the last, by a processor whose banks hold this.
    pub fn new(alloc: Global, who: Who, first: Frame, last: Frame, banks: [Bank; BANKS]) -> Scrub
        ensures { result ≡ begin alloc who first last banks }
    {
        Scrub {
            alloc,
            who,
            first,
            last,
            before: Snapshot::of(&banks),
            banks,
            lines: ToldLines::new(alloc),
            at: ScrubAt::LoadStop,
        }
    }

    /// What it came to; `None` until it is over, and where it gave up because memory ran out.
    pub fn answer(&self) -> Option<ScrubAnswer>
        ensures { result ≡ answer self.now }
    {
        match self.at {
            ScrubAt::Over { answer } => answer,
            ScrubAt::LoadStop
            | ScrubAt::LoadBad { .. }
            | ScrubAt::Handle { .. }
            | ScrubAt::LoadWeak { .. }
            | ScrubAt::GiveUp => None,
        }
    }

    /// What was done about the events that it met, in order.
    pub fn told(&self) -> &[EventOutcome]
        ensures { result.now ≡ self.now.lines.told }
    {
        self.lines.told()
    }

    /// The same as a list, and its processor's banks are put back, once it is over.
    pub fn finish(&mut self, banks: &mut [Bank; BANKS]) -> List<EventOutcome>
        ensures told { result ≡ self.old.lines.told }
        ensures banks { banks.new ≡ self.old.banks }
    {
        mem::swap(banks, &mut self.banks);
        mem::replace(&mut self.lines, ToldLines::new(self.alloc)).into_list()
    }

    /// Its next step gives up the command: memory ran out.
    pub fn give_up(&mut self)
        ensures { self.new ≡ give_up self.old }
    {
        self.set(ScrubAt::GiveUp);
    }

    /// What follows the stop word.
    #[inline(always)]
    fn after_stop(&mut self, found: u64)
        ensures { self.new ≡ after_stop self.old found }
    {
        if is_stopped(found) {
            self.set(ScrubAt::Over {
                answer: Some(ScrubAnswer::Stopped),
            });
        } else {
            self.set(ScrubAt::LoadBad { frame: self.first });
        }
    }

    /// Inline, because its caller knows which state was there: on its own it would read out all of that state to let it go.
    #[inline(always)]
    fn set(&mut self, at: ScrubAt)
        ensures { self.new ≡ record self.old { at = at } }
    {
        self.at = at;
    }

    /// What follows the word of the frame's bad lines.
    #[inline(always)]
    fn after_bad(&mut self, layout: &Layout, frame: Frame, found: u64)
        ensures { AfterBad layout.now self.old frame found self.new }
    {
        match lowest_line(found) {
            Some(line) => self.check(layout, frame, line),
            None => self.set(ScrubAt::LoadWeak { frame }),
        }
    }

    /// The machine check of the frame's bad line begins, which leaves the banks empty. Where there is no room for its lines the
    /// command is given up. It stands outside `settle`, so that the other steps need no room for a machine check.
    #[inline(never)]
    fn check(&mut self, layout: &Layout, frame: Frame, line: Line)
        ensures { BeginsCheck layout.now self.old frame line self.new }
    {
        if self.lines.room().is_err() {
            self.set(ScrubAt::GiveUp);
            return;
        }
        let banks = self.take_banks(frame, line);
        let handler = Handler::new(
            self.alloc,
            layout,
            self.who,
            None,
            RESTARTS,
            Mode::Kernel,
            &banks,
        );
        self.after_handler(frame, handler);
    }

    /// The banks with the event of the frame's bad line. They are left empty.
    fn take_banks(&mut self, frame: Frame, line: Line) -> [Bank; BANKS]
        ensures found { result ≡ with_bad frame line self.old.banks }
        ensures left { self.new ≡ record self.old { banks = empty_banks } }
    {
        let mut banks = mem::replace(&mut self.banks, no_events());
        banks[Origin::BadLine.bank()].log(Origin::BadLine.event(frame, line));
        banks
    }

    /// The machine check has begun, or is over at once.
    fn after_handler(&mut self, frame: Frame, handler: Handler)
        requires { length handler.events.told ≤ self.old.lines.spare }
        ensures { self.new ≡ after_handler self.old frame handler }
    {
        let Some(stopped) = handler.answer() else {
            self.set(ScrubAt::Handle { frame, handler });
            return;
        };
        self.lines.append(handler.told());
        handler.dismiss();
        self.after_check(frame, stopped);
    }

    /// The machine check is over, and what it told is taken over.
    #[inline(never)]
    fn after_check(&mut self, frame: Frame, stopped: bool)
        ensures { self.new ≡ checked self.old frame stopped }
    {
        let at = if stopped {
            ScrubAt::Over {
                answer: Some(ScrubAnswer::Stopped),
            }
        } else {
            ScrubAt::LoadWeak { frame }
        };
        self.set(at);
    }

    /// What follows the word of the frame's weak lines.
    #[inline(always)]
    fn after_weak(&mut self, frame: Frame, found: u64)
        ensures { AfterWeak self.old frame found self.new }
    {
        match lowest_line(found) {
            Some(line) => self.meet_weak(frame, line),
            None => self.go_on(frame),
        }
    }

    /// The frame's weak line is told. Where there is no room for that the command is given up.
    #[inline(never)]
    fn meet_weak(&mut self, frame: Frame, line: Line)
        ensures { MeetsWeak self.old frame line self.new }
    {
        if self.lines.room().is_err() {
            self.set(ScrubAt::GiveUp);
            return;
        }
        self.keep(frame, line);
        self.go_on(frame);
    }

    /// The event of the frame's weak line is logged, and what its bank holds then is told and taken out.
    fn keep(&mut self, frame: Frame, line: Line)
        requires { bank_count ≤ self.old.lines.spare }
        ensures { self.new ≡ kept self.old frame line }
    {
        let bank = &mut self.banks[Origin::WeakLine.bank()];
        bank.log(Origin::WeakLine.event(frame, line));
        if let Some(event) = bank.take() {
            self.lines.append(&[kept_line(event)]);
        }
    }

    /// The next frame, or the end.
    #[inline(always)]
    fn go_on(&mut self, frame: Frame)
        ensures { self.new ≡ gone_on self.old frame }
    {
        if frame.0 < self.last.0 {
            self.set(ScrubAt::LoadBad {
                frame: Frame(frame.0 + 1),
            });
        } else {
            self.set(ScrubAt::Over {
                answer: Some(ScrubAnswer::Scrubbed),
            });
        }
    }
}

/// The lowest line that the word marks.
fn lowest_line(word: u64) -> Option<Line>
    ensures { MatchOption result (HasNoBitFrom word 0) (IsLowestBit word 0) }
{
    let Some(bit) = lowest_bit(word, 0) else {
        return None;
    };
    Line::new(bit as u8)
}

/// What is told of the event that the scrubber's bank holds with a weak line: a corrected error, which is kept on record.
fn kept_line(event: Event) -> EventOutcome
    ensures { result ≡ kept_line event }
{
    EventOutcome {
        held: Held {
            bank: Origin::WeakLine.bank() as u8,
            event,
            grade: grade(event.status, RESTARTS, Mode::Kernel),
        },
        acted: Acted::Keep,
        found: None,
    }
}

impl Task for Scrub {
    ghost use Rattle.hwp_scrub.specs.Fits as fits;

    ghost task = { fits.task };

    fn who(&self) -> Who {
        self.who
    }

    fn plan(&self) -> Option<Step> {
        match &self.at {
            ScrubAt::LoadStop => Some(Step::Load {
                place: SharedWord::Stop,
            }),
            ScrubAt::LoadBad { frame } => Some(Step::Load {
                place: SharedWord::Bad(*frame),
            }),
            ScrubAt::Handle { handler, .. } => handler.plan(),
            ScrubAt::LoadWeak { frame } => Some(Step::Load {
                place: SharedWord::Weak(*frame),
            }),
            ScrubAt::GiveUp => Some(Step::GiveUp),
            ScrubAt::Over { .. } => None,
        }
    }

    fn give(&mut self) -> Option<Body> {
        match &mut self.at {
            ScrubAt::Handle { handler, .. } => handler.give(),
            _ => None,
        }
    }

    fn settle(&mut self, layout: &Layout, found: u64, body: Option<Body>) -> Turn {
        match &mut self.at {
            ScrubAt::LoadStop => {
                self.after_stop(found);
                let_go_of(body);
                Turn::Moved
            }
            ScrubAt::LoadBad { frame } => {
                let frame = *frame;
                self.after_bad(layout, frame, found);
                let_go_of(body);
                Turn::Moved
            }
            ScrubAt::Handle { frame, handler } => {
                let turn = handler.settle(layout, found, body);
                if let Some(stopped) = handler.answer() {
                    let frame = *frame;
                    self.lines.append(handler.told());
                    self.after_check(frame, stopped);
                }
                turn
            }
            ScrubAt::LoadWeak { frame } => {
                let frame = *frame;
                self.after_weak(frame, found);
                let_go_of(body);
                Turn::Moved
            }
            ScrubAt::GiveUp => {
                self.set(ScrubAt::Over { answer: None });
                let_go_of(body);
                Turn::NoMemory
            }
            ScrubAt::Over { .. } => {
                let_go_of(body);
                Turn::Moved
            }
        }
    }
}

impl Ranked for Scrub {
    fn class(&self) -> u8 {
        match &self.at {
            ScrubAt::Handle { handler, .. } => handler.class(),
            ScrubAt::LoadStop
            | ScrubAt::LoadBad { .. }
            | ScrubAt::LoadWeak { .. }
            | ScrubAt::GiveUp
            | ScrubAt::Over { .. } => 4,
        }
    }

    fn ranked() {}
}

impl Scheduled for Scrub {
    fn tells() {}
}
