ghost use Rattle.std.specs.Prelude.{◌≡◌, ◌<◌, ◌==◌, ◌&&◌};
ghost use Rattle.hwp_banks.specs.Addresses.{frame_at};
ghost use Rattle.hwp_claim_frame.specs.Claims.{stop_turn};
ghost use Rattle.hwp_law.specs.hwp_report_text.Acts.{is_panic};
ghost use Rattle.hwp_law.specs.hwp_severity.Handling.{has_stop};
ghost use Rattle.hwp_law.specs.Outcomes.{outcome_act};
ghost use Rattle.hwp_claim.specs.Told.{are_held_back, at_once, failure_at_once, first_signal, frame_of, halts, has_kept, has_panic, is_already, is_halting, is_kept, required_by, signal_of, told_by, was_poisoned};
ghost use Rattle.hwp_claim.specs.Handlers.{after_stop, answer, at_end, begin, ended_by, failing, tell_on};

use crate::events::EventQueue;
use crate::fail::{Fail, FailAnswer, Found};
use crate::told::{EventOutcome, Held};
use hwp_banks::{BANKS, Bank};
use hwp_claim_frame::{
    At, Body, Frame, Layout, Mode, Outcome, Ranked, Scheduled, Step, Task, Thread, Turn, Who,
    is_stopped,
};
use hwp_law::{Acted, McgBits, Severity, handle};
use std::alloc::Global;
use std::mem;

/// A machine check under way: what needs no step is told at once, memory failures run one after the other, and in the end the
/// machine is stopped, if an event or a panic asks for it.
pub struct Handler {
    alloc: Global,
    who: Who,
    /// The thread that ran, which a required failure is for.
    thread: Option<Thread>,
    /// Some event is graded `Stop`, so that no failure takes place.
    stops: bool,
    events: EventQueue,
    at: HandlerAt,
}

#[derive(Drop)]
enum HandlerAt {
    Stop,
    /// The failure of the event that comes next.
    Fail { fail: Fail },
    GaveUp,
    Over { stopped: bool },
}

impl Handler {
    /// The machine check that a command meets while this thread runs, or none, with these bits and in this mode: of what its
    /// processor's banks hold.
    pub fn new(
        alloc: Global,
        layout: &Layout,
        who: Who,
        thread: Option<Thread>,
        mcg: McgBits,
        mode: Mode,
        banks: &[Bank; BANKS],
    ) -> Handler
        ensures { result ≡ begin layout.now alloc who thread (record { mcg = mcg; mode = mode }) banks.now }
    {
        let decision = handle(banks, mcg, mode);
        let stops = decision.stop.is_some();
        let mut events = EventQueue::new(banks, &decision.acts);
        let at = tell_on(alloc, layout, who, thread, stops, &mut events);
        Handler {
            alloc,
            who,
            thread,
            stops,
            events,
            at,
        }
    }

    /// What was done so far about the events, in the order of their banks.
    pub fn told(&self) -> &[EventOutcome]
        ensures { result.now ≡ self.now.events.told }
    {
        self.events.told()
    }

    /// Whether the machine is stopped; `None` until all is told, and where it gave up.
    pub fn answer(&self) -> Option<bool>
        ensures { result ≡ answer self.now }
    {
        match self.at {
            HandlerAt::Over { stopped } => Some(stopped),
            HandlerAt::Stop | HandlerAt::Fail { .. } | HandlerAt::GaveUp => None,
        }
    }

    /// The entry of the first failure that signalled the thread.
    pub fn signalled(&self) -> Option<At>
        ensures { result ≡ first_signal self.now.events.told }
    {
        for told in self.events.told() {
            if let Some(at) = signal_of(told.found) {
                return Some(at);
            }
        }
        None
    }

    /// Whether a failure of the frame found it poisoned already.
    pub fn was_poisoned(&self, frame: Frame) -> bool
        ensures { result ≡ was_poisoned frame self.now.events.told }
    {
        self.events
            .told()
            .iter()
            .any(|told| is_already(told, frame))
    }

    /// Whether an event was kept.
    pub fn has_kept(&self) -> bool
        ensures { result ≡ has_kept self.now.events.told }
    {
        self.events.told().iter().any(is_kept)
    }

    /// The failure of the event that comes next came to this.
    fn end(&mut self, layout: &Layout, answer: FailAnswer)
        ensures { self.new ≡ ended_by layout.now self.old answer self.old.events.left }
    {
        let Some(held) = self.events.next() else {
            return;
        };
        self.events.tell(told_by(held, answer));
        let at = tell_on(
            self.alloc,
            layout,
            self.who,
            self.thread,
            self.stops,
            &mut self.events,
        );
        self.set(at);
    }

    /// What follows the stop word that the stop met: another may have given up because memory ran out.
    fn after_stop(&mut self, found: u64) -> Turn
        ensures at { self.new ≡ record self.old { at = after_stop found } }
        ensures turn { result ≡ stop_turn found }
    {
        if found == 0 {
            self.set(HandlerAt::Over { stopped: true });
            Turn::Moved
        } else if is_stopped(found) {
            self.set(HandlerAt::Over { stopped: true });
            Turn::Changed(found)
        } else {
            self.set(HandlerAt::GaveUp);
            Turn::NoMemory
        }
    }

    fn set(&mut self, at: HandlerAt)
        ensures { self.new ≡ record self.old { at = at } }
    {
        let_go(mem::replace(&mut self.at, at));
    }

    /// Lets it go. Where a crate drops a value, it proves how each part of that goes; a call of this proves nothing of it.
    pub fn dismiss(self) {
        drop(self);
    }
}

// by hand, since crates above cite what is proved here, and with a derive prove anew how each part goes
impl Drop for Handler {
    fn drop(self) {
        let Handler {
            alloc: _,
            who: _,
            thread: _,
            stops: _,
            events: _,
            at,
        } = self;
        let_go(at);
    }
}

/// Lets go of the failure, if there is one.
fn let_go(at: HandlerAt) {
    match at {
        HandlerAt::Fail { fail } => drop(fail),
        HandlerAt::Stop | HandlerAt::GaveUp | HandlerAt::Over { .. } => {}
    }
}

/// Tells what needs no step, up to the next failure or to the end; and where the machine check is then.
fn tell_on(
    alloc: Global,
    layout: &Layout,
    who: Who,
    thread: Option<Thread>,
    stops: bool,
    events: &mut EventQueue,
) -> HandlerAt
    ensures events { events.new ≡ (tell_on layout.now alloc who thread stops events.old.left events.old.told).0 }
    ensures at { result ≡ (tell_on layout.now alloc who thread stops events.old.left events.old.told).1 }
{
    while let Some(held) = events.next() {
        let held_back = are_held_back(stops, events.told());
        let Some(acted) = at_once(layout, held_back, &held) else {
            return failing(alloc, layout, who, thread, &held);
        };
        events.tell(EventOutcome {
            held,
            acted,
            found: None,
        });
    }
    at_end(events.told())
}

/// The number of the frame that an event names.
fn frame_number(held: &Held) -> u64
    ensures { result ≡ (frame_of held.now).0 }
{
    held.event.addr / 4096
}

fn is_panic(told: &EventOutcome) -> bool
    ensures { result ≡ is_panic told.now.acted }
{
    matches!(told.acted, Acted::Panic)
}

fn has_panic(told: &[EventOutcome]) -> bool
    ensures { result ≡ has_panic told.now }
{
    told.iter().any(|told| is_panic(told))
}

/// Whether failures are held back: an event stops the machine, or there was a panic.
fn are_held_back(stops: bool, told: &[EventOutcome]) -> bool
    ensures { result ≡ are_held_back stops told.now }
{
    stops || has_panic(told)
}

/// What is done about a memory failure without a step; `None` where it takes place.
fn failure_at_once(layout: &Layout, held_back: bool, frame: u64) -> Option<Acted>
    ensures { result ≡ failure_at_once layout.now held_back frame }
{
    if held_back {
        return Some(Acted::Held);
    }
    if u64::from(layout.frames) <= frame {
        return Some(Acted::Outside);
    }
    if layout.recovery {
        None
    } else {
        Some(Acted::Panic)
    }
}

/// What is done about an event without a step; `None` where it is a memory failure that takes place.
fn at_once(layout: &Layout, held_back: bool, held: &Held) -> Option<Acted>
    ensures { result ≡ at_once layout.now held_back held.now }
{
    match held.grade.severity {
        Severity::Stop => Some(Acted::Stop),
        Severity::None => Some(Acted::None),
        Severity::Keep => Some(Acted::Keep),
        Severity::Deferred => Some(Acted::Deferred),
        Severity::Logged => Some(Acted::Logged),
        Severity::Optional | Severity::Required => {
            failure_at_once(layout, held_back, frame_number(held))
        }
    }
}

/// The thread that a failure is required for.
fn required_by(thread: Option<Thread>, severity: Severity) -> Option<Thread>
    ensures { result ≡ required_by thread severity }
{
    match severity {
        Severity::Required => thread,
        Severity::Stop
        | Severity::None
        | Severity::Keep
        | Severity::Deferred
        | Severity::Logged
        | Severity::Optional => None,
    }
}

/// The failure of an event, which the hardware reports.
fn failing(
    alloc: Global,
    layout: &Layout,
    who: Who,
    thread: Option<Thread>,
    held: &Held,
) -> HandlerAt
    requires { (frame_of held.now).0 < layout.now.frames }
    ensures { result ≡ failing layout.now alloc who thread held.now }
{
    let _frames = layout.frames;
    let frame = Frame(frame_number(held) as u16);
    let required = required_by(thread, held.grade.severity);
    HandlerAt::Fail {
        fail: Fail::new(alloc, layout, who, frame, required, true),
    }
}

/// Whether what was done about an event stops the machine.
fn is_halting(told: &EventOutcome) -> bool
    ensures { result ≡ is_halting told.now.acted }
{
    matches!(told.acted, Acted::Stop | Acted::Panic)
}

fn halts(told: &[EventOutcome]) -> bool
    ensures { result ≡ halts told.now }
{
    told.iter().any(|told| is_halting(told))
}

/// All is told.
fn at_end(told: &[EventOutcome]) -> HandlerAt
    ensures { result ≡ at_end told.now }
{
    if halts(told) {
        HandlerAt::Stop
    } else {
        HandlerAt::Over { stopped: false }
    }
}

/// How an event line tells the result of a failure.
fn outcome_act(outcome: Outcome) -> Acted
    ensures { result ≡ outcome_act outcome }
{
    match outcome {
        Outcome::Recovered => Acted::Recovered,
        Outcome::Delayed => Acted::Delayed,
        Outcome::Ignored => Acted::Ignored,
    }
}

/// What is told of a failure that came to this.
fn told_by(held: Held, answer: FailAnswer) -> EventOutcome
    ensures { result ≡ told_by held answer }
{
    match answer {
        FailAnswer::Stopped => EventOutcome {
            held,
            acted: Acted::Panic,
            found: None,
        },
        FailAnswer::Already => EventOutcome {
            held,
            acted: Acted::Already,
            found: None,
        },
        FailAnswer::Done(found) => EventOutcome {
            held,
            acted: outcome_act(found.situation.outcome()),
            found: Some(found),
        },
    }
}

/// The entry of a failure that signalled the thread.
fn signal_of(found: Option<Found>) -> Option<At>
    ensures { result ≡ signal_of found }
{
    match found {
        Some(found) if found.signalled => found.at,
        _ => None,
    }
}

/// Whether a failure of the frame found it poisoned already.
fn is_already(told: &EventOutcome, frame: Frame) -> bool
    ensures { result ≡ (is_already told.now.acted && (frame_at told.now.held.event.addr == frame.0)) }
{
    matches!(told.acted, Acted::Already) && frame_number(&told.held) == u64::from(frame.0)
}

/// Whether the event was kept.
fn is_kept(told: &EventOutcome) -> bool
    ensures { result ≡ is_kept told.now.acted }
{
    matches!(told.acted, Acted::Keep)
}

impl Task for Handler {
    ghost use Rattle.hwp_claim.specs.Fits as fits;

    ghost task = { fits.task };

    fn who(&self) -> Who {
        self.who
    }

    fn plan(&self) -> Option<Step> {
        match &self.at {
            HandlerAt::Stop => Some(Step::Stop { cpu: self.who.cpu }),
            HandlerAt::Fail { fail } => fail.plan(),
            HandlerAt::GaveUp | HandlerAt::Over { .. } => None,
        }
    }

    fn give(&mut self) -> Option<Body> {
        match &mut self.at {
            HandlerAt::Fail { fail } => fail.give(),
            HandlerAt::Stop | HandlerAt::GaveUp | HandlerAt::Over { .. } => None,
        }
    }

    fn settle(&mut self, layout: &Layout, found: u64, body: Option<Body>) -> Turn {
        match &mut self.at {
            HandlerAt::Stop => self.after_stop(found),
            HandlerAt::Fail { fail } => {
                let turn = fail.settle(layout, found, body);
                let Some(answer) = fail.answer() else {
                    return turn;
                };
                self.end(layout, answer);
                turn
            }
            HandlerAt::GaveUp | HandlerAt::Over { .. } => Turn::Moved,
        }
    }
}

impl Ranked for Handler {
    fn class(&self) -> u8 {
        match &self.at {
            HandlerAt::Fail { fail } => fail.class(),
            HandlerAt::Stop | HandlerAt::GaveUp | HandlerAt::Over { .. } => 4,
        }
    }

    fn ranked() {}
}

impl Scheduled for Handler {
    fn tells() {}
}
