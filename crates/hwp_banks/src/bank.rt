ghost use Rattle.std.specs.Prelude.{◌≡◌, Option, None, IfSome, IsTrue};
ghost use Rattle.hwp_banks.specs.Status.{is_valid};
ghost use Rattle.hwp_banks.specs.Logged.{logged, stored, class_of, overwritten, merged, with_over, without_over};

use crate::event::Event;
use crate::status::Status;
use bitflags::Flags;
use std::marker::Model;

/// How many banks a processor has (this project's rule).
pub const BANKS: usize = 3;
/// A machine-check bank. Clauses see it as the event that it holds, if there is one. A held event has VAL set.
#[derive(Drop)]
pub struct Bank {
    held: Option<Event>,
}

impl Model for Bank {
    ghost use Rattle.std.specs.Prelude.{◌≡◌, Option, IfSome, IsTrue};
    ghost use Rattle.hwp_banks.specs.declared.event.Event.{Event};

    ghost Value = { Option Event };

    ghost use Rattle.hwp_banks.specs.Status.{is_valid};

    ghost view = { λ b. b.held };

    ghost invariant = { λ b. IfSome b.held (λ e. IsTrue (is_valid e.status)) };
}

impl Bank {
    /// An empty bank.
    pub fn new() -> Bank
        ensures { result ≡ None }
    {
        Bank { held: None }
    }

    /// Logs an event by the overwrite table (this project's rule). An event without VAL changes nothing. Else the
    /// classes of the held event (first) and of the new one (second) decide, and in rows 1 to 7 OVER is set. A corrected
    /// event has UC=0 and PCC=0, an uncorrected one UC=1 and PCC=0, a fatal one PCC=1.
    ///
    /// | row | first | second | held after it |
    /// |---|---|---|---|
    /// | 1 | corrected | corrected | first |
    /// | 2 | corrected | uncorrected | second |
    /// | 3 | uncorrected | corrected | first |
    /// | 4 | uncorrected | uncorrected | first, where S is set if either has it, and AR likewise |
    /// | 5 | corrected or uncorrected | fatal | second |
    /// | 6 | fatal | corrected or uncorrected | first |
    /// | 7 | fatal | fatal | first |
    /// | 8 | none | any | second, with OVER cleared |
    pub fn log(&mut self, event: Event)
        ensures { self.new ≡ logged self.old event }
    {
        if event.status.contains(Status::VAL) {
            self.held = Some(stored_of(self.held, event));
        }
    }

    /// Takes the event out, and leaves the bank empty. It is `None` exactly where the bank is empty.
    pub fn take(&mut self) -> Option<Event>
        ensures held { result ≡ self.old }
        ensures empty { self.new ≡ None }
        ensures valid { IfSome result (λ e. IsTrue (is_valid e.status)) }
    {
        self.held.take()
    }

    /// The event that the bank holds. It is `None` exactly where the bank is empty.
    pub fn get(&self) -> Option<Event>
        ensures held { result ≡ self.now }
        ensures valid { IfSome result (λ e. IsTrue (is_valid e.status)) }
    {
        self.held
    }
}

/// What a valid event leaves in a bank.
fn stored_of(held: Option<Event>, event: Event) -> Event
    ensures { result ≡ stored held event }
{
    match held {
        None => without_overflow(event),
        Some(first) => with_overflow(kept_of(first, event)),
    }
}

/// The event, with OVER set.
fn with_overflow(mut event: Event) -> Event
    ensures { result ≡ with_over event }
{
    event.status.insert(Status::OVER);
    event
}

/// The event, with OVER cleared.
fn without_overflow(mut event: Event) -> Event
    ensures { result ≡ without_over event }
{
    event.status.remove(Status::OVER);
    event
}

/// What stays of two valid events, but for OVER.
fn kept_of(first: Event, second: Event) -> Event
    ensures { with_over result ≡ overwritten (class_of first.status) (class_of second.status) first second }
{
    if first.status.contains(Status::PCC) {
        return first;
    }
    if second.status.contains(Status::PCC) {
        return second;
    }
    match (
        first.status.contains(Status::UC),
        second.status.contains(Status::UC),
    ) {
        (false, true) => second,
        (true, true) => merged_of(first, second),
        _ => first,
    }
}

/// The first event, where S and AR are those of either.
fn merged_of(first: Event, second: Event) -> Event
    ensures { result ≡ merged first second }
{
    let signals = second.status.intersection(Status::S.union(Status::AR));
    Event {
        status: first.status.union(signals),
        ..first
    }
}
