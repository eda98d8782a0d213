ghost use Rattle.std.specs.Prelude.{◌≡◌, ◌<◌, ◌∷◌, [], ◌++◌, drop, length, map, slice_get};
ghost use Rattle.hwp_law.specs.hwp_severity.Handling.{grade_of};
ghost use Rattle.hwp_claim.specs.Events.{held_with};

use crate::told::{EventOutcome, Held};
use hwp_banks::{BANKS, Bank, Event, Status};
use hwp_law::{Acted, Grade, Severity};
use std::marker::Model;

/// What stands in a place that no event has taken yet.
const FREE_PLACE: Held = Held {
    bank: 0,
    event: Event {
        status: Status(0),
        addr: 0,
        misc: 0,
    },
    grade: Grade {
        severity: Severity::None,
        row: 1,
    },
};

/// What stands in a place of which nothing is told yet.
const NOT_TOLD: EventOutcome = EventOutcome {
    held: FREE_PLACE,
    acted: Acted::None,
    found: None,
};

/// The events of a machine check, in the order of their banks. Clauses see those of which it is told what was done, and those
/// that are left.
#[derive(Drop)]
pub(crate) struct EventQueue {
    held: [Held; BANKS],
    count: usize,
    told: [EventOutcome; BANKS],
    taken: usize,
}

impl Model for EventQueue {
    ghost use Rattle.std.specs.Prelude.{drop, take, ◌≤◌};
    ghost use Rattle.hwp_banks.specs.Events.{bank_count};
    ghost use Rattle.hwp_claim.specs.Queue.{Queue};

    ghost Value = { Queue };

    ghost view = { λ q. record { told = take q.taken q.told; left = drop q.taken (take q.count q.held) } };

    ghost invariant = { λ q. (q.taken ≤ q.count) × (q.count ≤ bank_count) };
}

impl EventQueue {
    /// The events that the banks hold, each with the grade of its bank.
    pub(crate) fn new(banks: &[Bank; BANKS], grades: &[Grade; BANKS]) -> EventQueue
        ensures told { result.told ≡ [] }
        ensures left { result.left ≡ held_with 0 banks.now grades.now }
    {
        let mut held = [FREE_PLACE; BANKS];
        let mut count = 0;
        for number in 0..BANKS {
            if let Some(event) = banks[number].get() {
                held[count] = Held {
                    bank: number as u8,
                    event,
                    grade: grades[number],
                };
                count += 1;
            }
        }
        EventQueue {
            held,
            count,
            told: [NOT_TOLD; BANKS],
            taken: 0,
        }
    }

    /// The event that comes next; `None` where none is left.
    pub(crate) fn next(&self) -> Option<Held>
        ensures { result ≡ slice_get self.now.left 0 }
    {
        if self.taken < self.count {
            Some(self.held[self.taken])
        } else {
            None
        }
    }

    /// What was done about the event that came next.
    pub(crate) fn tell(&mut self, told: EventOutcome)
        requires { 0 < length self.old.left }
        ensures { self.new ≡ record { told = self.old.told ++ told ∷ []; left = drop 1 self.old.left } }
    {
        self.told[self.taken] = told;
        self.taken += 1;
    }

    /// What was done so far, in the order of the banks.
    pub(crate) fn told(&self) -> &[EventOutcome]
        ensures { result.now ≡ self.now.told }
    {
        &self.told[..self.taken]
    }
}
