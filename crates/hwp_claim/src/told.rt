use crate::fail::Found;
use hwp_banks::Event;
use hwp_law::{Acted, Grade};

/// An event that a bank holds at a machine check, with its grade. Small fields stand together, so that they take less room.
#[derive(Clone, Copy)]
pub struct Held {
    pub event: Event,
    pub bank: u8,
    pub grade: Grade,
}

/// What was done about an event. Where its memory failure came to a result, `found` is what that found.
#[derive(Clone, Copy)]
pub struct EventOutcome {
    pub held: Held,
    pub acted: Acted,
    pub found: Option<Found>,
}
