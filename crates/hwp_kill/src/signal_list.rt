ghost use Rattle.std.specs.Prelude.{◌≡◌, ◌<◌, ◌≤◌, [], ◌∷◌, ◌++◌, length};
ghost use Rattle.hwp_kill.specs.Limits.{signal_limit};

use crate::types::{Code, Signal};
use hwp_geom::{List, OutOfMemory, Proc, Thread, VSlot};
use std::alloc::Global;
use std::marker::Model;

/// The most signals of a memory failure: one for each process of a script.
pub const MAX_SIGNALS: usize = 16;

/// What stands in a place that no signal has taken yet.
const FREE_PLACE: Signal = Signal {
    process: Proc(0),
    thread: Thread(0),
    code: Code::Ar,
    slot: VSlot(0),
};

/// At most 16 signals, in a list that takes no memory beside its own. Clauses see it as the list of its signals.
#[derive(Drop)]
pub struct SignalList {
    places: [Signal; MAX_SIGNALS],
    taken: usize,
}

impl Model for SignalList {
    ghost use Rattle.std.specs.Prelude.{List, take, ◌≤◌};
    ghost use Rattle.hwp_kill.specs.declared.types.Signal.{Signal};
    ghost use Rattle.hwp_kill.specs.Limits.{signal_limit};

    ghost Value = { List Signal };

    ghost view = { λ a. take a.taken a.places };

    ghost invariant = { λ a. a.taken ≤ signal_limit };
}

impl SignalList {
    /// The empty list.
    pub fn new() -> SignalList
        ensures { result ≡ [] }
    {
        SignalList {
            places: [FREE_PLACE; MAX_SIGNALS],
            taken: 0,
        }
    }

    /// The signals, from the first one on.
    pub fn as_slice(&self) -> &[Signal]
        ensures signals { result.now ≡ self.now }
        ensures few { length self.now ≤ signal_limit }
    {
        &self.places[..self.taken]
    }

    /// Adds a signal at the end.
    pub fn push(&mut self, signal: Signal)
        requires { length self.old < signal_limit }
        ensures { self.new ≡ self.old ++ signal ∷ [] }
    {
        self.places[self.taken] = signal;
        self.taken += 1;
    }
}

/// Room for the signals of a memory failure, made before they are known, so that they can be listed when no memory may be asked
/// for. Clauses see nothing of it.
#[derive(Drop)]
pub struct SignalRoom {
    places: Vec<Signal>,
}

impl Model for SignalRoom {
    ghost use Rattle.std.specs.Prelude.{[], ◌≡◌, ◌≤◌, vec_capacity};
    ghost use Rattle.hwp_kill.specs.Limits.{signal_limit};

    ghost Value = { Unit {0} };

    ghost view = { λ r. tt };

    ghost invariant = { λ r. (r.places.items ≡ []) × (signal_limit ≤ vec_capacity r.places) };
}

impl SignalRoom {
    /// Room for as many signals as there can be.
    ///
    /// # Errors
    /// `OutOfMemory` where there is none.
    pub fn new(alloc: Global) -> Result<SignalRoom, OutOfMemory> {
        Ok(SignalRoom {
            places: Vec::with_capacity(alloc, MAX_SIGNALS)?,
        })
    }

    /// These signals, listed in the room.
    pub fn list(self, signals: &SignalList) -> List<Signal>
        ensures { result ≡ signals.now }
    {
        let mut places = self.places;
        for signal in signals.as_slice() {
            places.push_reserved(*signal);
        }
        List::from_vec(places)
    }
}
