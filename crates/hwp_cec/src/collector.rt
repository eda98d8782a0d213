ghost use Rattle.std.specs.Prelude.{◌≡◌, ◌<◌, ◌≤◌, ◌+◌, [], ◌∷◌, ◌++◌, List, IfOk, length, sum};
ghost use Rattle.hwp_cec.specs.Limits.{threshold_limit, window_limit};
ghost use Rattle.hwp_cec.specs.Ages.{CecEvent, Note, Round, live};
ghost use Rattle.hwp_cec.specs.Counting.{counted};
ghost use Rattle.hwp_cec.specs.Counters.{Counters, StandsFor, IsCounted, begun, row_of, noted_in, rounded, answer};

use crate::ring::Ring;
use hwp_geom::{Frame, OutOfMemory};
use std::alloc::Global;
use std::marker::Model;

/// The highest threshold of a collector (this project's rule).
pub const MAX_THRESHOLD: u16 = 1000;

/// What a collector answers to a note.
#[derive(Clone, Copy, PartialEq, Eq)]
pub enum Noted {
    /// The frame has so many notes in the window, with this one: fewer than the threshold.
    Counted(u16),
    /// With this note the frame has come to the threshold. It is to be taken out of use, and its notes are forgotten.
    Offline,
}

/// The corrected errors of each frame, counted by rounds. Clauses see the counts. They stand for the events so far, the notes and the
/// rounds: a new collector stands for none, and `note` and `round` add theirs.
#[derive(Drop)]
pub struct Collector {
    threshold: u16,
    window: u8,
    rings: Vec<Ring>,
}

impl Model for Collector {
    ghost use Rattle.hwp_cec.specs.Counters.{Counters, IsCounted};

    ghost Value = { Counters };

    ghost view = { λ c. record { threshold = c.threshold; window = c.window; counts = c.rings.items } };

    ghost invariant = { λ c. IsCounted (record { threshold = c.threshold; window = c.window; counts = c.rings.items }) };
}

impl Collector {
    /// A collector for frames 0 to `frames - 1`, which has no note yet. The note that makes `threshold` within the last `window` rounds
    /// is answered `Offline`.
    ///
    /// # Errors
    /// `OutOfMemory` where there is none.
    pub fn new(
        alloc: Global,
        threshold: u16,
        window: u8,
        frames: u16,
    ) -> Result<Collector, OutOfMemory>
        requires some { 1 ≤ threshold }
        requires within { threshold ≤ threshold_limit }
        requires some_rounds { 1 ≤ window }
        requires rounds_within { window ≤ window_limit }
        ensures begun { IfOk result (λ c. c ≡ begun threshold window frames) }
        ensures stands { IfOk result (λ c. StandsFor [] c) }
    {
        let mut rings = Vec::with_capacity(alloc, usize::from(frames))?;
        for _ in 0..frames {
            rings.push_reserved(Ring::new(window));
        }
        Ok(Collector {
            threshold,
            window,
            rings,
        })
    }

    /// Begins anew, with this threshold and window: for the same frames, without a note. It takes no memory.
    pub fn restart(&mut self, threshold: u16, window: u8)
        requires some { 1 ≤ threshold }
        requires within { threshold ≤ threshold_limit }
        requires some_rounds { 1 ≤ window }
        requires rounds_within { window ≤ window_limit }
        ensures begun { self.new ≡ begun threshold window (length self.old.counts) }
        ensures stands { StandsFor [] self.new }
    {
        self.threshold = threshold;
        self.window = window;
        for ring in self.rings.iter_mut() {
            *ring = Ring::new(window);
        }
    }

    /// Takes a note of a corrected error in a frame. It asks for no memory.
    pub fn note(&mut self, frame: Frame) -> Noted
        requires { frame.0 < length self.old.counts }
        ensures counts { self.new ≡ noted_in self.old frame.0 }

        // Whatever events the collector stood for, it stands for them and this note,
        ensures stands { (events : List CecEvent) → StandsFor events self.old → StandsFor (events ++ Note frame ∷ []) self.new }
        // and answers by the notes that are in the window, by their ages
        ensures live { (events : List CecEvent) → StandsFor events self.old → result ≡ answer self.old.threshold (live self.old.threshold self.old.window events frame.0) }
        // or, which is the same, counted from scratch.
        ensures counted { (events : List CecEvent) → StandsFor events self.old → result ≡ answer self.old.threshold (counted self.old.threshold self.old.window events frame) }
    {
        self.tally(frame)
    }

    /// Counts the note, or forgets the frame's notes where it is the one that makes the threshold.
    fn tally(&mut self, frame: Frame) -> Noted
        requires { frame.0 < length self.old.counts }
        ensures counts { self.new ≡ noted_in self.old frame.0 }
        ensures answer { result ≡ answer self.old.threshold (sum (row_of self.old frame.0) + 1) }
        ensures counted { IsCounted self.old }
    {
        let ring = &mut self.rings[usize::from(frame.0)];
        let count = ring.total() + 1;
        if count == self.threshold {
            ring.clear();
            return Noted::Offline;
        }
        ring.add();
        Noted::Counted(count)
    }

    /// Ends the current round: the next one begins, and the oldest falls out of the window.
    pub fn round(&mut self)
        ensures counts { self.new ≡ rounded self.old }
        ensures stands { (events : List CecEvent) → StandsFor events self.old → StandsFor (events ++ Round ∷ []) self.new }
    {
        for ring in self.rings.iter_mut() {
            ring.turn();
        }
    }
}
