ghost use Rattle.std.specs.Prelude.{◌≡◌, ◌<◌, ◌≤◌, ◌+◌, ◌^◌, ◌∷◌, length, slice_index, slice_set, sum, take, replicate};
ghost use Rattle.hwp_cec.specs.Limits.{window_limit};

use std::marker::Model;

/// The most rounds that a collector looks back over, the current one included (this project's rule).
pub const MAX_WINDOW: u8 = 64;

const ROOM: usize = MAX_WINDOW as usize;

/// How many notes of one frame each round of the window had. Clauses see the list of these counts: the current round's first, then
/// those of the rounds before it, one by one.
#[derive(Drop)]
pub struct Ring {
    /// The counts stand in a ring of as many places as the window has rounds.
    counts: [u16; ROOM],
    window: u8,
    /// The place of the current round. The round before it stands at the next place, and the first place follows on the last.
    first: u8,
}

impl Model for Ring {
    ghost use Rattle.std.specs.Prelude.{ℕ, List, ◌<◌, ◌≤◌, take};
    ghost use Rattle.hwp_cec.specs.Limits.{window_limit};
    ghost use Rattle.hwp_cec.specs.Turned.{turned};

    ghost Value = { List ℕ };

    ghost view = { λ r. turned r.first (take r.window r.counts) };

    ghost invariant = { λ r. (r.first < r.window) × (r.window ≤ window_limit) };
}

impl Ring {
    /// The ring of a window in which no round has a note.
    pub fn new(window: u8) -> Ring
        requires some { 1 ≤ window }
        requires within { window ≤ window_limit }
        ensures { result ≡ replicate window 0 }
    {
        Ring {
            counts: [0; ROOM],
            window,
            first: 0,
        }
    }

    /// The notes of all rounds of the window.
    pub fn total(&self) -> u16
        requires { sum self.now < 2 ^ 16 }
        ensures { result ≡ sum self.now }
    {
        sum_of(&self.counts[..usize::from(self.window)])
    }

    /// Counts one more note in the current round.
    pub fn add(&mut self)
        requires { slice_index self.old 0 + 1 < 2 ^ 16 }
        ensures { self.new ≡ slice_set self.old 0 (slice_index self.old 0 + 1) }
    {
        self.counts[usize::from(self.first)] += 1;
    }

    /// Forgets all notes.
    pub fn clear(&mut self)
        ensures { self.new ≡ replicate (length self.old) 0 }
    {
        self.counts = [0; ROOM];
    }

    /// A new round begins, without a note. The oldest round falls out of the window.
    pub fn turn(&mut self)
        ensures { self.new ≡ take (length self.old) (0 ∷ self.old) }
    {
        let behind = if self.first == 0 {
            self.window
        } else {
            self.first
        };
        self.first = behind - 1;
        self.counts[usize::from(self.first)] = 0;
    }
}

fn sum_of(counts: &[u16]) -> u16
    requires { sum counts.now < 2 ^ 16 }
    ensures { result ≡ sum counts.now }
{
    counts.iter().sum()
}
