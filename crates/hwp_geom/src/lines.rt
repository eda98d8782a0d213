ghost use Rattle.std.specs.Prelude.{◌≡◌, ℕ, List, length, slice_index, slice_set, replicate};
ghost use Rattle.hwp_geom.specs.Limits.{line_limit};

use crate::line::{LINES, Line};
use std::marker::Model;

/// The content of a page: one 64-bit word for each of its 64 lines. Clauses see it as the list of them.
#[derive(Drop)]
pub struct Lines {
    words: [u64; LINES],
}

impl Model for Lines {
    ghost Value = { List ℕ };

    ghost view = { λ l. l.words };
}

impl Lines {
    /// The same word on every line.
    pub fn filled(x: u64) -> Lines
        ensures { result ≡ replicate line_limit x }
    {
        Lines { words: [x; LINES] }
    }

    /// The word of a line.
    pub fn get(&self, line: Line) -> u64
        ensures word { result ≡ slice_index self.now line }
        ensures whole { length self.now ≡ line_limit }
    {
        self.words[usize::from(line.get())]
    }

    /// Puts a word on a line.
    pub fn set(&mut self, line: Line, x: u64)
        ensures word { self.new ≡ slice_set self.old line x }
        ensures whole { length self.old ≡ line_limit }
    {
        self.words[usize::from(line.get())] = x;
    }

    /// The same content once more.
    pub fn copy(&self) -> Lines
        ensures { result ≡ self.now }
    {
        Lines { words: self.words }
    }
}
