ghost use Rattle.std.specs.Prelude.{◌≡◌, ℕ, ◌<◌, ◌↔◌, IsSome, IfSome};
ghost use Rattle.hwp_geom.specs.Limits.{line_limit};

use std::marker::Model;

/// How many lines a frame and a page have (this project's rule).
pub const LINES: usize = 64;

/// A line of a frame or a page, 0 to 63.
#[derive(Clone, Copy, PartialEq, Eq)]
pub struct Line(u8);

impl Model for Line {
    ghost Value = { ℕ };

    ghost view = { λ l. l.0 };

    ghost invariant = { λ l. l.0 < 64 };

    ghost inverse = { λ n. record { 0 = n } };
}

impl Line {
    /// The line of this number. It is `None` exactly where the number is 64 or more.
    pub fn new(n: u8) -> Option<Line>
        ensures range { IsSome result ↔ (n < line_limit) }
        ensures value { IfSome result (λ line. line ≡ n) }
    {
        if usize::from(n) < LINES {
            Some(Line(n))
        } else {
            None
        }
    }

    /// The number of the line.
    pub fn get(self) -> u8
        ensures value { result ≡ self }
        ensures below { result < line_limit }
    {
        self.0
    }
}
