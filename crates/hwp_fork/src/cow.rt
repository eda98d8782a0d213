ghost use Rattle.std.specs.Prelude.{◌≡◌, ℕ, List, [], ◌∷◌, ◌++◌};
ghost use Rattle.hwp_fork.specs.Cows.{HasTold, begin, due, loading, sub_of, told_at, told_by};

use hwp_geom::{Line, VSlot};

/// One access of a copy, or its end.
#[derive(Clone, Copy, PartialEq, Eq)]
pub enum Sub {
    /// The line is loaded through the translation.
    Load(VSlot, Line),
    /// The word is stored on the line through the translation.
    Store(VSlot, Line, u64),
    /// The translation is freed.
    Free(VSlot),
    /// All are made: the twin has taken the place of the translation.
    Switched,
}

/// A store through a translation whose page is copied first, to that of its twin: the accesses that it takes, one after the other. It
/// makes none itself, and takes no memory.
#[derive(Clone, Copy)]
pub struct Cow {
    v: VSlot,
    w: VSlot,
    line: Line,
    x: u64,
    at: CowAt,
}

/// The access that comes.
#[derive(Clone, Copy)]
enum CowAt {
    /// The line is copied: its load.
    Load(Line),
    /// And the store of the word that was read.
    Store(Line, u64),
    /// All lines are copied: the store that was asked for.
    Last,
    Free,
    Switched,
}

impl Cow {
    /// The copy for a store of `x` on the line, through `v`, whose twin is `w`. No access was made yet.
    pub fn new(v: VSlot, w: VSlot, line: Line, x: u64) -> Cow
        ensures begun { result ≡ begin v w line x }
        ensures none_told { HasTold [] result }
    {
        Cow {
            v,
            w,
            line,
            x,
            at: loading(0),
        }
    }

    /// The access that comes.
    pub fn next(&self) -> Sub
        ensures sub { result ≡ sub_of self.now }

        // It is the one that is due behind those that were told of, by the words that were told.
        ensures due { (told : List ℕ) → HasTold told self.now → result ≡ due self.now told }
    {
        match self.at {
            CowAt::Load(line) => Sub::Load(self.v, line),
            CowAt::Store(line, word) => Sub::Store(self.w, line, word),
            CowAt::Last => Sub::Store(self.w, self.line, self.x),
            CowAt::Free => Sub::Free(self.v),
            CowAt::Switched => Sub::Switched,
        }
    }

    /// The access that came went well. `value` is the word that a load read; of the others it is left out of account.
    pub fn told(&mut self, value: u64)
        ensures next { self.new ≡ told_by self.old value }
        ensures one_more { (told : List ℕ) → HasTold told self.old → HasTold (told ++ value ∷ []) self.new }
    {
        self.at = told_at(self.at, value);
    }
}

/// What comes behind an access that went well.
fn told_at(at: CowAt, value: u64) -> CowAt
    ensures { result ≡ told_at at value }
{
    match at {
        CowAt::Load(line) => CowAt::Store(line, value),
        CowAt::Store(line, _) => loading(line.get() + 1),
        CowAt::Last => CowAt::Free,
        CowAt::Free => CowAt::Switched,
        CowAt::Switched => CowAt::Switched,
    }
}

/// The line of this number is copied; behind the last one, the store that was asked for is made.
fn loading(number: u8) -> CowAt
    ensures { result ≡ loading number }
{
    let Some(line) = Line::new(number) else {
        return CowAt::Last;
    };
    CowAt::Load(line)
}
