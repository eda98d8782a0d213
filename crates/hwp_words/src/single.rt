ghost use Rattle.std.specs.Prelude.{◌≡◌, ◌↔◌, IsNone, MatchOption};
ghost use Rattle.std.specs.Int.{from_bool};
ghost use Rattle.hwp_kill.specs.hwp_geom.Bits.{HasNoBitFrom, IsLowestBit};
ghost use Rattle.hwp_words.specs.Frames.{is_locked};
ghost use Rattle.hwp_words.specs.Names.{frame_name, frame_named, page_name, page_named};

use crate::field::field;
use crate::names::{frame_name, frame_named, page_name, page_named};
use hwp_kill::{Frame, Line, Mask, Page, lowest_bit};

/// The word of a page (this project's rule).
#[derive(Clone, Copy, PartialEq, Eq)]
pub struct PageWord {
    /// Bit 0: a processor works on the page.
    pub locked: bool,
}

impl PageWord {
    /// The word of this value.
    pub fn pack(self) -> u64
        ensures word { result ≡ from_bool self.locked }
        ensures back { is_locked result ≡ self.locked }
    {
        u64::from(self.locked)
    }

    /// What a word says.
    pub fn unpack(word: u64) -> PageWord
        ensures { result.locked ≡ is_locked word }
    {
        PageWord {
            locked: field(word, 0, 1) == 1,
        }
    }
}

/// The cache word of a page: the frame that has the page's content (Linux's page cache and swap cache; the form is this
/// project's rule).
#[derive(Clone, Copy, PartialEq, Eq)]
pub struct CacheWord {
    /// The whole word: the frame's number plus 1, or 0.
    pub frame: Option<Frame>,
}

impl CacheWord {
    /// The word of this value.
    pub fn pack(self) -> u64
        ensures word { result ≡ frame_name self.frame }
        ensures back { frame_named result ≡ self.frame }
    {
        frame_name(self.frame)
    }

    /// What a word says. Of a frame that is no frame number (16 bits) it keeps the low bits.
    pub fn unpack(word: u64) -> CacheWord
        ensures { result.frame ≡ frame_named word }
    {
        CacheWord {
            frame: frame_named(word),
        }
    }
}

/// The word of a process (this project's rule).
#[derive(Clone, Copy, PartialEq, Eq)]
pub struct ProcessWord {
    /// The whole word: the page of the signal that ended the process, as its number plus 1, or 0.
    pub ended_by: Option<Page>,
}

impl ProcessWord {
    /// The word of this value.
    pub fn pack(self) -> u64
        ensures word { result ≡ page_name self.ended_by }
        ensures back { page_named result ≡ self.ended_by }
    {
        page_name(self.ended_by)
    }

    /// What a word says. Of a page that is no page number (16 bits) it keeps the low bits.
    pub fn unpack(word: u64) -> ProcessWord
        ensures { result.ended_by ≡ page_named word }
    {
        ProcessWord {
            ended_by: page_named(word),
        }
    }
}

/// A word of the free frames, one for each 64 frames (this project's rule).
#[derive(Clone, Copy, PartialEq, Eq)]
pub struct FreeWord {
    /// Bit `n` of word `k`: frame `64 * k + n` is free.
    pub frames: u64,
}

impl FreeWord {
    /// The word of this value.
    pub fn pack(self) -> u64
        ensures { result ≡ self.frames }
    {
        self.frames
    }

    /// What a word says.
    pub fn unpack(word: u64) -> FreeWord
        ensures { result.frames ≡ word }
    {
        FreeWord { frames: word }
    }

    /// The place in the word of its lowest free frame. It is `None` exactly where none of the 64 is free.
    pub fn lowest(self) -> Option<u32>
        ensures none { IsNone result ↔ (self.frames ≡ 0) }
        ensures lowest { MatchOption result (HasNoBitFrom self.frames 0) (IsLowestBit self.frames 0) }
    {
        lowest_bit(self.frames, 0)
    }
}

/// The word of the free frames that nobody has reserved (this project's rule).
#[derive(Clone, Copy, PartialEq, Eq)]
pub struct AvailableWord {
    /// The whole word: how many they are.
    pub frames: u64,
}

impl AvailableWord {
    /// The word of this value.
    pub fn pack(self) -> u64
        ensures { result ≡ self.frames }
    {
        self.frames
    }

    /// What a word says.
    pub fn unpack(word: u64) -> AvailableWord
        ensures { result.frames ≡ word }
    {
        AvailableWord { frames: word }
    }
}

/// The word of a frame's damaged lines: bad ones in one word, weak ones in another (this project's rule).
#[derive(Clone, Copy, PartialEq, Eq)]
pub struct DamageWord {
    /// Bit `n`: line `n` is damaged.
    pub lines: Mask,
}

impl DamageWord {
    /// The word of this value.
    pub fn pack(self) -> u64
        ensures { result ≡ self.lines.0 }
    {
        self.lines.0
    }

    /// What a word says.
    pub fn unpack(word: u64) -> DamageWord
        ensures { result.lines.0 ≡ word }
    {
        DamageWord { lines: Mask(word) }
    }

    /// The lowest damaged line. It is `None` exactly where no line is damaged.
    pub fn lowest(self) -> Option<Line>
        ensures none { IsNone result ↔ (self.lines.0 ≡ 0) }
        ensures lowest { MatchOption result (HasNoBitFrom self.lines.0 0) (λ line. IsLowestBit self.lines.0 0 line) }
    {
        match lowest_bit(self.lines.0, 0) {
            Some(n) => Line::new(n as u8),
            None => None,
        }
    }
}

/// The word of a file: how many of its dirty pages were lost so far, of which fsync(2) tells what is new to its processor (as the
/// `errseq_t` of a Linux mapping; the form is this project's rule).
#[derive(Clone, Copy, PartialEq, Eq)]
pub struct LossWord {
    /// The whole word: the dirty pages lost so far. It never falls.
    pub lost: u64,
}

impl LossWord {
    /// The word of this value.
    pub fn pack(self) -> u64
        ensures { result ≡ self.lost }
    {
        self.lost
    }

    /// What a word says.
    pub fn unpack(word: u64) -> LossWord
        ensures { result.lost ≡ word }
    {
        LossWord { lost: word }
    }
}
