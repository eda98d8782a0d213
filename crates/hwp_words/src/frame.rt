use crate::field::field;
use crate::names::{page_name, page_named};
use hwp_kill::Page;

/// Bit 0 of a frame word and of a page word (Linux PG_locked).
pub const LOCK: u64 = 1;
/// Bit 1 of a frame word (Linux PG_hwpoison).
pub const POISON: u64 = 2;
/// Bit 2 of a frame word (this project's rule).
pub const HANDLED: u64 = 4;
/// Bit 3 of a frame word (this project's rule).
pub const KERNEL: u64 = 8;
/// One reference in a frame word: the lowest bit of its count (this project's rule).
pub const REFERENCE: u64 = 16;

/// The word of a frame. The fields stand from bit 0 up (this project's rule; the notions are those of Linux's
/// struct page).
#[derive(Clone, Copy, PartialEq, Eq)]
pub struct FrameWord {
    /// Bit 0: a processor works on the frame (Linux PG_locked).
    pub locked: bool,
    /// Bit 1: the memory of the frame failed (Linux PG_hwpoison).
    pub poisoned: bool,
    /// Bit 2: the failure has been handled, and the frame is out of use.
    pub handled: bool,
    /// Bit 3: the frame belongs to the kernel.
    pub kernel: bool,
    /// Bits 4 to 23: the references to the frame (Linux `_refcount`).
    pub count: u32,
    /// Bits 24 to 43: the page whose content the frame has (Linux `mapping`), as its number plus 1, or 0.
    pub owner: Option<Page>,
    /// Bits 44 to 63: how often the frame's poison was cleared.
    pub cycle: u32,
}

impl FrameWord {
    ghost use Rattle.std.specs.Prelude.{◌≡◌, ◌*◌, ◌^◌, ◌<◌, bit_xor};
    ghost use Rattle.hwp_words.specs.Frames.{frame_reading, frame_word};
    ghost use Rattle.hwp_words.specs.Names.{page_name};

    /// The word of these values.
    pub fn pack(self) -> u64
        requires count { self.count < 2 ^ 20 }
        requires cycle { self.cycle < 2 ^ 20 }
        ensures word { result ≡ frame_word self }
        ensures back { frame_reading result ≡ self }
    {
        u64::from(self.locked) * LOCK
            + u64::from(self.poisoned) * POISON
            + u64::from(self.handled) * HANDLED
            + u64::from(self.kernel) * KERNEL
            + u64::from(self.count) * REFERENCE
            + (page_name(self.owner) << 24)
            + (u64::from(self.cycle) << 44)
    }

    /// What a word says. Of an owner that is no page number (16 bits) it keeps the low bits.
    pub fn unpack(word: u64) -> FrameWord
        ensures { result ≡ frame_reading word }
    {
        FrameWord {
            locked: field(word, 0, 1) == 1,
            poisoned: field(word, 1, 1) == 1,
            handled: field(word, 2, 1) == 1,
            kernel: field(word, 3, 1) == 1,
            count: field(word, 4, 20) as u32,
            owner: page_named(field(word, 24, 20)),
            cycle: field(word, 44, 20) as u32,
        }
    }

    /// The bits to turn in a frame's word, by an exclusive or, so that its owner becomes another.
    pub fn owner_change(old: Option<Page>, new: Option<Page>) -> u64
        ensures { result ≡ bit_xor (page_name old) (page_name new) * 2 ^ 24 }
    {
        (page_name(old) ^ page_name(new)) << 24
    }
}
