use crate::field::field;
use crate::names::{frame_name, frame_named};
use hwp_kill::Frame;

/// The word of a translation, a page-table entry (this project's rule).
#[derive(Clone, Copy, PartialEq, Eq)]
pub enum Pte {
    /// No bit: the translation leads nowhere.
    Empty,
    /// Bits 0 to 19: the frame that the translation leads to, as its number plus 1.
    At(Frame),
    /// Bit 63: the page's memory failed, and an access is signalled (Linux `SWP_HWPOISON`).
    Poison,
}

impl Pte {
    ghost use Rattle.std.specs.Prelude.{◌≡◌};
    ghost use Rattle.hwp_words.specs.Translations.{pte_reading, pte_word};

    /// The word of this entry.
    pub fn pack(self) -> u64
        ensures word { result ≡ pte_word self }
        ensures back { pte_reading result ≡ self }
    {
        match self {
            Pte::Empty => 0,
            Pte::At(frame) => frame_name(Some(frame)),
            Pte::Poison => 1 << 63,
        }
    }

    /// What a word says. Of a frame that is no frame number (16 bits) it keeps the low bits.
    pub fn unpack(word: u64) -> Pte
        ensures { result ≡ pte_reading word }
    {
        if field(word, 63, 1) == 1 {
            return Pte::Poison;
        }
        match frame_named(field(word, 0, 20)) {
            Some(frame) => Pte::At(frame),
            None => Pte::Empty,
        }
    }
}
