ghost use Rattle.std.specs.Prelude.{◌≡◌};
ghost use Rattle.hwp_table_words.specs.tlb.Words.{entry_reading, entry_word_of, is_of};

use hwp_core_rule::{Frame, VSlot};

/// The word of an entry of a translation cache (this project's rule).
#[derive(Clone, Copy)]
pub struct EntryWord {
    /// Bits 0 to 19: a translation, as its number plus 1; bits 20 to 39: the frame that it leads to, as its number plus 1.
    /// None where either is 0.
    pub to: Option<(VSlot, Frame)>,
}

impl EntryWord {
    /// The word of this entry.
    pub fn pack(self) -> u64
        ensures word { result ≡ entry_word_of self }
        ensures back { entry_reading result ≡ self }
    {
        match self.to {
            Some((slot, frame)) => u64::from(slot.0) + 1 + ((u64::from(frame.0) + 1) << 20),
            None => 0,
        }
    }

    /// What a word says. Of a translation or a frame that is no number of 16 bits it keeps the low bits.
    pub fn unpack(word: u64) -> EntryWord
        ensures { result ≡ entry_reading word }
    {
        let slot = word % (1 << 20);
        let frame = (word >> 20) % (1 << 20);
        if slot == 0 || frame == 0 {
            return EntryWord { to: None };
        }
        let to = (
            VSlot(((slot - 1) % 65536) as u16),
            Frame(((frame - 1) % 65536) as u16),
        );
        EntryWord { to: Some(to) }
    }

    /// Whether the entry names the frame.
    pub fn names(word: u64, frame: Frame) -> bool
        ensures { result ≡ is_of frame.0 word }
    {
        word >> 20 == u64::from(frame.0) + 1
    }
}
