/// The word of the two counts of memory failures (this project's rule). `poisoned` may be negative for a while: a frame's
/// poison can be cleared before the failure that set it has counted it. So the word is `hardware * 2^32 + poisoned`
/// modulo 2^64.
#[derive(Clone, Copy, PartialEq, Eq)]
pub struct CounterWord {
    /// Bits 32 to 63: the failures that a bank reported.
    pub hardware: u32,
    /// Bits 0 to 31: the frames that are counted as poisoned (Linux `num_poisoned_pages`).
    pub poisoned: i32,
}

impl CounterWord {
    ghost use Rattle.std.specs.Prelude.{◌≡◌};
    ghost use Rattle.hwp_words.specs.Counters.{counter_reading, counter_word};

    /// The word of these counts.
    pub fn pack(self) -> u64
        ensures word { result ≡ counter_word self }
        ensures back { counter_reading result ≡ self }
    {
        (u64::from(self.hardware) << 32).wrapping_add(i64::from(self.poisoned).cast_unsigned())
    }

    /// What a word says.
    pub fn unpack(word: u64) -> CounterWord
        ensures value { result ≡ counter_reading word }
        ensures back { counter_word result ≡ word }
    {
        CounterWord {
            hardware: (word.wrapping_add(1 << 31) >> 32) as u32,
            poisoned: ((word % (1 << 32)) as u32).cast_signed(),
        }
    }
}
