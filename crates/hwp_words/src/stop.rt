ghost use Rattle.std.specs.Prelude.{◌≡◌, ◌<◌, IfSome};
ghost use Rattle.hwp_words.specs.Stops.{is_stopped, stop_reading, stop_word};

use crate::field::field;
use crate::names::{cpu_name, cpu_named};
use hwp_kill::Cpu;

/// The word that stops the machine (this project's rule).
#[derive(Clone, Copy, PartialEq, Eq)]
pub struct StopWord {
    /// Bits 0 to 7: the processor that stopped the machine, as its number plus 1, or 0.
    pub cpu: Option<Cpu>,
    /// Bit 63: a processor has given up because memory ran out.
    pub no_memory: bool,
}

impl StopWord {
    /// The word of these values.
    pub fn pack(self) -> u64
        requires cpu { IfSome self.cpu (λ cpu. cpu.0 < 255) }
        ensures word { result ≡ stop_word self }
        ensures back { stop_reading result ≡ self }
    {
        cpu_name(self.cpu) + (u64::from(self.no_memory) << 63)
    }

    /// What a word says.
    pub fn unpack(word: u64) -> StopWord
        ensures { result ≡ stop_reading word }
    {
        StopWord {
            cpu: cpu_named(field(word, 0, 8)),
            no_memory: field(word, 63, 1) == 1,
        }
    }
}

/// Whether a stop word says that a processor stopped the machine.
pub fn is_stopped(word: u64) -> bool
    ensures { result ≡ is_stopped word }
{
    field(word, 0, 8) != 0
}
