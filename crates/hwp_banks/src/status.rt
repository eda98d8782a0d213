ghost use Rattle.std.specs.Prelude.{⊤, ◌≡◌, ◌^◌, ◌%◌, ◌/◌, [], ◌∷◌, codes};

use bitflags::{Flag, Flags, bitflag_items};

/// A status register of a bank, IA32_MCi_STATUS (Intel SDM vol. 3). Bits without a name of their own are kept.
#[derive(Clone, Copy, PartialEq, Eq)]
pub struct Status(pub u64);

bitflag_items! {
    impl Status: u64 {
        /// The register is valid: it holds an event.
        const VAL = 1 << 63;
        /// Overflow: an event came while the bank held one.
        const OVER = 1 << 62;
        /// The error was not corrected by the hardware.
        const UC = 1 << 61;
        /// Reporting of the error is enabled.
        const EN = 1 << 60;
        /// IA32_MCi_MISC holds more about the error.
        const MISCV = 1 << 59;
        /// IA32_MCi_ADDR holds the address of the error.
        const ADDRV = 1 << 58;
        /// Processor context corrupt: the processor cannot go on.
        const PCC = 1 << 57;
        /// Signaling: the error was signaled as a machine check. It has meaning where IA32_MCG_CAP.MCG_SER_P is set.
        const S = 1 << 56;
        /// Action required: software must recover before it goes on. It has meaning where IA32_MCG_CAP.MCG_SER_P is set.
        const AR = 1 << 55;
    }
}

impl Flags for Status {
    type Bits = u64;

    ghost exact = { ⊤ };

    ghost table = { (codes "VAL", 2 ^ 63) ∷ (codes "OVER", 2 ^ 62) ∷ (codes "UC", 2 ^ 61) ∷ (codes "EN", 2 ^ 60) ∷ (codes "MISCV", 2 ^ 59) ∷ (codes "ADDRV", 2 ^ 58) ∷ (codes "PCC", 2 ^ 57) ∷ (codes "S", 2 ^ 56) ∷ (codes "AR", 2 ^ 55) ∷ [] };

    ghost set_of = { λ s. s.0 };

    fn flags<'a>() -> &'a [Flag<Status>] {
        Status::FLAGS
    }

    fn bits(&self) -> u64 {
        self.0
    }

    fn from_bits_retain(bits: u64) -> Status {
        Status(bits)
    }
}

impl Status {
    /// The MCA error code, bits 15:0.
    pub fn error_code(self) -> u16
        ensures { result ≡ self.0 % 2 ^ 16 }
    {
        (self.0 & 0xffff) as u16
    }

    /// The model-specific error code, bits 31:16.
    pub fn model_code(self) -> u16
        ensures { result ≡ self.0 / 2 ^ 16 % 2 ^ 16 }
    {
        (self.0 >> 16 & 0xffff) as u16
    }
}
