ghost use Rattle.std.specs.Prelude.{◌≡◌, ◌↔◌, Bool, true, false, IsErr, OnOk, OnErr};

use std::marker::Model;

/// A machine check came while another was in progress. The processor shuts down (Intel SDM vol. 3).
#[derive(Clone, Copy, PartialEq, Eq)]
pub struct Shutdown;

/// The bit MCIP of IA32_MCG_STATUS: whether a machine check is in progress (Intel SDM vol. 3). Clauses see it as a
/// boolean.
#[derive(Drop)]
pub struct Mcg {
    in_progress: bool,
}

impl Model for Mcg {
    ghost Value = { Bool };

    ghost view = { λ m. m.in_progress };
}

impl Mcg {
    /// No machine check is in progress.
    pub fn new() -> Mcg
        ensures { result ≡ false }
    {
        Mcg { in_progress: false }
    }

    /// A machine check begins. It is refused exactly where one is in progress, and then nothing changes.
    pub fn enter(&mut self) -> Result<(), Shutdown>
        ensures refused { IsErr result ↔ (self.old ≡ true) }
        ensures entered { OnOk result (self.new ≡ true) }
        ensures unchanged { OnErr result (self.new ≡ self.old) }
    {
        if self.in_progress {
            return Err(Shutdown);
        }
        self.in_progress = true;
        Ok(())
    }

    /// The machine check ends.
    pub fn leave(&mut self)
        ensures { self.new ≡ false }
    {
        self.in_progress = false;
    }
}
