ghost use Rattle.std.specs.Prelude.{◌≡◌, ◌-◌, ◌≤◌, length, OnOk, OnErr};
ghost use Rattle.hwp_banks.specs.Events.{bank_count};
ghost use Rattle.hwp_claim.specs.Lines.{no_lines, with_lines};

use crate::told::EventOutcome;
use hwp_banks::BANKS;
use hwp_claim_frame::{List, OutOfMemory};
use std::alloc::Global;
use std::marker::Model;

/// What the machine checks of a command told so far. Clauses see the room that there is for more beside it.
pub struct ToldLines {
    told: Vec<EventOutcome>,
}

impl Model for ToldLines {
    ghost use Rattle.std.specs.Prelude.{◌-◌, vec_len, vec_capacity};
    ghost use Rattle.hwp_claim.specs.Lines.{LinesValue};

    ghost Value = { LinesValue };

    ghost view = { λ l. record { told = l.told.items; spare = vec_capacity l.told - vec_len l.told } };
}

impl ToldLines {
    /// Nothing is told.
    pub fn new(alloc: Global) -> ToldLines
        ensures { result ≡ no_lines }
    {
        ToldLines {
            told: Vec::new(alloc),
        }
    }

    /// Makes room for what one machine check tells. A refusal changes nothing.
    pub fn room(&mut self) -> Result<(), OutOfMemory>
        ensures ok { OnOk result ((self.new ≡ record self.old { spare = self.new.spare }) × (bank_count ≤ self.new.spare)) }
        ensures err { OnErr result (self.new ≡ self.old) }
    {
        self.told.reserve(BANKS)
    }

    /// What a machine check told. It takes no memory.
    pub fn append(&mut self, more: &[EventOutcome])
        requires { length more.now ≤ self.old.spare }
        ensures { self.new ≡ with_lines self.old more.now }
    {
        for told in more {
            self.told.push_reserved(*told);
        }
    }

    /// All that was told.
    pub fn told(&self) -> &[EventOutcome]
        ensures { result.now ≡ self.now.told }
    {
        self.told.as_slice()
    }

    /// All that was told, as a list.
    pub fn into_list(self) -> List<EventOutcome>
        ensures { result ≡ self.told }
    {
        let ToldLines { told } = self;
        List::from_vec(told)
    }
}

// by hand, since crates above cite what is proved here, and with a derive prove anew how each part goes
impl Drop for ToldLines {
    fn drop(self) {
        let ToldLines { told: _ } = self;
    }
}
