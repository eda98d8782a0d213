ghost use Rattle.std.specs.Prelude.{◌≡◌};
ghost use Rattle.hwp_scrub.specs.Logs.{answer, begin, changed};

use hwp_claim::{BANKS, Bank, Body, Event, Layout, Ranked, Scheduled, Step, Task, Turn, Who};
use hwp_cpu_control::{ReadStop, ReadStopAnswer};
use std::mem;
use std::snapshot::Snapshot;

/// The bank of a raw event (this project's rule).
const RAW_BANK: usize = 1;

/// What a command changes of its own processor alone (this project's rule).
#[derive(Clone, Copy)]
pub enum LocalChange {
    /// A raw event is logged into a bank.
    Event(Event),
    /// The processor gets a new collector of corrected errors, of this threshold and window.
    Watch { threshold: u16, window: u8 },
}

/// A command that changes something of its own processor alone, unless the machine has stopped (this project's rule).
#[derive(Drop)]
pub struct Log {
    read: ReadStop,
    change: LocalChange,
    /// What the banks held at the beginning.
    before: Snapshot<[Bank; BANKS]>,
    banks: [Bank; BANKS],
}

impl Log {
    /// The command at its beginning, by a processor whose banks hold this.
    pub fn new(who: Who, change: LocalChange, banks: [Bank; BANKS]) -> Log
        ensures { result ≡ begin who change banks }
    {
        Log {
            read: ReadStop::new(who),
            change,
            before: Snapshot::of(&banks),
            banks,
        }
    }

    /// What it changes, unless the machine has stopped.
    pub fn change(&self) -> LocalChange
        ensures { result ≡ self.now.change }
    {
        self.change
    }

    /// Whether the change is made; `None` until the task is over.
    pub fn answer(&self) -> Option<ReadStopAnswer>
        ensures { result ≡ answer self.now }
    {
        self.read.answer()
    }

    /// Its processor has its banks back, once it is over.
    pub fn finish(&mut self, banks: &mut [Bank; BANKS])
        ensures { banks.new ≡ self.old.banks }
    {
        mem::swap(banks, &mut self.banks);
    }

    /// The event is logged, where the change is one.
    fn log(&mut self)
        ensures { self.new ≡ record self.old { banks = changed self.old.change self.old.banks } }
    {
        if let LocalChange::Event(event) = self.change {
            self.banks[RAW_BANK].log(event);
        }
    }
}

impl Task for Log {
    ghost use Rattle.hwp_scrub.specs.Logs as logs;

    ghost task = { logs.task };

    fn who(&self) -> Who {
        self.read.who()
    }

    fn plan(&self) -> Option<Step> {
        self.read.plan()
    }

    fn give(&mut self) -> Option<Body> {
        None
    }

    fn settle(&mut self, layout: &Layout, found: u64, body: Option<Body>) -> Turn {
        if self.read.answer().is_some() {
            return Turn::Moved;
        }
        let turn = self.read.settle(layout, found, body);
        if let Some(ReadStopAnswer::Done) = self.read.answer() {
            self.log();
        }
        turn
    }
}

impl Ranked for Log {
    fn class(&self) -> u8 {
        4
    }

    fn ranked() {}
}

impl Scheduled for Log {
    fn tells() {}
}
