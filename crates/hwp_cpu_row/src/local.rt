ghost use Rattle.std.specs.Prelude.{◌≡◌, replicate, slice_set, IfOk};
ghost use Rattle.hwp_cpu_row.specs.Locals.{IsFirst, IsOff, number_in};

use crate::cows::Cows;
use crate::guests::Guests;
use hwp_claim::{BANKS, Bank, Collector, FileNo, Layout, OutOfMemory, no_events};
use std::alloc::Global;
use std::marker::Model;

/// The numbers of a processor's handles. A handle is the pair of a processor and a file (this project's rule), and its number says how
/// many losses of the file the processor has seen; it is 0 at first. Clauses see the list of the numbers, one for each file.
#[derive(Drop)]
pub struct Handles {
    numbers: Vec<u64>,
}

impl Model for Handles {
    ghost use Rattle.std.specs.Prelude.{ℕ, List};

    ghost Value = { List ℕ };

    ghost view = { λ h. h.numbers.items };
}

impl Handles {
    /// The handles of so many files, each with the number 0.
    pub fn new(alloc: Global, files: u8) -> Result<Handles, OutOfMemory>
        ensures { IfOk result (λ h. h ≡ replicate files 0) }
    {
        Ok(Handles {
            numbers: vec![in alloc; 0; usize::from(files)]?,
        })
    }

    /// The number of the file's handle; 0 where there is none.
    pub fn number(&self, file: FileNo) -> u64
        ensures { result ≡ number_in self.now file }
    {
        self.numbers.get(usize::from(file.0)).copied().unwrap_or(0)
    }

    /// Gives the file's handle this number, if there is one.
    pub fn set(&mut self, file: FileNo, number: u64)
        ensures { self.new ≡ slice_set self.old file.0 number }
    {
        let at = usize::from(file.0);
        if at < self.numbers.len() {
            self.numbers[at] = number;
        }
    }
}

/// The collector of a processor that has a `watch` among its commands. Room for it is made at the beginning, and it collects from the
/// first `watch` that is done (this project's rule).
#[derive(Drop)]
pub struct Watching {
    /// What it counts. Its threshold and window are 1 until it collects.
    pub collector: Collector,
    /// Whether it collects.
    pub on: bool,
}

impl Watching {
    /// A collector that doesn't collect yet, with room for frames 0 to `frames - 1`.
    pub fn new(alloc: Global, frames: u16) -> Result<Watching, OutOfMemory>
        ensures { IfOk result (λ w. IsOff frames w) }
    {
        Ok(Watching {
            collector: Collector::new(alloc, 1, 1, frames)?,
            on: false,
        })
    }
}

/// What a processor carries from one command to the next (this project's rule).
#[derive(Drop)]
pub struct Local {
    /// What its banks hold, but for those of a command that runs and has taken what they held.
    pub banks: [Bank; BANKS],
    pub handles: Handles,
    /// Its collector, where it has one and no command that runs has taken it.
    pub watching: Option<Watching>,
    /// Which translations are frozen and switched.
    pub cows: Cows,
    /// What each guest is, where there are guests.
    pub guests: Guests,
}

impl Local {
    /// Nothing is in the banks, the handle of each file of the layout has the number 0, no translation is frozen, and no guest has a bad
    /// frame. If the processor watches, there is room for a collector of the layout's frames, which doesn't collect yet.
    pub fn new(alloc: Global, layout: &Layout, watches: bool) -> Result<Local, OutOfMemory>
        ensures { IfOk result (λ l. IsFirst layout.now watches l) }
    {
        let watching = if watches {
            Some(Watching::new(alloc, layout.frames)?)
        } else {
            None
        };
        Ok(Local {
            banks: no_events(),
            handles: Handles::new(alloc, layout.files)?,
            watching,
            cows: Cows::new(alloc, layout)?,
            guests: Guests::new(alloc, layout)?,
        })
    }
}
