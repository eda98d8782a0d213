ghost use Rattle.std.specs.Prelude.{◌≡◌, ◌&&◌, ◌==◌, false, get_or, is_some, vec_len, IfOk, IsOk, slice_get, slice_set};
ghost use Rattle.std.specs.List.{list_any};
ghost use Rattle.std.specs.Option.{option_map_or};
ghost use Rattle.hwp_claim.specs.hwp_law.Cows.{own_page, twin_or};
ghost use Rattle.hwp_claim.specs.hwp_script_words.Forks.{freezes};
ghost use Rattle.hwp_cpu_row.specs.CowLists.{acting_in, copied_by, copied_in, cow_in, first_cows, freezes_at, frozen_by, frozen_from, frozen_in, switched_by, switched_in, through_in, told_in, written_in};

use hwp_claim::{Answer, Command, Layout, OutOfMemory, Page, Proc, Thread, VSlot};
use std::alloc::Global;
use std::marker::Model;

/// Of a translation, whether a fork of its processor froze it, and whether it has gone over to its twin since (this project's rule).
#[derive(Clone, Copy)]
pub struct Cow {
    pub frozen: bool,
    pub switched: bool,
}

impl Model for Cow {
    ghost use Rattle.hwp_claim.specs.hwp_law.Cows.{Cow as LawCow};

    ghost Value = { LawCow };

    ghost view = { λ c. record { frozen = c.frozen; switched = c.switched } };

    ghost inverse = { λ c. record { frozen = c.frozen; switched = c.switched } };
}

/// What no fork froze.
const OWN_PAGE: Cow = Cow {
    frozen: false,
    switched: false,
};

/// Of each translation whether it is frozen and switched. Where no translation has a twin the list is empty, and takes no memory. Clauses
/// see the list.
#[derive(Drop)]
pub struct Cows {
    slots: Vec<Cow>,
}

impl Model for Cows {
    ghost use Rattle.std.specs.Prelude.{List};
    ghost use Rattle.hwp_claim.specs.hwp_law.Cows.{Cow as LawCow};

    ghost Value = { List LawCow };

    ghost view = { λ c. c.slots.items };
}

impl Cows {
    /// At first nothing is frozen. It takes no memory where no translation has a twin.
    ///
    /// # Errors
    /// `OutOfMemory` where a translation has a twin, and there is no room.
    pub fn new(alloc: Global, layout: &Layout) -> Result<Cows, OutOfMemory>
        ensures first { IfOk result (λ c. c ≡ first_cows layout.now) }
        ensures untwinned { list_any is_some layout.now.twins ≡ false → IsOk result }
    {
        if !has_twins(layout) {
            return Ok(Cows {
                slots: Vec::new(alloc),
            });
        }
        let slots = vec![in alloc; OWN_PAGE; layout.trans.len()]?;
        Ok(Cows { slots })
    }

    /// What it is of the translation. What the list doesn't hold has its own page.
    fn of(&self, slot: VSlot) -> Cow
        ensures { result ≡ cow_in self.now slot }
    {
        match self.slots.get(usize::from(slot.0)) {
            Some(cow) => *cow,
            None => OWN_PAGE,
        }
    }

    /// The translation that stands for this one: its twin, once it has gone over.
    fn through(&self, layout: &Layout, slot: VSlot) -> VSlot
        ensures { result ≡ through_in layout.now self.now slot }
    {
        if self.of(slot).switched {
            twin_or(layout, slot)
        } else {
            slot
        }
    }

    /// The translation that a store through this one writes through: the twin of a frozen one.
    fn written_through(&self, layout: &Layout, slot: VSlot) -> VSlot
        ensures { result ≡ written_in layout.now self.now slot }
    {
        if self.of(slot).frozen {
            twin_or(layout, slot)
        } else {
            slot
        }
    }

    /// The command that the processor acts on: the script's, with the twin in the place of a translation that has gone over to it, and in
    /// that of each frozen translation which it stores through.
    pub fn acting(&self, layout: &Layout, command: &Command) -> Command
        ensures { result ≡ acting_in layout.now self.now command.now }
    {
        match *command {
            Command::Load { thread, slot, line } => Command::Load {
                thread,
                slot: self.through(layout, slot),
                line,
            },
            Command::Fetch { thread, slot, line } => Command::Fetch {
                thread,
                slot: self.through(layout, slot),
                line,
            },
            Command::KLoad { thread, slot, line } => Command::KLoad {
                thread,
                slot: self.through(layout, slot),
                line,
            },
            Command::Store {
                thread,
                slot,
                line,
                word,
            } => Command::Store {
                thread,
                slot: self.written_through(layout, slot),
                line,
                word,
            },
            Command::Free { slot } => Command::Free {
                slot: self.through(layout, slot),
            },
            _ => *command,
        }
    }

    /// The translation whose page a store copies before it writes: a frozen one that hasn't gone over yet.
    pub fn copied_from(&self, command: &Command) -> Option<VSlot>
        ensures { result ≡ copied_in self.now command.now }
    {
        match *command {
            Command::Store { slot, .. } => self.copied(slot),
            _ => None,
        }
    }

    /// The same of a store through the translation.
    fn copied(&self, slot: VSlot) -> Option<VSlot>
        ensures { result ≡ copied_by self.now slot }
    {
        let cow = self.of(slot);
        if cow.frozen && !cow.switched {
            Some(slot)
        } else {
            None
        }
    }

    /// The command got this answer: a fork that was done freezes each translation of the pages that it shares, and the first store through
    /// a frozen one that was stored switches it.
    pub fn told(&mut self, layout: &Layout, command: &Command, answer: Answer)
        ensures { self.new ≡ told_in layout.now command.now answer self.old }
    {
        match answer {
            Answer::Done => self.forked(layout, command),
            Answer::Stored(_) => self.stored(command),
            _ => {}
        }
    }

    /// The same of a fork that was done; another command changes nothing.
    fn forked(&mut self, layout: &Layout, command: &Command)
        ensures { self.new ≡ frozen_in layout.now command.now self.old }
    {
        if let Command::Fork { thread, .. } = *command {
            freeze(layout, thread, &mut self.slots);
        }
    }

    /// The same of a store that was made; another command changes nothing.
    fn stored(&mut self, command: &Command)
        ensures { self.new ≡ switched_in command.now self.old }
    {
        if let Command::Store { slot, .. } = *command {
            switch(&mut self.slots, usize::from(slot.0));
        }
    }
}

/// A fork by the thread freezes each translation of the pages that its process shares.
fn freeze(layout: &Layout, thread: Thread, cows: &mut Vec<Cow>)
    ensures { cows.new.items ≡ frozen_from layout.now thread 0 cows.old.items }
{
    for number in 0..cows.len() {
        let freezes = freezes_slot(layout, thread, number);
        freeze_one(cows, number, freezes);
    }
}

/// The same of one translation, if the fork freezes it.
fn freeze_one(cows: &mut Vec<Cow>, number: usize, freezes: bool)
    ensures items { cows.new.items ≡ slice_set cows.old.items number (frozen_by freezes (get_or cows.old.items number own_page)) }
    ensures len { vec_len cows.new ≡ vec_len cows.old }
{
    if number < cows.len() {
        let cow = cows[number];
        cows[number] = Cow {
            frozen: cow.frozen || freezes,
            switched: cow.switched,
        };
    }
}

/// A store through the translation of this number was made: one that is frozen has gone over to its twin.
fn switch(cows: &mut Vec<Cow>, number: usize)
    ensures { cows.new.items ≡ slice_set cows.old.items number (switched_by (get_or cows.old.items number own_page)) }
{
    if number < cows.len() {
        let cow = cows[number];
        cows[number] = Cow {
            frozen: cow.frozen,
            switched: cow.switched || cow.frozen,
        };
    }
}

/// Whether a translation has a twin.
fn has_twins(layout: &Layout) -> bool
    ensures { result ≡ list_any is_some layout.now.twins }
{
    layout.twins.as_slice().iter().any(|twin| twin.is_some())
}

/// The translation's twin, or itself where it has none.
fn twin_or(layout: &Layout, slot: VSlot) -> VSlot
    ensures { result ≡ twin_or layout.now slot }
{
    match layout.twin_of(slot) {
        Some(twin) => twin,
        None => slot,
    }
}

/// Whether a fork by the thread freezes the translation of this number.
fn freezes_slot(layout: &Layout, thread: Thread, number: usize) -> bool
    ensures { result ≡ freezes_at layout.now thread number }
{
    match layout.trans.as_slice().get(number) {
        Some(slot) => freezes_page(layout, thread, slot.page),
        None => false,
    }
}

/// Whether a fork by the thread freezes the page.
fn freezes_page(layout: &Layout, thread: Thread, page: Page) -> bool
    ensures { result ≡ option_map_or (λ t. freezes layout.now t.process.0 page.0) (slice_get layout.now.threads thread.0) false }
{
    match layout.threads.as_slice().get(usize::from(thread.0)) {
        Some(declared) => freezes(layout, declared.process, page),
        None => false,
    }
}

/// Whether a fork of the process freezes the page: a translation of the process that has a twin leads to it.
fn freezes(layout: &Layout, process: Proc, page: Page) -> bool
    ensures { result ≡ freezes layout.now process.0 page.0 }
{
    let trans = layout.trans.as_slice();
    let twins = layout.twins.as_slice();
    trans.iter().zip(twins).any(|(slot, twin)| has_twin(process, slot.process, *twin)
        && slot.page.0 == page.0)
}

/// Whether a translation of its own process, with this twin, is one of the process that has a twin.
fn has_twin(process: Proc, own: Proc, twin: Option<VSlot>) -> bool
    ensures { result ≡ (own.0 == process.0) && is_some twin }
{
    own.0 == process.0 && twin.is_some()
}
