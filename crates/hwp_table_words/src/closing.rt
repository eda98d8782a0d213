ghost use Rattle.std.specs.Prelude.{◌≡◌, ◌<◌, ◌≤◌, ℕ, [], false, length, map, take, slice_index_or, vec_capacity, vec_len, IfErr, IfOk};
ghost use Rattle.std.specs.Slots.{slots_items, slots_filled, slots_len, IsFull};
ghost use Rattle.hwp_plain.specs.Openings.{home_with};
ghost use Rattle.hwp_plain.specs.Ends.{IsMachineOf};
ghost use Rattle.hwp_table_words.specs.Ends.{HasAll, IsEnd};
ghost use Rattle.hwp_table_words.specs.Order.{in_rule};
ghost use Rattle.hwp_table_words.specs.Seats.{IsTableOf};

use crate::plays::{Pass, Slot, WordTable};
use crate::ways::Ways;
use atomic_table::Closed;
use hwp_core_rule::{Layout, OutOfMemory};
use hwp_plain::{Machine, machine_of};
use std::alloc::Global;
use std::marker::Model;
use std::snapshot::Snapshot;

/// What a table came to: the machine's words; and, for clauses, the bodies that were in its slots, what its last seat knew,
/// and the words of the translation caches. That moves of the frame rule led to them from the opening stands in its type.
/// Only `close` makes one.
#[derive(Drop)]
pub struct Ended<W: Ways> {
    words: Vec<u64>,
    slots: Snapshot<Vec<Slot>>,
    table: Snapshot<WordTable<W>>,
    pass: Snapshot<Pass>,
    closed: Snapshot<Closed<Slot, Global>>,
}

impl<W: Ways> Model for Ended<W> {
    ghost use Rattle.std.specs.Slots.{slots_items};
    ghost use Rattle.hwp_table_words.specs.Ends.{EndValue, IsEnd};
    ghost use Rattle.hwp_table_words.specs.Order.{entries_in};
    ghost use Rattle.hwp_core_rule.specs.hwp_kill.contracts.Slots as sets;
    ghost use Rattle.std.specs.Coded.{codes};

    ghost Value = { EndValue };

    ghost coded = { Prim.hlevel (codes, sets.the_row.coded) };

    ghost view = { λ e. record { layout = e.table.value.shared.key; words = e.words.items; slots = e.slots.value.items; known = e.pass.value.me.0.known; entries = entries_in e.table.value.shared.key (slots_items e.closed.value.words) } };

    ghost invariant = { λ e. IsEnd W.ways e.table.value.shared.key e.pass.value.me.0.known e.words.items e.slots.value.items (entries_in e.table.value.shared.key (slots_items e.closed.value.words)) };
}

impl<W: Ways> Ended<W> {
    /// The words, in the order of the frame rule.
    pub fn words(&self) -> &[u64]
        ensures { result.now ≡ self.now.words }
    {
        self.words.as_slice()
    }

    /// Moves led from the opening to the words and bodies. Proof only: a call tells its clauses.
    pub fn reached(&self)
        ensures { IsEnd W.ways self.now.layout self.now.known self.now.words self.now.slots self.now.entries }
    {
        let _words = &self.words;
    }

    /// What the machine came to, by the bodies that `close` gave beside this.
    pub fn machine(self, layout: &Layout, bodies: Vec<Slot>) -> Result<Machine, OutOfMemory>
        requires layout { self.layout ≡ layout.now }
        requires bodies { self.slots ≡ bodies.items }
        ensures { IfOk result (IsMachineOf self.layout self.words (map home_with self.slots)) }
    {
        let Ended { words, .. } = self;
        machine_of(layout, words, bodies)
    }
}

/// What a table came to whose one seat has the views of all processors again, when nothing is held, and what is in its slots.
///
/// # Errors
/// The table and the seat, as they were, where memory for the words and bodies is refused.
pub fn close<W: Ways>(
    alloc: Global,
    layout: &Layout,
    table: WordTable<W>,
    pass: Pass,
) -> Result<(Ended<W>, Vec<Slot>), (WordTable<W>, Pass)>
    requires table { IsTableOf W.ways layout.now table.shared.table_id × (table.shared.key ≡ layout.now) }
    requires same { pass.table_id ≡ table.shared.table_id }
    requires all { HasAll layout.now pass.me.0.known }
    ensures layout { IfOk result (λ e. e.0.layout ≡ layout.now) }
    ensures known { IfOk result (λ e. e.0.known ≡ pass.me.0.known) }
    ensures slots { IfOk result (λ e. e.0.slots ≡ e.1.items) }
    ensures refused { IfErr result (λ back. (back.0 ≡ table) × (back.1 ≡ pass)) }
{
    let word_count = table.word_count() - W::ways() * usize::from(layout.cpus);
    let Ok(mut words) = Vec::with_capacity(alloc, word_count) else {
        return Err((table, pass));
    };
    let Ok(mut slots) = Vec::with_capacity(alloc, table.slot_count()) else {
        return Err((table, pass));
    };
    let of_table = Snapshot::of(&table);
    let of_pass = Snapshot::of(&pass);
    let mut closed = table.close_with(pass);
    read_words(&closed, word_count, &mut words);
    let of_closed = Snapshot::of(&closed);
    take_slots(&mut closed, &mut slots);
    closed.free();
    let ended = Ended {
        words,
        slots: Snapshot::of(&slots),
        table: of_table,
        pass: of_pass,
        closed: of_closed,
    };
    Ok((ended, slots))
}

/// Reads the machine's words, which are so many, the stop word last.
fn read_words(closed: &Closed<Slot, Global>, count: usize, words: &mut Vec<u64>)
    requires full { IsFull closed.now.words × (count ≤ slots_len closed.now.words) × (0 < count) }
    requires room { (words.old.items ≡ []) × (vec_len words.old ≡ 0) × (count ≤ vec_capacity words.old) }
    ensures { words.new.items ≡ in_rule (take count (slots_items closed.now.words)) }
{
    let mut next = 1;
    while next < count {
        words.push_reserved(closed.word(next));
        next += 1;
    }
    words.push_reserved(closed.word(0));
}

/// Takes what is in all slots.
fn take_slots(closed: &mut Closed<Slot, Global>, slots: &mut Vec<Slot>)
    requires full { IsFull closed.old.slots }
    requires room { (slots.old.items ≡ []) × (vec_len slots.old ≡ 0) × (slots_len closed.old.slots ≤ vec_capacity slots.old) }
    ensures taken { slots.new.items ≡ slots_items closed.old.slots }
    ensures empty { (k : ℕ) → k < slots_len closed.new.slots → slice_index_or (slots_filled closed.new.slots) k false ≡ false }
{
    let mut next = 0;
    while next < closed.slot_count() {
        slots.push_reserved(closed.take(next));
        next += 1;
    }
}
