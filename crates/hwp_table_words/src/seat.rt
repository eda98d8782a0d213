ghost use Rattle.std.specs.Prelude.{◌≡◌, [], ◌∷◌};
ghost use Rattle.hwp_core_rule.specs.Calls.{CanMake, Steps, logs, rec_of};
ghost use Rattle.hwp_table_words.specs.CacheCounts.{told_counts};
ghost use Rattle.hwp_table_words.specs.Known.{idling, let_go, note, with_note};
ghost use Rattle.hwp_table_words.specs.Seats.{HasRight, IsTableOf, Moves, cpu_of, mine, mine_of, slots_of, value_of};
ghost use Rattle.hwp_table_words.specs.tlb.Caching.{idle_caching};

use crate::baton::{join, let_go};
use crate::caching::{Filled, follow, look};
use crate::carrying::Order;
use crate::counts::TlbCounts;
use crate::making::one;
use crate::plays::{Pass, Sheet};
use crate::ways::Ways;
use arrayvec::ArrayVec;
use hwp_core_rule::{Body, Layout, Met, Step, Who};
use std::marker::Model;

/// A seat at the table that has the view of one processor, with the slots of its locks, which are empty between its steps.
#[derive(Drop)]
pub struct SeatOps<'a, W: Ways> {
    sheet: &'a Sheet<W>,
    layout: &'a Layout,
    seat: Pass,
    order: Order,
    filled: Filled,
    counts: TlbCounts,
}

impl<'a, W: Ways> Model for SeatOps<'a, W> {
    ghost use Rattle.std.specs.Prelude.{◌*◌};
    ghost use Rattle.hwp_table_words.specs.Seats.{HasCache, IsSeat, SeatValue, mine_of, value_of};
    ghost use Rattle.hwp_table_words.specs.Stands.{first_me};
    ghost use Rattle.hwp_core_rule.specs.hwp_kill.contracts.Slots as sets;
    ghost use Rattle.std.specs.Coded.{codes};

    ghost Value = { SeatValue };

    ghost coded = { Prim.hlevel (codes, sets.the_row.coded) };

    ghost view = { λ s. value_of s.sheet.now.table_id s.layout.now s.seat.me.0 };

    ghost invariant = { λ s. IsSeat W.ways s.layout.now s.sheet.now.key s.sheet.now.table_id s.seat.table_id (first_me s.seat.me) s.order.items × HasCache (W.ways * s.layout.now.cpus) s.counts s.seat.me.0 };
}

impl<'a, W: Ways> SeatOps<'a, W> {
    /// A seat of one processor that carries no slot and lists no lock.
    pub fn new(sheet: &'a Sheet<W>, layout: &'a Layout, pass: Pass) -> SeatOps<'a, W>
        requires table { IsTableOf W.ways layout.now sheet.now.table_id × (sheet.now.key ≡ layout.now) }
        requires same { pass.table_id ≡ sheet.now.table_id }
        requires one { pass.me.0.known.mines ≡ (cpu_of pass.me.0.known.mines, mine_of pass.me.0.known.mines) ∷ [] }
        requires bare { (pass.me.1 ≡ []) × (slots_of layout.now (mine_of pass.me.0.known.mines) ≡ []) }
        requires idle { pass.me.0.caching ≡ idle_caching }
        ensures { result ≡ value_of sheet.now.table_id layout.now pass.me.0 }
    {
        SeatOps {
            sheet,
            layout,
            seat: pass,
            order: ArrayVec::new(),
            filled: [None; 16],
            counts: TlbCounts {
                hits: 0,
                fills: 0,
                flushes: 0,
            },
        }
    }

    /// The token of the seat, which carries no slot where it lists no lock.
    pub fn pass(self) -> Pass
        ensures same { (result.table_id ≡ self.entry.table) × (result.me.0 ≡ record { known = self.entry.known; caching = self.entry.caching }) }
        ensures bare { slots_of self.entry.layout (mine self.entry) ≡ [] → result.me.1 ≡ [] }
    {
        let SeatOps { seat, .. } = self;
        seat
    }

    /// The seat takes the rights that a note has, and what it knows of the whole.
    pub fn gather(&mut self, note: Pass)
        requires same { note.table_id ≡ self.old.table }
        requires note { (note.me.0.caching ≡ idle_caching) × (note.me.0.known.mines ≡ []) × (note.me.1 ≡ []) }
        ensures { self.new ≡ record self.old { known = with_note self.old.known note.me.0.known } }
    {
        join(self.sheet, &mut self.seat, note);
    }

    /// The seat's rights go off on a note, with what it knows of the whole.
    pub fn let_go(&mut self) -> Pass
        ensures seat { self.new ≡ record self.old { known = let_go self.old.known } }
        ensures note { (result.table_id ≡ self.old.table) × (result.me ≡ (idling (note self.old.known), [])) }
    {
        let_go(self.sheet, &mut self.seat)
    }

    /// How often the seat's loads of translations hit its processor's cache, and how many entries it filled and flushed.
    pub fn counts(&self) -> TlbCounts
        ensures { result ≡ told_counts self.now.caching.counts }
    {
        self.counts
    }

    /// The layout of the machine.
    pub(crate) fn machine(&self) -> &Layout
        ensures { result.now ≡ self.now.layout }
    {
        self.layout
    }

    /// Makes one step of the seat, as one atomic operation on the table. It takes no memory.
    #[inline(always)]
    pub(crate) fn make(&mut self, who: Who, step: &Step, body: Option<Body>) -> Met
        requires right { HasRight self.old.known }
        requires can { CanMake self.old.layout who step.now body (mine self.old) }
        ensures same { (self.new.layout ≡ self.old.layout) × (self.new.table ≡ self.old.table) }
        ensures told { Steps self.old.layout who step.now (logs body) (mine self.old) (mine self.new) result.found result.body }
        ensures moved { Moves self.old (rec_of self.old.layout who step.now (logs body) result.found result.body) self.new }
    {
        if let Some(found) = look(
            self.sheet,
            self.layout,
            &mut self.seat,
            &self.filled,
            who,
            step,
        ) {
            self.counts.hits = self.counts.hits.saturating_add(1);
            return Met { found, body: None };
        }
        let met = one(
            self.sheet,
            self.layout,
            &mut self.seat,
            &mut self.order,
            who,
            step,
            body,
        );
        follow(
            self.sheet,
            self.layout,
            &mut self.seat,
            self.order.as_slice(),
            &mut self.filled,
            &mut self.counts,
            who,
            step,
            met.found,
        );
        met
    }
}
