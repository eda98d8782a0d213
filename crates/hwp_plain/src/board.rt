ghost use Rattle.std.specs.Prelude.{◌≡◌, ◌<◌, true, false, [], cond, None, IfOk, length};
ghost use Rattle.hwp_core_rule.specs.hwp_geom.Layout.{IsSound};
ghost use Rattle.hwp_core_rule.specs.Lists.{EachMember};
ghost use Rattle.hwp_core_rule.specs.Opening.{opening};
ghost use Rattle.hwp_core_rule.specs.parts.Holdings.{HoldsNothing};
ghost use Rattle.hwp_core_rule.specs.Calls.{CanMake, Steps, logs, rec_of};
ghost use Rattle.hwp_plain.specs.Boards.{IsReached, Moves, own_view, with_turn};
ghost use Rattle.hwp_plain.specs.Ends.{AreHistories, IsMachineOf};
ghost use Rattle.hwp_core_rule.specs.Boards.{AreSeated};

use crate::bodies::{bodies_of, slots_of};
use crate::closing::histories;
use crate::machine::{Machine, machine_of};
use crate::opening::opening_bodies;
use crate::slot::{Slot, carry};
use crate::trail::{Trail, tell};
use crate::words::opening_words;
use hwp_core_rule::{
    Body, Cpu, Entry, Kind, Layout, List, Met, OutOfMemory, Page, SharedWord, Step, Turn, Who,
    index,
};
use std::alloc::Global;
use std::marker::Model;
use std::snapshot::Snapshot;
use std::sync::Arc;

/// The machine in plain vectors: its words, the page bodies that no lock's holder has, and the trail of its moves. It was
/// reached by those moves, and keeps the frame rule.
#[derive(Drop)]
pub struct PlainBoard {
    layout: Arc<Layout, Global>,
    words: Vec<u64>,
    slots: Vec<Slot>,
    trail: Trail,
    seat: Cpu,
    ready: bool,
    made: Option<Kind>,
}

impl Model for PlainBoard {
    ghost use Rattle.std.specs.Arc.{arc_value};
    ghost use Rattle.hwp_plain.specs.Boards.{Board, IsBoard, state_of};
    ghost use Rattle.hwp_plain.specs.Trails.{played};
    ghost use Rattle.hwp_core_rule.specs.hwp_kill.contracts.Slots as sets;
    ghost use Rattle.std.specs.Coded.{codes};

    ghost Value = { Board };

    ghost coded = { Prim.hlevel (codes, sets.the_row.coded) };

    ghost view = { λ b. record {
      layout = arc_value b.layout;
      state = state_of (arc_value b.layout) b.words.items b.slots.items b.trail;
      log = played b.trail;
      seat = b.seat.0;
      ready = b.ready;
      made = b.made;
    } };

    ghost invariant = { λ b. IsBoard (arc_value b.layout) b.words.items b.slots.items b.trail b.seat.0 };
}

impl PlainBoard {
    /// The board of a sound layout at opening.
    pub fn new(alloc: Global, layout: &Layout) -> Result<PlainBoard, OutOfMemory>
        requires sound { IsSound layout.now }
        ensures layout { IfOk result (λ board. board.layout ≡ layout.now) }
        ensures state { IfOk result (λ board. board.state ≡ opening layout.now) }
        ensures log { IfOk result (λ board. board.log ≡ []) }
    {
        let words = opening_words(alloc, layout)?;
        let layout = Arc::new(alloc, layout.copy(alloc)?)?;
        let bodies = opening_bodies(alloc, &layout)?;
        let slots = slots_of(alloc, bodies)?;
        Ok(PlainBoard {
            layout,
            words,
            slots,
            trail: Trail::Opening,
            seat: Cpu(0),
            ready: false,
            made: None,
        })
    }

    /// The layout of the machine.
    pub(crate) fn machine(&self) -> &Layout
        ensures { result.now ≡ self.now.layout }
    {
        &self.layout
    }

    /// The words, in the order of the frame rule.
    pub fn words(&self) -> &[u64]
        ensures { result.now ≡ self.now.state.words }
    {
        self.words.as_slice()
    }

    /// The moves of the log led from the opening to the board as it is, the frame rule holds of it, and each processor has
    /// the seat of its number. Proof only: a call tells its clauses.
    pub fn reached(&self)
        ensures reached { IsReached self.now.layout self.now.log self.now.state }
        ensures seats { AreSeated self.now.layout self.now.state (λ cpu. cpu.0) }
    {
        let _layout = &self.layout;
    }

    /// It is the processor's turn, which can make one step.
    pub(crate) fn begin(&mut self, cpu: Cpu)
        requires { cpu.0 < self.old.layout.cpus }
        ensures { self.new ≡ record self.old { seat = cpu.0; ready = true; made = None } }
    {
        self.seat = cpu;
        self.ready = true;
        self.made = None;
    }

    /// The turn is over. Where it made a step, the log tells which turn it was.
    pub(crate) fn end(&mut self, turn: Turn)
        ensures { self.new ≡ record self.old { log = cond self.old.ready self.old.log (with_turn turn self.old.log); ready = false } }
    {
        if !self.ready {
            tell(&mut self.trail, turn);
        }
        self.ready = false;
    }

    /// The kind of the step that this turn made.
    pub(crate) fn made(&self) -> Option<Kind>
        ensures { result ≡ self.now.made }
    {
        self.made
    }

    /// Makes one step of the seat whose turn it is, with the body that goes home. It answers the word that it met, and the
    /// body of the slot whose lock it took. It takes no memory.
    pub(crate) fn make(&mut self, who: Who, step: &Step, body: Option<Body>) -> Met
        requires can { CanMake self.old.layout who step.now body (own_view self.old) }
        ensures same { (self.new.layout ≡ self.old.layout) × (self.new.seat ≡ self.old.seat) × (self.new.ready ≡ false) }
        ensures told { Steps self.old.layout who step.now (logs body) (own_view self.old) (own_view self.new) result.found result.body }
        ensures moved { Moves self.old (rec_of self.old.layout who step.now (logs body) result.found result.body) self.new }
    {
        let at = index(&self.layout, step.place());
        let found = self.words[at];
        self.words[at] = step.word_after(found);
        let carried = carry(&mut self.slots, step.slot_move(&self.layout, found), body);
        let before = Snapshot::of(&self.trail);
        self.trail = Trail::Made {
            before,
            seat: self.seat,
            who,
            step: Snapshot::of(step),
            found,
            content: carried.content,
            turn: Turn::Moved,
        };
        self.ready = false;
        self.made = step.kind();
        Met {
            found,
            body: carried.body,
        }
    }

    /// What the machine came to, when nothing is held and the board is done with.
    pub fn close(self, alloc: Global) -> Result<Machine, OutOfMemory>
        requires nothing { EachMember HoldsNothing self.state.views }
        ensures { IfOk result (IsMachineOf self.layout self.state.words self.state.homes) }
    {
        let PlainBoard {
            layout,
            words,
            slots,
            ..
        } = self;
        let bodies = bodies_of(alloc, slots)?;
        machine_of(&layout, words, bodies)
    }

    /// The history of each page, in their order, when nothing is held and the board is done with.
    pub fn histories(self, alloc: Global) -> Result<List<List<Entry>>, OutOfMemory>
        requires nothing { EachMember HoldsNothing self.state.views }
        ensures count { IfOk result (λ pages. length pages ≡ length self.layout.pages) }
        ensures pages { IfOk result (λ pages. AreHistories self.state.homes pages) }
    {
        let PlainBoard {
            layout,
            words,
            slots,
            ..
        } = self;
        let from = index(&layout, SharedWord::Cache(Page(0)));
        let caches = &words[from..from + layout.pages.len()];
        let bodies = bodies_of(alloc, slots)?;
        histories(alloc, bodies, usize::from(layout.frames), caches)
    }
}
