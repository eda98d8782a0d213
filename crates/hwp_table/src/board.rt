ghost use Rattle.std.specs.Prelude.{◌≡◌, ℕ, ◌<◌, true, false, [], cond, None, IfOk, Some, map, slice_get};
ghost use Rattle.atomic_table.specs.Seated.{TableId};
ghost use Rattle.hwp_core_rule.specs.Lists.{EachMember};
ghost use Rattle.hwp_core_rule.specs.Opening.{opening};
ghost use Rattle.hwp_core_rule.specs.parts.Holdings.{HoldsNothing};
ghost use Rattle.hwp_table.specs.Seats.{AreSeats, IsHeld, no_table};
ghost use Rattle.hwp_table.specs.Boards.{whole_then};
ghost use Rattle.hwp_table_words.specs.Ends.{HasAll};
ghost use Rattle.hwp_core_rule.specs.Boards.{AreSeated};
ghost use Rattle.hwp_core_rule.specs.Calls.{CanMake, Steps, logs, rec_of};
ghost use Rattle.hwp_plain.specs.Boards.{IsReached, Moves, own_view, with_turn};
ghost use Rattle.hwp_table_words.specs.Known.{first_knowing};
ghost use Rattle.hwp_table_words.specs.Seats.{IsTableOf, mine};

use crate::dealing::{deal_seats, gather_seats};
use crate::hand::hand_over;
use crate::turns::{Turns, tell};
use hwp_core_rule::{Body, Cpu, Kind, Layout, List, Met, Ops, OutOfMemory, Step, Turn, Who};
use hwp_table_words::{Pass, SeatOps, Sheet, Ways, let_go};
use std::alloc::Global;
use std::marker::{Brand, Model, PhantomData};
use std::snapshot::Snapshot;

/// Which table the seats are at.
pub trait OfTable {
    ghost table: { TableId };
}

impl OfTable for Brand {
    ghost table = { no_table };
}

/// The seats of all processors. All rights are with one of them, which made the last step.
#[derive(Drop)]
pub struct SeatBoard<'a, N: OfTable, W: Ways> {
    of: PhantomData<N>,
    sheet: &'a Sheet<W>,
    layout: &'a Layout,
    seats: Vec<SeatOps<'a, W>>,
    holder: usize,
    turns: Turns,
    seat: Cpu,
    ready: bool,
    made: Option<Kind>,
}

impl<'a, N: OfTable, W: Ways> Model for SeatBoard<'a, N, W> {
    ghost use Rattle.hwp_plain.specs.Boards.{Board};
    ghost use Rattle.hwp_table.specs.Boards.{IsAtTable, state_of};
    ghost use Rattle.hwp_table.specs.Seats.{whole_at};
    ghost use Rattle.hwp_table.specs.Turns.{played, turns_of};
    ghost use Rattle.hwp_core_rule.specs.hwp_kill.contracts.Slots as sets;
    ghost use Rattle.std.specs.Coded.{codes};

    ghost Value = { Board };

    ghost coded = { Prim.hlevel (codes, sets.the_row.coded) };

    ghost view = { λ b. record {
      layout = b.layout.now;
      state = state_of b.seats.items b.holder;
      log = played (whole_at b.seats.items b.holder).log (turns_of b.turns);
      seat = b.seat.0;
      ready = b.ready;
      made = b.made;
    } };

    ghost invariant = { λ b. IsAtTable W.ways N.table b.sheet.now.table_id b.layout.now b.seats.items b.holder (turns_of b.turns) b.seat.0 };
}

impl<'a, N: OfTable, W: Ways> SeatBoard<'a, N, W> {
    /// The board of a table at opening, by the one seat that the table begins with.
    pub fn new(
        alloc: Global,
        sheet: &'a Sheet<W>,
        layout: &'a Layout,
        pass: Pass,
    ) -> Result<SeatBoard<'a, N, W>, OutOfMemory>
        requires table { IsTableOf W.ways layout.now sheet.now.table_id × (sheet.now.key ≡ layout.now) }
        requires named { N.table ≡ sheet.now.table_id }
        requires seat { (pass.table_id ≡ sheet.now.table_id) × (pass.me ≡ (first_knowing layout.now, [])) }
        ensures layout { IfOk result (λ board. board.layout ≡ layout.now) }
        ensures state { IfOk result (λ board. board.state ≡ opening layout.now) }
        ensures log { IfOk result (λ board. board.log ≡ []) }
    {
        let mut pass = pass;
        let note = let_go(sheet, &mut pass);
        let mut seats = deal_seats(alloc, sheet, layout, pass)?;
        seats[0].gather(note);
        Ok(SeatBoard {
            of: PhantomData,
            sheet,
            layout,
            seats,
            holder: 0,
            turns: Turns::Opening,
            seat: Cpu(0),
            ready: false,
            made: None,
        })
    }

    /// The one seat that has all views and rights again, when nothing is held. It knows what the board came to.
    pub fn into_pass(self) -> Pass
        requires nothing { EachMember HoldsNothing self.state.views }
        ensures table { result.table_id ≡ N.table }
        ensures bare { result.me.1 ≡ [] }
        ensures all { HasAll self.entry.layout result.me.0.known }
        ensures views { EachMember (λ x. slice_get self.entry.state.views x.0 ≡ Some x.1) result.me.0.known.mines }
        ensures whole { result.me.0.known.whole ≡ Some (whole_then self.entry.state self.entry.log) }
    {
        let SeatBoard { sheet, seats, .. } = self;
        gather_seats(sheet, seats)
    }

    /// The seats, in the order of the processors: each is its processor's, with the view that the board's state has for it.
    /// All rights stay with one of them, which knows what the board came to. It takes no memory.
    pub fn seats(self) -> List<SeatOps<'a, W>>
        ensures seats { AreSeats N.table self.entry.layout result }
        ensures views { map mine result ≡ self.entry.state.views }
        ensures rights { (holder : ℕ) × IsHeld self.entry.layout result holder (whole_then self.entry.state self.entry.log) }
    {
        let SeatBoard { seats, .. } = self;
        List::from_vec(seats)
    }

    /// The layout of the machine.
    pub(crate) fn machine(&self) -> &Layout
        ensures { result.now ≡ self.now.layout }
    {
        self.layout
    }

    /// The moves of the log led from the opening to the board as it is, the frame rule holds of it, and each processor has
    /// the seat of its number. Proof only: a call tells its clauses.
    pub fn reached(&self)
        ensures reached { IsReached self.now.layout self.now.log self.now.state }
        ensures seats { AreSeated self.now.layout self.now.state (λ cpu. cpu.0) }
    {
        let _layout = &self.layout;
    }

    /// It is the processor's turn, which can make one step.
    pub(crate) fn begin(&mut self, cpu: Cpu)
        requires { cpu.0 < self.old.layout.cpus }
        ensures { self.new ≡ record self.old { seat = cpu.0; ready = true; made = None } }
    {
        self.seat = cpu;
        self.ready = true;
        self.made = None;
    }

    /// The turn is over. Where it made a step, the log tells which turn it was.
    pub(crate) fn end(&mut self, turn: Turn)
        ensures { self.new ≡ record self.old { log = cond self.old.ready self.old.log (with_turn turn self.old.log); ready = false } }
    {
        tell(&mut self.turns, self.ready, turn);
        self.ready = false;
    }

    /// The kind of the step that this turn made.
    pub(crate) fn made(&self) -> Option<Kind>
        ensures { result ≡ self.now.made }
    {
        self.made
    }

    /// Makes one step of the seat whose turn it is, with the body that goes home: all rights go to it, and it makes the step
    /// as one atomic operation on the table. It takes no memory.
    #[inline(always)]
    pub(crate) fn make(&mut self, who: Who, step: &Step, body: Option<Body>) -> Met
        requires can { CanMake self.old.layout who step.now body (own_view self.old) }
        ensures same { (self.new.layout ≡ self.old.layout) × (self.new.seat ≡ self.old.seat) × (self.new.ready ≡ false) }
        ensures told { Steps self.old.layout who step.now (logs body) (own_view self.old) (own_view self.new) result.found result.body }
        ensures moved { Moves self.old (rec_of self.old.layout who step.now (logs body) result.found result.body) self.new }
    {
        let own = usize::from(self.seat.0);
        hand_over(&mut self.seats, self.holder, own);
        self.holder = own;
        let met = self.seats[own].step(who, step, body);
        let before = Snapshot::of(&self.turns);
        self.turns = Turns::Made {
            before,
            turn: Turn::Moved,
        };
        self.ready = false;
        self.made = step.kind();
        met
    }

    /// The same of a step of any kind, in a function of its own. Most steps are loads. For those `make` is put inline, where the compiler
    /// knows that the step is a load, and asks no table of kinds.
    #[inline(never)]
    pub(crate) fn make_of_kind(&mut self, who: Who, step: &Step, body: Option<Body>) -> Met
        requires can { CanMake self.old.layout who step.now body (own_view self.old) }
        ensures same { (self.new.layout ≡ self.old.layout) × (self.new.seat ≡ self.old.seat) × (self.new.ready ≡ false) }
        ensures told { Steps self.old.layout who step.now (logs body) (own_view self.old) (own_view self.new) result.found result.body }
        ensures moved { Moves self.old (rec_of self.old.layout who step.now (logs body) result.found result.body) self.new }
    {
        self.make(who, step, body)
    }
}
