ghost use Rattle.std.specs.Prelude.{◌≡◌, ◌<◌, [], IfErr, IfOk};
ghost use Rattle.std.specs.Arc.{arc_value};
ghost use Rattle.hwp_core_rule.specs.hwp_geom.Layout.{IsSound};
ghost use Rattle.hwp_table_words.specs.Ends.{HasAll};
ghost use Rattle.hwp_table_words.specs.Known.{dealt, first_knowing, forgetting, idling, joining, kept};
ghost use Rattle.hwp_table_words.specs.Seats.{IsTableOf};

use hwp_core_rule::{Cpu, Layout, OutOfMemory};
use hwp_table::{Cached, Ended, Pass, SeatBoard, SeatOps, Sheet, WordTable};
use hwp_table_words::Slot;
use std::alloc::Global;
use std::sync::Arc;

/// The words, the slots and the caches, as threads share them.
pub type TlbShared = Sheet<Cached>;

/// The table itself.
pub type TlbTable = WordTable<Cached>;

/// A seat at the table, as a value that is split and joined.
pub type TlbPass = Pass;

/// A seat of one processor, which looks into its cache before it loads a translation, fills it, and flushes frames.
pub type TlbSeat<'a> = SeatOps<'a, Cached>;

/// The seats of all processors, on one thread.
pub type TlbBoard<'a, N> = SeatBoard<'a, N, Cached>;

/// What a table came to.
pub type TlbEnded = Ended<Cached>;

/// The table of a sound layout at opening, with empty caches, and its one seat, which has the views and the rights of all
/// processors.
pub fn begin(
    alloc: Global,
    layout: &Arc<Layout, Global>,
) -> Result<(TlbTable, TlbPass), OutOfMemory>
    requires sound { IsSound (arc_value layout.now) }
    ensures table { IfOk result (λ t. IsTableOf 16 (arc_value layout.now) t.0.shared.table_id × (t.0.shared.key ≡ arc_value layout.now)) }
    ensures seat { IfOk result (λ t. (t.1.table_id ≡ t.0.shared.table_id) × (t.1.me ≡ (first_knowing (arc_value layout.now), []))) }
{
    hwp_table::begin::<Cached>(alloc, layout)
}

/// A new seat has what the seat has of a processor, its view and its right. Neither knows anything of the caches then.
pub fn split(sheet: &TlbShared, seat: &mut TlbPass, cpu: Cpu) -> TlbPass
    requires fits { (seat.old.table_id ≡ sheet.now.table_id) × (0 < sheet.now.table_id.words) }
    ensures same { (seat.new.table_id ≡ seat.old.table_id) × (result.table_id ≡ seat.old.table_id) }
    ensures seat { seat.new.me ≡ (forgetting (kept cpu.0 seat.old.me.0.known) seat.old.me.0.caching, seat.old.me.1) }
    ensures new { result.me ≡ (idling (dealt cpu.0 seat.old.me.0.known), []) }
{
    hwp_table::split(sheet, seat, cpu)
}

/// The seat takes all that another has, which carries no slot, and adds its counts.
pub fn join(sheet: &TlbShared, seat: &mut TlbPass, other: TlbPass)
    requires fits { (seat.old.table_id ≡ sheet.now.table_id) × (other.table_id ≡ sheet.now.table_id) × (0 < sheet.now.table_id.words) }
    requires empty { other.me.1 ≡ [] }
    ensures same { seat.new.table_id ≡ seat.old.table_id }
    ensures seat { seat.new.me ≡ (joining seat.old.me.0 other.me.0, seat.old.me.1) }
{
    hwp_table::join(sheet, seat, other);
}

/// What a table came to whose one seat has the views of all processors again, when nothing is held, and what is in its slots.
///
/// # Errors
/// The table and the seat, as they were, where memory for the words and bodies is refused.
pub fn close(
    alloc: Global,
    layout: &Layout,
    table: TlbTable,
    pass: TlbPass,
) -> Result<(TlbEnded, Vec<Slot>), (TlbTable, TlbPass)>
    requires table { IsTableOf 16 layout.now table.shared.table_id × (table.shared.key ≡ layout.now) }
    requires same { pass.table_id ≡ table.shared.table_id }
    requires all { HasAll layout.now pass.me.0.known }
    ensures layout { IfOk result (λ e. e.0.layout ≡ layout.now) }
    ensures known { IfOk result (λ e. e.0.known ≡ pass.me.0.known) }
    ensures slots { IfOk result (λ e. e.0.slots ≡ e.1.items) }
    ensures refused { IfErr result (λ back. (back.0 ≡ table) × (back.1 ≡ pass)) }
{
    hwp_table::close(alloc, layout, table, pass)
}
