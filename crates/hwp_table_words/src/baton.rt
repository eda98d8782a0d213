ghost use Rattle.std.specs.Prelude.{◌≡◌, ◌<◌, []};
ghost use Rattle.hwp_table_words.specs.Known.{dealt, forgetting, idling, joining, kept, let_go, note};

use crate::plays::{Deals, Given, Joins, Lets, Pass, Sheet};
use crate::ways::Ways;
use hwp_core_rule::Cpu;
use std::marker::Brand;

/// The seat's rights go off on a note, with what it knows of the whole.
pub fn let_go<W: Ways>(sheet: &Sheet<W>, seat: &mut Pass) -> Pass
    requires fits { (seat.old.table_id ≡ sheet.now.table_id) × (0 < sheet.now.table_id.words) }
    ensures same { (seat.new.table_id ≡ seat.old.table_id) × (result.table_id ≡ seat.old.table_id) }
    ensures seat { seat.new.me ≡ (record seat.old.me.0 { known = let_go seat.old.me.0.known }, seat.old.me.1) }
    ensures note { result.me ≡ (idling (note seat.old.me.0.known), []) }
{
    sheet.split_seat::<Lets>(seat)
}

/// A new seat has what the seat has of a processor, its view and its right.
pub fn split<W: Ways>(sheet: &Sheet<W>, seat: &mut Pass, cpu: Cpu) -> Pass
    requires fits { (seat.old.table_id ≡ sheet.now.table_id) × (0 < sheet.now.table_id.words) }
    ensures same { (seat.new.table_id ≡ seat.old.table_id) × (result.table_id ≡ seat.old.table_id) }
    ensures seat { seat.new.me ≡ (forgetting (kept cpu.0 seat.old.me.0.known) seat.old.me.0.caching, seat.old.me.1) }
    ensures new { result.me ≡ (idling (dealt cpu.0 seat.old.me.0.known), []) }
{
    deal::<W, Brand>(sheet, seat, cpu)
}

fn deal<W: Ways, G: Given>(sheet: &Sheet<W>, seat: &mut Pass, cpu: Cpu) -> Pass
    requires named { G.cpu ≡ cpu.0 }
    requires fits { (seat.old.table_id ≡ sheet.now.table_id) × (0 < sheet.now.table_id.words) }
    ensures same { (seat.new.table_id ≡ seat.old.table_id) × (result.table_id ≡ seat.old.table_id) }
    ensures seat { seat.new.me ≡ (forgetting (kept cpu.0 seat.old.me.0.known) seat.old.me.0.caching, seat.old.me.1) }
    ensures new { result.me ≡ (idling (dealt cpu.0 seat.old.me.0.known), []) }
{
    sheet.split_seat::<Deals<G>>(seat)
}

/// The seat takes all that another has, which carries no slot.
pub fn join<W: Ways>(sheet: &Sheet<W>, seat: &mut Pass, other: Pass)
    requires fits { (seat.old.table_id ≡ sheet.now.table_id) × (other.table_id ≡ sheet.now.table_id) × (0 < sheet.now.table_id.words) }
    requires empty { other.me.1 ≡ [] }
    ensures same { seat.new.table_id ≡ seat.old.table_id }
    ensures seat { seat.new.me ≡ (joining seat.old.me.0 other.me.0, seat.old.me.1) }
{
    sheet.join_seat::<Joins>(seat, other);
}
