ghost use Rattle.std.specs.Prelude.{◌≡◌, [], map, IfOk};
ghost use Rattle.hwp_core_rule.specs.Opening.{below};
ghost use Rattle.hwp_table_words.specs.Known.{first_known, idling, let_go};
ghost use Rattle.hwp_table_words.specs.Seats.{IsTableOf};
ghost use Rattle.hwp_table.specs.Seats.{AreThese, Gathering, IsGathered, seat_open};

use hwp_core_rule::{Cpu, Layout, OutOfMemory};
use hwp_table_words::{Pass, SeatOps, Sheet, Ways, join, split};
use std::alloc::Global;

/// A seat for each processor, with its view, from the one that has the views of all.
pub(crate) fn deal_seats<'a, W: Ways>(
    alloc: Global,
    sheet: &'a Sheet<W>,
    layout: &'a Layout,
    pass: Pass,
) -> Result<Vec<SeatOps<'a, W>>, OutOfMemory>
    requires table { IsTableOf W.ways layout.now sheet.now.table_id × (sheet.now.key ≡ layout.now) }
    requires seat { (pass.table_id ≡ sheet.now.table_id) × (pass.me ≡ (idling (let_go (first_known layout.now)), [])) }
    ensures { IfOk result (λ seats. seats.items ≡ map (seat_open sheet.now.table_id layout.now) (below layout.now.cpus)) }
{
    let mut pass = pass;
    let mut seats = Vec::new(alloc);
    for cpu in 0..layout.cpus {
        let own = split(sheet, &mut pass, Cpu(cpu));
        seats.push(SeatOps::new(sheet, layout, own))?;
    }
    Ok(seats)
}

/// The one seat that has what all seats have, none of which holds anything.
pub(crate) fn gather_seats<'a, W: Ways>(sheet: &Sheet<W>, seats: Vec<SeatOps<'a, W>>) -> Pass
    requires can { (g : Gathering) × AreThese W.ways g sheet.now.table_id seats.items }
    ensures { (g : Gathering) → AreThese W.ways g sheet.now.table_id seats.entry.items → IsGathered g.table g.layout seats.entry.items g.holder g.whole [] result.table_id result.me }
{
    let mut seats = seats;
    let Some(last) = seats.pop() else {
        unreachable!()
    };
    let mut pass = last.pass();
    while let Some(seat) = seats.pop() {
        join(sheet, &mut pass, seat.pass());
    }
    pass
}
