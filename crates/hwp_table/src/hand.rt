ghost use Rattle.std.specs.Prelude.{◌≡◌, ◌<◌, length};
ghost use Rattle.atomic_table.specs.Seated.{TableId};
ghost use Rattle.hwp_core_rule.specs.Lists.{EachMember};
ghost use Rattle.hwp_table.specs.Seats.{IsHandedOver};

use hwp_table_words::{SeatOps, Ways};

/// All rights go from one seat to another. Most turns are of the seat that has them.
pub(crate) fn hand_over<'a, W: Ways>(seats: &mut Vec<SeatOps<'a, W>>, from: usize, to: usize)
    requires there { (from < length seats.old.items) × (to < length seats.old.items) }
    requires one_table { (id : TableId) × EachMember (λ s. s.table ≡ id) seats.old.items }
    ensures { IsHandedOver seats.old.items seats.new.items from to }
{
    if from == to {
        return;
    }
    let note = seats[from].let_go();
    seats[to].gather(note);
}
