ghost use Rattle.std.specs.Prelude.{◌≡◌, ◌*◌};
ghost use Rattle.hwp_core_rule.specs.Calls.{CanMake, Steps, logs, rec_of};
ghost use Rattle.hwp_table_words.specs.Seats.{HasRight, IsSeat, Moves, mine_of, value_of};
ghost use Rattle.hwp_table_words.specs.Stands.{first_me};
ghost use Rattle.hwp_table_words.specs.tlb.Rule.{frames_of};
ghost use Rattle.hwp_table_words.specs.tlb.Steps.{IsGuarded, caching_after};

use crate::carrying::{Order, lay, settle};
use crate::plays::{Pass, Sheet};
use crate::steps::step_as;
use crate::ways::Ways;
use crate::words::word_of;
use hwp_core_rule::{Body, Layout, Met, Step, Who};
use std::marker::Brand;

/// Makes one step of a seat as one move of the frame rule. It takes no memory.
#[inline(always)]
pub(crate) fn one<W: Ways>(
    sheet: &Sheet<W>,
    layout: &Layout,
    seat: &mut Pass,
    order: &mut Order,
    who: Who,
    step: &Step,
    body: Option<Body>,
) -> Met
    requires seat { IsSeat W.ways layout.now sheet.now.key sheet.now.table_id seat.old.table_id (first_me seat.old.me) order.old.items }
    requires guarded { IsGuarded (W.ways * layout.now.cpus) (mine_of seat.old.me.0.known.mines) seat.old.me.0.caching }
    requires right { HasRight seat.old.me.0.known }
    requires can { CanMake layout.now who step.now body (mine_of seat.old.me.0.known.mines) }
    ensures seat { IsSeat W.ways layout.now sheet.now.key sheet.now.table_id seat.new.table_id (first_me seat.new.me) order.new.items }
    ensures told { Steps layout.now who step.now (logs body) (mine_of seat.old.me.0.known.mines) (mine_of seat.new.me.0.known.mines) result.found result.body }
    ensures moved { Moves (value_of sheet.now.table_id layout.now seat.old.me.0) (rec_of layout.now who step.now (logs body) result.found result.body) (value_of sheet.now.table_id layout.now seat.new.me.0) }
    ensures caching { seat.new.me.0.caching ≡ caching_after (W.ways * layout.now.cpus) step.now result.found (frames_of (mine_of seat.old.me.0.known.mines).locks) seat.old.me.0.caching }
{
    let home = step.slot_move(layout, 0);
    lay(sheet, seat, order, home, body);
    let word = word_of(layout, step.place());
    let found = step_as::<W, Brand>(sheet, seat, word, who, step);
    let to = step.slot_move(layout, found);
    let body = settle(sheet, seat, order, to);
    Met { found, body }
}
