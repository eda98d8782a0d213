ghost use Rattle.std.specs.Prelude.{◌≡◌, ℕ, ◌<◌, ◌∷◌, Option, Some, None, false, drop, length};
ghost use Rattle.atomic_table.specs.Table.{rest};
ghost use Rattle.hwp_core_rule.specs.hwp_page.History.{BodyValue, IsReplay};
ghost use Rattle.hwp_core_rule.specs.SlotMoves.{is_out};
ghost use Rattle.hwp_table_words.specs.Carrying.{vacant, IsCarried, IsFirst, HasRoom, laid, brought, order_after};
ghost use Rattle.hwp_table_words.specs.Known.{times};

use crate::plays::{Pass, Sheet, Slot};
use crate::ways::Ways;
use arrayvec::ArrayVec;
use hwp_core_rule::SlotMove;

/// The slots that a seat carries, in the order in which it has them: those of two frames and of a page at most.
pub type Order = ArrayVec<usize, 3>;

/// Before a step that frees a lock: the lock's slot comes to the front, and the body into it.
#[inline(always)]
pub(crate) fn lay<W: Ways>(
    sheet: &Sheet<W>,
    seat: &mut Pass,
    order: &mut Order,
    to: SlotMove,
    body: Slot,
)
    requires fits { seat.old.table_id ≡ sheet.now.table_id }
    requires empty { seat.old.me.1 ≡ vacant order.old.items }
    requires there { IsCarried to order.old.items }
    ensures same { (seat.new.table_id ≡ seat.old.table_id) × (seat.new.me.0 ≡ seat.old.me.0) }
    ensures laid { seat.new.me.1 ≡ laid to body order.new.items }
    ensures first { IsFirst to order.new.items }
    ensures times { (k : ℕ) → times k order.new.items ≡ times k order.old.items }
    ensures count { length order.new.items ≡ length order.old.items }
{
    if let SlotMove::Home(slot) = to {
        bring(seat, order, slot);
        let _none = sheet.exchange(seat, slot, body);
    }
}

/// Brings a slot that the seat carries to the front.
fn bring(seat: &mut Pass, order: &mut Order, slot: usize)
    requires empty { seat.old.me.1 ≡ vacant order.old.items }
    requires there { 0 < times slot order.old.items }
    ensures same { (seat.new.table_id ≡ seat.old.table_id) × (seat.new.me.0 ≡ seat.old.me.0) }
    ensures empty { seat.new.me.1 ≡ vacant order.new.items }
    ensures front { order.new.items ≡ slot ∷ drop 1 order.new.items }
    ensures times { (k : ℕ) → times k order.new.items ≡ times k order.old.items }
    ensures count { length order.new.items ≡ length order.old.items }
{
    while order.as_slice()[0] != slot {
        seat.turn();
        let first = order.remove(0);
        order.push(first);
    }
}

/// After a step: the body of the slot that went out with its lock, so that all slots that the seat carries are empty.
#[inline(always)]
pub fn settle<W: Ways>(sheet: &Sheet<W>, seat: &mut Pass, order: &mut Order, to: SlotMove) -> Slot
    requires fits { seat.old.table_id ≡ sheet.now.table_id }
    requires brought { (got : Option BodyValue) × (seat.old.me.1 ≡ brought to got order.old.items) }
    requires first { IsFirst to order.old.items }
    requires room { HasRoom to order.old.items }
    ensures same { (seat.new.table_id ≡ seat.old.table_id) × (seat.new.me.0 ≡ seat.old.me.0) }
    ensures empty { seat.new.me.1 ≡ vacant order.new.items }
    ensures order { order.new.items ≡ order_after to order.old.items }
    ensures body { seat.old.me.1 ≡ brought to result order.old.items }
    ensures none { is_out to ≡ false → result ≡ None }
    ensures kept { (b : BodyValue) → result ≡ Some b → IsReplay b.layout b.page b.log b.state }
{
    match to {
        SlotMove::Stays => None,
        SlotMove::Home(_) => {
            order.remove(0);
            None
        }
        SlotMove::Out(slot) => {
            order.insert(0, slot);
            take(sheet, seat, slot)
        }
    }
}

/// Takes the body out of the first slot that the seat carries.
fn take<W: Ways>(sheet: &Sheet<W>, seat: &mut Pass, slot: usize) -> Slot
    requires fits { seat.old.table_id ≡ sheet.now.table_id }
    requires front { (got : Option BodyValue) × (seat.old.me.1 ≡ (slot, got) ∷ rest seat.old.me.1) }
    ensures same { seat.new.table_id ≡ seat.old.table_id }
    ensures taken { seat.new.me ≡ (seat.old.me.0, (slot, None) ∷ rest seat.old.me.1) }
    ensures body { seat.old.me.1 ≡ (slot, result) ∷ rest seat.old.me.1 }
    ensures kept { (b : BodyValue) → result ≡ Some b → IsReplay b.layout b.page b.log b.state }
{
    let body = sheet.exchange(seat, slot, None);
    if let Some(body) = &body {
        body.state();
    }
    body
}
