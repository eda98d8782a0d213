ghost use Rattle.std.specs.Prelude.{◌≡◌, ◌↔◌, IsTrue};
ghost use Rattle.std.specs.FinSet as set;

use hwp_kill::{Slots, VSlot};

/// Whether the set has no member.
pub fn is_empty(slots: &Slots) -> bool
    ensures { IsTrue result ↔ (slots.now ≡ set.empty) }
{
    slots.lowest_from(VSlot(0)).is_none()
}

/// Puts all members of a set into another.
pub(crate) fn put_all(into: &mut Slots, slots: &Slots)
    ensures { into.new ≡ set.union into.old slots.now }
{
    let mut at = VSlot(0);
    while let Some(slot) = slots.lowest_from(at) {
        into.insert(slot);
        at = VSlot(slot.0 + 1);
    }
}
