//! Sets of translations, and those that a task holds.

use crate::checking::check;
use hwp_kill::{HeldSlots, SLOTS, SlotRoom, Slots, VSlot};
use std::alloc::Global;
use std::process::Abort;

/// The set of these translations, which are below the limit.
fn set_of(members: &[u16]) -> Slots {
    let mut slots = Slots::new();
    for member in members {
        if usize::from(*member) < SLOTS {
            slots.insert(VSlot(*member));
        }
    }
    slots
}

/// The member is in the set, and was found as the lowest from the last one on.
fn is_next(member: u16, has: bool, found: Option<VSlot>) -> bool {
    match found {
        Some(found) => has & (found.0 == member),
        None => false,
    }
}

/// The set has these translations, which rise, from the lowest on, and no other.
fn has_all(slots: &Slots, members: &[u16]) -> bool {
    let mut at = VSlot(0);
    for member in members {
        if !is_next(*member, slots.has(VSlot(*member)), slots.lowest_from(at)) {
            return false;
        }
        at = VSlot(member.saturating_add(1));
    }
    slots.lowest_from(at).is_none() & !slots.has(at)
}

/// The set of these translations, which rise, has them from the lowest on, and no other; and none when it is emptied.
fn has(members: &[u16]) -> bool {
    let mut slots = set_of(members);
    let all = has_all(&slots, members);
    slots.clear();
    all & slots.lowest_from(VSlot(0)).is_none()
}

/// The same where a task holds the set.
fn held_has_all(held: &HeldSlots, members: &[u16]) -> bool {
    let mut at = VSlot(0);
    for member in members {
        if !is_next(*member, held.has(VSlot(*member)), held.lowest_from(at)) {
            return false;
        }
        at = VSlot(member.saturating_add(1));
    }
    held.lowest_from(at).is_none() & !held.has(at) & (held.is_empty() == members.is_empty())
}

/// Held by a task, the set of these translations, which rise, has them from the lowest on, and no other.
fn holds(rt: &impl Abort, alloc: Global, members: &[u16]) -> bool {
    let room = SlotRoom::new(alloc).expect(rt, "memory");
    let held = room.hold(&set_of(members));
    held_has_all(&held, members)
}

/// In the first word, in two words side by side, in two with an empty one between them, in the last that a script of version 1 can
/// use and the one behind it, and in the last of all.
const ROWS: &[&[u16]] = &[
    &[],
    &[0],
    &[62, 63, 64],
    &[5, 130],
    &[448, 450],
    &[320, 511, 512],
    &[4032, 4095],
    &[0, 4095],
];

#[test]
fn a_set_has_its_members_until_it_is_emptied(rt: HostRuntime) {
    for members in ROWS {
        check(&rt, has(members));
    }
}

#[test]
fn a_task_holds_a_set_by_its_words_in_use(rt: HostRuntime) {
    for members in ROWS {
        check(&rt, holds(&rt, rt.alloc(), members));
    }
}
