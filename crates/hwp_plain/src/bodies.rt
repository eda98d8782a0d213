ghost use Rattle.std.specs.Prelude.{◌≡◌, map, IfOk};
ghost use Rattle.hwp_plain.specs.Slots.{body_in, in_slot};

use crate::slot::Slot;
use hwp_core_rule::{Body, OutOfMemory};
use std::alloc::Global;

/// Slots at home, with these bodies.
pub fn slots_of(alloc: Global, bodies: Vec<Option<Body>>) -> Result<Vec<Slot>, OutOfMemory>
    ensures { IfOk result (λ slots. slots.items ≡ map in_slot bodies.items) }
{
    let mut slots = Vec::with_capacity(alloc, bodies.len())?;
    for body in bodies {
        slots.push(Slot::Home(body))?;
    }
    Ok(slots)
}

/// What is in the slots.
pub(crate) fn bodies_of(alloc: Global, slots: Vec<Slot>) -> Result<Vec<Option<Body>>, OutOfMemory>
    ensures { IfOk result (λ bodies. bodies.items ≡ map body_in slots.items) }
{
    let mut bodies = Vec::with_capacity(alloc, slots.len())?;
    for slot in slots {
        bodies.push(body_in(slot))?;
    }
    Ok(bodies)
}

/// What is in a slot.
fn body_in(slot: Slot) -> Option<Body>
    ensures { result ≡ body_in slot }
{
    match slot {
        Slot::Home(body) => body,
        Slot::Out => None,
    }
}
