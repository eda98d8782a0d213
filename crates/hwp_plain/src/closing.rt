ghost use Rattle.std.specs.Prelude.{◌≡◌, ◌≤◌, Some, None, map, length, slice_get, slice_set, IfOk};
ghost use Rattle.hwp_core_rule.specs.hwp_geom.Limits.{frame_limit, page_limit};
ghost use Rattle.hwp_core_rule.specs.declared.Log.{Log};
ghost use Rattle.hwp_plain.specs.Openings.{home_with};
ghost use Rattle.hwp_plain.specs.Ends.{slot_by, AreLed, AreHistories};

use hwp_core_rule::{Body, Entry, List, OutOfMemory};
use std::alloc::Global;

/// The histories of the bodies that the cache words lead to, in the order of the pages. The bodies are what is in the slots of
/// the frames, and then on the shelves of the pages.
pub fn histories(
    alloc: Global,
    bodies: Vec<Option<Body>>,
    frames: usize,
    caches: &[u64],
) -> Result<List<List<Entry>>, OutOfMemory>
    requires few { frames ≤ frame_limit }
    requires caches { length caches.now ≤ page_limit }
    requires led { AreLed frames caches.now (map home_with bodies.items) }
    ensures count { IfOk result (λ pages. length pages ≡ length caches.now) }
    ensures pages { IfOk result (λ pages. AreHistories (map home_with bodies.items) pages) }
{
    let mut bodies = bodies;
    let mut pages = Vec::new(alloc);
    for page in 0..caches.len() {
        let slot = slot_by(frames, caches[page], page);
        pages.push(take_history(&mut bodies, slot))?;
    }
    Ok(List::from_vec(pages))
}

/// The slot of the body of a page that has this cache word.
fn slot_by(frames: usize, cache: u64, page: usize) -> usize
    requires few { frames ≤ frame_limit }
    requires page { page ≤ page_limit }
    ensures { result ≡ slot_by frames cache page }
{
    if cache == 0 {
        frames + page
    } else {
        (cache - 1) as usize
    }
}

/// Takes the body out of a slot, and gives its history.
fn take_history(bodies: &mut Vec<Option<Body>>, slot: usize) -> List<Entry>
    requires full { (log : Log) × (slice_get (map home_with bodies.old.items) slot ≡ Some (Some (Some log))) }
    ensures history { (log : Log) → slice_get (map home_with bodies.old.items) slot ≡ Some (Some (Some log)) → result ≡ log.entries }
    ensures homes { map home_with bodies.new.items ≡ slice_set (map home_with bodies.old.items) slot (Some None) }
{
    let Some(body) = bodies[slot].take() else {
        unreachable!()
    };
    body.into_entries()
}
