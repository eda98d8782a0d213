ghost use Rattle.std.specs.Prelude.{◌↔◌, ◌≡◌, ℕ, ◌<◌, IsTrue, All, AllPairs, length, Some, slice_get, IsSomeAnd};
ghost use Rattle.hwp_geom.specs.Layout.{IsSound};
ghost use Rattle.hwp_kill.specs.declared.types.Seen.{Seen};
ghost use Rattle.hwp_kill.specs.Kill.{IsIn, IsCurrent, HasNoEarlyBelow, Names, IsNamedIfAsked, StandsBefore, PoliciesRead};

use crate::kill::{is_current, lowest_early, lowest_slots};
use crate::slots::Slots;
use crate::types::Seen;
use hwp_geom::{Layout, List, Proc, Thread};

/// Whether the list names the thread.
fn names(seen: &[Seen], thread: Thread) -> bool
    ensures { IsTrue result ↔ Names seen.now thread }
{
    seen.iter().any(|entry| entry.thread == thread)
}

/// Whether no thread of the process below this one was seen to be early.
fn has_no_early_below(layout: &Layout, seen: &[Seen], process: Proc, thread: Thread) -> bool
    requires { IsSound layout.now }
    ensures { IsTrue result ↔ HasNoEarlyBelow layout.now seen.now process thread }
{
    match lowest_early(layout, seen, process) {
        Some(early) => thread.0 <= early.0,
        None => true,
    }
}

/// Whether the policy of a thread of the process is read, where `is_used` says whether the process uses a translation.
fn is_asked(
    layout: &Layout,
    is_used: bool,
    current: Option<Thread>,
    seen: &[Seen],
    process: Proc,
    thread: Thread,
) -> bool
    requires { IsSound layout.now }
    ensures { IsTrue result ↔ (IsTrue is_used × (IsCurrent layout.now current process → ⊥) × HasNoEarlyBelow layout.now seen.now process thread) }
{
    is_used
        && !is_current(layout, current, process)
        && has_no_early_below(layout, seen, process, thread)
}

/// Whether the threads of the list are declared.
fn are_declared(layout: &Layout, seen: &[Seen]) -> bool
    ensures { IsTrue result ↔ All (λ (s : Seen). s.thread.0 < length layout.now.threads) seen.now }
{
    seen.iter()
        .all(|entry| usize::from(entry.thread.0) < layout.threads.len())
}

/// Whether the list names of the declared threads exactly those whose policies are read.
fn names_the_asked(layout: &Layout, maps: &Slots, current: Option<Thread>, seen: &[Seen]) -> bool
    requires { IsSound layout.now }
    ensures { IsTrue result ↔ ((n : ℕ) → n < length layout.now.threads → IsNamedIfAsked layout.now maps.now current seen.now (record { 0 = n })) }
{
    let lowest = lowest_slots(layout, maps);
    for (number, declared) in layout.threads.as_slice().iter().enumerate() {
        let thread = Thread(number as u8);
        let process = declared.process;
        let is_used = lowest[usize::from(process.0)].is_some();
        if is_asked(layout, is_used, current, seen, process, thread) != names(seen, thread) {
            return false;
        }
    }
    true
}

/// Whether one thread stands before another in the order in which policies are read.
fn stands_before(layout: &Layout, one: Seen, other: Seen) -> bool
    ensures { IsTrue result ↔ StandsBefore layout.now one other }
{
    let threads = layout.threads.as_slice();
    match (
        threads.get(usize::from(one.thread.0)),
        threads.get(usize::from(other.thread.0)),
    ) {
        (Some(first), Some(second)) => {
            first.process.0 < second.process.0
                || first.process == second.process && one.thread.0 < other.thread.0
        }
        _ => false,
    }
}

/// Whether each entry stands before the next one in the order in which policies are read.
fn stand_in_order(layout: &Layout, seen: &[Seen]) -> bool
    ensures { IsTrue result ↔ AllPairs (StandsBefore layout.now) seen.now }
{
    for next in 1..seen.len() {
        if !stands_before(layout, seen[next - 1], seen[next]) {
            return false;
        }
    }
    true
}

/// Whether the list names, in order, the threads whose policies the kill table reads, where the policies are those of the
/// list (this project's rule). The processes are those that use a translation, rising, but for the current thread's. Of
/// each the threads are read from the lowest one on, until the first that is early.
pub fn are_policies_read(
    layout: &Layout,
    maps: &Slots,
    current: Option<Thread>,
    seen: &List<Seen>,
) -> bool
    requires { IsSound layout.now }
    ensures { IsTrue result ↔ PoliciesRead layout.now maps.now current seen.now }
{
    let seen = seen.as_slice();
    if !are_declared(layout, seen) {
        return false;
    }
    if !stand_in_order(layout, seen) {
        return false;
    }
    names_the_asked(layout, maps, current, seen)
}
