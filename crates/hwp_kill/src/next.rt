ghost use Rattle.std.specs.Prelude.{MatchOption};
ghost use Rattle.hwp_geom.specs.Layout.{IsSound};
ghost use Rattle.hwp_kill.specs.Kill.{IsLowestUsed, PoliciesRead};
ghost use Rattle.hwp_kill.specs.Next.{IsReadSoFar, IsNextToRead, IsStart, HasNoneLeft, IsFirstLeft};

use crate::kill::{is_current, is_early_policy, lowest_slots, lowest_thread};
use crate::slots::Slots;
use crate::types::Seen;
use hwp_geom::{Layout, Proc, Thread, VSlot};

/// A place in the order in which policies are read.
#[derive(Clone, Copy)]
struct Start {
    process: u8,
    thread: u8,
}

/// Where reading goes on: behind the last thread that was read, and behind its process where it was early.
fn start_of(layout: &Layout, maps: &Slots, current: Option<Thread>, seen: &[Seen]) -> Start
    requires sound { IsSound layout.now }
    requires read { IsReadSoFar layout.now maps.now current seen.now }
    ensures { IsStart layout.now maps.now current seen.now result.process result.thread }
{
    let Some(last) = seen.last() else {
        return Start {
            process: 0,
            thread: 0,
        };
    };
    let threads = layout.threads.as_slice();
    let process = threads[usize::from(last.thread.0)].process;
    if is_early_policy(layout, last.policy) {
        Start {
            process: process.0 + 1,
            thread: 0,
        }
    } else {
        Start {
            process: process.0,
            thread: last.thread.0 + 1,
        }
    }
}

/// The lowest thread of the process that is left to read, where `slot` is a translation that the process uses.
fn first_left(
    layout: &Layout,
    maps: &Slots,
    current: Option<Thread>,
    seen: &[Seen],
    start: Start,
    process: Proc,
    slot: Option<VSlot>,
) -> Option<Thread>
    requires sound { IsSound layout.now }
    requires start { IsStart layout.now maps.now current seen.now start.process start.thread }
    requires slot { IsLowestUsed layout.now maps.now process slot }
    ensures { MatchOption result (HasNoneLeft layout.now maps.now current seen.now process) (IsFirstLeft layout.now maps.now current seen.now process) }
{
    if slot.is_none() || is_current(layout, current, process) || process.0 < start.process {
        None
    } else if process.0 == start.process {
        lowest_thread(layout, process, start.thread)
    } else {
        lowest_thread(layout, process, 0)
    }
}

/// The next thread whose policy the kill table reads, where `seen` has what was read so far; `None` where all are read. The
/// order is that of `are_policies_read`: processes rise, and so do the threads of each, up to the first that is early.
pub fn next_to_read(
    layout: &Layout,
    maps: &Slots,
    current: Option<Thread>,
    seen: &[Seen],
) -> Option<Thread>
    requires sound { IsSound layout.now }
    requires read { IsReadSoFar layout.now maps.now current seen.now }
    ensures { MatchOption result (PoliciesRead layout.now maps.now current seen.now) (IsNextToRead layout.now maps.now current seen.now) }
{
    let lowest = lowest_slots(layout, maps);
    let start = start_of(layout, maps, current, seen);
    for number in 0..layout.procs {
        let slot = lowest[usize::from(number)];
        let process = Proc(number);
        if let Some(thread) = first_left(layout, maps, current, seen, start, process, slot) {
            return Some(thread);
        }
    }
    None
}
