ghost use Rattle.std.specs.Prelude.{◌↔◌, ◌≡◌, ◌<◌, IsTrue, MatchOption, EachIndex, slice_index_or};
ghost use Rattle.hwp_geom.specs.Layout.{IsSound};
ghost use Rattle.hwp_kill.specs.Kill.{is_early, IsIn, IsCurrent, IsEarly, HasNoEarly, HasNoThreadFrom, IsLowestEarly, IsLowestThread, IsLowestUsed, IsTold, TellsNone, Reaches, ReachesNone, Killed};

use crate::signal_list::{MAX_SIGNALS, SignalList};
use crate::slots::Slots;
use crate::types::{Code, Policy, Seen, Signal};
use hwp_geom::{Layout, List, Proc, Thread, VSlot};

/// Whether the thread is declared as one of the process.
pub(crate) fn is_in(layout: &Layout, thread: Thread, process: Proc) -> bool
    ensures { IsTrue result ↔ IsIn layout.now thread process }
{
    match layout.threads.as_slice().get(usize::from(thread.0)) {
        Some(declared) => declared.process == process,
        None => false,
    }
}

/// Whether there is a current thread that is one of the process.
pub(crate) fn is_current(layout: &Layout, current: Option<Thread>, process: Proc) -> bool
    ensures { IsTrue result ↔ IsCurrent layout.now current process }
{
    match current {
        Some(thread) => is_in(layout, thread, process),
        None => false,
    }
}

/// Whether a thread with this policy is signalled at once: `Default` stands for the system default
/// `vm.memory_failure_early_kill` (Linux hwpoison.rst).
pub(crate) fn is_early_policy(layout: &Layout, policy: Policy) -> bool
    ensures { result ≡ is_early layout.now policy }
{
    match policy {
        Policy::Late => false,
        Policy::Early => true,
        Policy::Default => layout.early,
    }
}

/// Whether the thread is one of the process, and was seen to be early.
fn is_early_thread(layout: &Layout, seen: &[Seen], process: Proc, thread: Thread) -> bool
    ensures { IsTrue result ↔ IsEarly layout.now seen.now process thread }
{
    is_in(layout, thread, process)
        && seen.iter().any(|entry| entry.thread == thread && is_early_policy(layout, entry.policy))
}

/// The lowest thread of the process that was seen to be early.
pub(crate) fn lowest_early(layout: &Layout, seen: &[Seen], process: Proc) -> Option<Thread>
    requires { IsSound layout.now }
    ensures { MatchOption result (HasNoEarly layout.now seen.now process) (IsLowestEarly layout.now seen.now process) }
{
    for number in 0..layout.threads.len() as u8 {
        let thread = Thread(number);
        if is_early_thread(layout, seen, process, thread) {
            return Some(thread);
        }
    }
    None
}

/// The lowest thread of the process from a number on.
pub(crate) fn lowest_thread(layout: &Layout, process: Proc, from: u8) -> Option<Thread>
    requires { IsSound layout.now }
    ensures { MatchOption result (HasNoThreadFrom layout.now process from) (IsLowestThread layout.now process from) }
{
    for number in from..layout.threads.len() as u8 {
        let thread = Thread(number);
        if is_in(layout, thread, process) {
            return Some(thread);
        }
    }
    None
}

/// The thread of a process that is told, where none of its threads needs the page now: its lowest early one, and where it has none the
/// lowest of all, if every process is told.
fn told(layout: &Layout, always: bool, seen: &[Seen], process: Proc) -> Option<Thread>
    requires { IsSound layout.now }
    ensures { MatchOption result (TellsNone layout.now always seen.now process) (IsTold layout.now always seen.now process) }
{
    match lowest_early(layout, seen, process) {
        Some(thread) => Some(thread),
        None => {
            if always {
                lowest_thread(layout, process, 0)
            } else {
                None
            }
        }
    }
}

/// The thread of the process that is signalled, and the code.
fn reached(
    layout: &Layout,
    always: bool,
    current: Option<Thread>,
    seen: &[Seen],
    process: Proc,
) -> Option<(Thread, Code)>
    requires { IsSound layout.now }
    ensures { MatchOption result (ReachesNone layout.now always current seen.now process) (λ r. Reaches layout.now always current seen.now process r.0 r.1) }
{
    match current {
        Some(thread) if is_in(layout, thread, process) => Some((thread, Code::Ar)),
        _ => match told(layout, always, seen, process) {
            Some(thread) => Some((thread, Code::Ao)),
            None => None,
        },
    }
}

/// The lowest translation of each process that is in use, found in one pass over the translations.
pub(crate) fn lowest_slots(layout: &Layout, maps: &Slots) -> [Option<VSlot>; MAX_SIGNALS]
    requires { IsSound layout.now }
    ensures { EachIndex result (λ p. IsLowestUsed layout.now maps.now (record { 0 = p }) (slice_index_or result p None)) }
{
    let mut lowest = [None; MAX_SIGNALS];
    let mut at = VSlot(0);
    while let Some(slot) = maps.lowest_from(at) {
        if let Some(declared) = layout.trans.as_slice().get(usize::from(slot.0)) {
            let number = usize::from(declared.process.0);
            if lowest[number].is_none() {
                lowest[number] = Some(slot);
            }
        }
        at = VSlot(slot.0 + 1);
    }
    lowest
}

/// The signals of a memory failure, by the kill table (after Linux hwpoison.rst and prctl(2); whom of a process and in
/// which order is this project's rule). `maps` are the translations of the page in use, `signals_at_all` says whether
/// the failure's situation signals, `always` whether it tells every process, `current` is the thread that needs the page
/// now, and `seen` has the policies that were read. Each process that uses a translation gets one signal at most,
/// processes rising: ar to the current thread where it is one of the process, else ao to the lowest thread of the process
/// that was seen to be early, else, where every process is told, ao to its lowest thread, if it has one. The signal names
/// the lowest translation of the process in use. The signals take the place of what was in `out`.
pub fn signals(
    layout: &Layout,
    maps: &Slots,
    signals_at_all: bool,
    always: bool,
    current: Option<Thread>,
    seen: &List<Seen>,
    out: &mut SignalList,
)
    requires { IsSound layout.now }
    ensures { Killed layout.now maps.now signals_at_all always current seen.now out.new }
{
    *out = SignalList::new();
    if !signals_at_all {
        return;
    }
    let lowest = lowest_slots(layout, maps);
    for number in 0..layout.procs {
        let process = Proc(number);
        let Some(slot) = lowest[usize::from(number)] else {
            continue;
        };
        let Some((thread, code)) = reached(layout, always, current, seen.as_slice(), process) else {
            continue;
        };
        let signal = Signal {
            process,
            thread,
            code,
            slot,
        };
        out.push(signal);
    }
}
