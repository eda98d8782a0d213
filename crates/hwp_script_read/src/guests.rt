ghost use Rattle.std.specs.Prelude.{◌≡◌, ◌<◌, length, MatchOption};
ghost use Rattle.std.specs.List.{list_any};
ghost use Rattle.hwp_script_lines.specs.hwp_geom.Layout.{is_guest};
ghost use Rattle.hwp_script_read.specs.Context.{process_of};
ghost use Rattle.hwp_script_lines.specs.hwp_script_words.Guests.{bars_guest, cannot_be_guest, is_apart};
ghost use Rattle.hwp_script_read.specs.Reasons.{IsClean, IsLowest};
ghost use Rattle.hwp_script_read.specs.Sums.{Sums, names_of};

use crate::context::Summary;
use crate::faults::is_misplaced;
use crate::why::Why;
use hwp_script_lines::{MAX_PROCS, ScriptLine, ThreadDecl};

/// Whether the process is a guest already.
fn is_guest(summary: &Summary, process: u64) -> bool
    ensures { result ≡ is_guest (names_of summary.now) (process_of process) }
{
    match summary.guests.as_slice().get(process as usize) {
        Some(guest) => *guest,
        None => false,
    }
}

/// Whether a thread of the process shows that a thread can't be one of the same guest.
fn is_apart(process: u64, thread: ThreadDecl, other: ThreadDecl) -> bool
    ensures { result ≡ is_apart process thread other }
{
    u64::from(other.process.0) == process && (!thread.handler || other.cpu.0 != thread.cpu.0)
}

/// Whether one of the threads does so.
fn is_parted(threads: &[ThreadDecl], process: u64, thread: ThreadDecl) -> bool
    ensures { result ≡ list_any (is_apart process thread) threads.now }
{
    for other in threads {
        if is_apart(process, thread, *other) {
            return true;
        }
    }
    false
}

/// Whether a thread is one of the process, and keeps it from being a guest with these threads.
fn bars_guest(threads: &[ThreadDecl], process: u64, thread: ThreadDecl) -> bool
    ensures { result ≡ bars_guest threads.now process thread }
{
    u64::from(thread.process.0) == process && is_parted(threads, process, thread)
}

/// Whether the process can't be a guest with these threads.
fn cannot_be_guest(threads: &[ThreadDecl], process: u64) -> bool
    ensures { result ≡ cannot_be_guest threads.now process }
{
    for thread in threads {
        if bars_guest(threads, process, *thread) {
            return true;
        }
    }
    false
}

/// The lowest reason that applies to a line that makes a process a guest, below these lines, if any does.
pub(crate) fn guest_fault(summary: &Summary, above: &[ScriptLine], process: u64) -> Option<Why>
    requires sums { Sums above.now summary.now }
    requires some { 0 < length above.now }
    ensures { MatchOption result (IsClean above.now (ScriptLine.Guest process)) (λ why. IsLowest above.now (ScriptLine.Guest process) why) }
{
    if summary.is_first_version(above) {
        Some(Why::UnknownWord)
    } else if process >= u64::from(MAX_PROCS) {
        Some(Why::OverLimit)
    } else if process >= u64::from(summary.procs) {
        Some(Why::Undeclared)
    } else if is_guest(summary, process) {
        Some(Why::Twice)
    } else if is_misplaced(summary, above, 9)
        || cannot_be_guest(summary.threads.as_slice(), process)
    {
        Some(Why::WrongPlace)
    } else {
        None
    }
}
