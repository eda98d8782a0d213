ghost use Rattle.std.specs.Prelude.{◌≡◌, ◌↔◌, ℕ, List as Items, fold, replicate, slice_get, slice_index_or, IsTrue, IfOk};
ghost use Rattle.std.specs.Option.{option_copied};
ghost use Rattle.hwp_law.specs.Endings.{HasEnding};
ghost use Rattle.hwp_check_evidence.specs.Ends.{ArePageEnds, HadEnded, any_ended, ended_by, ended_in, never, numbers_of, own_ended, own_ends as own_ends_of, signalled};

use hwp_law::{
    Cpu, Entry, Layout, List, Met, OutOfMemory, Page, Proc, Report, Script, Signal, Thread,
    ThreadDecl, What, Who,
};
use std::alloc::Global;

/// What stands for no command.
const NEVER: u64 = 4_294_967_296;

/// One more than the highest number of a thread's process.
pub(crate) fn process_numbers(threads: &[ThreadDecl]) -> usize
    ensures { result ≡ numbers_of threads.now }
{
    let mut numbers = 0;
    for thread in threads {
        numbers = numbers.max(usize::from(thread.process.0) + 1);
    }
    numbers
}

/// Notes that the command with this number sent a signal to the thread, which ends its process where it has no handler.
fn end_by(ends: &mut Vec<u64>, number: u64, thread: Option<ThreadDecl>)
    ensures { ends.new.items ≡ ended_by number ends.old.items thread }
{
    if let Some(thread) = thread {
        if !thread.handler {
            let process = usize::from(thread.process.0);
            if process < ends.len() {
                ends[process] = number.min(ends[process]);
            }
        }
    }
}

/// Notes a signal to the thread.
fn signal(ends: &mut Vec<u64>, layout: &Layout, number: u64, thread: Thread)
    ensures { ends.new.items ≡ signalled layout.now number ends.old.items thread }
{
    let declared = layout
        .threads
        .as_slice()
        .get(usize::from(thread.0))
        .copied();
    end_by(ends, number, declared);
}

/// Notes the signals of a failure.
fn signal_all(ends: &mut Vec<u64>, layout: &Layout, number: u64, signals: &[Signal])
    ensures { ends.new.items ≡ fold (λ (e : Items ℕ) (s : Signal). signalled layout.now number e s.thread) ends.old.items signals.now }
{
    for sent in signals {
        signal(ends, layout, number, sent.thread);
    }
}

/// Notes what an entry ends.
fn end_in(ends: &mut Vec<u64>, layout: &Layout, number: u64, what: &What)
    ensures { ends.new.items ≡ ended_in layout.now number ends.old.items what.now }
{
    match what {
        What::Load {
            met: Met::Sigbus { thread },
            ..
        } => signal(ends, layout, number, *thread),
        What::Store {
            met: Met::Sigbus { thread },
            ..
        } => signal(ends, layout, number, *thread),
        What::Fail { signals, .. } => signal_all(ends, layout, number, signals.as_slice()),
        _ => {}
    }
}

/// Notes what an entry ends, if it is of the processor.
pub(crate) fn end_own(ends: &mut Vec<u64>, layout: &Layout, cpu: Cpu, entry: &Entry)
    ensures { ends.new.items ≡ own_ended layout.now cpu ends.old.items entry.now }
{
    if entry.who.cpu.0 == cpu.0 {
        end_in(ends, layout, u64::from(entry.who.seq), &entry.what);
    }
}

/// Notes what an entry ends; one of another processor comes before all commands of this one.
pub(crate) fn end_any(ends: &mut Vec<u64>, layout: &Layout, cpu: Cpu, entry: &Entry)
    ensures { ends.new.items ≡ any_ended layout.now cpu ends.old.items entry.now }
{
    let number = if entry.who.cpu.0 == cpu.0 {
        u64::from(entry.who.seq)
    } else {
        0
    };
    end_in(ends, layout, number, &entry.what);
}

/// That no process ended, of so many.
pub(crate) fn no_ends(alloc: Global, processes: usize) -> Result<Vec<u64>, OutOfMemory>
    ensures { IfOk result (λ ends. ends.items ≡ replicate processes never) }
{
    Ok(vec![in alloc; NEVER; processes]?)
}

/// By which command the process had ended.
fn end_of(ends: &[u64], process: Proc) -> u64
    ensures { result ≡ slice_index_or ends.now process.0 never }
{
    match ends.get(usize::from(process.0)) {
        Some(end) => *end,
        None => NEVER,
    }
}

/// The commands by which processes ended in a page's history.
fn ends_of(all: &[List<u64>], page: Page) -> Option<&List<u64>>
    ensures { option_copied result ≡ slice_get all.now page.0 }
{
    all.get(usize::from(page.0))
}

/// Whether an earlier command of the processor ended the process.
pub fn had_ended(script: &Script, report: &Report, ends: &[u64], later: Who, process: Proc) -> bool
    requires { ends.now ≡ own_ends_of script.now.layout later.cpu report.now.pages }
    ensures { IsTrue result ↔ HadEnded script.now report.now later process }
{
    let _script = script;
    let _report = report;
    end_of(ends, process) < u64::from(later.seq)
}

/// Whether the process had ended in the page, by no later command of the processor.
pub fn has_ending(
    script: &Script,
    report: &Report,
    all: &[List<u64>],
    who: Who,
    process: Proc,
    page: Page,
) -> bool
    requires { ArePageEnds script.now.layout who.cpu report.now.pages all.now }
    ensures { IsTrue result ↔ HasEnding script.now report.now who process page }
{
    let _script = script;
    let _report = report;
    match ends_of(all, page) {
        Some(ends) => end_of(ends.as_slice(), process) <= u64::from(who.seq),
        None => false,
    }
}
