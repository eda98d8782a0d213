ghost use Rattle.std.specs.Prelude.{◌≡◌, ◌&&◌, ◌||◌, ◌==◌, false, count_by, slice_get};
ghost use Rattle.std.specs.List.{list_any};
ghost use Rattle.std.specs.Option.{option_map_or};
ghost use Rattle.hwp_script_lines.specs.hwp_geom.Layout.{has_twin, is_slot, is_twin};
ghost use Rattle.hwp_script_lines.specs.hwp_script_words.Forks.{cannot_share, freezes, froze, has_shared_page, is_away, is_cow, is_doubled, is_either, is_fork_of, is_odd, is_shared, is_thread_of, is_unfit, is_used_by, is_wrong_child, is_wrong_fork, names_twin, slot_named, slots, actor};
ghost use Rattle.hwp_script_read.specs.Context.{forks, is_again, slot_of};
ghost use Rattle.hwp_script_read.specs.Sums.{names_of};

use crate::context::{Summary, at};
use hwp_script_lines::{Command, Page, Proc, ScriptLine, Thread, ThreadDecl, TransDecl, VSlot};

/// The thread that a command is of.
pub(crate) fn actor_of(command: &Command) -> Option<usize>
    ensures { result ≡ actor command.now }
{
    match *command {
        Command::Load { thread, .. }
        | Command::Fetch { thread, .. }
        | Command::KLoad { thread, .. }
        | Command::Store { thread, .. }
        | Command::Prctl { thread, .. }
        | Command::RaiseUser { thread, .. }
        | Command::Fork { thread, .. } => Some(usize::from(thread.0)),
        _ => None,
    }
}

/// The translation that a command names.
fn slot_named(command: &Command) -> Option<VSlot>
    ensures { result ≡ slot_named command.now }
{
    match *command {
        Command::Load { slot, .. }
        | Command::Fetch { slot, .. }
        | Command::KLoad { slot, .. }
        | Command::Store { slot, .. }
        | Command::Free { slot } => Some(slot),
        _ => None,
    }
}

/// Whether a translation is the twin of another.
pub(crate) fn is_twin(summary: &Summary, slot: u64) -> bool
    ensures { result ≡ is_twin (names_of summary.now) (slot_of slot) }
{
    let twins = summary.twins.as_slice();
    twins.iter().any(|twin| is_slot(slot, *twin))
}

/// Whether it is the translation of this number that is here.
fn is_slot(slot: u64, other: Option<VSlot>) -> bool
    ensures { result ≡ is_slot (slot_of slot) other }
{
    match other {
        Some(other) => u64::from(other.0) == slot,
        None => false,
    }
}

/// Whether a translation has a twin.
pub(crate) fn has_twin(summary: &Summary, slot: u64) -> bool
    ensures { result ≡ has_twin (names_of summary.now) (slot_of slot) }
{
    match summary.twins.as_slice().get(slot as usize) {
        Some(twin) => twin.is_some(),
        None => false,
    }
}

/// Whether more than one translation leads to the page.
fn is_shared(summary: &Summary, page: Page) -> bool
    ensures { result ≡ is_shared (names_of summary.now) page.0 }
{
    leading(summary.trans.as_slice(), page) > 1
}

/// How many translations lead to the page.
fn leading(trans: &[TransDecl], page: Page) -> usize
    ensures { result ≡ count_by (λ t. t.page.0 == page.0) trans.now }
{
    trans.iter().filter(|slot| slot.page.0 == page.0).count()
}

/// Whether another translation leads to the page of this one.
pub(crate) fn has_shared_page(summary: &Summary, slot: u64) -> bool
    ensures { result ≡ has_shared_page (names_of summary.now) (slot_of slot) }
{
    match at(summary.trans.as_slice(), slot as usize) {
        Some(slot) => is_shared(summary, slot.page),
        None => false,
    }
}

/// Whether a command names a twin as its translation.
pub(crate) fn names_twin(summary: &Summary, command: &Command) -> bool
    ensures { result ≡ names_twin (names_of summary.now) command.now }
{
    match slot_named(command) {
        Some(slot) => is_twin(summary, u64::from(slot.0)),
        None => false,
    }
}

/// Whether a translation is one of the process, and has a twin.
fn is_cow(process: Proc, slot: TransDecl, twin: Option<VSlot>) -> bool
    ensures { result ≡ is_cow process.0 (slot, twin) }
{
    slot.process.0 == process.0 && twin.is_some()
}

/// Whether it is a translation of the process to the page, and has a twin.
fn freezes_by(process: Proc, page: Page, slot: TransDecl, twin: Option<VSlot>) -> bool
    ensures { result ≡ (is_cow process.0 (slot, twin) && (slot.page.0 == page.0)) }
{
    is_cow(process, slot, twin) && slot.page.0 == page.0
}

/// Whether a fork of the process freezes the page: a translation of the process that has a twin leads to it.
fn freezes(summary: &Summary, process: Proc, page: Page) -> bool
    ensures { result ≡ freezes (names_of summary.now) process.0 page.0 }
{
    let trans = summary.trans.as_slice();
    let twins = summary.twins.as_slice();
    for number in 0..trans.len().min(twins.len()) {
        if freezes_by(process, page, trans[number], twins[number]) {
            return true;
        }
    }
    false
}

/// Whether the thread is one of the process.
fn is_thread_of(summary: &Summary, process: Proc, thread: usize) -> bool
    ensures { result ≡ is_thread_of (names_of summary.now) process.0 thread }
{
    match at(summary.threads.as_slice(), thread) {
        Some(declared) => declared.process.0 == process.0,
        None => false,
    }
}

/// Whether a thread of the process is the one that the command is of.
fn is_used_by(summary: &Summary, process: Proc, command: &Command) -> bool
    ensures { result ≡ is_used_by (names_of summary.now) process.0 command.now }
{
    match actor_of(command) {
        Some(thread) => is_thread_of(summary, process, thread),
        None => false,
    }
}

/// Whether the command is a fork by a thread of a process whose fork freezes the page.
fn froze(summary: &Summary, page: Page, command: &Command) -> bool
    ensures { result ≡ froze (names_of summary.now) page.0 command.now }
{
    match *command {
        Command::Fork { thread, .. } => froze_by(summary, page, thread),
        _ => false,
    }
}

/// Whether a fork by the thread freezes the page.
fn froze_by(summary: &Summary, page: Page, thread: Thread) -> bool
    ensures { result ≡ option_map_or (λ t. freezes (names_of summary.now) t.process.0 page.0) (slice_get summary.now.threads thread.0) false }
{
    match at(summary.threads.as_slice(), usize::from(thread.0)) {
        Some(declared) => freezes(summary, declared.process, page),
        None => false,
    }
}

/// Whether it is one of the two processes.
fn is_either(parent: Proc, child: Proc, process: Proc) -> bool
    ensures { result ≡ is_either parent.0 child.0 process.0 }
{
    process.0 == parent.0 || process.0 == child.0
}

/// Whether a translation to the page has no twin, or is of a third process.
fn is_odd(parent: Proc, child: Proc, page: Page, slot: TransDecl, twin: Option<VSlot>) -> bool
    ensures { result ≡ is_odd parent.0 child.0 page.0 (slot, twin) }
{
    slot.page.0 == page.0 && !(twin.is_some() && is_either(parent, child, slot.process))
}

/// How many translations of the process lead to the page.
fn own_leading(trans: &[TransDecl], process: Proc, page: Page) -> usize
    ensures { result ≡ count_by (λ t. (t.process.0 == process.0) && (t.page.0 == page.0)) trans.now }
{
    trans
        .iter()
        .filter(|slot| slot.process.0 == process.0 && slot.page.0 == page.0)
        .count()
}

/// Whether more than one translation of the process leads to the page.
fn is_doubled(summary: &Summary, process: Proc, page: Page) -> bool
    ensures { result ≡ is_doubled (names_of summary.now) process.0 page.0 }
{
    own_leading(summary.trans.as_slice(), process, page) > 1
}

/// Whether a translation to the page has no twin, or is of a third process.
fn has_odd(summary: &Summary, parent: Proc, child: Proc, page: Page) -> bool
    ensures { result ≡ list_any (is_odd parent.0 child.0 page.0) (slots (names_of summary.now)) }
{
    let trans = summary.trans.as_slice();
    let twins = summary.twins.as_slice();
    for number in 0..trans.len().min(twins.len()) {
        if is_odd(parent, child, page, trans[number], twins[number]) {
            return true;
        }
    }
    false
}

/// Whether the page is not one that parent and child alone share, each by one translation that has a twin.
fn is_unfit(summary: &Summary, parent: Proc, child: Proc, page: Page) -> bool
    ensures { result ≡ is_unfit (names_of summary.now) parent.0 child.0 page.0 }
{
    has_odd(summary, parent, child, page)
        || is_doubled(summary, parent, page)
        || is_doubled(summary, child, page)
}

/// Whether one of the commands froze the page.
fn was_frozen(summary: &Summary, before: &[Command], page: Page) -> bool
    ensures { result ≡ list_any (froze (names_of summary.now) page.0) before.now }
{
    for command in before {
        if froze(summary, page, command) {
            return true;
        }
    }
    false
}

/// Whether a fork of the parent freezes the translation's page, and it is unfit, or was frozen by one of the commands.
fn cannot_share_by(
    summary: &Summary,
    before: &[Command],
    parent: Proc,
    child: Proc,
    slot: TransDecl,
    twin: Option<VSlot>,
) -> bool
    ensures { result ≡ (is_cow parent.0 (slot, twin) && (is_unfit (names_of summary.now) parent.0 child.0 slot.page.0 || list_any (froze (names_of summary.now) slot.page.0) before.now)) }
{
    is_cow(parent, slot, twin)
        && (is_unfit(summary, parent, child, slot.page) || was_frozen(summary, before, slot.page))
}

/// Whether a page that a fork of the parent freezes is unfit, or was frozen by one of the commands.
fn cannot_share(summary: &Summary, before: &[Command], parent: Proc, child: Proc) -> bool
    ensures { result ≡ cannot_share (names_of summary.now) before.now parent.0 child.0 }
{
    let trans = summary.trans.as_slice();
    let twins = summary.twins.as_slice();
    for number in 0..trans.len().min(twins.len()) {
        if cannot_share_by(summary, before, parent, child, trans[number], twins[number]) {
            return true;
        }
    }
    false
}

/// Whether a thread of one of the two processes runs on another processor.
fn is_away(cpu: u64, parent: Proc, child: Proc, thread: ThreadDecl) -> bool
    ensures { result ≡ is_away cpu parent.0 child.0 thread }
{
    is_either(parent, child, thread.process) && u64::from(thread.cpu.0) != cpu
}

/// Whether the parent can't make the child behind these commands of the processor's list.
fn is_wrong_child(
    summary: &Summary,
    cpu: u64,
    before: &[Command],
    parent: Proc,
    child: Proc,
) -> bool
    ensures { result ≡ is_wrong_child (names_of summary.now) cpu before.now parent.0 child.0 }
{
    child.0 == parent.0
        || is_used(summary, before, child)
        || are_away(summary, cpu, parent, child)
        || cannot_share(summary, before, parent, child)
}

/// Whether one of the commands is of a thread of the process.
fn is_used(summary: &Summary, before: &[Command], process: Proc) -> bool
    ensures { result ≡ list_any (is_used_by (names_of summary.now) process.0) before.now }
{
    for command in before {
        if is_used_by(summary, process, command) {
            return true;
        }
    }
    false
}

/// Whether a thread of one of the two processes runs on another processor.
fn are_away(summary: &Summary, cpu: u64, parent: Proc, child: Proc) -> bool
    ensures { result ≡ list_any (is_away cpu parent.0 child.0) summary.now.threads }
{
    let threads = summary.threads.as_slice();
    for thread in threads {
        if is_away(cpu, parent, child, *thread) {
            return true;
        }
    }
    false
}

/// Whether a command is a fork that may not stand behind these commands of the processor's list.
pub(crate) fn is_wrong_fork(
    summary: &Summary,
    cpu: u64,
    before: &[Command],
    command: &Command,
) -> bool
    ensures { result ≡ is_wrong_fork (names_of summary.now) cpu before.now command.now }
{
    match *command {
        Command::Fork { thread, process } => {
            match at(summary.threads.as_slice(), usize::from(thread.0)) {
                Some(parent) => is_wrong_child(summary, cpu, before, parent.process, process),
                None => false,
            }
        }
        _ => false,
    }
}

/// Whether a line is a fork of the process.
fn forks(process: Proc, line: &ScriptLine) -> bool
    ensures { result ≡ forks process.0 line.now }
{
    match line {
        ScriptLine::Command(command) => is_fork_of(process, command),
        _ => false,
    }
}

/// Whether the command is a fork of the process.
fn is_fork_of(process: Proc, command: &Command) -> bool
    ensures { result ≡ is_fork_of process.0 command.now }
{
    match *command {
        Command::Fork { process: child, .. } => child.0 == process.0,
        _ => false,
    }
}

/// Whether one of the lines forked the process.
fn were_forked(above: &[ScriptLine], process: Proc) -> bool
    ensures { result ≡ list_any (forks process.0) above.now }
{
    for line in above {
        if forks(process, line) {
            return true;
        }
    }
    false
}

/// Whether one of the lines forked the process that the command forks.
pub(crate) fn is_again(above: &[ScriptLine], command: &Command) -> bool
    ensures { result ≡ is_again above.now command.now }
{
    match *command {
        Command::Fork { process, .. } => were_forked(above, process),
        _ => false,
    }
}
