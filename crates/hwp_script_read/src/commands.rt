ghost use Rattle.std.specs.Prelude.{◌≡◌, ℕ, ◌<◌, ◌≤◌, ◌↔◌, true, length, slice_get, option_and_then, IsTrue, IsSomeAnd, MatchOption};
ghost use Rattle.hwp_script_read.specs.Collects.{commands_of};
ghost use Rattle.hwp_script_read.specs.Context.{version_in, names_in, place_in};
ghost use Rattle.hwp_script_lines.specs.hwp_script_words.Forks.{is_wrong_fork};
ghost use Rattle.hwp_script_read.specs.Reasons.{IsClean, IsLowest, IsForeign, IsNoFilePage, IsNoAnonPage, IsUndeclared, IsBeyond, IsElsewhere, IsMisused};
ghost use Rattle.hwp_script_lines.specs.hwp_script_words.Commands.{IsNewer};
ghost use Rattle.hwp_script_read.specs.Sums.{Sums};

use crate::context::{Summary, at};
use crate::faults::is_misplaced;
use crate::forks::{actor_of, is_again, is_wrong_fork, names_twin};
use crate::why::Why;
use hwp_script_lines::{Command, MAX_COMMANDS, Page, PageKind, ScriptLine, Thread, VSlot};

/// Whether a thread and a translation are not both declared, or are of two processes.
fn is_foreign(summary: &Summary, thread: Thread, slot: VSlot) -> bool
    ensures { IsTrue result ↔ IsForeign (slice_get summary.now.threads thread.0) (slice_get summary.now.trans slot.0) }
{
    let thread = at(summary.threads.as_slice(), usize::from(thread.0));
    let slot = at(summary.trans.as_slice(), usize::from(slot.0));
    match (thread, slot) {
        (Some(thread), Some(slot)) => thread.process.0 != slot.process.0,
        _ => true,
    }
}

/// Whether a page is not declared with a file behind it.
fn is_no_file_page(summary: &Summary, page: Page) -> bool
    ensures { IsTrue result ↔ IsNoFilePage (slice_get summary.now.pages page.0) }
{
    !matches!(
        at(summary.pages.as_slice(), usize::from(page.0)),
        Some(PageKind::File { .. })
    )
}

/// Whether a page is not declared with nothing behind it.
pub(crate) fn is_no_anon_page(summary: &Summary, page: Page) -> bool
    ensures { IsTrue result ↔ IsNoAnonPage (slice_get summary.now.pages page.0) }
{
    !matches!(
        at(summary.pages.as_slice(), usize::from(page.0)),
        Some(PageKind::Anon)
    )
}

/// Whether a command names what is not declared, or what is not of its kind.
fn is_undeclared(summary: &Summary, above: &[ScriptLine], command: &Command) -> bool
    requires { Sums above.now summary.now }
    ensures { IsTrue result ↔ IsUndeclared above.now command.now }
{
    let frames = summary.frames;
    match *command {
        Command::Load { thread, slot, .. }
        | Command::Fetch { thread, slot, .. }
        | Command::KLoad { thread, slot, .. }
        | Command::Store { thread, slot, .. } => is_foreign(summary, thread, slot),
        Command::Free { slot } => usize::from(slot.0) >= summary.trans.len(),
        Command::Drop { page } => usize::from(page.0) >= summary.pages.len(),
        Command::Sync { page } => is_no_file_page(summary, page),
        Command::Out { page } => is_no_anon_page(summary, page),
        Command::Fsync { file } | Command::Open { file } => file.0 >= summary.files,
        Command::Prctl { thread, .. } | Command::RaiseUser { thread, .. } => {
            usize::from(thread.0) >= summary.threads.len()
        }
        Command::Fork { thread, process } => {
            usize::from(thread.0) >= summary.threads.len() || process.0 >= summary.procs
        }
        Command::Bad { frame, .. } | Command::Weak { frame, .. } => frame.0 >= frames,
        Command::Scrub { first, last } => first.0 >= frames || last.0 >= frames,
        Command::Log { .. }
        | Command::RaiseKernel { .. }
        | Command::RaiseNested
        | Command::Watch { .. } => false,
        Command::Inject { frame } | Command::Soft { frame } | Command::Unpoison { frame } => {
            frame.0 >= frames
        }
    }
}

/// Whether version 2 alone has a command.
fn is_newer(command: &Command) -> bool
    ensures { IsTrue result ↔ IsNewer command.now }
{
    matches!(
        command,
        Command::Open { .. } | Command::Watch { .. } | Command::Fork { .. }
    )
}

/// Whether a command names what there can't be in the version of the lines.
fn is_beyond(summary: &Summary, above: &[ScriptLine], command: &Command) -> bool
    requires { Sums above.now summary.now }
    ensures { IsTrue result ↔ IsBeyond (version_in above.now) command.now }
{
    match *command {
        Command::Load { slot, .. }
        | Command::Fetch { slot, .. }
        | Command::KLoad { slot, .. }
        | Command::Store { slot, .. }
        | Command::Free { slot } => u64::from(slot.0) >= summary.max_trans(above),
        Command::Drop { page } | Command::Sync { page } | Command::Out { page } => {
            u64::from(page.0) >= summary.max_pages(above)
        }
        Command::Bad { frame, .. }
        | Command::Weak { frame, .. }
        | Command::Inject { frame }
        | Command::Soft { frame }
        | Command::Unpoison { frame } => u64::from(frame.0) >= summary.max_frames(above),
        Command::Scrub { last, .. } => u64::from(last.0) >= summary.max_frames(above),
        _ => false,
    }
}

/// Whether a command of a thread, if it is one's, would stand in no list, or in another processor's.
fn is_elsewhere(summary: &Summary, thread: Option<usize>) -> bool
    ensures { IsTrue result ↔ IsElsewhere summary.now.place (option_and_then (λ t. slice_get summary.now.threads t) thread) }
{
    let Some(place) = summary.place else {
        return true;
    };
    let Some(thread) = thread else {
        return false;
    };
    match at(summary.threads.as_slice(), thread) {
        Some(thread) => u64::from(thread.cpu.0) != place,
        None => false,
    }
}

/// Whether a command is a fork that may not stand in its list here.
fn forks_wrongly(summary: &Summary, above: &[ScriptLine], command: &Command) -> bool
    requires { Sums above.now summary.now }
    ensures { IsTrue result ↔ IsSomeAnd (place_in above.now) (λ cpu. is_wrong_fork (names_in above.now) cpu (commands_of above.now cpu) command.now ≡ true) }
{
    let Some(cpu) = summary.place else {
        return false;
    };
    match summary.lists.as_slice().get(cpu as usize) {
        Some(list) => is_wrong_fork(summary, cpu, list.as_slice(), command),
        None => false,
    }
}

/// Whether a command names a twin as its translation, or is a fork that may not stand here, or of a process that was forked before.
fn is_misused(summary: &Summary, above: &[ScriptLine], command: &Command) -> bool
    requires { Sums above.now summary.now }
    ensures { IsTrue result ↔ IsMisused above.now command.now }
{
    names_twin(summary, command)
        || forks_wrongly(summary, above, command)
        || is_again(above, command)
}

/// The lowest reason that applies to a command below these lines, if any does.
pub(crate) fn command_fault(
    summary: &Summary,
    above: &[ScriptLine],
    command: &Command,
) -> Option<Why>
    requires sums { Sums above.now summary.now }
    requires some { 0 < length above.now }
    ensures { MatchOption result (IsClean above.now (ScriptLine.Command command.now)) (λ why. IsLowest above.now (ScriptLine.Command command.now) why) }
{
    if is_newer(command) && summary.is_first_version(above) {
        Some(Why::UnknownWord)
    } else if summary.commands >= MAX_COMMANDS || is_beyond(summary, above, command) {
        Some(Why::OverLimit)
    } else if is_undeclared(summary, above, command) {
        Some(Why::Undeclared)
    } else if is_misplaced(summary, above, 13)
        || is_elsewhere(summary, actor_of(command))
        || is_misused(summary, above, command)
    {
        Some(Why::WrongPlace)
    } else {
        None
    }
}
