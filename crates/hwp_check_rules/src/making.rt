ghost use Rattle.std.specs.Prelude.{◌≡◌, ◌⊎◌, ◌↔◌, IsTrue, IsSomeAnd, None};
ghost use Rattle.hwp_law.specs.hwp_page.Step.{IsOf};
ghost use Rattle.hwp_law.specs.Commands.{access_of, can_fail, can_offline, command_at, current_thread, has_watch};
ghost use Rattle.hwp_check_event_line.specs.Reading.{copies_in};
ghost use Rattle.hwp_law.specs.Entries.{CanStandIn, IsAccessAt, IsMadeBy, IsRequiredBy, Makes};
ghost use Rattle.hwp_law.specs.History.{Fits, FitsAccess, FitsLoad, FitsStore, IsMetBy, IsStoredBy, Names};

use crate::copying::is_copied;
use hwp_law::{Command, Entry, Layout, Line, List, Met, Page, Script, Thread, VSlot, What, Who};

/// The command of a processor with a number.
pub fn command_of(script: &Script, who: Who) -> Option<Command>
    ensures { result ≡ command_at script.now who }
{
    let list = script.lists.as_slice().get(usize::from(who.cpu.0))?;
    list.as_slice().get(who.seq as usize).copied()
}

/// Whether a SIGBUS, if one was met, went to the thread.
pub(crate) fn is_met_by(thread: Thread, met: Met) -> bool
    ensures { IsTrue result ↔ IsMetBy thread met }
{
    match met {
        Met::Word { .. } => true,
        Met::Sigbus { thread: other } => other == thread,
    }
}

/// Whether the word that a store met, if it met one, is this one.
fn is_stored_by(word: u64, met: Met) -> bool
    ensures { IsTrue result ↔ IsStoredBy word met }
{
    match met {
        Met::Word { word: stored, .. } => stored == word,
        Met::Sigbus { .. } => true,
    }
}

/// Whether any access through the translation makes the entry.
fn fits_access(slot: VSlot, what: &What) -> bool
    ensures { IsTrue result ↔ FitsAccess slot what.now }
{
    match what {
        What::FaultIn => true,
        What::Map { slot: mapped } => *mapped == slot,
        _ => false,
    }
}

/// Whether a load makes the entry.
fn fits_load(thread: Thread, slot: VSlot, line: Line, what: &What) -> bool
    ensures { IsTrue result ↔ FitsLoad thread slot line what.now }
{
    match what {
        What::Load {
            slot: through,
            line: at,
            met,
        } => *through == slot && *at == line && is_met_by(thread, *met),
        _ => fits_access(slot, what),
    }
}

/// Whether a store of the word makes the entry.
fn fits_store(thread: Thread, slot: VSlot, line: Line, word: u64, what: &What) -> bool
    ensures { IsTrue result ↔ FitsStore thread slot line word what.now }
{
    match what {
        What::Store {
            slot: through,
            line: at,
            met,
        } => {
            *through == slot && *at == line && is_met_by(thread, *met) && is_stored_by(word, *met)
        }
        _ => fits_access(slot, what),
    }
}

/// Whether the entry frees the translation.
fn fits_free(slot: VSlot, what: &What) -> bool
    ensures { IsTrue result ↔ Fits (Command.Free slot) what.now }
{
    match what {
        What::Free { slot: freed } => *freed == slot,
        _ => false,
    }
}

/// Whether the entry is of a kind that the command makes of itself, with the command's numbers.
fn fits(command: &Command, what: &What) -> bool
    ensures { IsTrue result ↔ Fits command.now what.now }
{
    match *command {
        Command::Load { thread, slot, line }
        | Command::Fetch { thread, slot, line }
        | Command::KLoad { thread, slot, line } => fits_load(thread, slot, line, what),
        Command::Store {
            thread,
            slot,
            line,
            word,
        } => fits_store(thread, slot, line, word, what),
        Command::Free { slot } => fits_free(slot, what),
        Command::Drop { .. } => matches!(what, What::Drop),
        Command::Sync { .. } => matches!(what, What::Sync),
        Command::Out { .. } => matches!(what, What::Out),
        _ => false,
    }
}

/// Whether the command is an access through the translation and at the line.
fn is_access_at(command: &Command, slot: VSlot, line: Line) -> bool
    ensures { IsTrue result ↔ IsSomeAnd (access_of command.now) (IsAccessAt slot line) }
{
    match *command {
        Command::Load {
            slot: through,
            line: at,
            ..
        }
        | Command::Fetch {
            slot: through,
            line: at,
            ..
        }
        | Command::KLoad {
            slot: through,
            line: at,
            ..
        }
        | Command::Store {
            slot: through,
            line: at,
            ..
        } => through == slot && at == line,
        _ => false,
    }
}

/// The thread that a command's machine check comes in.
fn thread_in(command: &Command) -> Option<Thread>
    ensures { result ≡ current_thread command.now }
{
    match *command {
        Command::Load { thread, .. }
        | Command::Fetch { thread, .. }
        | Command::KLoad { thread, .. }
        | Command::Store { thread, .. }
        | Command::RaiseUser { thread, .. } => Some(thread),
        _ => None,
    }
}

/// Whether the command can have a memory failure.
fn can_have_failure(command: &Command) -> bool
    ensures { result ≡ can_fail command.now }
{
    matches!(
        command,
        Command::Inject { .. }
            | Command::Scrub { .. }
            | Command::RaiseUser { .. }
            | Command::RaiseKernel { .. }
            | Command::Load { .. }
            | Command::Fetch { .. }
            | Command::KLoad { .. }
            | Command::Store { .. }
    )
}

/// Whether this thread, or none, needs a page now when the command has a memory failure.
fn is_required_by(command: &Command, required: Option<Thread>) -> bool
    ensures { IsTrue result ↔ IsRequiredBy command.now required }
{
    required.is_none() || required == thread_in(command)
}

/// Whether the command can take frames out of use beside its answer.
fn can_take_beside(command: &Command) -> bool
    ensures { result ≡ can_offline command.now }
{
    !matches!(command, Command::Inject { .. }) && can_have_failure(command)
}

/// Whether the command takes a frame out of use: by itself, or beside its answer.
fn makes_soft(watches: bool, command: &Command) -> bool
    ensures { IsTrue result ↔ Makes watches command.now What.Soft }
{
    match command {
        Command::Soft { .. } => true,
        _ => watches && can_take_beside(command),
    }
}

/// Whether the entry is of a kind that the command makes, also where memory fails.
fn makes(watches: bool, command: &Command, what: &What) -> bool
    ensures { IsTrue result ↔ Makes watches command.now what.now }
{
    match what {
        What::Mce { slot, line, .. } => is_access_at(command, *slot, *line),
        What::Fail { required, .. } => {
            can_have_failure(command) && is_required_by(command, *required)
        }
        What::Soft => makes_soft(watches, command),
        _ => fits(command, what),
    }
}

/// Whether the translation leads to the page.
pub fn leads_to(layout: &Layout, page: Page, slot: VSlot) -> bool
    ensures { IsTrue result ↔ IsOf layout.now page slot }
{
    match layout.trans.as_slice().get(usize::from(slot.0)) {
        Some(translation) => translation.page == page,
        None => false,
    }
}

/// Whether the command names the page.
fn names(layout: &Layout, command: &Command, page: Page) -> bool
    ensures { IsTrue result ↔ Names layout.now command.now page }
{
    match *command {
        Command::Load { slot, .. }
        | Command::Fetch { slot, .. }
        | Command::KLoad { slot, .. }
        | Command::Store { slot, .. }
        | Command::Free { slot } => leads_to(layout, page, slot),
        Command::Drop { page: named }
        | Command::Sync { page: named }
        | Command::Out { page: named } => page == named,
        _ => false,
    }
}

/// Whether the entry of the command can stand in the page.
fn can_stand_in(layout: &Layout, command: &Command, page: Page, what: &What) -> bool
    ensures { IsTrue result ↔ CanStandIn layout.now command.now page what.now }
{
    match what {
        What::Fail { .. } | What::Soft => true,
        _ => names(layout, command, page),
    }
}

/// Whether the entry is one that its command makes by itself, in a page where it can stand.
fn is_own(layout: &Layout, watches: bool, command: &Command, page: Page, what: &What) -> bool
    ensures { IsTrue result ↔ (Makes watches command.now what.now × CanStandIn layout.now command.now page what.now) }
{
    makes(watches, command, what) && can_stand_in(layout, command, page, what)
}

/// Whether the entry is one that its command makes, in a page where it can stand, or one of a copy that it makes first. The caller
/// knows whether the script has a `watch`.
pub fn is_made_by(
    script: &Script,
    copies: &[List<Option<VSlot>>],
    watches: bool,
    page: Page,
    entry: &Entry,
) -> bool
    requires { watches ≡ has_watch script.now }
    ensures { IsTrue result ↔ IsMadeBy script.now (copies_in copies.now) page entry.now }
{
    match command_of(script, entry.who) {
        Some(command) => {
            is_own(&script.layout, watches, &command, page, &entry.what)
                || is_copied(&script.layout, copies, &command, page, entry)
        }
        None => false,
    }
}
