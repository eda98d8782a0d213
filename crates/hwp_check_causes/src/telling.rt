ghost use Rattle.std.specs.Prelude.{◌≡◌, ◌↔◌, IsTrue, true};
ghost use Rattle.std.specs.Option.{option_copied};
ghost use Rattle.hwp_check_evidence.specs.hwp_law.Causes.{IsCaused, SendsSigbus};
ghost use Rattle.hwp_check_evidence.specs.hwp_law.Places.{entry_at};
ghost use Rattle.hwp_check_evidence.specs.hwp_law.States.{entry_named};
ghost use Rattle.hwp_check_causes.specs.Telling.{HasOwnSigbus, IsDoneTo, IsLoadOf, IsSent, IsSigbusTo, IsStoreOf, IsStored, IsToldAt, IsValue, Tells, is_by_entry};

use crate::case::Case;
use hwp_check_rules::{
    Answer, At, Code, Command, Entry, Line, List, Met, Page, Signal, Thread, VSlot, What,
};

/// The entry at a place.
pub(crate) fn entry_at(pages: &[List<Entry>], at: At) -> Option<&Entry>
    ensures { option_copied result ≡ entry_at pages.now at }
{
    let entries = pages.get(usize::from(at.page.0))?;
    entries.as_slice().get(at.entry as usize)
}

/// Whether the entry is a load through the translation that met the word at the line.
fn is_load_of(slot: VSlot, line: Line, word: u64, what: &What) -> bool
    ensures { IsTrue result ↔ IsLoadOf slot line word what.now }
{
    match what {
        What::Load {
            slot: through,
            line: at,
            met: Met::Word { word: met, .. },
        } => *through == slot && *at == line && *met == word,
        _ => false,
    }
}

/// Whether it is a store of the word there.
fn is_store_of(slot: VSlot, line: Line, word: u64, what: &What) -> bool
    ensures { IsTrue result ↔ IsStoreOf slot line word what.now }
{
    match what {
        What::Store {
            slot: through,
            line: at,
            met: Met::Word { word: met, .. },
        } => *through == slot && *at == line && *met == word,
        _ => false,
    }
}

/// Whether the command is a load, and the entry its own with this word.
fn is_value(command: &Command, word: u64, what: &What) -> bool
    ensures { IsTrue result ↔ IsValue command.now word what.now }
{
    match *command {
        Command::Load { slot, line, .. }
        | Command::Fetch { slot, line, .. }
        | Command::KLoad { slot, line, .. } => is_load_of(slot, line, word, what),
        _ => false,
    }
}

/// Whether the command is a store, and the entry its own.
fn is_stored(command: &Command, what: &What) -> bool
    ensures { IsTrue result ↔ IsStored command.now what.now }
{
    match *command {
        Command::Store {
            slot,
            line,
            word,
            ..
        } => is_store_of(slot, line, word, what),
        _ => false,
    }
}

/// Whether the entry frees the translation.
fn frees(slot: VSlot, what: &What) -> bool
    ensures { IsTrue result ↔ what.now ≡ What.Free slot }
{
    match what {
        What::Free { slot: freed } => *freed == slot,
        _ => false,
    }
}

/// Whether the entry is of a page that was dropped, written, or swapped out.
fn drops(what: &What) -> bool
    ensures { IsTrue result ↔ what.now ≡ What.Drop }
{
    matches!(what, What::Drop)
}

fn syncs(what: &What) -> bool
    ensures { IsTrue result ↔ what.now ≡ What.Sync }
{
    matches!(what, What::Sync)
}

fn goes_out(what: &What) -> bool
    ensures { IsTrue result ↔ what.now ≡ What.Out }
{
    matches!(what, What::Out)
}

/// Whether the entry is what the command does to the page.
fn is_done_to(command: &Command, page: Page, what: &What) -> bool
    ensures { IsTrue result ↔ IsDoneTo command.now page what.now }
{
    match *command {
        Command::Free { slot } => frees(slot, what),
        Command::Drop { page: named } => page == named && drops(what),
        Command::Sync { page: named } => page == named && syncs(what),
        Command::Out { page: named } => page == named && goes_out(what),
        _ => false,
    }
}

/// Whether some signal is a SIGBUS to the thread that asks for an action.
fn has_own_sigbus(thread: Thread, signals: &[Signal]) -> bool
    ensures { IsTrue result ↔ HasOwnSigbus thread signals.now }
{
    signals.iter().any(|signal| signal.thread == thread && signal.code == Code::Ar)
}

/// Whether the access met a SIGBUS to the thread.
fn met_sigbus(thread: Thread, met: Met) -> bool
    ensures { IsTrue result ↔ IsSigbusTo thread met }
{
    match met {
        Met::Sigbus { thread: other } => other == thread,
        Met::Word { .. } => false,
    }
}

/// Whether the entry sent SIGBUS to the thread that met it.
fn sends_sigbus(thread: Thread, what: &What) -> bool
    ensures { IsTrue result ↔ SendsSigbus thread what.now }
{
    match what {
        What::Load { met, .. } => met_sigbus(thread, *met),
        What::Store { met, .. } => met_sigbus(thread, *met),
        What::Fail { signals, .. } => has_own_sigbus(thread, signals.as_slice()),
        _ => false,
    }
}

/// Whether the command is an access, and the entry one that answers it by SIGBUS.
fn is_sent(command: &Command, what: &What) -> bool
    ensures { IsTrue result ↔ IsSent command.now what.now }
{
    match *command {
        Command::Load { thread, .. }
        | Command::Fetch { thread, .. }
        | Command::KLoad { thread, .. }
        | Command::Store { thread, .. } => sends_sigbus(thread, what),
        _ => false,
    }
}

/// Whether the entry is one that the command's answer may name.
fn tells(command: &Command, answer: &Answer, what: &What) -> bool
    ensures { IsTrue result ↔ Tells command.now answer.now what.now }
{
    match *answer {
        Answer::Value { word, .. } => is_value(command, word, what),
        Answer::Stored(_) => is_stored(command, what),
        Answer::Sigbus(_) => is_sent(command, what),
        Answer::DoneAt(at) => is_done_to(command, at.page, what),
        _ => false,
    }
}

/// Whether such an entry of the command stands at the place.
fn is_told_at(case: &Case<'_>, answer: &Answer, at: At) -> bool
    ensures { IsTrue result ↔ IsToldAt case.now.report.pages case.now.who case.now.command answer.now at }
{
    match entry_at(case.report.pages.as_slice(), at) {
        Some(entry) => entry.who == case.who && tells(case.command, answer, &entry.what),
        None => false,
    }
}

/// The place of the entry that an answer names.
pub(crate) fn named_entry(answer: &Answer) -> Option<At>
    ensures { result ≡ entry_named answer.now }
{
    match *answer {
        Answer::Value { at, .. } => Some(at),
        Answer::Stored(at) => Some(at),
        Answer::Sigbus(at) => Some(at),
        Answer::DoneAt(at) => Some(at),
        Answer::Moved(_, at) => Some(at),
        _ => None,
    }
}

/// Whether an answer that names an entry, and doesn't tell of a frame that moved, has its cause.
pub(crate) fn is_by_entry(case: &Case<'_>, answer: &Answer) -> bool
    requires { is_by_entry answer.now ≡ true }
    ensures { IsTrue result ↔ IsCaused case.now.script case.now.report case.now.who case.now.command answer.now }
{
    match named_entry(answer) {
        Some(at) => is_told_at(case, answer, at),
        None => false,
    }
}
