ghost use Rattle.std.specs.Prelude.{◌≡◌, ◌↔◌, ◌<◌, false, None, IsTrue, length, replicate, slice_index_or};
ghost use Rattle.hwp_law.specs.Answers.{is_answering};
ghost use Rattle.hwp_law.specs.Copies.{is_sigbus, must_be_named};
ghost use Rattle.hwp_check_event_line.specs.Reading.{copies_in};
ghost use Rattle.hwp_check_evidence.specs.Firsts.{is_at, is_named};
ghost use Rattle.hwp_check_evidence.specs.Named.{HasOther, flagged, flagged_pages, is_other};

use crate::names::{Names, is_named};
use hwp_check_event_line::copy_of;
use hwp_law::{At, Cpu, Entry, List, Met, VSlot, What, Who};

/// Whether a line of the command has to name the entry.
fn is_answering(what: &What) -> bool
    ensures { result ≡ is_answering what.now }
{
    !matches!(
        what,
        What::FaultIn | What::Map { .. } | What::Mce { .. } | What::Fail { .. }
    )
}

/// Whether the entry sent SIGBUS to who met it.
fn is_sigbus(what: &What) -> bool
    ensures { result ≡ is_sigbus what.now }
{
    match what {
        What::Load { met, .. } | What::Store { met, .. } => matches!(met, Met::Sigbus { .. }),
        _ => false,
    }
}

/// Whether a line of a command has to name the entry, where the command copied from this translation, if it copied.
fn must_be_named(from: Option<VSlot>, what: &What) -> bool
    ensures { result ≡ must_be_named from what.now }
{
    match from {
        None => is_answering(what),
        Some(_) => is_sigbus(what) || matches!(what, What::Soft),
    }
}

/// Whether this place is named.
pub(crate) fn is_at(named: Option<At>, at: At) -> bool
    ensures { result ≡ is_at named at }
{
    match named {
        None => false,
        Some(named) => named.page.0 == at.page.0 && named.entry == at.entry,
    }
}

/// The place that a command's answer names.
pub(crate) fn named_at(named: &[Option<At>], seq: u32) -> Option<At>
    ensures { result ≡ slice_index_or named.now seq None }
{
    match named.get(seq as usize) {
        Some(at) => *at,
        None => None,
    }
}

/// Whether the entry is one of the processor that a line of its command has to name, and none does.
fn is_other(names: &Names, copies: &[List<Option<VSlot>>], cpu: Cpu, at: At, entry: &Entry) -> bool
    ensures { result ≡ is_other (is_named names.now) (copies_in copies.now) cpu at entry.now }
{
    entry.who.cpu.0 == cpu.0
        && must_be_named(copy_of(copies, entry.who), &entry.what)
        && !is_named(names, entry.who.seq, at)
}

/// Sets the flag of the entry's command, if none of its lines names the entry.
pub(crate) fn flag(
    flags: &mut Vec<bool>,
    names: &Names,
    copies: &[List<Option<VSlot>>],
    cpu: Cpu,
    at: At,
    entry: &Entry,
)
    ensures { flags.new.items ≡ flagged (is_named names.now) (copies_in copies.now) cpu flags.old.items at entry.now }
{
    if is_other(names, copies, cpu, at, entry) {
        let seq = entry.who.seq as usize;
        if seq < flags.len() {
            flags[seq] = true;
        }
    }
}

/// Whether the command has an entry that a line of it has to name, and that none names.
pub fn is_elsewhere(
    pages: &[List<Entry>],
    names: &Names,
    copies: &[List<Option<VSlot>>],
    flags: &[bool],
    who: Who,
) -> bool
    requires flags { flags.now ≡ flagged_pages (is_named names.now) (copies_in copies.now) who.cpu (replicate (length flags.now) false) 0 pages.now }
    requires inside { who.seq < length flags.now }
    ensures { IsTrue result ↔ HasOther pages.now (copies_in copies.now) who (is_named names.now who.seq) }
{
    let _pages = pages;
    let _names = names;
    let _copies = copies;
    flags[who.seq as usize]
}
