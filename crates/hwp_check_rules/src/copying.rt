ghost use Rattle.std.specs.Prelude.{◌≡◌, ◌↔◌, IsSomeAnd, IsTrue};
ghost use Rattle.hwp_law.specs.Copies.{FitsCopy, IsCopyPage, MakesCopy, slot_in};
ghost use Rattle.hwp_law.specs.hwp_geom.declared.VSlot.{VSlot as Slot};
ghost use Rattle.hwp_check_event_line.specs.Reading.{copies_in};

use crate::making::{is_met_by, leads_to};
use hwp_check_event_line::copy_of;
use hwp_law::{Command, Entry, Layout, List, Page, Thread, VSlot, What};

/// Whether the entry is one of a copy from one translation through another by the thread.
fn fits_copy(thread: Thread, from: VSlot, to: VSlot, what: &What) -> bool
    ensures { IsTrue result ↔ FitsCopy thread from to what.now }
{
    match what {
        What::Load { slot, met, .. } => *slot == from && is_met_by(thread, *met),
        What::Store { slot, met, .. } => *slot == to && is_met_by(thread, *met),
        What::Map { slot } => *slot == from || *slot == to,
        What::Mce { slot, .. } => *slot == from || *slot == to,
        What::Free { slot } => *slot == from,
        What::FaultIn => true,
        _ => false,
    }
}

/// The translation that the entry is through, if it names one.
fn slot_in(what: &What) -> Option<VSlot>
    ensures { result ≡ slot_in what.now }
{
    match what {
        What::Load { slot, .. }
        | What::Store { slot, .. }
        | What::Map { slot }
        | What::Mce { slot, .. }
        | What::Free { slot } => Some(*slot),
        _ => None,
    }
}

/// Whether the page is that of the translation, or of one of the two where the entry names none.
fn is_copy_page(layout: &Layout, from: VSlot, to: VSlot, page: Page, slot: Option<VSlot>) -> bool
    ensures { IsTrue result ↔ IsCopyPage layout.now from to page slot }
{
    match slot {
        Some(slot) => leads_to(layout, page, slot),
        None => leads_to(layout, page, from) || leads_to(layout, page, to),
    }
}

/// Whether a command that copies from this translation makes the entry in the page.
fn makes_copy(layout: &Layout, from: VSlot, command: &Command, page: Page, what: &What) -> bool
    ensures { IsTrue result ↔ MakesCopy layout.now from command.now page what.now }
{
    match *command {
        Command::Store {
            thread,
            slot: to,
            ..
        } => fits_copy(thread, from, to, what)
            && is_copy_page(layout, from, to, page, slot_in(what)),
        _ => false,
    }
}

/// Whether the entry is one of a copy that its command makes.
pub(crate) fn is_copied(
    layout: &Layout,
    copies: &[List<Option<VSlot>>],
    command: &Command,
    page: Page,
    entry: &Entry,
) -> bool
    ensures { IsTrue result ↔ IsSomeAnd (copies_in copies.now entry.now.who) (λ (from : Slot). MakesCopy layout.now from command.now page entry.now.what) }
{
    match copy_of(copies, entry.who) {
        Some(from) => makes_copy(layout, from, command, page, &entry.what),
        None => false,
    }
}
