ghost use Rattle.std.specs.Prelude.{◌↔◌, IsTrue};
ghost use Rattle.hwp_page.specs.Step.{IsOf, IsThreadOf};

use hwp_kill::{Layout, Page, Thread, VSlot};

/// Whether the translation belongs to the page.
pub fn is_of(layout: &Layout, page: Page, slot: VSlot) -> bool
    ensures { IsTrue result ↔ IsOf layout.now page slot }
{
    match layout.trans.as_slice().get(usize::from(slot.0)) {
        Some(translation) => translation.page == page,
        None => false,
    }
}

/// Whether the thread is one of the translation's process.
pub(crate) fn is_thread_of(layout: &Layout, thread: Thread, slot: VSlot) -> bool
    ensures { IsTrue result ↔ IsThreadOf layout.now thread slot }
{
    let threads = layout.threads.as_slice();
    let translations = layout.trans.as_slice();
    match (
        threads.get(usize::from(thread.0)),
        translations.get(usize::from(slot.0)),
    ) {
        (Some(declared), Some(translation)) => declared.process == translation.process,
        _ => false,
    }
}
