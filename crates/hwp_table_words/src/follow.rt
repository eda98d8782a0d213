use hwp_core_rule::{Frame, VSlot};

/// What follows a step of a seat in the translation caches.
#[derive(Clone, Copy)]
pub(crate) enum Follow {
    Nothing,
    /// An entry is filled with the translation.
    Fill(VSlot),
    /// The frame is swept.
    Sweep(Frame),
    /// Each frame that is locked is swept.
    SweepAll,
}
