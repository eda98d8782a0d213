use hwp_page::{List, Mask, Outcome, Page, Situation, Who};

/// Where a frame is.
#[derive(Clone, Copy)]
pub enum Whereabouts {
    /// On the free list.
    Free,
    /// The kernel's own.
    Kernel,
    /// Poisoned, and kept out of use.
    Handled,
    /// It holds a page.
    Of(Page),
}

/// How a frame came to be poisoned.
#[derive(Clone, Copy)]
pub enum How {
    /// By a memory failure: whether a bank's event caused it or a command did, what it found, and what came of it.
    Failure {
        hardware: bool,
        situation: Situation,
        outcome: Outcome,
    },
    /// By soft offline: its page moved to another frame.
    Moved,
    /// By soft offline: it had no page.
    TakenFree,
}

/// A mark on a frame's record, with the frame's cycle: how often it had been poisoned before.
#[derive(Clone, Copy)]
pub enum MarkLine {
    Poisoned { cycle: u32, who: Who, how: How },
    Unpoisoned { cycle: u32, who: Who },
}

/// The line of a frame: where it is, its bad and its weak lines, and its record.
pub struct FrameLine {
    pub place: Whereabouts,
    pub bad: Mask,
    pub weak: Mask,
    pub marks: List<MarkLine>,
}

// Proved here once, as that of a report.
impl Drop for FrameLine {
    fn drop(self) {
        let FrameLine {
            place: _,
            bad: _,
            weak: _,
            marks,
        } = self;
        drop(marks);
    }
}
