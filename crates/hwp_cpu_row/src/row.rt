use hwp_claim::{Answer, EventOutcome, Found, Frame, GuestLine, List, OfflineResult};

/// What a command did to a frame itself, beside the failures that its machine checks told (this project's rule).
#[derive(Clone, Copy)]
pub enum FrameChange {
    /// It made the frame fail: what the failure found where it poisoned the frame.
    Failed {
        frame: Frame,
        found: Found,
    },
    /// It took the frame out of use while its content was good, and poisoned it in this cycle; `moved` if a page left it for
    /// another frame, and not if it had no page.
    Offlined {
        frame: Frame,
        cycle: u32,
        moved: bool,
    },
    /// It took back the frame's poison of this cycle.
    Revived {
        frame: Frame,
        cycle: u32,
    },
}

/// A frame that was taken out of use beside a command, or was to be (this project's rule).
#[derive(Clone, Copy)]
pub struct Offlining {
    pub frame: Frame,
    /// What came of it.
    pub result: OfflineResult,
    /// What was done to the frame, where it was taken out of use.
    pub change: Option<FrameChange>,
    /// How many events the command had told of by then.
    pub told: usize,
}

/// What a command came to (this project's rule).
#[derive(Drop)]
pub struct Row {
    /// What was done about the events of its machine checks, in order.
    pub told: List<EventOutcome>,
    /// The frames that were taken out of use beside it, in order.
    pub offlined: List<Offlining>,
    /// What it did to a frame itself.
    pub own: Option<FrameChange>,
    /// The machine check of a guest that its access brought about. The line's number is that of the command.
    pub guest: Option<GuestLine>,
    pub answer: Answer,
}
