use hwp_page::{FileNo, Frame, Page, Proc, Thread, VSlot};

/// A shared word of the machine (this project's rule).
#[derive(Clone, Copy)]
pub enum SharedWord {
    /// The state of a frame (Linux struct page).
    Frame(Frame),
    /// A translation (a page-table entry).
    Trans(VSlot),
    /// The frame that a page is in.
    Cache(Page),
    /// The lock of a page.
    Page(Page),
    /// A free bit for each of 64 frames, from frame 64 times the number on.
    Free(u32),
    /// The number of free frames that are not reserved.
    Available,
    /// The bad lines of a frame, a bit each.
    Bad(Frame),
    /// The weak lines of a frame, a bit each.
    Weak(Frame),
    /// The poisoned frames and the hardware failures (Linux num_poisoned_pages).
    Counter,
    /// The page of the signal that ended a process.
    Process(Proc),
    /// A thread's policy and the number of its settings (prctl(2)).
    Policy(Thread),
    /// The losses of a file so far.
    Loss(FileNo),
    /// The processor that stopped the machine.
    Stop,
}
