//! Tasks by which pages come into frames and leave them: a free frame is taken, which isn't poisoned and has the processor's lock and
//! one reference, and a page is put into it, with the entry that it was brought in; a translation freed, a page's content written
//! back, a page dropped or swapped out; and the losses of a file told.
#![tactic(auto)]

mod evict;
mod fill;
mod fsync;
mod take;

pub use evict::{Evict, EvictAnswer, Eviction, Refusal};
pub use fill::{Fill, FillAnswer};
pub use fsync::{Fsync, FsyncAnswer};
pub use hwp_core::{
    At, Body, Damage, FileNo, Frame, Layout, Line, List, Mode, Outcome, Page, Proc, Ranked, Reply,
    Scheduled, Step, Task, Thread, Turn, VSlot, Who,
};
pub use take::{Take, TakeAnswer};
