//! An access to a page: a fault brings the page into a frame and a translation of it into use, and the word at a line is
//! read or written.
#![tactic(auto)]

mod access;
mod fault;
mod map_in;
mod touch;

pub use access::{Access, AccessAnswer, Request};
pub use fault::{Fault, FaultAnswer};
pub use hwp_evict::{Evict, EvictAnswer, Fill, FillAnswer, Take, TakeAnswer};
pub use map_in::MapIn;
pub use touch::{AccessKind, Touch};
