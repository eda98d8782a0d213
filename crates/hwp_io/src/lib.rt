//! The outside of the machine: where a script is read from, and where a report is written to.
#![tactic(auto)]

mod counts;
mod memory;
mod plan;
mod reading;
mod standard;
mod traits;
mod writing;

pub use memory::{MemSink, MemSource};
pub use reading::{Bytes, ReadAll, read_all};
pub use standard::{StdSink, StdSource};
pub use traits::{Failed, Sink, Source};
pub use writing::{WriteFault, write_all};
