//! The commands of one processor as one task: they run one after the other, and each comes to a row.
#![tactic(auto)]

mod course;
mod crew;
mod processor;

pub use crew::{Rows, rows_of};
pub use processor::Processor;
