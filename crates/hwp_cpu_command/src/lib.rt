//! A command of a fault script as one task, whatever it does, and the answer that its report line gives.
#![tactic(auto)]

mod begin;
mod job;

pub use job::{Job, offlined_by};
