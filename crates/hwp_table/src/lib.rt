//! The processors of a machine as seats at one table, under a scheduler: one seat at a time has all rights, and makes one
//! step. That the moves of the board led from the opening to it, and that the frame rule holds of it, stands in its type.
#![tactic(auto)]

mod board;
mod dealing;
mod hand;
mod ops;
mod turns;

pub use board::{OfTable, SeatBoard};
pub use hwp_table_words::{
    Bare, Cached, Ended, Machine, Pass, SeatOps, Sheet, TlbCounts, Ways, WordTable, begin, close,
    join, split,
};
