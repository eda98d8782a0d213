//! Processors on threads of their own: each makes its turns until its task is over, whatever the others do; and workers at one
//! table, which have a seat for each processor and give one seat back that has all views when they have ended.
#![tactic(auto)]

mod dealing;
mod gate;
mod gathering;
mod running;
mod worker;

pub use dealing::{SeatWorker, deal};
pub use gate::{Gate, Open, Point};
pub use gathering::gather;
pub use hwp_table_words::{Pass, Sheet, Ways};
pub use running::run_all;
pub use worker::Worker;
