//! The machine's words and page bodies in one table of atomic words, for many threads, and behind them the entries of each
//! processor's translation cache. The frame rule and the rule of the caches are the rule of the table, so that they hold
//! between any two steps of any threads. A processor has a seat, which makes its steps.
#![tactic(auto)]

mod baton;
mod cache_plays;
mod caching;
mod carrying;
mod closing;
mod counts;
mod entries;
mod entry;
mod follow;
mod knowledge;
mod making;
mod opening;
mod operation;
mod ops;
mod plays;
mod seat;
mod steps;
mod ways;
mod words;

pub use baton::{join, let_go, split};
pub use closing::{Ended, close};
pub use counts::TlbCounts;
pub use entry::EntryWord;
pub use hwp_plain::Machine;
pub use knowledge::Knowledge;
pub use opening::begin;
pub use plays::{Pass, Rule, Sheet, Slot, WordTable};
pub use seat::SeatOps;
pub use ways::{Bare, Cached, Ways};
