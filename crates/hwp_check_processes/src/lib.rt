//! The rules of answers that speak of processes: whether guests' accesses are answered as the guests admit them, and whether guests are
//! told of those that SIGBUS answered; and whether parent and child read, behind a fork, what each would read if all memory had been
//! copied at the fork.
#![tactic(auto)]

mod admission;
mod busy;
mod judging;
mod loads;
mod private;
mod rule;
mod telling;
mod words;

pub use private::private_fault;
pub use rule::guests_fault;
