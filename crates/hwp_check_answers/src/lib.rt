//! The rule of answers: each line of a processor in its place, an answer for each command, each answer, each event line and each line
//! of a frame taken out of use right; and the first line of a report that breaks it.
#![tactic(auto)]

mod answering;
mod disorders;
mod events;
mod facts;
mod faults;
mod given;
mod judging;
mod offlines;
mod placing;
mod processor;
mod rule;
mod sifting;
mod so_far;
mod tally;
mod walk;

pub use rule::answers_fault;
