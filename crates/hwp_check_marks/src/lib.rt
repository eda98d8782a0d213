//! The rule of marks: the records of poisoning of frames, in pairs with the failures, events and answers that they are of.
#![tactic(auto)]

mod keys;
mod kinds;
mod lacking;
mod lows;
mod marks;
mod misrequired;
mod needed;
mod spots;
mod tallies;
mod unmarked;
mod unpaired;
mod urgent;

pub use marks::marks_fault;
