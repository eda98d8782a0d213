//! The collector of corrected errors: it counts the corrected errors of each frame, by rounds, and says when a frame has had so many
//! that it is to be taken out of use. It is after Linux's Correctable Errors Collector, and all its rules are this project's own.
#![tactic(auto)]

mod collector;
mod ring;

pub use collector::{Collector, MAX_THRESHOLD, Noted};
pub use hwp_geom::{Frame, OutOfMemory};
pub use ring::MAX_WINDOW;
