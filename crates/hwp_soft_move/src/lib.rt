//! Parts of soft offline: a good frame is taken from those that use it, or could; one without a page is put out of use, and a page
//! in it moves to another frame.
#![tactic(auto)]

mod discard;
mod relocate;
mod remap;
mod seize;

pub use discard::Discard;
pub use relocate::Relocate;
pub use seize::{Seize, SeizeAnswer};
