//! Soft offline: a frame is taken out of use while its content is still good. A page in it moves to another frame. And the command by
//! which a frame that failed, or was taken out of use, comes back.
#![tactic(auto)]

mod movable;
mod soft;
mod unpoison;

pub use soft::{Soft, SoftAnswer};
pub use unpoison::{Unpoison, UnpoisonAnswer};
