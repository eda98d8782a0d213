//! Copy on write: the accesses by which a page is copied for a store, one after the other. All its rules are this project's own.
#![tactic(auto)]

mod cow;

pub use cow::{Cow, Sub};
pub use hwp_geom::{Line, VSlot};
