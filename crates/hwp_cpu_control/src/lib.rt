//! The commands that touch no page: one that only looks whether the machine has stopped, one by which a line of a frame goes bad
//! or weak, a machine check inside another one, prctl(2), fork(2), and an access that its guest doesn't admit.
#![tactic(auto)]

mod denied;
mod fork;
mod nested;
mod prctl;
mod read_stop;
mod spoil;

pub use denied::{Denial, Denied, DeniedAnswer};
pub use fork::{Fork, ForkAnswer, Targets};
pub use nested::{Nested, NestedAnswer};
pub use prctl::{Prctl, PrctlAnswer};
pub use read_stop::{ReadStop, ReadStopAnswer};
pub use spoil::{Spoil, SpoilAnswer};
