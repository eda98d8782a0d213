//! The commands on errors that no access meets: the scrubber, which goes over frames and meets the lowest bad line and the
//! lowest weak line of each; one that raises what its processor's banks hold; and one that logs an event into a bank, or gives its
//! processor a new collector.
#![tactic(auto)]

mod log;
mod raise;
mod scrub;

pub use log::{LocalChange, Log};
pub use raise::{Raise, RaiseAnswer, Raiser};
pub use scrub::{Scrub, ScrubAnswer};
