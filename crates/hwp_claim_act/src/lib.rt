//! What a memory failure does to the page in its frame: it reads the policies of the threads that are signalled, takes the
//! page out of the frame, tells the processes, and puts the frame out of use.
#![tactic(auto)]

mod abandon;
mod act;
mod failing;
mod read_policies;

pub use abandon::{Abandon, Failed, Losses};
pub use act::Act;
pub use read_policies::{ReadPolicies, Rooms};
