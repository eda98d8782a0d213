//! A guest: processes that run on frames of their own, with a machine-check bank of their own. When an access of the guest is answered
//! by SIGBUS, the guest has the error as an event of its bank, and goes on without the frame, or stops. All its rules are this project's own.
#![tactic(auto)]

mod access;
mod guest;

pub use access::{Access, Admit, Taken};
pub use guest::Guest;
pub use hwp_kill::{Line, Mode, VSlot};
pub use hwp_severity::{Arrival, Decision, Event, Grade, McgBits, Severity, grade, handle};
