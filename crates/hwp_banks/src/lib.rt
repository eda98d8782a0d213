//! Machine-check banks (Intel SDM vol. 3, machine-check architecture): what a bank holds, which of two events stays in
//! it, and the bit that says that a machine check is in progress.
//!
//! The registers and their bits are Intel's. The overwrite table of [`Bank::log`], the bank numbers and the four events
//! of [`Origin`] are this project's rule.
#![tactic(auto)]

mod bank;
mod event;
mod mcg;
mod status;

pub use bank::{BANKS, Bank};
pub use bitflags::Flags;
pub use event::{Event, Origin};
pub use mcg::{Mcg, Shutdown};
pub use status::Status;
