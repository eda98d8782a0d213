//! How severe the events of a processor's machine-check banks are: a table of fourteen rows (this project's rule) over the bits of
//! IA32_MCi_STATUS and IA32_MCG_STATUS (Intel SDM vol. 3), and which of the banks stops the machine.
#![tactic(auto)]

mod grading;
mod handling;
mod types;

pub use grading::grade;
pub use handling::{Decision, handle};
pub use hwp_banks::{Bank, Event, Mcg, Origin};
pub use types::{Arrival, Grade, McgBits, Severity};
