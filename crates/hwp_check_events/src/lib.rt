//! The event lines of a report: whether the lines of a command are those that its machine checks ask, and if not, which is the
//! first that isn't, and whether some lack.
#![tactic(auto)]

mod accesses;
mod case;
mod checks;
mod copied;
mod faults;
mod index;
mod indexed;
mod judge;
mod known;
mod misfits;
mod processors;
mod tables;
mod walk;

pub use checks::checkers_of;
pub use index::events_by_command;
pub use misfits::Misfits;
pub use processors::{processor_faults, small_masks};
