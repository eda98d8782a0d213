//! The records of poisoning of frames: each in itself, and by the answers and the events of the commands that it names. And which frames
//! each command of a processor takes out of use beside its answer, by the notes of its event lines.
#![tactic(auto)]

mod beside;
mod collecting;
mod counts;
mod dues;
mod flags;
mod frames;
mod given;
mod index;
mod noted;
mod notes;
mod own;
mod records;
mod said;
mod softs;

pub use beside::{marking, spot_of};
pub use counts::{Counts, Key, add, add_if, count};
pub use dues::dues_of;
pub use frames::kept;
pub use index::{Index, index_of};
pub use noted::{Noted, is_result};
pub use own::add_own;
pub use records::soft_lines;
pub use said::{Rows, Said, row_of, said_of};
