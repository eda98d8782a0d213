//! The words of a report, read back: numbers, and values that have names, each from its one word alone; and what stands below
//! processors and below pages, and what stopped the machine, each from the words of its line.
#![tactic(auto)]

mod answers;
mod entries;
mod failures;
mod guests;
mod numbers;
mod offlines;
mod replies;
mod stops;
mod terms;
mod verbs;
mod words;

pub use answers::read_cpu_line;
pub use entries::{read_failure, read_plain_entry, read_seen, read_signal};
pub use failures::Failure;
pub use numbers::{
    is_text, read_at, read_hex, read_line_number, read_number, read_u8, read_u16, read_u32,
    read_who,
};
pub use stops::read_stop;
pub use terms::{
    read_acted, read_code, read_flag, read_guest_outcome, read_mode, read_origin, read_outcome,
    read_policy, read_situation, read_version,
};
pub use verbs::Verb;
pub use words::{HasWord, named};
