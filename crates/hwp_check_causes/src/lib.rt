//! Why an answer is right: the cause of each kind of answer, as a report shows it.
#![tactic(auto)]

mod asking;
mod befores;
mod case;
mod causes;
mod facts;
mod gathering;
mod known;
mod plain;
mod right;
mod telling;

pub use asking::named_state;
pub use befores::policies_before;
pub use case::Case;
pub use facts::{CommandFacts, ProcessorFacts, ReportFacts};
pub use gathering::{known_of, own_of};
pub use known::process_at;
pub use right::{is_offlined, is_right};
