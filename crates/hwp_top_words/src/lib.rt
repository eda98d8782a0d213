//! What a call does before any run and behind it: what its words ask for, what its source gives, and the output and the messages with
//! their statuses. Nothing here needs a processor.
#![tactic(auto)]

mod checking;
mod delivering;
mod done;
mod inputs;
mod messages;
mod output;
mod run_words;
mod served;
mod words;

pub use checking::checked;
pub use delivering::{deliver, tell_fault};
pub use done::Done;
pub use hwp_io::{Sink, Source};
pub use hwp_report::{print_summary, summary};
pub use hwp_script::generate;
pub use inputs::{InputFault, take_script};
pub use messages::{USAGE, tell};
pub use output::{Output, script_text, status_of};
pub use run_words::run_of;
pub use served::Call;
pub use words::call_of;
