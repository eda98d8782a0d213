//! The top calls: a command's words and input to its output and status. And the runs that they make, of a script's processors, one
//! task each: turn by turn in the order of the schedule, watched or not, or on threads of their own. What needs no processor stands in
//! hwp_top_words: which call words are, how an input is read, and what a status tells.
#![tactic(auto)]

mod calls;
mod crew;
mod outputs;
mod plain;
mod playing;
mod run_calls;
mod running;
mod threaded;
mod threading;
mod trace_calls;
mod traced;
mod tracing;

pub use calls::top;
pub use hwp_threads::{Gate, Open, Point};
pub use hwp_top_report::Cpu;
pub use hwp_top_words::{Call, Done};
pub use plain::run_plain;
pub use playing::play;
pub use run_calls::top_run;
pub use running::run_in_turns;
pub use threading::run_on_threads;
pub use trace_calls::top_trace;
pub use tracing::{Watched, trace};
