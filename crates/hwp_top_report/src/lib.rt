//! The report of what a run came to: of the words and the histories of its board, whichever board it was, and of the rows of its
//! processors; and why it is of a run, and lawful, where the run has ended.
#![tactic(auto)]

mod closing;
mod finishing;
mod frames;
mod lines;
mod notes;
mod records;
mod stopping;
mod words;

pub use closing::report;
pub use finishing::{Finished, finish_run};
pub use hwp_cpu_row::{
    Board, Cpu, List, MAX_SCRIPT, OutOfMemory, Report, Script, Text, is_text, print, read_number,
};
pub use hwp_plain::{PlainBoard, TraceLine, TracedBoard, print_trace, step_all};
pub use hwp_table_words::{Bare, Cached, Ended, Pass, Sheet, Slot, Ways, begin, close};
