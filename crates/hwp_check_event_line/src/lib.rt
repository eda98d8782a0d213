//! What one event line of a report may say, and the records of frames that it rests on: whether a frame was poisoned, or wasn't, while a
//! command ran, and what the marks of a command say. What is asked of records is kept for all commands of a processor, so that an answer
//! doesn't walk over one. And the event lines of a scrub: whether they are those that its machine checks ask, and if not, which is the
//! first that isn't, and whether some lack. And what all that judge a report read of it and its script at a place.
#![tactic(auto)]

mod acts;
mod faults;
mod judging;
mod lines;
mod marked;
mod nears;
mod reach;
mod reading;
mod records;
mod results;
mod scrubs;
mod shown;
mod traced;
mod windows;

pub use acts::{has_stopper, is_line_of, is_raw_line, may_stop};
pub use faults::Faults;
pub use judging::scrub_faults;
pub use lines::is_bad_at;
pub use marked::{came_to, was_moved, was_taken_back, was_taken_free};
pub use nears::{MarkIndex, Nears, past_of};
pub use reach::{Reach, Turn};
pub use reading::{copy_of, entries_on, entries_through, has_watch, rows_at, rows_on, watches};
pub use records::is_same_command;
pub use results::{Results, has_result, results_of};
pub use shown::Shown;
pub use traced::Traced;
pub use windows::was_poisoned;
