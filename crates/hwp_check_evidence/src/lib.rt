//! What a report shows for the answers of its commands: the states of pages at places of their histories, the windows of
//! commands, the entries that answers name, the ends of processes, the records of frames, and the policies of threads.
#![tactic(auto)]

mod ample;
mod counts;
mod ends;
mod findings;
mod firsts;
mod glances;
mod marked;
mod named;
mod names;
mod repeats;
mod windows;

pub use ample::is_ample;
pub use counts::{event_counts, event_ends};
pub use ends::{had_ended, has_ending};
pub use findings::{Findings, findings_of};
pub use glances::{
    Glance, PageGlances, glances_of, was_away, was_cached, was_dirty, was_locked, was_mapped,
    was_unused,
};
pub use marked::{reported, was_hardware_seen};
pub use named::is_elsewhere;
pub use names::{Names, names_of};
pub use repeats::Repeats;
pub use windows::{Span, is_in_span, is_not_below, no_floors, raise};
