use hwp_report_text::{Situation, Thread, Who};

/// The line of a memory failure, with the numbers of policies and of signals whose lines follow it.
#[derive(Clone, Copy)]
pub struct Failure {
    /// The command that met it.
    pub who: Who,
    /// What it found in the frame.
    pub situation: Situation,
    /// The thread that needs the page, if one does.
    pub required: Option<Thread>,
    /// The number of policies that it read.
    pub seen: u64,
    /// The number of signals that it made.
    pub signals: u64,
}
