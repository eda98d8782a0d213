//! The report of a run: its type, and its one text.
#![tactic(auto)]

mod frames;
mod lines;
mod printing;
mod report;
mod terms;

pub use frames::{FrameLine, How, MarkLine, Whereabouts};
pub use hwp_guest::{
    Access, Admit, Arrival, Decision, Grade, Guest, McgBits, Severity, Taken, grade, handle,
};
pub use hwp_page::{
    At, Code, Cpu, Entry, Frame, Line, List, MAX_SIGNALS, Mask, Met, Mode, OutOfMemory, Outcome,
    Page, PageState, Policy, Proc, Reply, Seen, Signal, Situation, Slots, Text, Thread, VSlot,
    Version, What, Who, policy_word, prctl,
};
pub use lines::{Acted, Answer, CpuLine, EventLine, GuestLine, OfflineResult, OfflinedLine};
pub use printing::print;
pub use report::{Report, Stop, StopCause};
pub use terms::{acted_word, guest_word, outcome_word, situation_word};
