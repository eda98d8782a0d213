//! A memory failure of a frame, from its poison to its end, and the command that brings one about; and a machine check that is
//! acted on: each event that a bank holds has its grade, and the memory failures among them run one after the other.
#![tactic(auto)]

mod empty;
mod events;
mod fail;
mod handler;
mod inject;
mod lines;
mod told;

pub use empty::no_events;
pub use fail::{Fail, FailAnswer, Found};
pub use handler::Handler;
pub use hwp_banks::{BANKS, Bank, Event, Origin, Status};
pub use hwp_claim_frame::{
    At, Board, Body, Cpu, Entry, FileNo, Frame, FrameWord, Layout, Line, List, Mask, Mode,
    OutOfMemory, Outcome, Page, Proc, ProcessWord, Ranked, Scheduled, SharedWord, Step, StopWord,
    Task, Text, Thread, Turn, VSlot, Who, index, is_stopped, let_go_of, lowest_bit,
};
pub use hwp_law::{
    Access, Acted, Admit, Answer, Collector, Command, CpuLine, Decision, EventLine, FrameLine,
    Guest, GuestAccess, GuestLine, How, MAX_SCRIPT, MarkLine, McgBits, Noted, OfflineResult,
    OfflinedLine, PrctlArgs, Report, Script, Stop, StopCause, Taken, Version, Whereabouts, grade,
    guest_access, handle, is_text, print, read_number,
};
pub use inject::Inject;
pub use lines::ToldLines;
pub use told::{EventOutcome, Held};
