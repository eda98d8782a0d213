//! What a command came to, from which its lines of the report and the notes of frames are made, the frames that are due beside it,
//! and what its processor carries to the next one.
#![tactic(auto)]

mod collect;
mod cows;
mod due;
mod guests;
mod local;
mod row;

pub use cows::{Cow, Cows};
pub use due::{DueFrames, take_notes};
pub use guests::Guests;
pub use hwp_claim::{
    Acted, Admit, Answer, BANKS, Bank, Board, Body, Collector, Command, Cpu, CpuLine, Decision,
    Entry, Event, EventLine, EventOutcome, FailAnswer, FileNo, Found, Frame, FrameLine, FrameWord,
    GuestLine, Held, How, Inject, Layout, List, MAX_SCRIPT, MarkLine, Mask, McgBits, Mode, Noted,
    OfflineResult, OfflinedLine, Origin, OutOfMemory, Page, PrctlArgs, Ranked, Report, Scheduled,
    Script, SharedWord, Status, Step, Stop, StopCause, StopWord, Task, Text, Turn, VSlot, Version,
    Whereabouts, Who, handle, index, is_text, no_events, print, read_number,
};
pub use local::{Handles, Local, Watching};
pub use row::{FrameChange, Offlining, Row};
