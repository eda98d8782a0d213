//! The report law: what must hold between a fault script and a report of its run; and below it what a command is apart from any
//! report, as the tasks of commands cite it too: its access, its thread and process, how its machine checks arrive, which policies it
//! sets, and what it tells the collector of corrected errors. All but `guest_access`, which a processor and the checker call, is
//! definitions and lemmas, which the crates above cite in their contracts.
#![tactic(auto)]

mod guests;

pub use guests::{GuestAccess, guest_access};
pub use hwp_report_text::{
    Access, Acted, Admit, Answer, Arrival, At, Code, CpuLine, Decision, Entry, EventLine,
    FrameLine, Grade, Guest, GuestLine, How, MarkLine, McgBits, Met, OfflineResult, OfflinedLine,
    Outcome, PageState, Policy, Reply, Report, Seen, Severity, Signal, Situation, Slots, Stop,
    StopCause, Taken, Version, What, Whereabouts, grade, handle, prctl, print,
};
pub use hwp_script_words::{
    Collector, Command, Cpu, FileNo, Frame, Layout, Line, List, MAX_SCRIPT, Mask, Mode, Noted,
    OutOfMemory, Page, PageKind, PrctlArgs, Proc, Script, Text, Thread, ThreadDecl, VSlot, Who,
    is_text, read_number, words_in,
};
