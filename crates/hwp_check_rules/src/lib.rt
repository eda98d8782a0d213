//! The nine rules by which a report is judged, which lines break them, and what several rules read of a report. And the script that
//! the processors of a report acted on: each command through the translations that stood for those it names; and which stores copied
//! a page before they wrote.
#![tactic(auto)]

mod acted;
mod acting;
mod copying;
mod cows;
mod first;
mod making;
mod pairs;
mod pasts;
mod policies;
mod rows;
mod standing;
mod verdicts;

pub use acted::{ActedScript, acted_on, has_fork};
pub use cows::freezes_slot;
pub use first::{sooner, sooner_if, soonest};
pub use hwp_check_event_line::{
    Shown, copy_of, entries_on, entries_through, has_watch, rows_on, watches,
};
pub use hwp_law::{
    Access, Acted, Admit, Answer, At, Code, Command, Cpu, CpuLine, Entry, EventLine, FileNo, Frame,
    FrameLine, GuestAccess, GuestLine, How, Layout, Line, List, MarkLine, Mask, McgBits, Met, Mode,
    OfflineResult, OfflinedLine, OutOfMemory, Outcome, Page, PageKind, PageState, Policy,
    PrctlArgs, Proc, Reply, Report, Script, Seen, Signal, Situation, Stop, StopCause, Text, Thread,
    VSlot, Version, What, Whereabouts, Who, guest_access, is_text, prctl, words_in,
};
pub use making::{command_of, is_made_by, leads_to};
pub use pairs::{answers_to, pairs_of};
pub use pasts::{ThreadPolicies, done_of, pasts_of};
pub use policies::policy_before;
pub use rows::{answer_among, answer_of, commands_of, is_answer, rows_of, seq_of};
pub use standing::{
    cpu_at, entries_height, entry_height, file_at, first_page_line, frame_at, page_at, row_at,
};
pub use verdicts::{Rule, Verdict};
