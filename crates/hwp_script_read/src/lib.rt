//! The fault script's reading from bytes.
#![tactic(auto)]

mod adding;
mod commands;
mod context;
mod cows;
mod faults;
mod forks;
mod guests;
mod judging;
mod reading;
mod why;

pub use hwp_script_lines::{
    Backing, Collector, Command, Cpu, FileNo, Frame, Go, Kind, Layout, Line, LineRead, List,
    MAX_COMMANDS, MAX_CPUS, MAX_SCHEDULE, MAX_SCRIPT, Mask, Mode, Noted, OutOfMemory, Page,
    PageKind, PrctlArgs, Proc, Script, ScriptLine, Text, Thread, ThreadDecl, TransDecl, Until,
    VSlot, Version, Who, Word, is_text, kind_name, put_line, read_lines, read_number, words_in,
};
pub use reading::{ReadScript, read};
pub use why::{Refused, Why};
