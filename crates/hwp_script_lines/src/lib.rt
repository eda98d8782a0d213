//! The lines of a fault script: their kinds, and their reading from bytes.
#![tactic(auto)]

mod commands;
mod keywords;
mod kinds;
mod lines;
mod numbers;
mod script_line;
mod sentences;
mod turns;
mod words;

pub use hwp_script_words::{
    Collector, Command, Cpu, FileNo, Frame, Go, Kind, Layout, Line, List, MAX_COMMANDS, MAX_CPUS,
    MAX_FILES, MAX_PROCS, MAX_SCHEDULE, MAX_SCRIPT, MAX_THREADS, Mask, Mode, Noted, OutOfMemory,
    Page, PageKind, PrctlArgs, Proc, Script, Text, Thread, ThreadDecl, TransDecl, Until, VSlot,
    Version, Who, Word, is_text, kind_name, put_line, read_number, words_in,
};
pub use lines::read_lines;
pub use script_line::{Backing, LineRead, Numbered, ScriptLine};
