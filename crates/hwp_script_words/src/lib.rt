//! The words of a fault script as data: its commands, the turns of its schedule, and the script, which is the machine that it declares
//! with a list of commands for each processor; and what every script has that some text gives. Beside it stand the words of a line, the
//! number that a word is, the names of the kinds of step, and how a line of words is printed, which scripts, reports and traces share.
#![tactic(auto)]

mod command;
mod kinds;
mod numbers;
mod printing;
mod script;
mod words;

pub use command::{Command, Go, PrctlArgs, Until};
pub use hwp_cec::{Collector, MAX_THRESHOLD, MAX_WINDOW, Noted};
pub use hwp_geom::{
    Cpu, FileNo, Frame, Kind, LINES, Layout, Line, List, MAX_COMMANDS, MAX_CPUS, MAX_FILES,
    MAX_FRAMES, MAX_PAGES, MAX_PROCS, MAX_THREADS, MAX_TRANS, Mask, Mode, OutOfMemory, Page,
    PageKind, Proc, Text, Thread, ThreadDecl, TransDecl, VSlot, Version, Who,
};
pub use kinds::kind_name;
pub use numbers::read_number;
pub use printing::{Word, put_line, put_rest, put_word, put_words};
pub use script::{MAX_SCHEDULE, MAX_SCRIPT, Script};
pub use words::{is_text, words_in};
