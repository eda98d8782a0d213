//! Numbers and layout of the simulated machine, and the small types that all crates share.
#![tactic(auto)]

mod bits;
mod kind;
mod layout;
mod line;
mod lines;
mod list;
mod numbers;
mod text;
mod version;

pub use bits::lowest_bit;
pub use kind::Kind;
pub use layout::{
    Layout, MAX_COMMANDS, MAX_CPUS, MAX_FILES, MAX_FRAMES, MAX_PAGES, MAX_PROCS, MAX_THREADS,
    MAX_TRANS, PageKind, ThreadDecl, TransDecl,
};
pub use line::{LINES, Line};
pub use lines::Lines;
pub use list::List;
pub use numbers::{Cpu, Damage, FileNo, Frame, Mask, Mode, Page, Proc, Thread, VSlot, Who};
pub use text::Text;
pub use version::Version;

/// Out of memory: the one answer that no clause ties to a cause.
pub type OutOfMemory = std::alloc::AllocError;
