//! The machine at a table where each processor has a cache of translations: the seats, their board and what the table is
//! closed with, as in hwp_table, and the law that no entry of a cache ever names a handled frame.
#![tactic(auto)]

mod law;
mod tables;

pub use hwp_core_rule::{Cpu, Layout, List, OutOfMemory};
pub use hwp_table::{Machine, OfTable, TlbCounts};
pub use hwp_table_words::Slot;
pub use law::no_entry_names_a_handled_frame;
pub use tables::{
    TlbBoard, TlbEnded, TlbPass, TlbSeat, TlbShared, TlbTable, begin, close, join, split,
};
