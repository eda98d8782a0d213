//! The page machine: a page's state, the entries of its history, and a body that keeps both together.
#![tactic(auto)]

mod belonging;
mod body;
mod entry;
mod failing;
mod replay;
mod sets;
mod situation;
mod state;

pub use body::Body;
pub use entry::{At, Entry, Met, What};
pub use hwp_kill::{
    Code, Cpu, Damage, FileNo, Frame, HeldSlots, Kind, Layout, Line, List, MAX_SIGNALS, Mask, Mode,
    OutOfMemory, Page, PageKind, Policy, Proc, Reply, Seen, Signal, SignalList, SignalRoom,
    SlotRoom, Slots, Text, Thread, VSlot, Version, Who, are_policies_read, lowest_bit,
    next_to_read, policy_word, prctl, signals,
};
pub use situation::{Outcome, Situation};
pub use state::PageState;
