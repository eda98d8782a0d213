//! The frame rule: what holds of the machine's shared words, of the page bodies and of what the processors know, between
//! any two atomic steps; and tasks, which are data that say which step comes, with the one driver that makes their steps. This
//! crate has the plain data that the rule speaks of, its definitions, the laws of its parts, and what a processor knows of one
//! of its commands. The boards above it keep the rule.
#![tactic(auto)]

mod board;
mod driver;
mod log;
mod ops;
mod ranked;
mod record;
mod scheduled;
mod shared_word;
mod slot_move;
mod step;
mod table;
mod task;
mod turn;
mod view;
mod words;

pub use board::Board;
pub use driver::advance;
pub use hwp_page::{
    At, Body, Code, Cpu, Damage, Entry, FileNo, Frame, HeldSlots, Kind, Layout, Line, List, Mask,
    Mode, OutOfMemory, Outcome, Page, PageKind, PageState, Policy, Proc, Reply, Seen, Signal,
    SignalList, SignalRoom, Situation, SlotRoom, Slots, Text, Thread, VSlot, Version, What, Who,
    lowest_bit, next_to_read, policy_word, prctl, signals,
};
pub use hwp_words::{
    CacheWord, CounterWord, FrameWord, FreeWord, HANDLED, LOCK, POISON, PageWord, PolicyWord,
    ProcessWord, Pte, REFERENCE, StopWord, is_stopped,
};
pub use log::Log;
pub use ops::{Met, Ops};
pub use ranked::Ranked;
pub use record::{Rec, State};
pub use scheduled::Scheduled;
pub use shared_word::SharedWord;
pub use slot_move::SlotMove;
pub use step::Step;
pub use task::{Task, is_over};
pub use turn::Turn;
pub use view::{
    Debts, FrameInHand, FrameLock, InHand, Length, Made, Mark, MarkKind, PageLock, Part, Ref,
    Setting, Sight, Spoiled, Stamp, View,
};
pub use words::{frame_in, index};
