//! The parts of a memory failure that take a poisoned frame from those that use it, or could: a free one is taken out of
//! the free ones, and one in use is met under its locks.
#![tactic(auto)]

mod claim;
mod grab;
mod meet;

pub use claim::{Claim, ClaimAnswer};
pub use grab::{Grab, GrabAnswer};
pub use hwp_core::{
    At, Board, Body, CounterWord, Cpu, Entry, FileNo, Frame, FrameWord, GiveUp, HeldSlots, Layout,
    Line, List, Mask, Mode, OutOfMemory, Outcome, Page, Proc, ProcessWord, Pte, Ranked, Refer,
    Release, Scheduled, SharedWord, Situation, SlotRoom, Slots, Step, StopWord, Task, Text, Thread,
    Turn, Unhold, Unlock, VSlot, What, Who, index, is_stopped, let_go_of, lowest_bit,
};
pub use meet::{Meet, MeetAnswer};
