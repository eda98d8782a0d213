//! The first tasks: a reference taken and given back, a page held and let go, a frame let go, a page's translations written and
//! the page taken out of its frame, and a command given up.
#![tactic(auto)]

mod clear;
mod give_up;
mod hold;
mod let_go;
mod pin;
mod refer;
mod release;
mod unhold;
mod unlock;
mod vacate;

pub use clear::Clear;
pub use give_up::GiveUp;
pub use hold::Hold;
pub use hwp_core_rule::{
    At, Board, Body, Code, CounterWord, Cpu, Damage, Entry, FileNo, Frame, FrameWord, FreeWord,
    HeldSlots, Kind, Layout, Line, List, Mask, Met, Mode, OutOfMemory, Outcome, POISON, Page,
    PageKind, PageState, PolicyWord, Proc, ProcessWord, Pte, REFERENCE, Ranked, Reply, Scheduled,
    Seen, SharedWord, Signal, SignalList, SignalRoom, Situation, SlotRoom, Slots, Step, StopWord,
    Task, Text, Thread, Turn, VSlot, Version, View, What, Who, advance, frame_in, index,
    is_stopped, lowest_bit, next_to_read, signals,
};
pub use let_go::let_go_of;
pub use pin::{Pin, PinAnswer};
pub use refer::Refer;
pub use release::{Release, ReleaseAnswer};
pub use unhold::{Unhold, UnholdAnswer};
pub use unlock::Unlock;
pub use vacate::Vacate;
