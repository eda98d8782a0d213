//! Instructions that access memory, with the machine checks that they meet; and a store through a translation whose page is
//! copied first, to the page of the translation's twin.
#![tactic(auto)]

mod copying;
mod instruction;

pub use copying::Copying;
pub use hwp_fault::{AccessKind, Request};
pub use instruction::{Instruction, InstructionAnswer, Pause};
