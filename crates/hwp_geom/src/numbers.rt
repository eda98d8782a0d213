ghost use Rattle.std.specs.Prelude.{◌↔◌, IsTrue, IsBitSet};

use crate::line::Line;

/// A processor, from 0.
#[derive(Clone, Copy, PartialEq, Eq)]
pub struct Cpu(pub u8);

/// A page frame of physical memory, from 0: 64 lines of one 64-bit word each.
#[derive(Clone, Copy, PartialEq, Eq)]
pub struct Frame(pub u16);

/// A page: content that a frame may hold, from 0.
#[derive(Clone, Copy, PartialEq, Eq)]
pub struct Page(pub u16);

/// A translation (a page-table entry) of one process to one page, from 0.
#[derive(Clone, Copy, PartialEq, Eq)]
pub struct VSlot(pub u16);

/// A thread, from 0.
#[derive(Clone, Copy, PartialEq, Eq)]
pub struct Thread(pub u8);

/// A process, from 0.
#[derive(Clone, Copy, PartialEq, Eq)]
pub struct Proc(pub u8);

/// A file, from 0.
#[derive(Clone, Copy, PartialEq, Eq)]
pub struct FileNo(pub u8);

/// A set of the 64 lines of a frame: bit `n` is line `n`.
#[derive(Clone, Copy, PartialEq, Eq)]
pub struct Mask(pub u64);

impl Mask {
    /// Whether the line is in the set.
    pub fn has(self, line: Line) -> bool
        ensures { IsTrue result ↔ IsBitSet self.0 line }
    {
        self.0 & (1 << line.get()) != 0
    }
}

/// Who did something: a processor, and the number of its command from 0.
#[derive(Clone, Copy, PartialEq, Eq)]
pub struct Who {
    pub cpu: Cpu,
    pub seq: u32,
}

/// The mode of a processor when a machine check arrives.
#[derive(Clone, Copy, PartialEq, Eq)]
pub enum Mode {
    User,
    Kernel,
}

/// How a line of memory went wrong: an uncorrected error, or a corrected one.
#[derive(Clone, Copy, PartialEq, Eq)]
pub enum Damage {
    Bad,
    Weak,
}
