use crate::frames::FrameLine;
use crate::lines::CpuLine;
use hwp_guest::McgBits;
use hwp_page::{Entry, Frame, List, Mode, Version, Who};

/// What stopped the machine.
#[derive(Clone, Copy)]
pub enum StopCause {
    /// The event of a bank: the row of the severity table that graded it, the bank, and what was graded.
    Severity {
        row: u8,
        bank: u8,
        status: u64,
        mcg: McgBits,
        mode: Mode,
    },
    /// A machine check came inside a machine check (Intel SDM vol. 3).
    Shutdown,
    /// A memory failure of this frame where `vm.memory_failure_recovery` is 0 (Linux hwpoison.rst).
    Panic(Frame),
}

/// What stopped the machine, and the command that met it.
#[derive(Clone, Copy)]
pub struct Stop {
    pub who: Who,
    pub cause: StopCause,
}

/// What a run is reported as.
pub struct Report {
    /// The version of the script that was run.
    pub version: Version,
    /// What stopped the machine, if it was stopped.
    pub stop: Option<Stop>,
    /// The number of poisoned frames.
    pub count: u64,
    /// For each file, the number of its losses.
    pub files: List<u64>,
    /// A line for each frame.
    pub frames: List<FrameLine>,
    /// The history of each page.
    pub pages: List<List<Entry>>,
    /// The lines of each processor.
    pub cpus: List<List<CpuLine>>,
}

// Proved here once: crates above that let a report go cite it.
impl Drop for Report {
    fn drop(self) {
        let Report {
            version: _,
            stop: _,
            count: _,
            files,
            frames,
            pages,
            cpus,
        } = self;
        drop(files);
        drop(frames);
        drop(pages);
        drop(cpus);
    }
}
