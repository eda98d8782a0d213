use hwp_geom::{Cpu, FileNo, Frame, Kind, Line, Page, Proc, Thread, VSlot};

/// The five numbers of a `prctl` command, named as in prctl(2): the operation and its four arguments.
#[derive(Clone, Copy)]
pub struct PrctlArgs {
    pub operation: u64,
    pub arg2: u64,
    pub arg3: u64,
    pub arg4: u64,
    pub arg5: u64,
}

/// A command of a processor.
#[derive(Clone, Copy)]
pub enum Command {
    /// A thread loads the word at a line, through a translation.
    Load {
        thread: Thread,
        slot: VSlot,
        line: Line,
    },
    /// As `Load`, for an instruction: a bad line is met by a fetch.
    Fetch {
        thread: Thread,
        slot: VSlot,
        line: Line,
    },
    /// As `Load`, in kernel mode.
    KLoad {
        thread: Thread,
        slot: VSlot,
        line: Line,
    },
    /// A thread stores a word at a line, through a translation.
    Store {
        thread: Thread,
        slot: VSlot,
        line: Line,
        word: u64,
    },
    /// Releases a translation.
    Free {
        slot: VSlot,
    },
    /// Frees the frame of a clean page.
    Drop {
        page: Page,
    },
    /// Writes a page back to its file.
    Sync {
        page: Page,
    },
    /// Swaps an anonymous page out.
    Out {
        page: Page,
    },
    /// Tells the losses of a file that its processor hasn't been told of, as fsync(2) reports an error once for each open file.
    Fsync {
        file: FileNo,
    },
    /// Opens a file anew, as open(2) does: its processor has been told of the losses so far.
    Open {
        file: FileNo,
    },
    /// A thread calls prctl(2), with PR_MCE_KILL or PR_MCE_KILL_GET where the numbers say so.
    Prctl {
        thread: Thread,
        args: PrctlArgs,
    },
    /// A line of a frame goes bad: an uncorrected error.
    Bad {
        frame: Frame,
        line: Line,
    },
    /// A line of a frame gets weak: a corrected error.
    Weak {
        frame: Frame,
        line: Line,
    },
    /// The scrubber goes over the frames from `first` to `last`.
    Scrub {
        first: Frame,
        last: Frame,
    },
    /// A raw event of this status, address and misc word in bank 1.
    Log {
        status: u64,
        addr: u64,
        misc: u64,
    },
    /// A machine check in a thread, with these bits of IA32_MCG_STATUS (Intel SDM vol. 3).
    RaiseUser {
        thread: Thread,
        ripv: bool,
        eipv: bool,
    },
    /// A machine check in the kernel, with these bits of IA32_MCG_STATUS (Intel SDM vol. 3).
    RaiseKernel {
        ripv: bool,
        eipv: bool,
    },
    /// A machine check while one is handled, which shuts the processor down (Intel SDM vol. 3).
    RaiseNested,
    /// A memory failure of a frame, by software.
    Inject {
        frame: Frame,
    },
    /// Soft offline (Linux hwpoison.rst): takes a frame out of use, and keeps its content.
    Soft {
        frame: Frame,
    },
    /// Takes the failure of a frame back.
    Unpoison {
        frame: Frame,
    },
    /// The processor gets a new collector of corrected errors, which is to take a frame out of use when `threshold` of them are noted of
    /// it within the last `window` rounds.
    Watch {
        threshold: u16,
        window: u8,
    },
    /// The thread's process makes the process its child, as fork(2) does: both read the same memory until one of them stores.
    Fork {
        thread: Thread,
        process: Proc,
    },
}

/// How long a processor goes on, in a word of a schedule.
#[derive(Clone, Copy)]
pub enum Until {
    /// `C`: for one turn.
    One,
    /// `C.`: up to the end of the command, or to the first turn that waits.
    Command,
    /// `C@KIND`: up to the first step of that kind, the end of the command, or the first turn that waits.
    After(Kind),
}

/// A word of the schedule: a processor goes on.
#[derive(Clone, Copy)]
pub struct Go {
    pub cpu: Cpu,
    pub until: Until,
}
