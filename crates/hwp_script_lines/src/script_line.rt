use hwp_script_words::{Command, Go, List, Version};

/// What stands behind a page, with its numbers as they are written.
#[derive(Clone, Copy)]
pub enum Backing {
    /// `anon`: nothing.
    Anon,
    /// `file N fill X`: a file, whose words are all `fill` at opening.
    File { file: u64, fill: u64 },
}

/// A line of a script. The numbers of a declaration stand as they are written, those of a command and of the schedule
/// within their ranges.
#[derive(Drop)]
pub enum ScriptLine {
    /// `hwp 1` or `hwp 2`: the head of a script, with its version.
    Header(Version),
    /// `cpus N`: the number of processors.
    Cpus(u64),
    /// `frames N`: the number of frames.
    Frames(u64),
    /// `kernel F`: a frame that belongs to the kernel.
    Kernel(u64),
    /// `recovery B`: the setting `vm.memory_failure_recovery`.
    Recovery(u64),
    /// `early B`: the setting `vm.memory_failure_early_kill`.
    Early(u64),
    /// `file N`: a file.
    File(u64),
    /// `proc P`: a process.
    Proc(u64),
    /// `thread T P C handler` or `thread T P C nohandler`: a thread of a process, on a processor, with or without a
    /// SIGBUS handler.
    Thread {
        thread: u64,
        process: u64,
        cpu: u64,
        handler: bool,
    },
    /// `guest P`: a process that is a guest.
    Guest(u64),
    /// `page Q anon` or `page Q file N fill X`: a page, and what stands behind it; in version 2 also with `locked` at the end.
    Page {
        page: u64,
        backing: Backing,
        locked: bool,
    },
    /// `trans V P Q`: a translation of a process to a page.
    Trans {
        slot: u64,
        process: u64,
        page: u64,
    },
    /// `cow V W`: the private twin of a translation, behind a fork.
    Cow {
        slot: u64,
        twin: u64,
    },
    /// `cpu C`: the head of a processor's commands.
    Cpu(u64),
    /// A command.
    Command(Command),
    /// `schedule W W W`: words of the schedule, one or more.
    Schedule(List<Go>),
    /// `end`: the last line.
    End,
}

/// What a line is read as.
#[derive(Drop)]
pub enum LineRead {
    /// The line has this form.
    ScriptLine(ScriptLine),
    /// The line has no form, by its words or their number, or by a byte outside 0x20 to 0x7e.
    Unknown,
    /// A word in the place of a number, a register word or a schedule word is none. `newer` says that the line has a
    /// form of version 2 alone.
    BadNumber { newer: bool },
    /// A number of a command, or of a word of the schedule, is outside its range in any version. `newer` as above.
    OverLimit { newer: bool },
}

/// A line with words, and its number from 1 among all lines.
#[derive(Drop)]
pub struct Numbered {
    pub line: u32,
    pub read: LineRead,
}
