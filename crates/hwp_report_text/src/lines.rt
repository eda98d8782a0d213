use hwp_page::{At, Frame, Mask, Page};

/// What was done about the event of a bank.
#[derive(Clone, Copy)]
pub enum Acted {
    /// Nothing: there was no event, or its reporting was not enabled.
    None,
    /// A corrected error was kept on record.
    Keep,
    /// An uncorrected error needed no action now.
    Deferred,
    /// An uncorrected error was only logged.
    Logged,
    /// A memory failure ended as recovered.
    Recovered,
    /// A memory failure ended as delayed.
    Delayed,
    /// A memory failure ended as ignored.
    Ignored,
    /// The frame was poisoned already.
    Already,
    /// The machine has no such frame.
    Outside,
    /// The event stopped the machine.
    Stop,
    /// The memory failure was a panic.
    Panic,
    /// It was not acted on, because the machine stopped.
    Held,
}

impl Acted {
    ghost use Rattle.std.specs.Prelude.{◌≡◌};
    ghost use Rattle.hwp_report_text.specs.Acts.{is_panic, is_stopping};

    /// Whether the event stopped the machine.
    pub fn is_stopping(self) -> bool
        ensures { result ≡ is_stopping self }
    {
        matches!(self, Acted::Stop)
    }

    /// Whether the memory failure was a panic.
    pub fn is_panic(self) -> bool
        ensures { result ≡ is_panic self }
    {
        matches!(self, Acted::Panic)
    }
}

/// The answer of a command. A place is that of the entry that gave the answer, or the number of entries at that moment.
#[derive(Clone, Copy)]
pub enum Answer {
    /// A load gave this word.
    Value { word: u64, at: At },
    /// A store was made.
    Stored(At),
    /// The access was answered by SIGBUS.
    Sigbus(At),
    /// The process had ended by a signal in the history of this page.
    Gone(Page),
    /// No frame was free.
    NoFrame,
    /// The machine had stopped.
    Stopped,
    /// It was done.
    Done,
    /// It was done, by an entry.
    DoneAt(At),
    /// No frame held the page.
    NotResident(At),
    /// The translation was not in use.
    NotMapped(At),
    /// The page's content stood nowhere else.
    Dirty(At),
    /// A translation to the page was in use.
    Mapped(At),
    /// The page was locked, and no request drops such a page or writes it out.
    Locked(At),
    /// The page's frame had these bad lines.
    BadLines(Mask, At),
    /// This many losses had come to the file since its processor asked last.
    Eio(u64),
    /// The file was opened, and had come to this many losses by then.
    Opened(u64),
    /// The policy has this number (prctl(2)).
    Is(u64),
    /// The arguments were none that prctl(2) takes.
    Einval,
    /// The memory failure ended as recovered.
    Recovered,
    /// The memory failure ended as delayed.
    Delayed,
    /// The memory failure ended as ignored.
    Ignored,
    /// The frame was poisoned already.
    Already,
    /// The content moved to this frame.
    Moved(Frame, At),
    /// The frame had no page, and was taken.
    TakenFree,
    /// The frame is the kernel's own.
    Kernel,
    /// The frame has these bad lines.
    HasBad(Mask),
    /// The frame was not poisoned.
    NotPoisoned,
    /// A hardware failure was seen, which bars every unpoisoning (Linux hwpoison.rst).
    HardwareSeen,
    /// The frame had this count.
    InUse(u64),
    /// The scrub found this many events.
    Scrubbed(u64),
    /// The machine check found this many events.
    Raised(u64),
    /// The guest had stopped.
    GuestStopped,
    /// The guest had met a machine check at this address, and uses it no more.
    GuestBad,
}

/// The event of a bank in a machine check: what the bank held, the row of the severity table, and what was done. Its fields lie in memory
/// in this order, and take least room where small ones stand together.
#[derive(Clone, Copy)]
pub struct EventLine {
    /// The number of the processor's command, from 0.
    pub seq: u32,
    /// The bank's number.
    pub bank: u8,
    /// The row of the severity table that graded it.
    pub row: u8,
    /// What was done about it.
    pub acted: Acted,
    /// What the bank's MCi_STATUS held (Intel SDM vol. 3B).
    pub status: u64,
    /// What its MCi_ADDR held: a physical address.
    pub addr: u64,
    /// What its MCi_MISC held.
    pub misc: u64,
}

/// What came of taking a frame out of use, for its corrected errors.
#[derive(Clone, Copy)]
pub enum OfflineResult {
    /// Its content moved to this frame, by this entry.
    Moved(Frame, At),
    /// It had no page, and was taken.
    TakenFree,
    /// It was poisoned already.
    Already,
    /// It has these bad lines.
    HasBad(Mask),
    /// No other frame was free.
    NoFrame,
    /// The machine had stopped.
    Stopped,
}

impl OfflineResult {
    ghost use Rattle.std.specs.Prelude.{◌≡◌};
    ghost use Rattle.hwp_report_text.specs.Offlines.{offline_answer};

    /// The answer of `soft` that says the same.
    pub fn answer(self) -> Answer
        ensures { result ≡ offline_answer self }
    {
        match self {
            OfflineResult::Moved(frame, at) => Answer::Moved(frame, at),
            OfflineResult::TakenFree => Answer::TakenFree,
            OfflineResult::Already => Answer::Already,
            OfflineResult::HasBad(mask) => Answer::HasBad(mask),
            OfflineResult::NoFrame => Answer::NoFrame,
            OfflineResult::Stopped => Answer::Stopped,
        }
    }
}

/// A frame that a command took out of use, or tried to, beside its own answer.
#[derive(Clone, Copy)]
pub struct OfflinedLine {
    /// The number of the processor's command, from 0.
    pub seq: u32,
    /// The frame.
    pub frame: Frame,
    /// What came of it.
    pub result: OfflineResult,
}

/// The machine check of a guest: what its bank held, the row of the severity table, and what was done. Its small fields stand together,
/// as those of `EventLine` do.
#[derive(Clone, Copy)]
pub struct GuestLine {
    /// The number of the processor's command, from 0.
    pub seq: u32,
    /// The number of the guest's bank.
    pub bank: u8,
    /// The row of the severity table that graded it.
    pub row: u8,
    /// Whether it stopped the guest. If not, the guest uses the address no more.
    pub stops: bool,
    /// What the bank's MCi_STATUS held (Intel SDM vol. 3B).
    pub status: u64,
    /// What its MCi_ADDR held: an address of the guest.
    pub addr: u64,
    /// What its MCi_MISC held.
    pub misc: u64,
}

/// A line of a processor.
#[derive(Clone, Copy)]
pub enum CpuLine {
    /// An event of a machine check.
    Event(EventLine),
    /// A frame taken out of use beside the command's answer.
    Offlined(OfflinedLine),
    /// The machine check of a guest.
    Guest(GuestLine),
    /// The answer of the command number `seq`, from 0.
    Answer { seq: u32, answer: Answer },
}
