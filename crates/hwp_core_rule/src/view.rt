use crate::log::Log;
use crate::shared_word::SharedWord;
use hwp_page::{Cpu, Damage, Entry, FileNo, Frame, Line, List, Page, Policy, Proc, Thread, Who};

/// A processor of a view, and the latest of its commands that made a step.
#[derive(Clone, Copy)]
pub struct Part {
    pub cpu: Cpu,
    pub latest: u32,
}

/// So many references to a frame.
#[derive(Clone, Copy)]
pub struct Ref {
    pub frame: Frame,
    pub count: u32,
}

/// A frame in hand. Where `poisoned` is set, its word has POISON too.
#[derive(Clone, Copy)]
pub struct FrameInHand {
    pub frame: Frame,
    pub poisoned: bool,
}

/// The lock of a frame, with what its word says while the lock is held: the owner (page plus 1, or 0) and whether it is
/// handled. Where `poisoned` is set, the word has POISON too.
#[derive(Clone, Copy)]
pub struct FrameLock {
    pub frame: Frame,
    pub owner: u64,
    pub handled: bool,
    pub poisoned: bool,
}

/// The lock of a page, with what is known while it is held: whether the page is in a frame, the cache word, and the words
/// of the page's translations, one for each translation of the layout and 0 for those of other pages.
#[derive(Drop)]
pub struct PageLock {
    pub page: Page,
    pub resident: bool,
    pub cache: Option<u64>,
    pub trans: Option<List<u64>>,
}

/// A body in hand: its history as it was listed last, how many entries it had when it was taken, the frame that it was
/// in, how many sights the view had then, and the processes that a `kill` met since.
#[derive(Drop)]
pub struct InHand {
    pub log: Log,
    pub since: u64,
    pub frame: Option<Frame>,
    pub from: u64,
    pub killed: List<Proc>,
}

/// What is owed: counts of poisoned frames that no bank reported, counts of those that a bank did, counts to take back, and
/// a loss of each file listed.
#[derive(Drop)]
pub struct Debts {
    pub counts: u32,
    pub hardware: u32,
    pub uncounts: u32,
    pub losses: List<FileNo>,
}

/// When something was seen or done: by which command, and under which locks, an adoption under the one that it takes; and
/// the owner of the first frame locked, by the page's number plus 1.
#[derive(Clone, Copy)]
pub struct Stamp {
    pub who: Who,
    pub page: Option<Page>,
    pub frame: Option<Frame>,
    pub owner: Option<u64>,
    pub second: Option<Frame>,
}

/// A word that a step showed.
#[derive(Clone, Copy)]
pub struct Sight {
    pub stamp: Stamp,
    pub place: SharedWord,
    pub word: u64,
}

/// How a mark came: by a failure, that a bank reported or not, or by an unpoisoning.
#[derive(Clone, Copy)]
pub enum MarkKind {
    Poisoned { hardware: bool },
    Revived,
}

/// A frame was poisoned, or its poison was cleared, in this cycle of the frame.
#[derive(Clone, Copy)]
pub struct Mark {
    pub stamp: Stamp,
    pub frame: Frame,
    pub cycle: u32,
    pub kind: MarkKind,
}

/// An entry of a page's history, its place there, and the frame that the body was taken from.
#[derive(Drop)]
pub struct Made {
    pub stamp: Stamp,
    pub page: Page,
    pub place: u64,
    pub entry: Entry,
    pub frame: Option<Frame>,
}

/// A page's history, as it was when its body was taken: a length that is answered is that of this history.
#[derive(Drop)]
pub struct Length {
    pub stamp: Stamp,
    pub log: Log,
}

/// A line that went bad or weak.
#[derive(Clone, Copy)]
pub struct Spoiled {
    pub stamp: Stamp,
    pub frame: Frame,
    pub line: Line,
    pub damage: Damage,
}

/// A thread's policy was set.
#[derive(Clone, Copy)]
pub struct Setting {
    pub stamp: Stamp,
    pub thread: Thread,
    pub policy: Policy,
}

/// What a seat knows: its processors, what it holds and owes, and all that its steps did and showed.
#[derive(Drop)]
pub struct View {
    /// The processors that are its part.
    pub parts: List<Part>,
    pub refs: List<Ref>,
    pub locks: List<FrameLock>,
    pub pages: List<PageLock>,
    /// Frames reserved, and frames in hand.
    pub reserved: u32,
    pub hands: List<FrameInHand>,
    pub owed: Debts,
    pub bodies: List<InHand>,
    pub made: List<Made>,
    pub marks: List<Mark>,
    pub sights: List<Sight>,
    pub lengths: List<Length>,
    pub spoiled: List<Spoiled>,
    pub settings: List<Setting>,
    /// The commands that stopped the machine.
    pub stops: List<Who>,
}
