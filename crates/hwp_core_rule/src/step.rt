use crate::shared_word::SharedWord;
use hwp_page::{Body, Cpu, Damage, FileNo, Frame, Line, Page, Policy, Proc, Thread, VSlot};
use hwp_words::Pte;
use std::snapshot::Snapshot;

/// An atomic step with its arguments: one access to one shared word (this project's rule). `Load` stands for the ten
/// kinds of load, one for each place that can be loaded.
#[derive(Drop)]
pub enum Step {
    /// The word of a place.
    Load {
        place: SharedWord,
    },
    /// One free frame is set aside, where the available word is `seen`.
    Reserve {
        seen: u64,
    },
    /// A free frame is taken in hand, for a reservation.
    TakeBit {
        frame: Frame,
    },
    /// A frame in hand is free again, and reserved.
    GiveBit {
        frame: Frame,
    },
    /// A reservation is given back.
    Unreserve,
    /// A frame in hand gets its first reference and is locked.
    Adopt {
        frame: Frame,
    },
    /// References to a frame, where its word is `seen`.
    GetRef {
        frame: Frame,
        seen: u64,
        count: u32,
    },
    /// References are given back; with the last one the frame is in hand.
    PutRef {
        frame: Frame,
        count: u32,
    },
    /// The lock of a frame, where it is free.
    LockFrame {
        frame: Frame,
    },
    /// The lock of a frame is freed.
    UnlockFrame {
        frame: Frame,
    },
    /// A poisoned frame is handled, and its lock freed.
    Retire {
        frame: Frame,
    },
    /// The poison of a handled frame is cleared, where its word is `seen`.
    Revive {
        frame: Frame,
        seen: u64,
    },
    /// The page becomes the frame's owner, or is no longer.
    SetOwner {
        frame: Frame,
        page: Page,
        owned: bool,
    },
    /// The lock of a page, where it is free.
    LockPage {
        page: Page,
    },
    /// The lock of a page is freed.
    UnlockPage {
        page: Page,
    },
    /// A translation is written.
    SetPte {
        slot: VSlot,
        pte: Pte,
    },
    /// The frame that a page is in is written.
    SetCache {
        page: Page,
        frame: Option<Frame>,
    },
    /// A frame is poisoned.
    Poison {
        frame: Frame,
        hardware: bool,
    },
    /// A poisoned frame is counted, and the failure of a bank too.
    CountPoison {
        hardware: bool,
    },
    /// A frame that is no longer poisoned is counted off.
    Uncount,
    /// A line of a frame goes bad or weak.
    Spoil {
        frame: Frame,
        line: Line,
        damage: Damage,
    },
    /// The machine stops, if it hasn't.
    Stop {
        cpu: Cpu,
    },
    /// A processor gives up, out of memory.
    GiveUp,
    /// A process has an ending signal in this body, of this page, if it has had none.
    Kill {
        process: Proc,
        page: Page,
        body: Snapshot<Body>,
    },
    /// A thread's policy becomes this one, after so many earlier settings.
    SetPolicy {
        thread: Thread,
        policy: Policy,
        settings: u32,
    },
    /// A loss of a file is counted that this body has.
    Lose {
        file: FileNo,
        body: Snapshot<Body>,
    },
    /// The losses of a file are read.
    ReportLost {
        file: FileNo,
    },
}
