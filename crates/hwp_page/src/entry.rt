ghost use Rattle.std.specs.Prelude.{◌≡◌, IfOk};

use crate::situation::Situation;
use hwp_kill::{Line, List, Mask, OutOfMemory, Page, Seen, Signal, Thread, VSlot, Who};
use std::alloc::Global;

/// A place in a history: the entry's number in its page, from 0.
#[derive(Clone, Copy)]
pub struct At {
    pub page: Page,
    pub entry: u64,
}

/// What an access met: the word at its line, with the lines of the frame that were bad at that moment, or a SIGBUS to
/// the thread.
#[derive(Clone, Copy)]
pub enum Met {
    Word { mask: Mask, word: u64 },
    Sigbus { thread: Thread },
}

/// What happened to a page.
#[derive(Drop)]
pub enum What {
    /// A thread loaded the word at a line, through a translation.
    Load {
        slot: VSlot,
        line: Line,
        met: Met,
    },
    /// A thread stored a word at a line, through a translation.
    Store {
        slot: VSlot,
        line: Line,
        met: Met,
    },
    /// The page was brought into a frame.
    FaultIn,
    /// A translation came into use.
    Map {
        slot: VSlot,
    },
    /// A translation went out of use.
    Free {
        slot: VSlot,
    },
    /// The page left its frame; its content stands behind it.
    Drop,
    /// The content was written to the file.
    Sync,
    /// The content was swapped out, and the page left its frame.
    Out,
    /// A thread met a bad line through a translation; `mask` has the bad lines of the frame at that moment.
    Mce {
        slot: VSlot,
        line: Line,
        mask: Mask,
    },
    /// A memory failure took the page's frame (Linux hwpoison.rst): what it found, the current thread where a thread
    /// needed the page now, the policies that were read (prctl(2)), and the signals.
    Fail {
        situation: Situation,
        required: Option<Thread>,
        seen: List<Seen>,
        signals: List<Signal>,
    },
    /// The content moved to another frame, and nobody was signalled (soft offline).
    Soft,
}

/// An entry of a page's history: who, and what.
pub struct Entry {
    pub who: Who,
    pub what: What,
}

// Written out, so that it is proved here once: a crate that lets one go cites it.
impl Drop for Entry {
    fn drop(self) {
        let Entry { who: _, what: _ } = self;
    }
}

impl Entry {
    /// An equal entry.
    pub fn copy(&self, alloc: Global) -> Result<Entry, OutOfMemory>
        ensures { IfOk result (λ entry. entry ≡ self.now) }
    {
        Ok(Entry {
            who: self.who,
            what: self.what.copy(alloc)?,
        })
    }
}

impl What {
    /// An equal happening.
    pub fn copy(&self, alloc: Global) -> Result<What, OutOfMemory>
        ensures { IfOk result (λ what. what ≡ self.now) }
    {
        match self {
            What::Load { slot, line, met } => Ok(What::Load {
                slot: *slot,
                line: *line,
                met: *met,
            }),
            What::Store { slot, line, met } => Ok(What::Store {
                slot: *slot,
                line: *line,
                met: *met,
            }),
            What::FaultIn => Ok(What::FaultIn),
            What::Map { slot } => Ok(What::Map { slot: *slot }),
            What::Free { slot } => Ok(What::Free { slot: *slot }),
            What::Drop => Ok(What::Drop),
            What::Sync => Ok(What::Sync),
            What::Out => Ok(What::Out),
            What::Mce { slot, line, mask } => Ok(What::Mce {
                slot: *slot,
                line: *line,
                mask: *mask,
            }),
            What::Fail {
                situation,
                required,
                seen,
                signals,
            } => Ok(What::Fail {
                situation: *situation,
                required: *required,
                seen: seen.copy(alloc)?,
                signals: signals.copy(alloc)?,
            }),
            What::Soft => Ok(What::Soft),
        }
    }
}
