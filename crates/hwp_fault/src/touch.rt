ghost use Rattle.std.specs.Prelude.{◌≡◌};
ghost use Rattle.hwp_page.specs.Endings.{ends};
ghost use Rattle.hwp_fault.specs.Touches.{refusal};

use hwp_page::{Layout, Line, Met, Proc, Thread, VSlot, What};

/// What an access does.
#[derive(Clone, Copy)]
pub enum AccessKind {
    /// It reads the word of the line.
    Load,
    /// It writes this word to the line.
    Store { word: u64 },
}

/// Who touches a page, and how: the thread, which is one of the process, accesses the line.
#[derive(Clone, Copy)]
pub struct Touch {
    pub thread: Thread,
    pub process: Proc,
    pub line: Line,
    pub kind: AccessKind,
}

impl Touch {
    /// The entry that the access through the translation was answered by SIGBUS.
    pub(crate) fn refusal(&self, slot: VSlot) -> What
        ensures { result ≡ refusal slot self.now }
    {
        let met = Met::Sigbus {
            thread: self.thread,
        };
        match self.kind {
            AccessKind::Load => What::Load {
                slot,
                line: self.line,
                met,
            },
            AccessKind::Store { .. } => What::Store {
                slot,
                line: self.line,
                met,
            },
        }
    }

    /// Whether SIGBUS ends the process: its thread has no handler.
    pub(crate) fn ends(&self, layout: &Layout) -> bool
        ensures { result ≡ ends layout.now self.now.process self.now.thread }
    {
        match layout.threads.as_slice().get(usize::from(self.thread.0)) {
            Some(thread) => !thread.handler && thread.process.0 == self.process.0,
            None => false,
        }
    }
}
