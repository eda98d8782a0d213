use hwp_check_event_line::{MarkIndex, Results};
use hwp_check_evidence::{PageGlances, Span};
use hwp_check_rules::{List, Policy};

/// What is known of a script and its report for the answers of all processors.
#[derive(Drop)]
pub struct ReportFacts {
    /// Whether there are frames enough at any time.
    pub ample: bool,
    /// The states of pages at all places of their histories.
    pub glances: Vec<PageGlances>,
}

/// What is known of a report for the answers of one processor.
pub struct ProcessorFacts {
    /// The commands by which processes had ended in each page.
    pub ends: Vec<List<u64>>,
    /// The commands of the processor by which processes had ended.
    pub ended: Vec<u64>,
    /// Where its commands stand in the histories of pages.
    pub spans: Vec<Span>,
    /// The command at whose end a bank's event had poisoned some frame.
    pub reported: u64,
    /// What is kept of the records of frames for its commands.
    pub past: MarkIndex,
    /// What the marks of frames say of its commands.
    pub results: Results,
}

// Proved here once: crates above that let one go cite it.
impl Drop for ProcessorFacts {
    fn drop(self) {
        let ProcessorFacts {
            ends: _ends,
            ended: _ended,
            spans: _spans,
            reported: _,
            past: _past,
            results: _results,
        } = self;
    }
}

/// What is known of one command.
#[derive(Clone, Copy)]
pub struct CommandFacts {
    /// The policy of the command's thread before it.
    pub old: Policy,
    /// How many event lines it has.
    pub events: u64,
    /// Whether one of them stopped the machine, or was a panic.
    pub ends: bool,
}
