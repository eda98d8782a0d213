use hwp_report_text::{CpuLine, Entry, MarkLine, Mask, Seen, Signal, Stop, Version, Whereabouts};
use hwp_report_words::Failure;

/// A line of a report.
#[derive(Drop)]
pub(crate) enum ReportLine {
    /// `hwp-report 1` or `hwp-report 2`: the head of a report, with its version.
    Header(Version),
    /// What stopped the machine, if it was stopped.
    Stop(Option<Stop>),
    /// `count N`: the number of poisoned frames.
    Count(u64),
    /// `file N lost L`: a file, and its losses.
    File {
        number: u64,
        lost: u64,
    },
    /// `frame F STATE bad M weak M`: a frame.
    Frame {
        number: u64,
        place: Whereabouts,
        bad: Mask,
        weak: Mask,
    },
    /// A mark on the record of the frame above.
    Mark(MarkLine),
    /// `page Q N`: a page, and the number of its entries.
    Page {
        number: u64,
        entries: u64,
    },
    /// An entry of a page that is no memory failure.
    Entry(Entry),
    /// The entry of a memory failure.
    Fail(Failure),
    /// A policy that a memory failure read.
    Seen(Seen),
    /// A signal of a memory failure.
    Signal(Signal),
    /// `cpu C N`: a processor, and the number of its lines.
    Cpu {
        number: u64,
        lines: u64,
    },
    /// A line of a processor.
    CpuLine(CpuLine),
    /// `end`: the last line.
    End,
}
