//! The text of a report, read back line by line, where each line is data and is read from its one text alone; and the summary of a
//! report: how many commands, entries and signals it has, and its one text.
#![tactic(auto)]

mod counting;
mod counts;
mod cuts;
mod frames;
mod heads;
mod lines;
mod partial;
mod printing;
mod reading;
mod report_line;
mod standing;

pub use counting::summary;
pub use counts::Summary;
pub use cuts::first_line;
pub use hwp_report_text::{
    Acted, Answer, CpuLine, FrameLine, How, MarkLine, Report, Stop, StopCause, Text, Whereabouts,
    print,
};
pub use printing::print_summary;
pub use reading::{BadReport, read};
