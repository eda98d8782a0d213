//! How a call ended.
ghost use Rattle.std.specs.Prelude.{◌≡◌};
ghost use Rattle.std.specs.Process.{exit_status};

use hwp_report::Report;
use hwp_table_words::{Bare, Cached, Ended};
use std::process::ExitCode;

/// How a call ended: its exit status; and, where it made a run, the report, and what the run's table was closed with: `tlb` has it of
/// a table with translation caches, `ended` of any other.
pub struct Done {
    pub status: u8,
    pub report: Option<Report>,
    pub ended: Option<Ended<Bare>>,
    pub tlb: Option<Ended<Cached>>,
}

// Proved here once: crates above that let one go cite it.
impl Drop for Done {
    fn drop(self) {
        let Done {
            status: _,
            report,
            ended,
            tlb,
        } = self;
        drop(report);
        drop(ended);
        drop(tlb);
    }
}

impl Done {
    /// The exit code of the program: the status.
    pub fn exit_code(&self) -> ExitCode
        ensures { exit_status result ≡ self.now.status }
    {
        ExitCode::from(self.status)
    }
}
