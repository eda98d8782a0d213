ghost use Rattle.std.specs.Prelude.{◌≡◌, ◌↔◌, IsTrue, true};
ghost use Rattle.hwp_law.specs.Lines.{marks_of as marks_of_frame};
ghost use Rattle.hwp_law.specs.Records.{WasPoisoned};
ghost use Rattle.hwp_check_event_line.specs.Nears.{IsPast};
ghost use Rattle.hwp_check_event_line.specs.Results.{AreResults, has_result as has_told};

use crate::nears::MarkIndex;
use crate::records::{has_result, was_poisoned};
use crate::results::{Results, has_result as has_result_by};
use crate::windows::{marks_of, was_poisoned as was_poisoned_by};
use hwp_law::{Acted, Cpu, MarkLine, Report, Who};
use std::marker::Model;

/// A report, and what is kept of its frames' records for the commands of one processor.
#[derive(Drop)]
pub struct Traced<'a> {
    cpu: Cpu,
    report: &'a Report,
    past: &'a MarkIndex,
    results: &'a Results,
}

impl<'a> Model for Traced<'a> {
    ghost use Rattle.hwp_law.specs.hwp_report_text.declared.Report.{Report as Told};
    ghost use Rattle.hwp_check_event_line.specs.Nears.{IsPast as IsKept};
    ghost use Rattle.hwp_check_event_line.specs.Results.{AreResults as AreKept};

    ghost Value = { Told };

    ghost view = { λ t. t.report.now };

    ghost invariant = { λ t. IsKept t.cpu t.report.now.frames t.past.now × AreKept t.cpu t.report.now.frames t.results.now };
}

impl<'a> Traced<'a> {
    /// The report with what is kept of it.
    pub fn new(
        cpu: Cpu,
        report: &'a Report,
        past: &'a MarkIndex,
        results: &'a Results,
    ) -> Traced<'a>
        requires past { IsPast cpu report.now.frames past.now }
        requires results { AreResults cpu report.now.frames results.now }
        ensures { result ≡ report.now }
    {
        Traced {
            cpu,
            report,
            past,
            results,
        }
    }

    /// The report.
    pub fn get(&self) -> &Report
        ensures { result.now ≡ self.now }
    {
        self.report
    }

    /// The record of a frame. One that the report doesn't show has none.
    fn marks_of(&self, frame: u64) -> &[MarkLine]
        ensures { result.now ≡ marks_of_frame self.now frame }
    {
        marks_of(self.report, frame)
    }

    /// Whether the frame may have been poisoned while the command ran. What is kept tells it of the processor's commands.
    pub(crate) fn was_poisoned(&self, who: Who, frame: u64) -> bool
        ensures { IsTrue result ↔ WasPoisoned (marks_of_frame self.now frame) who true }
    {
        if who.cpu == self.cpu {
            was_poisoned_by(self.report, self.past, who, frame, true)
        } else {
            was_poisoned(self.marks_of(frame), who, true)
        }
    }

    /// Whether what was done says what came of a failure of the frame by an event of the command. What is kept tells it of the
    /// processor's commands.
    pub(crate) fn has_result(&self, who: Who, frame: u64, acted: Acted) -> bool
        ensures { result ≡ has_told who acted (marks_of_frame self.now frame) }
    {
        if who.cpu == self.cpu {
            has_result_by(self.report, self.results, who, frame, acted)
        } else {
            has_result(who, acted, self.marks_of(frame))
        }
    }
}
