ghost use Rattle.std.specs.Prelude.{◌≡◌, ◌↔◌, Some, IsTrue};
ghost use Rattle.hwp_law.specs.hwp_report_text.declared.How.TheVariants as hows;
ghost use Rattle.hwp_law.specs.Causes.{ComesTo, HasMark, TakesBack};
ghost use Rattle.hwp_law.specs.Lines.{marks_of};
ghost use Rattle.hwp_law.specs.Records.{how_in as how_told};
ghost use Rattle.hwp_check_event_line.specs.Results.{AreResults, has_come};

use crate::results::{
    COMMANDED, MOVED, Results, TAKEN_BACK, TAKEN_FREE, has_number, outcome_number,
};
use hwp_law::{Frame, Outcome, Report, Who};

/// Whether the frame has a mark of the command of which this came, whatever the mark is.
fn has_come(report: &Report, results: &Results, who: Who, frame: u64, outcome: Outcome) -> bool
    requires { AreResults who.cpu report.now.frames results.now }
    ensures { result ≡ has_come who outcome (marks_of report.now frame) }
{
    let number = outcome_number(outcome);
    has_number(report, results, who, frame, number)
        || has_number(report, results, who, frame, number + COMMANDED)
        || has_number(report, results, who, frame, number + MOVED)
        || has_number(report, results, who, frame, number + TAKEN_FREE)
}

/// Whether the frame has a mark of the command with this result.
#[tactic(auto, using(crate::proofs::MarkedLaws::come_is))]
pub fn came_to(report: &Report, results: &Results, who: Who, frame: Frame, outcome: Outcome) -> bool
    requires { AreResults who.cpu report.now.frames results.now }
    ensures { IsTrue result ↔ HasMark report.now who frame (ComesTo outcome) }
{
    has_come(report, results, who, u64::from(frame.0), outcome)
}

/// Whether it has one of a soft offline that moved the content.
#[tactic(auto, using(crate::proofs::MarkedLaws::moved_is))]
pub fn was_moved(report: &Report, results: &Results, who: Who, frame: Frame) -> bool
    requires { AreResults who.cpu report.now.frames results.now }
    ensures { IsTrue result ↔ HasMark report.now who frame (λ m. how_told m ≡ Some hows.Moved) }
{
    has_number(report, results, who, u64::from(frame.0), MOVED)
}

/// Whether it has one of a soft offline that took a free frame.
#[tactic(auto, using(crate::proofs::MarkedLaws::taken_free_is))]
pub fn was_taken_free(report: &Report, results: &Results, who: Who, frame: Frame) -> bool
    requires { AreResults who.cpu report.now.frames results.now }
    ensures { IsTrue result ↔ HasMark report.now who frame (λ m. how_told m ≡ Some hows.TakenFree) }
{
    has_number(report, results, who, u64::from(frame.0), TAKEN_FREE)
}

/// Whether it has one that takes back a poisoning.
#[tactic(auto, using(crate::proofs::MarkedLaws::taken_back_is))]
pub fn was_taken_back(report: &Report, results: &Results, who: Who, frame: Frame) -> bool
    requires { AreResults who.cpu report.now.frames results.now }
    ensures { IsTrue result ↔ HasMark report.now who frame TakesBack }
{
    has_number(report, results, who, u64::from(frame.0), TAKEN_BACK)
}
