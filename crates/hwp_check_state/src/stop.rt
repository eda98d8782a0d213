ghost use Rattle.std.specs.Prelude.{◌≡◌, ◌↔◌, true, IsSome, IsTrue, MatchOption};
ghost use Rattle.hwp_check_rules.specs.Rules.{StopFits};
ghost use Rattle.hwp_check_state.specs.Stopping.{some_stopped};
ghost use Rattle.hwp_check_rules.specs.Firsts.{IsFirstFault};
ghost use Rattle.hwp_check_rules.specs.Faults.{IsStopFault};

use crate::stopping::{all_stay, is_caused, some_stopped};
use hwp_check_rules::{Report, Script};

/// Whether there is a stop where some answer is `stopped`.
fn is_told(report: &Report) -> bool
    ensures { IsTrue result ↔ (some_stopped report.now.cpus ≡ true → IsSome report.now.stop) }
{
    !some_stopped(report.cpus.as_slice()) || report.stop.is_some()
}

/// Whether the stop is none exactly where no answer is `stopped`, and else has its cause, and processors stay stopped.
#[tactic(auto, using(crate::proofs::StopLaws::stop_fits, crate::proofs::StopLaws::fits_told, crate::proofs::StopLaws::fits_caused, crate::proofs::StopLaws::fits_stay))]
fn fits(script: &Script, report: &Report) -> bool
    ensures { IsTrue result ↔ StopFits script.now report.now }
{
    is_told(report) && is_caused(script, report) && all_stay(report.cpus.as_slice())
}

/// Whether the stop fits; else its line.
#[tactic(auto, using(crate::proofs::StopLaws::stop_broken))]
pub fn stop_fault(script: &Script, report: &Report) -> Option<u64>
    ensures { MatchOption result (StopFits script.now report.now) (IsFirstFault (StopFits script.now report.now) (IsStopFault script.now report.now)) }
{
    if fits(script, report) { None } else { Some(2) }
}
