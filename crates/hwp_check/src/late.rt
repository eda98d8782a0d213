ghost use Rattle.std.specs.Prelude.{◌<◌, ◌^◌, IfOk, MatchOption};
ghost use Rattle.hwp_check.specs.Acting.{IsActedOn};
ghost use Rattle.hwp_check_rules.specs.Standing.{last_line};
ghost use Rattle.hwp_check_rules.specs.Verdicts.{HoldBelow, IsVerdict};

use hwp_check_marks::marks_fault;
use hwp_check_rules::{List, OutOfMemory, Rule, Script, VSlot, Verdict};
use hwp_check_state::{count_fault, frames_fault, losses_fault, seen_fault, stop_fault};
use hwp_report::Report;
use std::alloc::Global;

/// The verdict, where the rule of policies seen or that of marks is broken.
#[tactic(auto, using(crate::proofs::ActedVerdicts::shape_held, crate::proofs::ActedVerdicts::answered_held, crate::proofs::ActedVerdicts::seen_broken, crate::proofs::ActedVerdicts::seen_holds, crate::proofs::ActedVerdicts::marks_broken, crate::proofs::ActedVerdicts::marks_holds))]
fn marked_verdict(
    alloc: Global,
    script: &Script,
    acted: &Script,
    copies: &[List<Option<VSlot>>],
    report: &Report,
) -> Result<Option<Verdict>, OutOfMemory>
    requires acts { IsActedOn script.now report.now acted.now copies.now }
    requires room { last_line report.now < 2 ^ 64 }
    requires below { HoldBelow 4 script.now report.now }
    ensures { IfOk result (λ found. MatchOption found (HoldBelow 6 script.now report.now) (IsVerdict script.now report.now)) }
{
    let (_script, _copies) = (script, copies);
    if let Some(line) = seen_fault(alloc, acted, report)? {
        return Ok(Some(Verdict::Not {
            line,
            rule: Rule::Seen,
        }));
    }
    if let Some(line) = marks_fault(alloc, acted, report)? {
        return Ok(Some(Verdict::Not {
            line,
            rule: Rule::Marks,
        }));
    }
    Ok(None)
}

/// The verdict, where the rule of the count, that of losses or that of the stop is broken.
#[tactic(auto, using(crate::proofs::ActedVerdicts::shape_held, crate::proofs::ActedVerdicts::answered_held, crate::proofs::ActedVerdicts::count_broken, crate::proofs::ActedVerdicts::count_holds, crate::proofs::ActedVerdicts::losses_broken, crate::proofs::ActedVerdicts::losses_holds, crate::proofs::ActedVerdicts::stop_broken, crate::proofs::ActedVerdicts::stop_holds))]
fn counted_verdict(
    alloc: Global,
    script: &Script,
    acted: &Script,
    copies: &[List<Option<VSlot>>],
    report: &Report,
) -> Result<Option<Verdict>, OutOfMemory>
    requires acts { IsActedOn script.now report.now acted.now copies.now }
    requires room { last_line report.now < 2 ^ 64 }
    requires below { HoldBelow 6 script.now report.now }
    ensures { IfOk result (λ found. MatchOption found (HoldBelow 9 script.now report.now) (IsVerdict script.now report.now)) }
{
    let (_script, _copies) = (script, copies);
    if let Some(line) = count_fault(acted, report) {
        return Ok(Some(Verdict::Not {
            line,
            rule: Rule::Count,
        }));
    }
    if let Some(line) = losses_fault(alloc, acted, report)? {
        return Ok(Some(Verdict::Not {
            line,
            rule: Rule::Losses,
        }));
    }
    if let Some(line) = stop_fault(acted, report) {
        return Ok(Some(Verdict::Not {
            line,
            rule: Rule::Stop,
        }));
    }
    Ok(None)
}

/// The verdict, where the rule of answers and those before it hold.
#[tactic(auto, using(crate::proofs::ActedVerdicts::shape_held, crate::proofs::ActedVerdicts::legal_held, crate::proofs::ActedVerdicts::frames_broken))]
pub(crate) fn late_verdict(
    alloc: Global,
    script: &Script,
    acted: &Script,
    copies: &[List<Option<VSlot>>],
    report: &Report,
) -> Result<Verdict, OutOfMemory>
    requires acts { IsActedOn script.now report.now acted.now copies.now }
    requires room { last_line report.now < 2 ^ 64 }
    requires below { HoldBelow 4 script.now report.now }
    ensures { IfOk result (λ verdict. IsVerdict script.now report.now verdict) }
{
    if let Some(verdict) = marked_verdict(alloc, script, acted, copies, report)? {
        return Ok(verdict);
    }
    if let Some(verdict) = counted_verdict(alloc, script, acted, copies, report)? {
        return Ok(verdict);
    }
    match frames_fault(alloc, acted, report)? {
        Some(line) => Ok(Verdict::Not {
            line,
            rule: Rule::Frames,
        }),
        None => Ok(Verdict::Legal),
    }
}
