ghost use Rattle.std.specs.Prelude.{◌<◌, ◌^◌, IfOk, MatchOption};
ghost use Rattle.hwp_check_rules.specs.hwp_script_words.Valid.{IsValid};
ghost use Rattle.hwp_check_rules.specs.Standing.{last_line};
ghost use Rattle.hwp_check_rules.specs.Verdicts.{HoldBelow, IsBroken, IsVerdict, Holds};
ghost use Rattle.hwp_check_rules.specs.declared.Rule.TheVariants.{Answers};
ghost use Rattle.hwp_check.specs.Acting.{IsActedOn};

use crate::early::early_verdict;
use crate::late::late_verdict;
use hwp_check_answers::answers_fault;
use hwp_check_processes::{guests_fault, private_fault};
use hwp_check_rules::{
    List, OutOfMemory, Rule, Script, VSlot, Verdict, acted_on, has_fork, soonest,
};
use hwp_report::Report;
use std::alloc::Global;

/// The first line that breaks the rule of answers: one of those that the script acted on asks for, one by a word that isn't private, or
/// one by what guests were told.
#[tactic(auto, using(crate::proofs::ActedVerdicts::shape_held, crate::proofs::ActedVerdicts::histories_held, crate::proofs::ActedVerdicts::answers_to_law, crate::proofs::AnswerJoin::answers_joined, crate::proofs::ActedWhole::valid_is_declared))]
fn answers_line(
    alloc: Global,
    script: &Script,
    acted: &Script,
    copies: &[List<Option<VSlot>>],
    report: &Report,
) -> Result<Option<u64>, OutOfMemory>
    requires valid { IsValid script.now }
    requires acts { IsActedOn script.now report.now acted.now copies.now }
    requires room { last_line report.now < 2 ^ 64 }
    requires below { HoldBelow 3 script.now report.now }
    ensures { IfOk result (λ found. MatchOption found (Holds Answers script.now report.now) (IsBroken Answers script.now report.now)) }
{
    let line = answers_fault(alloc, acted, copies, report)?;
    let private = private_fault(alloc, script, report)?;
    let guests = guests_fault(alloc, script, report)?;
    Ok(soonest(soonest(line, private), guests))
}

/// The verdict by the script that the processors acted on.
fn check_by(
    alloc: Global,
    script: &Script,
    acted: &Script,
    copies: &[List<Option<VSlot>>],
    report: &Report,
) -> Result<Verdict, OutOfMemory>
    requires valid { IsValid script.now }
    requires acts { IsActedOn script.now report.now acted.now copies.now }
    requires room { last_line report.now < 2 ^ 64 }
    ensures { IfOk result (λ verdict. IsVerdict script.now report.now verdict) }
{
    if let Some(verdict) = early_verdict(script, acted, copies, report) {
        return Ok(verdict);
    }
    if let Some(line) = answers_line(alloc, script, acted, copies, report)? {
        return Ok(Verdict::Not {
            line,
            rule: Rule::Answers,
        });
    }
    late_verdict(alloc, script, acted, copies, report)
}

/// Whether a run of the script can have the report; if not, the lowest rule that is broken, and the first line that breaks it.
pub fn check(alloc: Global, script: &Script, report: &Report) -> Result<Verdict, OutOfMemory>
    requires valid { IsValid script.now }
    requires room { last_line report.now < 2 ^ 64 }
    ensures { IfOk result (λ verdict. IsVerdict script.now report.now verdict) }
{
    if !has_fork(script) {
        return check_by(alloc, script, script, &[], report);
    }
    let acted = acted_on(alloc, script, report)?;
    check_by(
        alloc,
        script,
        &acted.script,
        acted.copies.as_slice(),
        report,
    )
}
