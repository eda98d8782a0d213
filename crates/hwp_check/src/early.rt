ghost use Rattle.std.specs.Prelude.{◌<◌, ◌^◌, MatchOption};
ghost use Rattle.hwp_check.specs.Acting.{IsActedOn};
ghost use Rattle.hwp_check_rules.specs.Standing.{last_line};
ghost use Rattle.hwp_check_rules.specs.Verdicts.{HoldBelow, IsVerdict};

use hwp_check_rules::{List, Rule, Script, VSlot, Verdict};
use hwp_check_state::{histories_fault, shape_fault};
use hwp_report::Report;

/// The verdict, where one of the rules before that of answers is broken.
#[tactic(auto, using(crate::proofs::ActedVerdicts::none_below, crate::proofs::ActedVerdicts::shape_broken, crate::proofs::ActedVerdicts::shape_holds, crate::proofs::ActedVerdicts::histories_broken, crate::proofs::ActedVerdicts::histories_holds))]
pub(crate) fn early_verdict(
    script: &Script,
    acted: &Script,
    copies: &[List<Option<VSlot>>],
    report: &Report,
) -> Option<Verdict>
    requires acts { IsActedOn script.now report.now acted.now copies.now }
    requires room { last_line report.now < 2 ^ 64 }
    ensures { MatchOption result (HoldBelow 3 script.now report.now) (IsVerdict script.now report.now) }
{
    let _script = script;
    if let Some(line) = shape_fault(acted, report) {
        return Some(Verdict::Not {
            line,
            rule: Rule::Shape,
        });
    }
    if let Some(line) = histories_fault(acted, copies, report) {
        return Some(Verdict::Not {
            line,
            rule: Rule::Histories,
        });
    }
    None
}
