ghost use Rattle.std.specs.Prelude.{◌<◌, ◌^◌, IfOk, MatchOption};
ghost use Rattle.hwp_check_rules.specs.hwp_check_event_line.Scripts.{IsDeclared};
ghost use Rattle.hwp_check_rules.specs.Firsts.{IsLeast, IsFirstFault, IsClear};
ghost use Rattle.hwp_check_rules.specs.Standing.{last_line};
ghost use Rattle.hwp_check_evidence.specs.hwp_law.Events.{AreEvents};
ghost use Rattle.hwp_check_answers.specs.Joining.{BreakEvents, IsEventLine};
ghost use Rattle.hwp_check_answers.specs.Offlining.{AreAllOfflined, IsOfflinedLine};
ghost use Rattle.hwp_check_answers.specs.Sifting.{AreAllRight, IsAnswerLine};
ghost use Rattle.hwp_check_rules.specs.Rules.{AnswersFit, ShapeFits, HistoriesFit};
ghost use Rattle.hwp_check_rules.specs.AnswerFaults.{IsAnswerFault};
ghost use Rattle.hwp_check_rules.specs.hwp_check_event_line.Reading.{copies_in};

use crate::disorders::disorders;
use crate::sifting::unsound_answers;
use hwp_check_rules::{List, OutOfMemory, Report, Script, VSlot, soonest};
use std::alloc::Global;

/// The first line of a report that is out of place, where a command has no answer, or where an answer is wrong; its event lines
/// are another matter.
#[tactic(auto, using(crate::proofs::JoinLaws::joined))]
pub(crate) fn answer_lines(
    alloc: Global,
    script: &Script,
    copies: &[List<Option<VSlot>>],
    report: &Report,
) -> Result<Option<u64>, OutOfMemory>
    requires valid { IsDeclared script.now }
    requires room { last_line report.now < 2 ^ 64 }
    requires shape { ShapeFits script.now report.now }
    requires histories { HistoriesFit script.now (copies_in copies.now) report.now }
    ensures { IfOk result (λ found. MatchOption found (AreAllRight script.now (copies_in copies.now) report.now) (IsLeast (IsAnswerLine script.now (copies_in copies.now) report.now))) }
{
    let disorder = disorders(alloc, script, report)?;
    let wrong = unsound_answers(alloc, script, copies, report)?;
    Ok(soonest(disorder, wrong))
}

/// The first line of a report that breaks the rule of answers, by the first of those of its answers, the first of its event lines and
/// the first of its lines of frames taken out of use.
#[tactic(auto, using(crate::proofs::RuleJoin::all_lines))]
pub(crate) fn first_of_all(
    script: &Script,
    copies: &[List<Option<VSlot>>],
    report: &Report,
    lines: Option<u64>,
    events: Option<u64>,
    offlined: Option<u64>,
) -> Option<u64>
    requires valid { IsDeclared script.now }
    requires shape { ShapeFits script.now report.now }
    requires histories { HistoriesFit script.now (copies_in copies.now) report.now }
    requires lines { MatchOption lines (AreAllRight script.now (copies_in copies.now) report.now) (IsLeast (IsAnswerLine script.now (copies_in copies.now) report.now)) }
    requires events { MatchOption events (AreEvents script.now (copies_in copies.now) report.now) (IsLeast (IsEventLine script.now (copies_in copies.now) report.now)) }
    requires offlined { MatchOption offlined (AreAllOfflined script.now report.now) (IsLeast (IsOfflinedLine script.now report.now)) }
    requires breaks { BreakEvents script.now (copies_in copies.now) report.now }
    ensures { MatchOption result (IsClear (AnswersFit script.now (copies_in copies.now) report.now) (IsAnswerFault script.now (copies_in copies.now) report.now)) (IsFirstFault (AnswersFit script.now (copies_in copies.now) report.now) (IsAnswerFault script.now (copies_in copies.now) report.now)) }
{
    let _script = script;
    let _copies = copies;
    let _report = report;
    soonest(soonest(lines, events), offlined)
}
