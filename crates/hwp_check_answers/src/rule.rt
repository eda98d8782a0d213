ghost use Rattle.std.specs.Prelude.{◌<◌, ◌^◌, IfOk, MatchOption};
ghost use Rattle.hwp_check_rules.specs.hwp_check_event_line.Scripts.{IsDeclared};
ghost use Rattle.hwp_check_rules.specs.Standing.{last_line};
ghost use Rattle.hwp_check_rules.specs.Firsts.{IsFirstFault, IsClear};
ghost use Rattle.hwp_check_rules.specs.Rules.{AnswersFit, ShapeFits, HistoriesFit};
ghost use Rattle.hwp_check_rules.specs.AnswerFaults.{IsAnswerFault};
ghost use Rattle.hwp_check_rules.specs.hwp_check_event_line.Reading.{copies_in};

use crate::answering::{answer_lines, first_of_all};
use crate::events::{event_lines, lines_break};
use crate::offlines::offlined_lines;
use hwp_check_rules::{List, OutOfMemory, Report, Script, VSlot};
use std::alloc::Global;

/// Whether each answer and each event line of a report is right; else the first line that breaks this.
pub fn answers_fault(
    alloc: Global,
    script: &Script,
    copies: &[List<Option<VSlot>>],
    report: &Report,
) -> Result<Option<u64>, OutOfMemory>
    requires valid { IsDeclared script.now }
    requires room { last_line report.now < 2 ^ 64 }
    requires shape { ShapeFits script.now report.now }
    requires histories { HistoriesFit script.now (copies_in copies.now) report.now }
    ensures { IfOk result (λ found. MatchOption found (IsClear (AnswersFit script.now (copies_in copies.now) report.now) (IsAnswerFault script.now (copies_in copies.now) report.now)) (IsFirstFault (AnswersFit script.now (copies_in copies.now) report.now) (IsAnswerFault script.now (copies_in copies.now) report.now))) }
{
    let lines = answer_lines(alloc, script, copies, report)?;
    let events = event_lines(alloc, script, copies, report)?;
    let offlined = offlined_lines(alloc, script, report)?;
    lines_break(script, copies, report);
    Ok(first_of_all(script, copies, report, lines, events, offlined))
}
