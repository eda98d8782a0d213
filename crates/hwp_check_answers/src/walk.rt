ghost use Rattle.std.specs.Prelude.{◌≡◌, ◌≤◌, ◌↔◌, IsTrue, MatchBool, MatchOption, Some, length, slice_get};
ghost use Rattle.hwp_check_evidence.specs.hwp_report_text.declared.CpuLine.TheVariants as lines;
ghost use Rattle.hwp_check_evidence.specs.hwp_law.Lines.{answer_among};
ghost use Rattle.hwp_check_evidence.specs.hwp_law.Offlined.{IsOffline};
ghost use Rattle.hwp_check_answers.specs.Facts.{at_number};
ghost use Rattle.hwp_check_answers.specs.Judging.{IsNextOf};
ghost use Rattle.hwp_check_answers.specs.Placing.{FirstInPlace};
ghost use Rattle.hwp_check_answers.specs.Walk.{AreGoodLines, IsBadLine, AreSoFarAt, IsFirstBadLine, IsGoodAt, IsGoodLine, IsWrongAt, answered_before};

use crate::given::GivenAnswer;
use crate::judging::{LinesSoFar, is_good};
use crate::processor::JudgedProcessor;
use crate::so_far::note;
use hwp_check_causes::is_offlined;
use hwp_check_rules::{Answer, Command, CpuLine, OfflinedLine};

/// Whether nothing is wrong about the answer of this command.
fn is_good_command<'a>(
    processor: &'a JudgedProcessor<'_>,
    number: usize,
    so_far: &'a LinesSoFar,
    seq: u32,
    command: &'a Command,
    answer: &'a Answer,
) -> bool
    requires within { number ≤ length processor.now.rows }
    requires made { slice_get processor.now.commands seq ≡ Some command.now }
    requires so_far { AreSoFarAt processor.now number seq so_far.now }
    requires first { answer_among processor.now.rows seq ≡ Some answer.now }
    ensures { MatchBool result (IsGoodAt processor.now number seq command.now answer.now) (IsWrongAt processor.now number seq command.now answer.now) }
{
    is_good(&GivenAnswer {
        case: processor.case(seq, command),
        answer,
        before: &processor.rows[..number],
        so_far,
        naming: &processor.naming,
        copies: processor.copies,
    })
}

/// Whether the report shows the cause of what came of the frame that this command took out of use.
fn is_caused(processor: &JudgedProcessor<'_>, line: &OfflinedLine, command: &Command) -> bool
    requires { slice_get processor.now.commands line.now.seq ≡ Some command.now }
    ensures { IsTrue result ↔ IsOffline processor.now.script processor.now.report (at_number processor.now.cpu line.now.seq) line.now.frame line.now.result }
{
    is_offlined(&processor.case(line.seq, command), line.frame, line.result)
}

/// The same of any line of a frame taken out of use, if it is of a command.
#[tactic(auto, using(crate::proofs::WalkLaws::offlined_there, crate::proofs::WalkLaws::offlined_free))]
fn is_good_offlined(processor: &JudgedProcessor<'_>, number: usize, line: &OfflinedLine) -> bool
    ensures { MatchBool result (IsGoodLine processor.now number (lines.Offlined line.now)) (IsBadLine processor.now number (lines.Offlined line.now)) }
{
    match processor.command(line.seq) {
        Some(command) => is_caused(processor, line, command),
        None => true,
    }
}

/// Whether nothing is wrong about the answer of a command, if there is such a command.
#[tactic(auto, using(crate::proofs::WalkLaws::good_there, crate::proofs::WalkLaws::good_free))]
fn is_good_answer(
    processor: &JudgedProcessor<'_>,
    number: usize,
    so_far: &LinesSoFar,
    seq: u32,
    answer: &Answer,
) -> bool
    requires within { number ≤ length processor.now.rows }
    requires so_far { AreSoFarAt processor.now number seq so_far.now }
    requires first { answer_among processor.now.rows seq ≡ Some answer.now }
    ensures { MatchBool result (IsGoodLine processor.now number (lines.Answer seq answer.now)) (IsBadLine processor.now number (lines.Answer seq answer.now)) }
{
    match processor.command(seq) {
        Some(command) => is_good_command(processor, number, so_far, seq, command, answer),
        None => true,
    }
}

/// Whether the line at the number, if it is a command's answer, has nothing wrong about it.
fn is_good_row(
    processor: &JudgedProcessor<'_>,
    number: usize,
    so_far: &LinesSoFar,
    row: &CpuLine,
) -> bool
    requires within { number ≤ length processor.now.rows }
    requires so_far { AreSoFarAt processor.now number (answered_before processor.now number) so_far.now }
    requires next { IsNextOf processor.now.rows (answered_before processor.now number) row.now }
    ensures { MatchBool result (IsGoodLine processor.now number row.now) (IsBadLine processor.now number row.now) }
{
    match row {
        CpuLine::Event(_) | CpuLine::Guest(_) => true,
        CpuLine::Offlined(line) => is_good_offlined(processor, number, line),
        CpuLine::Answer { seq, answer } => {
            is_good_answer(processor, number, so_far, *seq, answer)
        }
    }
}

/// The number of the first of so many lines that is a command's answer with something wrong about it.
pub(crate) fn first_bad(
    processor: &JudgedProcessor<'_>,
    end: usize,
    start: LinesSoFar,
) -> Option<usize>
    requires within { end ≤ length processor.now.rows }
    requires places { FirstInPlace processor.now.commands processor.now.rows end }
    requires so_far { AreSoFarAt processor.now 0 0 start }
    ensures { MatchOption result (AreGoodLines processor.now end) (IsFirstBadLine processor.now end) }
{
    let mut so_far = start;
    for number in 0..end {
        let row = processor.line(number);
        if !is_good_row(processor, number, &so_far, row) {
            return Some(number);
        }
        note(processor, &mut so_far, row);
    }
    None
}
