ghost use Rattle.std.specs.Prelude.{◌≡◌, ◌↔◌, Some, IsTrue, MatchBool, MatchOption, length};
ghost use Rattle.hwp_check_rules.specs.hwp_report_text.declared.Answer.TheVariants as answers;
ghost use Rattle.hwp_check_rules.specs.hwp_law.Lines.{answer_among};
ghost use Rattle.hwp_check_processes.specs.Loads.{AreKept, IsFirstWrong, IsWordWrong, IsWrongRow, expected};

use crate::admission::before;
use crate::words::{frozen_at, loaded, private_word};
use hwp_check_rules::{Answer, At, Command, Cpu, CpuLine, Layout, Report, answer_among};

/// The word that the command has to be answered by, if it loads through a frozen translation, behind these commands.
#[tactic(auto, using(crate::proofs::WordLaws::expected_no_load, crate::proofs::WordLaws::expected_unfrozen, crate::proofs::WordLaws::expected_frozen))]
fn expected(
    layout: &Layout,
    report: &Report,
    cpu: Cpu,
    earlier: &[(Command, Answer)],
    command: &Command,
) -> Option<u64>
    ensures { result ≡ expected layout.now report.now cpu earlier.now command.now }
{
    let Some(spot) = loaded(command) else {
        return None;
    };
    match frozen_at(layout, earlier, spot.slot) {
        Some(fork) => Some(private_word(layout, report, cpu, fork, &spot, earlier)),
        None => None,
    }
}

/// Whether the command with the number has to be answered by another word.
#[tactic(auto, using(crate::proofs::LoadLaws::none_there, crate::proofs::LoadLaws::expects_none, crate::proofs::LoadLaws::expects_some))]
fn is_word_wrong(
    layout: &Layout,
    report: &Report,
    cpu: Cpu,
    commands: &[Command],
    pairs: &[(Command, Answer)],
    seq: u32,
    word: u64,
) -> bool
    ensures { MatchBool result (IsWordWrong layout.now report.now cpu commands.now pairs.now seq word) (IsWordWrong layout.now report.now cpu commands.now pairs.now seq word → ⊥) }
{
    let number = seq as usize;
    let Some(command) = commands.get(number) else {
        return false;
    };
    match expected(layout, report, cpu, before(pairs, number), command) {
        Some(expected) => expected != word,
        None => false,
    }
}

/// Whether the answer is this word, at this place.
#[tactic(auto, using(crate::proofs::LoadLaws::same_answer, crate::proofs::LoadLaws::other_answer))]
fn is_value(answer: Answer, word: u64, at: At) -> bool
    ensures { IsTrue result ↔ (answer ≡ answers.Value word at) }
{
    match answer {
        Answer::Value {
            word: told,
            at: place,
        } => told == word && place.page.0 == at.page.0 && place.entry == at.entry,
        _ => false,
    }
}

/// Whether that of the command with the number is.
fn is_answered(rows: &[CpuLine], seq: u32, word: u64, at: At) -> bool
    ensures { IsTrue result ↔ (answer_among rows.now seq ≡ Some (answers.Value word at)) }
{
    match answer_among(rows, seq) {
        Some(answer) => is_value(answer, word, at),
        None => false,
    }
}

/// Whether the line answers a load by a word that isn't private.
#[tactic(auto, using(crate::proofs::LoadLaws::value_wrong, crate::proofs::LoadLaws::other_line))]
fn is_wrong(
    layout: &Layout,
    report: &Report,
    cpu: Cpu,
    commands: &[Command],
    rows: &[CpuLine],
    pairs: &[(Command, Answer)],
    row: &CpuLine,
) -> bool
    ensures { MatchBool result (IsWrongRow layout.now report.now cpu commands.now rows.now pairs.now row.now) (IsWrongRow layout.now report.now cpu commands.now rows.now pairs.now row.now → ⊥) }
{
    match *row {
        CpuLine::Answer {
            seq,
            answer: Answer::Value { word, at },
        } => {
            is_word_wrong(layout, report, cpu, commands, pairs, seq, word)
                && is_answered(rows, seq, word, at)
        }
        _ => false,
    }
}

/// The number of the first line of a processor that answers a load by a word that isn't private.
pub(crate) fn first_wrong(
    layout: &Layout,
    report: &Report,
    cpu: Cpu,
    commands: &[Command],
    rows: &[CpuLine],
    pairs: &[(Command, Answer)],
) -> Option<usize>
    ensures { MatchOption result (AreKept layout.now report.now cpu commands.now rows.now pairs.now (length rows.now)) (IsFirstWrong layout.now report.now cpu commands.now rows.now pairs.now) }
{
    for number in 0..rows.len() {
        if is_wrong(layout, report, cpu, commands, rows, pairs, &rows[number]) {
            return Some(number);
        }
    }
    None
}
