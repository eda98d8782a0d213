ghost use Rattle.std.specs.Prelude.{◌≡◌, ◌<◌, MatchBool, MatchOption, length, slice_index_or, false};
ghost use Rattle.hwp_check_rules.specs.GuestFaults.{IsAdmitted, IsMistold};
ghost use Rattle.hwp_check_rules.specs.hwp_law.GuestRule.{denial};
ghost use Rattle.hwp_check_processes.specs.Judging.{AreEnough, AreRight, AreTold, IsFirstLacking, IsFirstWrong, IsLackingBy, IsMisadmittedBy, IsWrongBy, LacksGuestBy, answer_behind, answer_by, says_bad, says_denied, says_stopped};

use crate::telling::{is_due, is_told};
use hwp_check_rules::{Admit, Answer, Command, CpuLine, GuestLine, Layout};

/// Whether the answer is one by which a guest doesn't admit an access.
fn says_denied(answer: Answer) -> bool
    ensures { result ≡ says_denied answer }
{
    matches!(answer, Answer::GuestBad | Answer::GuestStopped)
}

/// Whether it can be that of an access whose guest frame is bad.
fn says_bad(answer: Answer) -> bool
    ensures { result ≡ says_bad answer }
{
    matches!(answer, Answer::GuestBad | Answer::Stopped)
}

/// Whether it can be that of an access of a stopped guest.
fn says_stopped(answer: Answer) -> bool
    ensures { result ≡ says_stopped answer }
{
    matches!(answer, Answer::GuestStopped | Answer::Stopped)
}

/// Whether the answer is as the guest admits the access, where the command does something or nothing.
#[tactic(auto, using(crate::proofs::JudgeLaws::yes_there, crate::proofs::JudgeLaws::bad_there, crate::proofs::JudgeLaws::stopped_there))]
fn is_admitted(admit: Admit, answer: Answer, busy: bool) -> bool
    ensures { MatchBool result (IsAdmitted (denial admit) answer (busy ≡ false)) (IsAdmitted (denial admit) answer (busy ≡ false) → ⊥) }
{
    match admit {
        Admit::Yes => !says_denied(answer),
        Admit::Bad => says_bad(answer) && !busy,
        Admit::Stopped => says_stopped(answer) && !busy,
    }
}

/// The flag with the number.
fn flag_at(flags: &[bool], seq: u32) -> bool
    ensures { result ≡ slice_index_or flags.now seq false }
{
    match flags.get(seq as usize) {
        Some(flag) => *flag,
        None => false,
    }
}

/// Whether the guest admits the command with the number.
fn admit_at(admits: &[Admit], seq: u32) -> Admit
    ensures { result ≡ slice_index_or admits.now seq Admit.Yes }
{
    match admits.get(seq as usize) {
        Some(admit) => *admit,
        None => Admit::Yes,
    }
}

/// Whether the command with the number has to be answered otherwise, or does something where it has to do nothing.
#[tactic(auto, using(crate::proofs::JudgeLaws::none_made, crate::proofs::JudgeLaws::answered_there))]
fn is_misadmitted(
    commands: &[Command],
    admits: &[Admit],
    flags: &[bool],
    seq: u32,
    answer: Answer,
) -> bool
    ensures { MatchBool result (IsMisadmittedBy commands.now admits.now flags.now seq answer) (IsMisadmittedBy commands.now admits.now flags.now seq answer → ⊥) }
{
    let Some(_) = commands.get(seq as usize) else {
        return false;
    };
    !is_admitted(admit_at(admits, seq), answer, flag_at(flags, seq))
}

/// The answer, if the line is that of the command with the number.
fn answer_by(seq: u32, row: &CpuLine) -> Option<Answer>
    ensures { result ≡ answer_by seq row.now }
{
    match *row {
        CpuLine::Answer {
            seq: number,
            answer,
        } => { if number == seq { Some(answer) } else { None } }
        _ => None,
    }
}

/// The answer of the command with the number, if it stands right behind the row.
fn answer_behind(rows: &[CpuLine], row: usize, seq: u32) -> Option<Answer>
    requires { row < length rows.now }
    ensures { result ≡ answer_behind rows.now row seq }
{
    match rows.get(row + 1) {
        Some(next) => answer_by(seq, next),
        None => None,
    }
}

/// Whether the guest's line in a row isn't that of the answer behind it.
#[tactic(auto, using(crate::proofs::JudgeLaws::untold_made, crate::proofs::JudgeLaws::untold_next, crate::proofs::JudgeLaws::told_there))]
fn is_mistold(
    layout: &Layout,
    commands: &[Command],
    rows: &[CpuLine],
    row: usize,
    line: &GuestLine,
) -> bool
    requires { row < length rows.now }
    ensures { MatchBool result (IsMistold layout.now commands.now rows.now row line.now) (IsMistold layout.now commands.now rows.now row line.now → ⊥) }
{
    let seq = line.seq;
    let Some(command) = commands.get(seq as usize) else {
        return false;
    };
    match answer_behind(rows, row, seq) {
        Some(answer) => !is_told(layout, seq, command, answer, line),
        None => false,
    }
}

/// Whether the line in a row is a wrong answer of a guest's access, or a wrong line of a guest.
fn is_wrong(
    layout: &Layout,
    commands: &[Command],
    rows: &[CpuLine],
    admits: &[Admit],
    flags: &[bool],
    number: usize,
    row: &CpuLine,
) -> bool
    requires { number < length rows.now }
    ensures { MatchBool result (IsWrongBy layout.now commands.now rows.now admits.now flags.now number row.now) (IsWrongBy layout.now commands.now rows.now admits.now flags.now number row.now → ⊥) }
{
    match row {
        CpuLine::Answer { seq, answer } => {
            is_misadmitted(commands, admits, flags, *seq, *answer)
        }
        CpuLine::Guest(line) => is_mistold(layout, commands, rows, number, line),
        CpuLine::Event(_) | CpuLine::Offlined(_) => false,
    }
}

/// The number of the first line of a processor that is.
pub(crate) fn first_wrong(
    layout: &Layout,
    commands: &[Command],
    rows: &[CpuLine],
    admits: &[Admit],
    flags: &[bool],
) -> Option<usize>
    ensures { MatchOption result (AreRight layout.now commands.now rows.now admits.now flags.now (length rows.now)) (IsFirstWrong layout.now commands.now rows.now admits.now flags.now) }
{
    for number in 0..rows.len() {
        if is_wrong(layout, commands, rows, admits, flags, number, &rows[number]) {
            return Some(number);
        }
    }
    None
}

/// Whether the answer is one of which a guest has to be told, and the command has no guest's line by the flags.
#[tactic(auto, using(crate::proofs::JudgeLaws::lacks_made, crate::proofs::JudgeLaws::lacks_there))]
fn lacks_guest(
    layout: &Layout,
    commands: &[Command],
    told: &[bool],
    seq: u32,
    answer: Answer,
) -> bool
    ensures { MatchBool result (LacksGuestBy layout.now commands.now told.now seq answer) (LacksGuestBy layout.now commands.now told.now seq answer → ⊥) }
{
    let Some(command) = commands.get(seq as usize) else {
        return false;
    };
    is_due(layout, command, answer) && !flag_at(told, seq)
}

/// Whether the line is an answer whose guest's line lacks, by the flags.
fn is_lacking(layout: &Layout, commands: &[Command], told: &[bool], row: &CpuLine) -> bool
    ensures { MatchBool result (IsLackingBy layout.now commands.now told.now row.now) (IsLackingBy layout.now commands.now told.now row.now → ⊥) }
{
    match row {
        CpuLine::Answer { seq, answer } => lacks_guest(layout, commands, told, *seq, *answer),
        CpuLine::Event(_) | CpuLine::Offlined(_) | CpuLine::Guest(_) => false,
    }
}

/// The number of the first line of a processor that is, by which commands have a guest's line.
pub(crate) fn first_lacking(
    layout: &Layout,
    commands: &[Command],
    rows: &[CpuLine],
    told: &[bool],
) -> Option<usize>
    requires told { AreTold layout.now commands.now rows.now told.now }
    ensures { MatchOption result (AreEnough layout.now commands.now rows.now (length rows.now)) (IsFirstLacking layout.now commands.now rows.now) }
{
    for number in 0..rows.len() {
        if is_lacking(layout, commands, told, &rows[number]) {
            return Some(number);
        }
    }
    None
}
