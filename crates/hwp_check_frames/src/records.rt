ghost use Rattle.std.specs.Prelude.{◌≡◌, ◌≤◌, ◌↔◌, ◌&&◌, ℕ, Some, IsTrue, MatchBool, length, take};
ghost use Rattle.hwp_check_rules.specs.hwp_law.Lines.{answer_of};
ghost use Rattle.hwp_check_rules.specs.hwp_law.Pairings.{is_soft_of, says_soft, soft_lines};
ghost use Rattle.hwp_check_rules.specs.hwp_law.Commands.{command_at};
ghost use Rattle.hwp_check_rules.specs.hwp_law.Records.{IsAnswered, IsFound, IsMarkAt, is_moved, is_taken};
ghost use Rattle.hwp_check_rules.specs.hwp_law.Outcomes.{outcome_act, outcome_answer};
ghost use Rattle.hwp_check_frames.specs.Counts.{at_key};
ghost use Rattle.hwp_check_frames.specs.Given.{AreGiven};
ghost use Rattle.hwp_check_frames.specs.Index.{IsIndex, acted_in};
ghost use Rattle.hwp_check_frames.specs.Own.{marks_own};
ghost use Rattle.hwp_check_frames.specs.Softs.{marks_soft};
ghost use Rattle.hwp_check_frames.specs.MarkScans.{FindsRight, HasEvent, IsInject, IsNextResult, IsRightMark, IsSaid, IsSaidHow, IsSaidMore, IsUnpoison, IsWrongMark, WasInjected, WasUnpoisoned};

use crate::beside::spot_of;
use crate::counts::{Counts, count};
use crate::given::{Given, answer_in};
use crate::index::Index;
use crate::noted::Noted;
use crate::said::row_of;
use crate::softs::soft_key;
use hwp_check_rules::{
    Acted, Answer, Command, Frame, How, MarkLine, Outcome, Report, Script, Situation, Who,
    command_of,
};

/// Whether the mark is the one at its place: poisoned and unpoisoned in cycle 0, then in cycle 1, and so on.
fn is_mark_at(place: usize, mark: &MarkLine) -> bool
    ensures { IsTrue result ↔ IsMarkAt place mark.now }
{
    match *mark {
        MarkLine::Poisoned { cycle, .. } => cycle as usize == place / 2 && place % 2 == 0,
        MarkLine::Unpoisoned { cycle, .. } => cycle as usize == place / 2 && place % 2 != 0,
    }
}

/// Whether a poisoning found what such a frame can have, and came to the result of that.
fn is_found(kernel: bool, how: How) -> bool
    ensures { IsTrue result ↔ IsFound kernel how }
{
    match how {
        How::Failure {
            situation,
            outcome,
            ..
        } => { matches!(situation, Situation::Kernel) == kernel && outcome == situation.outcome() }
        How::Moved | How::TakenFree => !kernel,
    }
}

/// Whether the mark finds what can be in such a frame.
fn finds_right(kernel: bool, mark: &MarkLine) -> bool
    ensures { IsTrue result ↔ FindsRight kernel mark.now }
{
    match *mark {
        MarkLine::Poisoned { how, .. } => is_found(kernel, how),
        MarkLine::Unpoisoned { .. } => true,
    }
}

/// Whether the command injects into the frame.
fn is_inject(command: Option<Command>, frame: Frame) -> bool
    ensures { IsTrue result ↔ IsInject frame command }
{
    match command {
        Some(Command::Inject { frame: other }) => other == frame,
        _ => false,
    }
}

/// Whether the command takes the frame softly out of use.
fn is_soft_of(command: Option<Command>, frame: Frame) -> bool
    ensures { result ≡ is_soft_of frame command }
{
    match command {
        Some(Command::Soft { frame: other }) => other.0 == frame.0,
        _ => false,
    }
}

/// Whether the command unpoisons the frame.
fn is_unpoison(command: Option<Command>, frame: Frame) -> bool
    ensures { IsTrue result ↔ IsUnpoison frame command }
{
    match command {
        Some(Command::Unpoison { frame: other }) => other == frame,
        _ => false,
    }
}

/// Whether the answer says what came of a failure.
fn is_outcome(answer: Option<Answer>, outcome: Outcome) -> bool
    ensures { IsTrue result ↔ (answer ≡ Some (outcome_answer outcome)) }
{
    match answer {
        Some(Answer::Recovered) => matches!(outcome, Outcome::Recovered),
        Some(Answer::Delayed) => matches!(outcome, Outcome::Delayed),
        Some(Answer::Ignored) => matches!(outcome, Outcome::Ignored),
        _ => false,
    }
}

/// Whether the command injected into the frame, and was answered so.
fn was_injected(
    script: &Script,
    report: &Report,
    given: &Given,
    who: Who,
    frame: Frame,
    outcome: Outcome,
) -> bool
    requires given { AreGiven report.now given.now }
    ensures { IsTrue result ↔ WasInjected script.now report.now who frame outcome }
{
    is_inject(command_of(script, who), frame) && is_outcome(answer_in(report, given, who), outcome)
}

/// Whether the answer says that the content moved.
fn is_moved(answer: Option<Answer>) -> bool
    ensures { result ≡ is_moved answer }
{
    matches!(answer, Some(Answer::Moved(..)))
}

/// Whether the answer says that a free frame was taken.
fn is_taken(answer: Option<Answer>) -> bool
    ensures { result ≡ is_taken answer }
{
    matches!(answer, Some(Answer::TakenFree))
}

/// Whether the answer says that a soft offline moved the content, or that it took a free frame.
fn says_soft(moved: bool, answer: Option<Answer>) -> bool
    ensures { result ≡ says_soft moved answer }
{
    if moved {
        is_moved(answer)
    } else {
        is_taken(answer)
    }
}

/// Whether the command is a soft offline of the frame, and its answer says so.
fn is_soft_so(
    script: &Script,
    report: &Report,
    given: &Given,
    who: Who,
    frame: Frame,
    moved: bool,
) -> bool
    requires { AreGiven report.now given.now }
    ensures { result ≡ (is_soft_of frame (command_at script.now who) && says_soft moved (answer_of report.now who)) }
{
    is_soft_of(command_of(script, who), frame) && says_soft(moved, answer_in(report, given, who))
}

/// How many lines of the command say so of the frame: its answer, and lines beside it.
pub fn soft_lines(
    script: &Script,
    report: &Report,
    index: &Index,
    who: Who,
    frame: Frame,
    moved: bool,
) -> u64
    requires { IsIndex report.now index.now }
    ensures { result ≡ soft_lines script.now report.now who frame moved }
{
    let answered = u64::from(is_soft_so(script, report, &index.given, who, frame, moved));
    answered + count(&index.beside, spot_of(who, frame, moved))
}

/// Whether behind these marks the command has a line more that says so.
fn is_said_more(
    script: &Script,
    report: &Report,
    index: &Index,
    softs: &Counts,
    frame: Frame,
    before: &[MarkLine],
    who: Who,
    moved: bool,
) -> bool
    requires index { IsIndex report.now index.now }
    requires softs { (q : (ℕ × ℕ) × ℕ) → at_key softs.now q ≡ marks_soft q before.now }
    ensures { IsTrue result ↔ IsSaidMore script.now report.now frame before.now who moved }
{
    let _before = before;
    let lines = soft_lines(script, report, index, who, frame, moved);
    count(softs, soft_key(who, moved)) < lines
}

/// Whether a poisoning, if it is a soft offline, has a line of its command that says so, beside those of the marks before it.
fn is_said_how(
    script: &Script,
    report: &Report,
    index: &Index,
    softs: &Counts,
    frame: Frame,
    before: &[MarkLine],
    who: Who,
    how: How,
) -> bool
    requires index { IsIndex report.now index.now }
    requires softs { (q : (ℕ × ℕ) × ℕ) → at_key softs.now q ≡ marks_soft q before.now }
    ensures { IsTrue result ↔ IsSaidHow script.now report.now frame before.now who how }
{
    match how {
        How::Failure { .. } => true,
        How::Moved => is_said_more(script, report, index, softs, frame, before, who, true),
        How::TakenFree => is_said_more(script, report, index, softs, frame, before, who, false),
    }
}

/// Whether the mark, if it is of a soft offline, has such a line.
fn is_said(
    script: &Script,
    report: &Report,
    index: &Index,
    softs: &Counts,
    frame: Frame,
    before: &[MarkLine],
    mark: &MarkLine,
) -> bool
    requires index { IsIndex report.now index.now }
    requires softs { (q : (ℕ × ℕ) × ℕ) → at_key softs.now q ≡ marks_soft q before.now }
    ensures { IsTrue result ↔ IsSaid script.now report.now frame before.now mark.now }
{
    match *mark {
        MarkLine::Poisoned { who, how, .. } => {
            is_said_how(script, report, index, softs, frame, before, who, how)
        }
        MarkLine::Unpoisoned { .. } => true,
    }
}

/// Whether the command unpoisoned the frame.
fn was_unpoisoned(script: &Script, report: &Report, given: &Given, who: Who, frame: Frame) -> bool
    requires given { AreGiven report.now given.now }
    ensures { IsTrue result ↔ WasUnpoisoned script.now report.now who frame }
{
    is_unpoison(command_of(script, who), frame)
        && matches!(answer_in(report, given, who), Some(Answer::Done))
}

/// Whether the mark, if an `inject` or an `unpoison` made it, has its command's answer beside it.
fn is_answered(
    script: &Script,
    report: &Report,
    given: &Given,
    frame: Frame,
    mark: &MarkLine,
) -> bool
    requires given { AreGiven report.now given.now }
    ensures { IsTrue result ↔ IsAnswered script.now report.now frame mark.now }
{
    match *mark {
        MarkLine::Poisoned { who, how, .. } => match how {
            How::Failure { hardware: true, .. } => true,
            How::Failure {
                hardware: false,
                outcome,
                ..
            } => was_injected(script, report, given, who, frame, outcome),
            How::Moved | How::TakenFree => true,
        },
        MarkLine::Unpoisoned { who, .. } => was_unpoisoned(script, report, given, who, frame),
    }
}

/// Whether what was done about an event says what came of a failure.
fn is_act(acted: Option<Acted>, outcome: Outcome) -> bool
    ensures { IsTrue result ↔ (acted ≡ Some (outcome_act outcome)) }
{
    match acted {
        Some(Acted::Recovered) => matches!(outcome, Outcome::Recovered),
        Some(Acted::Delayed) => matches!(outcome, Outcome::Delayed),
        Some(Acted::Ignored) => matches!(outcome, Outcome::Ignored),
        _ => false,
    }
}

/// What was done about the event of a line.
fn acted_in(noted: Option<Noted>) -> Option<Acted>
    ensures { result ≡ acted_in noted }
{
    match noted {
        Some(noted) => Some(noted.acted),
        None => None,
    }
}

/// Whether behind these marks the next of the command's results for the frame is this one.
fn is_next_result(
    report: &Report,
    index: &Index,
    had: &Counts,
    frame: Frame,
    before: &[MarkLine],
    who: Who,
    outcome: Outcome,
) -> bool
    requires index { IsIndex report.now index.now }
    requires had { (q : (ℕ × ℕ) × ℕ) → at_key had.now q ≡ marks_own frame.0 q before.now }
    ensures { IsTrue result ↔ IsNextResult report.now frame before.now who outcome }
{
    let _report = report;
    let _before = before;
    let own = ((who.cpu.0, who.seq), u64::from(frame.0));
    let place = (own, count(had, own));
    is_act(acted_in(row_of(&index.said.rows, place)), outcome)
}

/// Whether the mark, where an event caused it, has the next of its command's results for the frame.
fn has_event(
    report: &Report,
    index: &Index,
    had: &Counts,
    frame: Frame,
    before: &[MarkLine],
    mark: &MarkLine,
) -> bool
    requires index { IsIndex report.now index.now }
    requires had { (q : (ℕ × ℕ) × ℕ) → at_key had.now q ≡ marks_own frame.0 q before.now }
    ensures { IsTrue result ↔ HasEvent report.now frame before.now mark.now }
{
    match *mark {
        MarkLine::Poisoned { who, how, .. } => match how {
            How::Failure {
                hardware: true,
                outcome,
                ..
            } => is_next_result(report, index, had, frame, before, who, outcome),
            How::Failure {
                hardware: false,
                ..
            } => true,
            How::Moved | How::TakenFree => true,
        },
        MarkLine::Unpoisoned { .. } => true,
    }
}

/// Whether the mark is right.
pub(crate) fn is_right(
    script: &Script,
    report: &Report,
    index: &Index,
    had: &Counts,
    softs: &Counts,
    kernel: bool,
    frame: Frame,
    marks: &[MarkLine],
    place: usize,
    mark: &MarkLine,
) -> bool
    requires index { IsIndex report.now index.now }
    requires had { (q : (ℕ × ℕ) × ℕ) → at_key had.now q ≡ marks_own frame.0 q (take place marks.now) }
    requires softs { (q : (ℕ × ℕ) × ℕ) → at_key softs.now q ≡ marks_soft q (take place marks.now) }
    requires within { place ≤ length marks.now }
    ensures { MatchBool result (IsRightMark script.now report.now kernel frame marks.now place mark.now) (IsWrongMark script.now report.now kernel frame marks.now place mark.now) }
{
    if !is_mark_at(place, mark) {
        return false;
    }
    if !finds_right(kernel, mark) {
        return false;
    }
    if !is_answered(script, report, &index.given, frame, mark) {
        return false;
    }
    let before = &marks[..place];
    if !is_said(script, report, index, softs, frame, before, mark) {
        return false;
    }
    has_event(report, index, had, frame, before, mark)
}
