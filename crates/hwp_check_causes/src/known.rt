ghost use Rattle.std.specs.Prelude.{◌≡◌, ◌↔◌, Any, IsTrue, true};
ghost use Rattle.hwp_check_evidence.specs.hwp_law.Causes.{AreBadLines, HadBadLines, IsCaused};
ghost use Rattle.hwp_check_evidence.specs.hwp_law.Commands.{process_at, process_of_thread, thread_of};
ghost use Rattle.hwp_check_evidence.specs.hwp_law.Endings.{IsGone};
ghost use Rattle.hwp_check_evidence.specs.hwp_law.States.{HadState};
ghost use Rattle.hwp_check_evidence.specs.hwp_report_text.declared.Answer.TheVariants as answers;
ghost use Rattle.hwp_check_causes.specs.Asking.{IsAsked, IsSo, IsUnusedBy, is_by_state as is_by_state_of};
ghost use Rattle.hwp_check_causes.specs.Causing.{IsBadSomewhere, MetBadLines, is_by_thread as is_by_thread_of};

use crate::asking::{is_askable, named_state};
use crate::case::Case;
use crate::plain::are_bad_lines;
use hwp_check_evidence::{
    has_ending, was_away, was_cached, was_dirty, was_locked, was_mapped, was_unused,
};
use hwp_check_rules::{
    Answer, At, Command, FrameLine, Layout, Mask, Page, Proc, Report, Script, Thread, Who,
    command_of,
};

/// Whether the translation that the command frees wasn't in use at the place.
fn was_unused_by(case: &Case<'_>, at: At) -> bool
    ensures { IsTrue result ↔ HadState case.now.script.layout case.now.report.pages at (IsUnusedBy case.now.command) }
{
    match *case.command {
        Command::Free { slot } => {
            let pages = case.report.pages.as_slice();
            was_unused(
                &case.script.layout,
                pages,
                case.known.glances.as_slice(),
                at,
                slot,
            )
        }
        _ => false,
    }
}

/// Whether the state at the place was as the command's answer says.
fn was_so(case: &Case<'_>, answer: &Answer, at: At) -> bool
    ensures { IsTrue result ↔ HadState case.now.script.layout case.now.report.pages at (IsSo case.now.command answer.now) }
{
    let layout = &case.script.layout;
    let pages = case.report.pages.as_slice();
    match *answer {
        Answer::NotResident(_) => was_away(layout, pages, case.known.glances.as_slice(), at),
        Answer::NotMapped(_) => was_unused_by(case, at),
        Answer::Dirty(_) => was_dirty(layout, pages, case.known.glances.as_slice(), at),
        Answer::Mapped(_) => was_mapped(layout, pages, case.known.glances.as_slice(), at),
        Answer::Locked(_) => was_locked(layout, pages, case.known.glances.as_slice(), at),
        _ => false,
    }
}

/// Whether the command can have this answer, and the state at the place was as it says.
fn was_asked(case: &Case<'_>, answer: &Answer, at: At) -> bool
    ensures { IsTrue result ↔ IsAsked case.now.script case.now.report case.now.command answer.now at }
{
    is_askable(&case.script.layout, case.command, answer) && was_so(case, answer, at)
}

/// Whether an answer that says what state a page was in, but for its bad lines, has its cause.
pub(crate) fn is_by_state(case: &Case<'_>, answer: &Answer) -> bool
    requires { is_by_state_of answer.now ≡ true }
    ensures { IsTrue result ↔ IsCaused case.now.script case.now.report case.now.who case.now.command answer.now }
{
    match named_state(answer) {
        Some(at) => was_asked(case, answer, at),
        None => false,
    }
}

/// Whether the lines are bad in one of the frames.
fn some_has(frames: &[FrameLine], mask: Mask) -> bool
    ensures { IsTrue result ↔ Any (λ (l : FrameLine). AreBadLines l.bad.0 mask.0) frames.now }
{
    frames.iter().any(|line| are_bad_lines(line.bad.0, mask))
}

/// Whether the lines are bad in some frame.
#[tactic(auto, using(crate::proofs::LineLaws::any_frame, crate::proofs::LineLaws::frame_any))]
fn are_bad_somewhere(report: &Report, mask: Mask) -> bool
    ensures { IsTrue result ↔ IsBadSomewhere report.now mask }
{
    some_has(report.frames.as_slice(), mask)
}

/// Whether the page was cached at the place, and the lines are bad in some frame.
#[tactic(auto, using(crate::proofs::LineLaws::lines_had, crate::proofs::LineLaws::had_lines))]
fn had_bad_lines(case: &Case<'_>, mask: Mask, at: At) -> bool
    ensures { IsTrue result ↔ HadBadLines case.now.script case.now.report mask at }
{
    let layout = &case.script.layout;
    let pages = case.report.pages.as_slice();
    was_cached(layout, pages, case.known.glances.as_slice(), at)
        && are_bad_somewhere(case.report, mask)
}

/// Whether the command copies a page's content, and met its bad lines; those of a locked page `out` doesn't look at.
fn met_bad_lines(case: &Case<'_>, mask: Mask, at: At) -> bool
    ensures { IsTrue result ↔ MetBadLines case.now.script case.now.report case.now.command mask at }
{
    match *case.command {
        Command::Sync { page } => at.page == page && had_bad_lines(case, mask, at),
        Command::Out { page } => {
            !case.script.layout.is_locked(page) && at.page == page && had_bad_lines(case, mask, at)
        }
        _ => false,
    }
}

/// Whether an answer that tells of bad lines has its cause.
#[tactic(auto, using(crate::proofs::CauseLaws::caused_lines, crate::proofs::CauseLaws::lines_caused))]
pub(crate) fn is_by_lines(case: &Case<'_>, mask: Mask, at: At) -> bool
    ensures { IsTrue result ↔ IsCaused case.now.script case.now.report case.now.who case.now.command (answers.BadLines mask at) }
{
    met_bad_lines(case, mask, at)
}

/// Whether a thread makes the command.
fn is_by_thread(command: &Command) -> bool
    ensures { result ≡ is_by_thread_of command.now }
{
    matches!(
        command,
        Command::Load { .. }
            | Command::Fetch { .. }
            | Command::KLoad { .. }
            | Command::Store { .. }
            | Command::Prctl { .. }
            | Command::Fork { .. }
            | Command::RaiseUser { .. }
    )
}

/// The thread that makes the command.
fn thread_of(command: &Command) -> Option<Thread>
    ensures { result ≡ thread_of command.now }
{
    match *command {
        Command::Load { thread, .. }
        | Command::Fetch { thread, .. }
        | Command::KLoad { thread, .. }
        | Command::Store { thread, .. }
        | Command::Prctl { thread, .. }
        | Command::Fork { thread, .. }
        | Command::RaiseUser { thread, .. } => Some(thread),
        _ => None,
    }
}

/// The process of a thread.
fn process_of(layout: &Layout, thread: Thread) -> Option<Proc>
    ensures { result ≡ process_of_thread layout.now thread }
{
    match layout.threads.as_slice().get(usize::from(thread.0)) {
        Some(declared) => Some(declared.process),
        None => None,
    }
}

/// The process whose thread makes the command with this number.
pub fn process_at(script: &Script, who: Who) -> Option<Proc>
    ensures { result ≡ process_at script.now who }
{
    let Some(command) = command_of(script, who) else {
        return None;
    };
    match thread_of(&command) {
        Some(thread) => process_of(&script.layout, thread),
        None => None,
    }
}

/// Whether the process of the command's thread had ended in the page.
fn is_gone(case: &Case<'_>, page: Page) -> bool
    ensures { IsTrue result ↔ IsGone case.now.script case.now.report case.now.who page }
{
    let ends = case.own.ends.as_slice();
    match process_at(case.script, case.who) {
        Some(process) => has_ending(case.script, case.report, ends, case.who, process, page),
        None => false,
    }
}

/// Whether an answer that the process had ended in the page has its cause.
pub(crate) fn is_by_end(case: &Case<'_>, page: Page) -> bool
    ensures { IsTrue result ↔ IsCaused case.now.script case.now.report case.now.who case.now.command (answers.Gone page) }
{
    is_by_thread(case.command) && is_gone(case, page)
}
