ghost use Rattle.std.specs.Prelude.{◌≡◌, ◌≢◌, ◌↔◌, ◌<◌, IsSome, IsTrue, true};
ghost use Rattle.hwp_check_evidence.specs.hwp_report_text.declared.Answer.TheVariants as answers;
ghost use Rattle.hwp_check_evidence.specs.hwp_law.Causes.{IsCaused, IsHeeded};
ghost use Rattle.hwp_check_evidence.specs.hwp_law.Offlined.{IsOffline};
ghost use Rattle.hwp_check_rules.specs.Answered.{IsRight};
ghost use Rattle.hwp_check_causes.specs.Asking.{is_by_state as is_by_state_of};
ghost use Rattle.hwp_check_causes.specs.Befores.{thread_numbers};
ghost use Rattle.hwp_check_causes.specs.Causing.{IsLast, is_last as is_last_of};
ghost use Rattle.hwp_check_causes.specs.Plain.{is_plain as is_plain_of};
ghost use Rattle.hwp_check_causes.specs.Telling.{is_by_entry as is_by_entry_of};

use crate::case::Case;
use crate::causes::{is_failure, is_offline, is_reply, is_unpoison};
use crate::known::{is_by_end, is_by_lines, is_by_state};
use crate::plain::{is_kernels, is_plain};
use crate::telling::is_by_entry;
use hwp_check_rules::{Answer, Command, Frame, OfflineResult, Report, Thread};

/// Whether an answer that names an entry is of that kind.
fn names_entry(answer: &Answer) -> bool
    ensures { result ≡ is_by_entry_of answer.now }
{
    matches!(
        answer,
        Answer::Value { .. } | Answer::Stored(_) | Answer::Sigbus(_) | Answer::DoneAt(_)
    )
}

/// Whether the answer says what state a page was in, but for its bad lines.
fn names_state(answer: &Answer) -> bool
    ensures { result ≡ is_by_state_of answer.now }
{
    matches!(
        answer,
        Answer::NotResident(_)
            | Answer::NotMapped(_)
            | Answer::Dirty(_)
            | Answer::Mapped(_)
            | Answer::Locked(_)
    )
}

/// Whether the command alone, the layout, a frame's bad lines or the number of events says whether the answer is right.
fn speaks_plainly(command: &Command, answer: &Answer) -> bool
    ensures { result ≡ is_plain_of command.now answer.now }
{
    match answer {
        Answer::Done => !matches!(command, Command::Prctl { .. } | Command::Unpoison { .. }),
        Answer::NoFrame
        | Answer::Eio(_)
        | Answer::Opened(_)
        | Answer::Kernel
        | Answer::HasBad(_)
        | Answer::InUse(_)
        | Answer::Scrubbed(_)
        | Answer::Raised(_)
        | Answer::GuestBad
        | Answer::GuestStopped => !matches!(command, Command::Prctl { .. }),
        _ => false,
    }
}

/// A thread id fits its type (proof only).
fn small(thread: Thread)
    ensures { thread.0 < thread_numbers }
{
    let _thread = thread;
}

/// Whether the answer is what a thread's policy, or a frame's record, says.
fn is_last_right(case: &Case<'_>, answer: &Answer) -> bool
    ensures { IsTrue result ↔ IsLast case.now.script case.now.report case.now.who case.now.command answer.now }
{
    match *case.command {
        Command::Prctl { thread, args } => {
            small(thread);
            is_reply(case.told.old, &args, answer)
        }
        Command::Inject { frame } => {
            case.script.layout.recovery && is_failure(case, frame, answer)
        }
        Command::Soft { frame } => {
            !is_kernels(&case.script.layout, frame) && is_offline(case, frame, answer)
        }
        Command::Unpoison { frame } => is_unpoison(case, frame, answer),
        _ => false,
    }
}

/// Whether an answer of a last kind has its cause.
fn is_last(case: &Case<'_>, answer: &Answer) -> bool
    requires { is_last_of case.now.command answer.now ≡ true }
    ensures { IsTrue result ↔ IsCaused case.now.script case.now.report case.now.who case.now.command answer.now }
{
    is_last_right(case, answer)
}

/// Whether an answer other than `stopped` has its cause.
fn is_caused(case: &Case<'_>, answer: &Answer) -> bool
    requires { answer.now ≢ answers.Stopped }
    ensures { IsTrue result ↔ IsCaused case.now.script case.now.report case.now.who case.now.command answer.now }
{
    if names_entry(answer) {
        return is_by_entry(case, answer);
    }
    if names_state(answer) {
        return is_by_state(case, answer);
    }
    if speaks_plainly(case.command, answer) {
        return is_plain(case, answer);
    }
    match *answer {
        Answer::BadLines(mask, at) => is_by_lines(case, mask, at),
        Answer::Gone(page) => is_by_end(case, page),
        _ => is_last(case, answer),
    }
}

/// Whether the answer is `stopped`.
fn is_stopped(answer: &Answer) -> bool
    ensures { IsTrue result ↔ (answer.now ≡ answers.Stopped) }
{
    matches!(answer, Answer::Stopped)
}

/// Whether the answer is `stopped` where one of the command's events stopped the machine, or was a panic.
fn is_heeded(case: &Case<'_>, answer: &Answer) -> bool
    ensures { IsTrue result ↔ IsHeeded case.now.report case.now.who answer.now }
{
    !case.told.ends || is_stopped(answer)
}

/// Whether the report tells of a stop.
fn tells_stop(report: &Report) -> bool
    ensures { IsTrue result ↔ IsSome report.now.stop }
{
    report.stop.is_some()
}

/// Whether the answer is right: `stopped` where one of the command's events stopped the machine, or was a panic, and with a cause
/// that the report shows.
pub fn is_right(case: &Case<'_>, answer: &Answer) -> bool
    ensures { IsTrue result ↔ IsRight case.now.script case.now.report case.now.who case.now.command answer.now }
{
    if !is_heeded(case, answer) {
        return false;
    }
    if is_stopped(answer) {
        return tells_stop(case.report());
    }
    is_caused(case, answer)
}

/// Whether the report shows the cause of what came of a frame that the command took out of use beside its answer: that of the same
/// answer of `soft`, or that the machine had stopped.
pub fn is_offlined(case: &Case<'_>, frame: Frame, told: OfflineResult) -> bool
    ensures { IsTrue result ↔ IsOffline case.now.script case.now.report case.now.who frame told }
{
    match told {
        OfflineResult::Stopped => tells_stop(case.report()),
        _ => is_offline(case, frame, &told.answer()),
    }
}
