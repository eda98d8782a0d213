ghost use Rattle.std.specs.Prelude.{◌≡◌, ◌↔◌, IsTrue, length, true};
ghost use Rattle.hwp_check_evidence.specs.hwp_kill.Prctl.{reply};
ghost use Rattle.hwp_check_evidence.specs.hwp_page.declared.What.TheVariants as entries;
ghost use Rattle.hwp_check_evidence.specs.hwp_law.Outcomes.{reply_answer};
ghost use Rattle.hwp_check_evidence.specs.hwp_law.Answers.{StandsAt};
ghost use Rattle.hwp_check_evidence.specs.hwp_law.Causes.{ComesTo, HasMark, IsFailureAnswer, IsOfflineAnswer, IsUnpoisonAnswer};
ghost use Rattle.hwp_check_evidence.specs.hwp_law.Settings.{arguments};

use crate::case::Case;
use crate::plain::{are_bad_lines, bad_lines_of};
use crate::telling::entry_at;
use hwp_check_event_line::{came_to, was_moved, was_poisoned, was_taken_back, was_taken_free};
use hwp_check_evidence::was_hardware_seen;
use hwp_check_rules::{
    Answer, At, Entry, Frame, List, Outcome, Policy, PrctlArgs, Reply, What, Who, prctl,
};

/// Whether the answer is that number of a policy.
fn is_number(answer: &Answer, number: u64) -> bool
    ensures { IsTrue result ↔ (answer.now ≡ Answer.Is number) }
{
    match *answer {
        Answer::Is(told) => told == number,
        _ => false,
    }
}

/// Whether the answer is what prctl(2) replies.
pub(crate) fn is_reply(old: Policy, args: &PrctlArgs, answer: &Answer) -> bool
    ensures { IsTrue result ↔ (answer.now ≡ reply_answer (reply old (arguments args.now))) }
{
    match prctl(
        old,
        [args.operation, args.arg2, args.arg3, args.arg4, args.arg5],
    ) {
        Reply::Set(_) => matches!(answer, Answer::Done),
        Reply::Is(policy) => is_number(answer, policy.number()),
        Reply::Einval => matches!(answer, Answer::Einval),
    }
}

/// Whether the frame has a mark of the command with this result.
fn has_result(case: &Case<'_>, frame: Frame, outcome: Outcome) -> bool
    ensures { IsTrue result ↔ HasMark case.now.report case.now.who frame (ComesTo outcome) }
{
    came_to(case.report, &case.own.results, case.who, frame, outcome)
}

/// Whether the answer is that of a failure of a frame that a command brings about.
pub(crate) fn is_failure(case: &Case<'_>, frame: Frame, answer: &Answer) -> bool
    ensures { IsTrue result ↔ IsFailureAnswer case.now.report case.now.who frame answer.now }
{
    match *answer {
        Answer::Recovered => has_result(case, frame, Outcome::Recovered),
        Answer::Delayed => has_result(case, frame, Outcome::Delayed),
        Answer::Ignored => has_result(case, frame, Outcome::Ignored),
        Answer::Already => was_poisoned(
            case.report,
            &case.own.past,
            case.who,
            u64::from(frame.0),
            true,
        ),
        _ => false,
    }
}

/// Whether at the place stands an entry of the command that moved the page's content.
fn is_soft_at(pages: &[List<Entry>], who: Who, at: At) -> bool
    ensures { IsTrue result ↔ StandsAt pages.now who at entries.Soft }
{
    match entry_at(pages, at) {
        Some(entry) => entry.who == who && matches!(entry.what, What::Soft),
        None => false,
    }
}

/// Whether the answer is that of a soft offline of a frame that isn't the kernel's.
pub(crate) fn is_offline(case: &Case<'_>, frame: Frame, answer: &Answer) -> bool
    ensures { IsTrue result ↔ IsOfflineAnswer case.now.script case.now.report case.now.who frame answer.now }
{
    let report = case.report;
    let results = &case.own.results;
    match *answer {
        Answer::Moved(_, at) => {
            is_soft_at(report.pages.as_slice(), case.who, at)
                && was_moved(report, results, case.who, frame)
        }
        Answer::TakenFree => was_taken_free(report, results, case.who, frame),
        Answer::Already => was_poisoned(report, &case.own.past, case.who, u64::from(frame.0), true),
        Answer::HasBad(mask) => are_bad_lines(bad_lines_of(report, frame), mask),
        Answer::NoFrame => !case.known.ample,
        _ => false,
    }
}

/// Whether the answer is that of a command that takes back a failure.
pub(crate) fn is_unpoison(case: &Case<'_>, frame: Frame, answer: &Answer) -> bool
    ensures { IsTrue result ↔ IsUnpoisonAnswer case.now.report case.now.who frame answer.now }
{
    let report = case.report;
    match *answer {
        Answer::Done => was_taken_back(report, &case.own.results, case.who, frame),
        Answer::NotPoisoned => {
            was_poisoned(report, &case.own.past, case.who, u64::from(frame.0), false)
        }
        Answer::HardwareSeen => was_hardware_seen(report, case.own.reported, case.who),
        Answer::HasBad(mask) => are_bad_lines(bad_lines_of(report, frame), mask),
        Answer::InUse(_) => true,
        _ => false,
    }
}
