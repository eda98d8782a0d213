ghost use Rattle.std.specs.Prelude.{◌≡◌, ◌⊎◌, ◌↔◌, ◌<◌, ◌+◌, IsTrue, MatchBool, Some, drop, length, slice_index_or, false};
ghost use Rattle.hwp_check_evidence.specs.hwp_law.Commands.{process_at};
ghost use Rattle.hwp_check_evidence.specs.hwp_law.Endings.{IsOver};
ghost use Rattle.hwp_check_evidence.specs.hwp_law.States.{IsInWindow, state_named};
ghost use Rattle.hwp_check_evidence.specs.Ends.{HadEnded};
ghost use Rattle.hwp_check_rules.specs.AnswerFaults.{IsNotLast, IsOutside, IsRevived, IsUnnamed};
ghost use Rattle.hwp_check_rules.specs.hwp_check_event_line.Reading.{copies_in};
ghost use Rattle.hwp_check_answers.specs.Judging.{HadGone, HasStoreBehind, StoresPast, is_own_store};
ghost use Rattle.std.specs.List.{list_any};
ghost use Rattle.hwp_check_answers.specs.Walk.{IsRightlyGiven, IsWronglyGiven};

use crate::given::GivenAnswer;
use hwp_check_causes::{is_right, named_state, process_at};
use hwp_check_evidence::{Names, had_ended, is_elsewhere, is_in_span, is_not_below};
use hwp_check_rules::{Answer, At, Entry, Proc, Report, VSlot, What, Who, copy_of, entries_on};

/// What the lines before an answer tell.
#[derive(Drop)]
pub struct LinesSoFar {
    /// The highest place of each page that an answer named.
    pub floors: Vec<u64>,
    /// Of which processes a command was answered that they had ended.
    pub gone: Vec<bool>,
}

/// What is known of a processor's commands, by their numbers.
pub struct Naming {
    /// The places of the entries that their lines name.
    pub names: Names,
    /// Whether they have an entry that one of their lines has to name, and none does.
    pub others: Vec<bool>,
}

// Proved here once, and cited where one is let go.
impl Drop for Naming {
    fn drop(self) {
        let Naming {
            names: _names,
            others: _others,
        } = self;
    }
}

/// Whether the answer is one of a command whose process had ended.
fn is_over(given: &GivenAnswer<'_>) -> bool
    ensures { IsTrue result ↔ IsOver given.now.answer }
{
    matches!(given.answer, Answer::Gone(_) | Answer::Stopped)
}

/// The process whose thread makes the command.
fn process_of(given: &GivenAnswer<'_>) -> Option<Proc>
    ensures { result ≡ process_at given.now.script given.now.who }
{
    process_at(given.case.script(), given.case.who())
}

/// Whether a command was answered that the process had ended.
fn is_flagged(gone: &[bool], process: Proc) -> bool
    ensures { result ≡ slice_index_or gone.now process.0 false }
{
    match gone.get(usize::from(process.0)) {
        Some(flag) => *flag,
        None => false,
    }
}

/// Whether an earlier command of the processor was answered that the process had ended.
fn had_gone(given: &GivenAnswer<'_>, process: Proc) -> bool
    ensures { IsTrue result ↔ HadGone given.now.script given.now.report given.now.who process }
{
    is_flagged(given.so_far.gone.as_slice(), process)
}

/// Whether an earlier command of the processor ended the process, or was answered that it had ended.
fn was_over(given: &GivenAnswer<'_>, process: Proc) -> bool
    ensures { IsTrue result ↔ (HadEnded given.now.script given.now.report given.now.who process ⊎ HadGone given.now.script given.now.report given.now.who process) }
{
    let case = &given.case;
    let ended = case.own().ended.as_slice();
    had_ended(case.script(), case.report(), ended, case.who(), process) || had_gone(given, process)
}

/// Whether the process whose thread makes the command had ended, and the answer says otherwise.
#[tactic(auto, using(crate::proofs::JudgeLaws::revived_is, crate::proofs::JudgeLaws::is_revived, crate::proofs::JudgeLaws::no_process))]
fn is_revived(given: &GivenAnswer<'_>) -> bool
    ensures { IsTrue result ↔ IsRevived given.now.script given.now.report given.now.who given.now.answer }
{
    if is_over(given) {
        return false;
    }
    match process_of(given) {
        Some(process) => was_over(given, process),
        None => false,
    }
}

/// Whether the place is in the command's window.
fn is_in_window(given: &GivenAnswer<'_>, at: At) -> bool
    requires { at.page.0 < length given.now.report.pages }
    ensures { IsTrue result ↔ IsInWindow given.now.report.pages given.now.before given.now.who at }
{
    let case = &given.case;
    let pages = case.report().pages.as_slice();
    let floors = given.so_far.floors.as_slice();
    is_in_span(pages, case.own().spans.as_slice(), case.who(), at)
        && is_not_below(pages.len(), given.before, floors, case.who(), at)
}

/// Whether the answer says what state a page was in when the command can't have seen it.
#[tactic(auto, using(crate::proofs::JudgeLaws::outside_is, crate::proofs::JudgeLaws::inside_is, crate::proofs::JudgeLaws::no_place))]
fn is_outside(given: &GivenAnswer<'_>) -> bool
    requires { (at : At) → state_named given.now.answer ≡ Some at → at.page.0 < length given.now.report.pages }
    ensures { IsTrue result ↔ IsOutside given.now.report given.now.before given.now.who given.now.answer }
{
    match named_state(given.answer) {
        Some(at) => !is_in_window(given, at),
        None => false,
    }
}

/// Whether the command has an entry that a line of it has to name, and none does.
fn is_unnamed(given: &GivenAnswer<'_>) -> bool
    ensures { IsTrue result ↔ IsUnnamed (copies_in given.now.copies) given.now.report given.now.who given.now.answer }
{
    let pages = given.case.report().pages.as_slice();
    is_elsewhere(
        pages,
        &given.naming.names,
        given.copies,
        given.naming.others.as_slice(),
        given.case.who(),
    )
}

/// Whether an entry of the command is a store.
fn is_own_store(who: Who, entry: &Entry) -> bool
    ensures { result ≡ is_own_store who entry.now }
{
    entry.who.cpu.0 == who.cpu.0
        && entry.who.seq == who.seq
        && matches!(entry.what, What::Store { .. })
}

/// Whether the command has a store among the entries.
fn has_own_store(who: Who, entries: &[Entry]) -> bool
    ensures { result ≡ list_any (is_own_store who) entries.now }
{
    entries.iter().any(|entry| is_own_store(who, entry))
}

/// The entries behind the place.
#[tactic(auto, using(crate::proofs::LastLaws::rest_is))]
fn entries_behind(entries: &[Entry], place: u64) -> &[Entry]
    requires { place < length entries.now }
    ensures { result.now ≡ drop (place + 1) entries.now }
{
    &entries[place as usize + 1..]
}

/// Whether the command has a store among the entries behind the place.
#[tactic(auto, using(crate::proofs::LastLaws::none_past))]
fn stores_behind(who: Who, entries: &[Entry], place: u64) -> bool
    ensures { result ≡ list_any (is_own_store who) (drop (place + 1) entries.now) }
{
    if place >= entries.len() as u64 {
        return false;
    }
    has_own_store(who, entries_behind(entries, place))
}

/// Whether the command has a store in the page behind the place.
fn has_store_behind(report: &Report, who: Who, at: At) -> bool
    ensures { IsTrue result ↔ HasStoreBehind report.now who at }
{
    stores_behind(who, entries_on(report, at.page), at.entry)
}

/// Whether the command stores behind the place that its answer names by `stored`.
fn stores_past(given: &GivenAnswer<'_>) -> bool
    ensures { IsTrue result ↔ StoresPast given.now.report given.now.who given.now.answer }
{
    match given.answer {
        Answer::Stored(at) => has_store_behind(given.case.report(), given.case.who(), *at),
        _ => false,
    }
}

/// The translation that the command copied from, if it copied.
fn copied_from(given: &GivenAnswer<'_>) -> Option<VSlot>
    ensures { result ≡ copies_in given.now.copies given.now.who }
{
    copy_of(given.copies, given.case.who())
}

/// Whether the command copied a page, and stores behind the place that its answer names.
#[tactic(auto, using(crate::proofs::LastLaws::past_last, crate::proofs::LastLaws::last_past, crate::proofs::LastLaws::none_copied))]
fn is_not_last(given: &GivenAnswer<'_>) -> bool
    ensures { IsTrue result ↔ IsNotLast (copies_in given.now.copies) given.now.report given.now.who given.now.answer }
{
    match copied_from(given) {
        Some(_) => stores_past(given),
        None => false,
    }
}

/// Whether nothing is wrong about an answer.
#[tactic(auto, using(crate::proofs::JudgeLaws::right_there))]
pub(crate) fn is_good(given: &GivenAnswer<'_>) -> bool
    ensures { MatchBool result (IsRightlyGiven given.now) (IsWronglyGiven given.now) }
{
    if !is_right(&given.case, given.answer) {
        return false;
    }
    if is_unnamed(given) {
        return false;
    }
    if is_not_last(given) {
        return false;
    }
    if is_outside(given) {
        return false;
    }
    !is_revived(given)
}
