ghost use Rattle.std.specs.Prelude.{◌≡◌, ◌↔◌, false, not, IsTrue};
ghost use Rattle.hwp_law.specs.Lines.{is_same_command};
ghost use Rattle.hwp_law.specs.Records.{WasPoisoned};
ghost use Rattle.hwp_check_event_line.specs.Results.{has_result, tells, tells_mark};
ghost use Rattle.hwp_check_event_line.specs.Ended.{is_earlier, may_end};

use crate::nears::{says, who_in};
use hwp_law::{Acted, How, MarkLine, Outcome, Who};

/// Whether the one is of an earlier command of the same processor.
fn is_earlier(a: Who, b: Who) -> bool
    ensures { result ≡ is_earlier a b }
{
    a.cpu.0 == b.cpu.0 && a.seq < b.seq
}

/// Whether the record may have ended so behind some of the marks while the command ran.
fn may_end(marks: &[MarkLine], who: Who, poisoned: bool) -> bool
    ensures { result ≡ may_end who poisoned (not poisoned) false marks.now }
{
    let mut may = !poisoned;
    let mut late = false;
    for mark in marks {
        let by = who_in(mark);
        late = late || is_earlier(who, by);
        may = may && !is_earlier(by, who) || !late && says(poisoned, mark);
    }
    may
}

/// Whether the frame with this record may have been poisoned, or not, while the command ran.
#[tactic(auto, using(crate::proofs::EndLaws::may_end_is))]
pub(crate) fn was_poisoned(marks: &[MarkLine], who: Who, poisoned: bool) -> bool
    ensures { IsTrue result ↔ WasPoisoned marks.now who poisoned }
{
    may_end(marks, who, poisoned)
}

/// Whether what was done says what came of a failure.
fn tells(outcome: Outcome, acted: Acted) -> bool
    ensures { result ≡ tells outcome acted }
{
    match outcome {
        Outcome::Recovered => matches!(acted, Acted::Recovered),
        Outcome::Delayed => matches!(acted, Acted::Delayed),
        Outcome::Ignored => matches!(acted, Acted::Ignored),
    }
}

/// Whether the two are one command of one processor.
pub fn is_same_command(a: Who, b: Who) -> bool
    ensures { result ≡ is_same_command a b }
{
    a.cpu.0 == b.cpu.0 && a.seq == b.seq
}

/// Whether an event of the command caused the mark, which tells this.
fn tells_mark(who: Who, acted: Acted, mark: &MarkLine) -> bool
    ensures { result ≡ tells_mark who acted mark.now }
{
    match *mark {
        MarkLine::Poisoned {
            who: by,
            how: How::Failure {
                hardware: true,
                outcome,
                ..
            },
            ..
        } => is_same_command(who, by) && tells(outcome, acted),
        _ => false,
    }
}

/// Whether some mark does so.
pub(crate) fn has_result(who: Who, acted: Acted, marks: &[MarkLine]) -> bool
    ensures { result ≡ has_result who acted marks.now }
{
    for mark in marks {
        if tells_mark(who, acted, mark) {
            return true;
        }
    }
    false
}
