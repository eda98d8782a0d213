use crate::judging::{LinesSoFar, Naming};
use hwp_check_causes::Case;
use hwp_check_rules::{Answer, CpuLine, List, VSlot};
use std::marker::Model;

/// The answer that a command was given, after these lines of its processor, and what is known of them. Clauses see the answer, the
/// lines, and what they see of the command's case.
#[derive(Drop)]
pub(crate) struct GivenAnswer<'a> {
    pub(crate) case: Case<'a>,
    pub(crate) answer: &'a Answer,
    pub(crate) before: &'a [CpuLine],
    pub(crate) so_far: &'a LinesSoFar,
    pub(crate) naming: &'a Naming,
    pub(crate) copies: &'a [List<Option<VSlot>>],
}

impl<'a> Model for GivenAnswer<'a> {
    ghost use Rattle.hwp_check_rules.specs.hwp_check_event_line.Reading.{copies_in};
    ghost use Rattle.hwp_check_answers.specs.Judging.{IsKnownAnswer};
    ghost use Rattle.hwp_check_answers.specs.Values.{AnswerValue};

    ghost Value = { AnswerValue };

    ghost view = { λ g. record { script = g.case.script; copies = g.copies.now; report = g.case.report; who = g.case.who; command = g.case.command; before = g.before.now; answer = g.answer.now } };

    ghost invariant = { λ g. IsKnownAnswer g.case.script (copies_in g.copies.now) g.case.report g.before.now g.case.who g.answer.now g.so_far.now g.naming.now };
}
