ghost use Rattle.std.specs.Prelude.{◌≡◌, IfOk, length, map};
ghost use Rattle.hwp_law.specs.States.{entry_named};
ghost use Rattle.hwp_check_evidence.specs.Firsts.{AreAnswersOf, answered_by, entry_of};

use hwp_law::{Answer, At, CpuLine, OutOfMemory};
use std::alloc::Global;

/// Notes the answer of the line, unless its command has one.
fn note(list: &mut Vec<Option<Answer>>, row: &CpuLine)
    ensures { list.new.items ≡ answered_by list.old.items row.now }
{
    match *row {
        CpuLine::Event(_) | CpuLine::Offlined(_) | CpuLine::Guest(_) => {}
        CpuLine::Answer { seq, answer } => {
            let at = seq as usize;
            if at < list.len() {
                list[at] = list[at].or(Some(answer));
            }
        }
    }
}

/// The first answer of each of so many commands of a processor.
#[tactic(auto, using(crate::proofs::FirstLaws::answers_many, crate::proofs::FirstLaws::answers_are))]
pub(crate) fn first_answers(
    alloc: Global,
    commands: usize,
    rows: &[CpuLine],
) -> Result<Vec<Option<Answer>>, OutOfMemory>
    ensures many { IfOk result (λ list. length list.items ≡ commands) }
    ensures answers { IfOk result (λ list. AreAnswersOf rows.now list.items) }
{
    let mut list = vec![in alloc; None; commands]?;
    for row in rows {
        note(&mut list, row);
    }
    Ok(list)
}

/// The place of the entry that an answer names.
pub(crate) fn named_by(answer: &Answer) -> Option<At>
    ensures { result ≡ entry_named answer.now }
{
    match *answer {
        Answer::Value { at, .. } => Some(at),
        Answer::Stored(at) => Some(at),
        Answer::Sigbus(at) => Some(at),
        Answer::DoneAt(at) => Some(at),
        Answer::Moved(_, at) => Some(at),
        _ => None,
    }
}

/// The same, if there is an answer.
fn entry_of(answer: Option<Answer>) -> Option<At>
    ensures { result ≡ entry_of answer }
{
    match answer {
        Some(answer) => named_by(&answer),
        None => None,
    }
}

/// The places of the entries that answers name.
pub(crate) fn entries_named(
    alloc: Global,
    list: &[Option<Answer>],
) -> Result<Vec<Option<At>>, OutOfMemory>
    ensures { IfOk result (λ places. places.items ≡ map entry_of list.now) }
{
    let mut places = Vec::new(alloc);
    for answer in list {
        places.push(entry_of(*answer))?;
    }
    Ok(places)
}
