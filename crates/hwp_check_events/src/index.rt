ghost use Rattle.std.specs.Prelude.{◌≡◌, [], replicate, IfOk, OnOk};
ghost use Rattle.hwp_check_events.specs.Indexed.{AreFirst, first_answer, with_answer};
ghost use Rattle.hwp_check_event_line.specs.OfCommands.{AreShown, shown_at, with_shown};

use hwp_check_event_line::Shown;
use hwp_law::{Answer, CpuLine, List, OutOfMemory};
use std::alloc::Global;

/// The event that a line shows, which stands at this place.
fn shown_at(place: usize, row: &CpuLine) -> Option<Shown>
    ensures { result ≡ shown_at place row.now }
{
    match *row {
        CpuLine::Event(line) => Some(Shown { place, line }),
        CpuLine::Offlined(_) | CpuLine::Guest(_) | CpuLine::Answer { .. } => None,
    }
}

/// So many empty lists.
fn empty_lists(alloc: Global, count: usize) -> Result<Vec<List<Shown>>, OutOfMemory>
    ensures { IfOk result (λ lists. lists.items ≡ replicate count []) }
{
    let mut lists = Vec::new(alloc);
    for number in 0..count {
        let _place = number;
        lists.push(List::new(alloc))?;
    }
    Ok(lists)
}

/// Adds an event to the list of its command, if there is such a command.
fn add(lists: &mut Vec<List<Shown>>, shown: Option<Shown>) -> Result<(), OutOfMemory>
    ensures { OnOk result (lists.new.items ≡ with_shown shown lists.old.items) }
{
    if let Some(shown) = shown {
        let at = shown.line.seq as usize;
        if at < lists.len() {
            lists[at].push(shown)?;
        }
    }
    Ok(())
}

/// For each of so many commands its event lines.
pub fn events_by_command(
    alloc: Global,
    count: usize,
    rows: &[CpuLine],
) -> Result<Vec<List<Shown>>, OutOfMemory>
    ensures { IfOk result (λ lists. AreShown rows.now count lists.items) }
{
    let mut lists = empty_lists(alloc, count)?;
    for place in 0..rows.len() {
        add(&mut lists, shown_at(place, &rows[place]))?;
    }
    Ok(lists)
}

/// The first of two answers, where there are any.
fn first_answer(first: Option<Answer>, other: Option<Answer>) -> Option<Answer>
    ensures { result ≡ first_answer first other }
{
    match first {
        Some(answer) => Some(answer),
        None => other,
    }
}

/// Adds a line's answer to that of its command, if there is such a command and it has none yet.
fn add_answer(answers: &mut Vec<Option<Answer>>, row: &CpuLine)
    ensures { answers.new.items ≡ with_answer row.now answers.old.items }
{
    if let CpuLine::Answer { seq, answer } = *row {
        let at = seq as usize;
        if at < answers.len() {
            answers[at] = first_answer(answers[at], Some(answer));
        }
    }
}

/// For each of so many commands its first answer.
pub(crate) fn answers_by_command(
    alloc: Global,
    count: usize,
    rows: &[CpuLine],
) -> Result<Vec<Option<Answer>>, OutOfMemory>
    ensures { IfOk result (λ answers. AreFirst rows.now count answers.items) }
{
    let mut answers = Vec::new(alloc);
    answers.resize(count, None)?;
    for place in 0..rows.len() {
        add_answer(&mut answers, &rows[place]);
    }
    Ok(answers)
}
