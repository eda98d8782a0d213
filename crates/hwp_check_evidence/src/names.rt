ghost use Rattle.std.specs.Prelude.{◌≡◌, ℕ, IfOk, OnOk};
ghost use Rattle.hwp_check_evidence.specs.Firsts.{AreNames, is_named, is_noted, noted_at, noted_by, row_noted, rows_noted};

use crate::firsts::{entries_named, first_answers, named_by};
use crate::named::{is_at, named_at};
use hwp_law::{At, CpuLine, OutOfMemory};
use std::alloc::Global;
use std::collections::HashMap;

/// Places of entries: the number of a command, a page, and the number in the page's history.
type Places = HashMap<((u32, u16), u64), bool>;

/// The places of the entries that the lines of a processor's commands name.
#[derive(Drop)]
pub struct Names {
    /// Those that their answers name.
    pub answers: Vec<Option<At>>,
    /// Those that their other lines name.
    pub beside: Places,
}

/// Notes the place that a line of the command names, if it names one.
fn note_place(beside: &mut Places, seq: u32, named: Option<At>) -> Result<(), OutOfMemory>
    ensures { OnOk result ((q : (ℕ × ℕ) × ℕ) → noted_at beside.new q ≡ noted_by q (noted_at beside.old q) seq named) }
{
    match named {
        Some(at) => {
            beside.insert(((seq, at.page.0), at.entry), true)?;
            Ok(())
        }
        None => Ok(()),
    }
}

/// Notes the place that a line names which is no answer.
fn note_row(beside: &mut Places, row: &CpuLine) -> Result<(), OutOfMemory>
    ensures { OnOk result ((q : (ℕ × ℕ) × ℕ) → noted_at beside.new q ≡ row_noted q (noted_at beside.old q) row.now) }
{
    match *row {
        CpuLine::Offlined(line) => note_place(beside, line.seq, named_by(&line.result.answer())),
        CpuLine::Event(_) | CpuLine::Guest(_) | CpuLine::Answer { .. } => Ok(()),
    }
}

/// The places that lines name which are no answers.
fn places_beside(alloc: Global, rows: &[CpuLine]) -> Result<Places, OutOfMemory>
    ensures { IfOk result (λ beside. (q : (ℕ × ℕ) × ℕ) → noted_at beside q ≡ rows_noted q rows.now) }
{
    let mut beside = HashMap::new(alloc);
    for row in rows {
        note_row(&mut beside, row)?;
    }
    Ok(beside)
}

/// The places that the lines of so many commands of a processor name.
pub fn names_of(alloc: Global, commands: usize, rows: &[CpuLine]) -> Result<Names, OutOfMemory>
    ensures { IfOk result (λ names. AreNames commands rows.now names) }
{
    let first = first_answers(alloc, commands, rows)?;
    let answers = entries_named(alloc, first.as_slice())?;
    let beside = places_beside(alloc, rows)?;
    Ok(Names { answers, beside })
}

/// Whether a line of the command that is no answer names the place.
fn is_noted(beside: &Places, seq: u32, at: At) -> bool
    ensures { result ≡ is_noted beside.now seq at }
{
    beside.get(&((seq, at.page.0), at.entry)).copied().is_some()
}

/// Whether a line of the command names the place.
pub(crate) fn is_named(names: &Names, seq: u32, at: At) -> bool
    ensures { result ≡ is_named names.now seq at }
{
    is_at(named_at(names.answers.as_slice(), seq), at) || is_noted(&names.beside, seq, at)
}
