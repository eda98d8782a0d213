ghost use Rattle.std.specs.Prelude.{◌≡◌, IfOk};
ghost use Rattle.hwp_law.specs.Records.{is_poisoning, who_in};
ghost use Rattle.hwp_check_event_line.specs.Nears.{AreNears, IsPast, highs, lows, runs, says, seq_by};

use hwp_law::{Cpu, FrameLine, MarkLine, OutOfMemory, Who};
use std::alloc::Global;

/// The highest number that a command can have.
const TOP: u32 = 4_294_967_295;

/// What is kept of a frame's record for the commands of one processor.
pub struct Nears {
    /// From each mark on, the lowest command of the processor that made one.
    pub lows: Vec<u32>,
    /// Up to each mark, the highest command of the processor that made one.
    pub highs: Vec<u32>,
    /// From each mark on, how many say what it says.
    pub runs: Vec<usize>,
}

// Proved here once: crates above that let one go cite it.
impl Drop for Nears {
    fn drop(self) {
        let Nears {
            lows: _lows,
            highs: _highs,
            runs: _runs,
        } = self;
    }
}

/// What is kept of the records of all frames for the commands of one processor.
#[derive(Drop)]
pub struct MarkIndex {
    pub frames: Vec<Nears>,
}

/// The command of a mark.
pub(crate) fn who_in(mark: &MarkLine) -> Who
    ensures { result ≡ who_in mark.now }
{
    match *mark {
        MarkLine::Poisoned { who, .. } => who,
        MarkLine::Unpoisoned { who, .. } => who,
    }
}

/// The number of the mark's command, if it is one of the processor.
fn seq_by(cpu: Cpu, other: u32, mark: &MarkLine) -> u32
    ensures { result ≡ seq_by cpu other mark.now }
{
    let who = who_in(mark);
    if who.cpu.0 == cpu.0 { who.seq } else { other }
}

/// Whether the mark is a poisoning.
pub(crate) fn is_poisoning(mark: &MarkLine) -> bool
    ensures { result ≡ is_poisoning mark.now }
{
    matches!(mark, MarkLine::Poisoned { .. })
}

/// Whether the mark says as much.
pub(crate) fn says(poisoned: bool, mark: &MarkLine) -> bool
    ensures { result ≡ says poisoned mark.now }
{
    if poisoned {
        is_poisoning(mark)
    } else {
        !is_poisoning(mark)
    }
}

/// From each mark on, the lowest command of the processor that made one.
fn lows_of(alloc: Global, cpu: Cpu, marks: &[MarkLine]) -> Result<Vec<u32>, OutOfMemory>
    ensures { IfOk result (λ list. list.items ≡ lows cpu marks.now) }
{
    let mut list = vec![in alloc; 0; marks.len()]?;
    let mut low = TOP;
    for place in (0..marks.len()).rev() {
        low = seq_by(cpu, TOP, &marks[place]).min(low);
        list[place] = low;
    }
    Ok(list)
}

/// Up to each mark, the highest command of the processor that made one.
fn highs_of(alloc: Global, cpu: Cpu, marks: &[MarkLine]) -> Result<Vec<u32>, OutOfMemory>
    ensures { IfOk result (λ list. list.items ≡ highs cpu 0 marks.now) }
{
    let mut list = Vec::with_capacity(alloc, marks.len())?;
    let mut high = 0;
    for mark in marks {
        high = high.max(seq_by(cpu, 0, mark));
        list.push(high)?;
    }
    Ok(list)
}

/// From each mark on, how many say what it says.
fn runs_of(alloc: Global, marks: &[MarkLine]) -> Result<Vec<usize>, OutOfMemory>
    ensures { IfOk result (λ list. list.items ≡ runs marks.now) }
{
    let mut list = vec![in alloc; 0; marks.len()]?;
    let mut run = 0;
    let mut last = false;
    for place in (0..marks.len()).rev() {
        let mark = &marks[place];
        run = if says(last, mark) { run + 1 } else { 1 };
        last = is_poisoning(mark);
        list[place] = run;
    }
    Ok(list)
}

/// What is kept of a record.
fn nears_of(alloc: Global, cpu: Cpu, marks: &[MarkLine]) -> Result<Nears, OutOfMemory>
    ensures { IfOk result (λ nears. AreNears cpu marks.now nears) }
{
    let lows = lows_of(alloc, cpu, marks)?;
    let highs = highs_of(alloc, cpu, marks)?;
    let runs = runs_of(alloc, marks)?;
    Ok(Nears { lows, highs, runs })
}

/// What is kept of the records of all frames.
pub fn past_of(alloc: Global, cpu: Cpu, frames: &[FrameLine]) -> Result<MarkIndex, OutOfMemory>
    ensures { IfOk result (λ past. IsPast cpu frames.now past) }
{
    let mut all = Vec::with_capacity(alloc, frames.len())?;
    for line in frames {
        all.push(nears_of(alloc, cpu, line.marks.as_slice())?)?;
    }
    Ok(MarkIndex { frames: all })
}
