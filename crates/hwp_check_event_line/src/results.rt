ghost use Rattle.std.specs.Prelude.{◌≡◌, ◌<◌, ◌==◌, ℕ, true, cond, IfOk, OnOk};
ghost use Rattle.hwp_law.specs.Lines.{marks_of};
ghost use Rattle.hwp_check_event_line.specs.Results.{AreResults, acted_number, failure_number, has_key, has_number, has_result, how_number, is_key, mark_kept, mark_number, marks_at, marks_kept, outcome_number};

use crate::nears::who_in;
use hwp_law::{Acted, Cpu, FrameLine, How, MarkLine, OutOfMemory, Outcome, Report, Who};
use std::alloc::Global;
use std::collections::HashSet;

/// What a mark is, by the number of what it says less that of what came of it: a failure by a command.
pub(crate) const COMMANDED: u8 = 3;

/// A soft offline that moved the content.
pub(crate) const MOVED: u8 = 6;

/// A soft offline that took a free frame.
pub(crate) const TAKEN_FREE: u8 = 9;

/// The taking back of a poisoning.
pub(crate) const TAKEN_BACK: u8 = 12;

/// What no mark is.
const NOTHING: u8 = 13;

/// A frame, the number of a command, and the number of what a mark says.
type Key = ((usize, u32), u8);

/// What the marks of all frames say of the commands of one processor.
#[derive(Drop)]
pub struct Results {
    pub keys: HashSet<Key>,
}

/// The number of what came of a failure.
pub(crate) fn outcome_number(outcome: Outcome) -> u8
    ensures is { result ≡ outcome_number outcome }
    ensures small { result < 3 }
{
    match outcome {
        Outcome::Recovered => 0,
        Outcome::Delayed => 1,
        Outcome::Ignored => 2,
    }
}

/// The number of a failure, by whether an event caused it and what came of it.
fn failure_number(hardware: bool, outcome: Outcome) -> u8
    ensures { result ≡ failure_number hardware outcome }
{
    let number = outcome_number(outcome);
    if hardware { number } else { number + COMMANDED }
}

/// The number of what a poisoning says.
fn how_number(how: How) -> u8
    ensures { result ≡ how_number how }
{
    match how {
        How::Failure {
            hardware,
            outcome,
            ..
        } => failure_number(hardware, outcome),
        How::Moved => MOVED,
        How::TakenFree => TAKEN_FREE,
    }
}

/// The number of what a mark says.
fn mark_number(mark: &MarkLine) -> u8
    ensures { result ≡ mark_number mark.now }
{
    match *mark {
        MarkLine::Poisoned { how, .. } => how_number(how),
        MarkLine::Unpoisoned { .. } => TAKEN_BACK,
    }
}

/// The number of a failure by an event, where what was done says what came of it, or one that nothing has.
fn acted_number(acted: Acted) -> u8
    ensures { result ≡ acted_number acted }
{
    match acted {
        Acted::Recovered => 0,
        Acted::Delayed => 1,
        Acted::Ignored => 2,
        _ => NOTHING,
    }
}

/// Whether the key is among these.
fn has_key(keys: &HashSet<Key>, key: Key) -> bool
    ensures { result ≡ has_key keys.now key }
{
    keys.contains(&key)
}

/// Keeps a key.
fn add(keys: &mut HashSet<Key>, key: Key) -> Result<(), OutOfMemory>
    ensures { OnOk result ((q : (ℕ × ℕ) × ℕ) → has_key keys.new q ≡ cond (is_key key q) true (has_key keys.old q)) }
{
    keys.insert(key)?;
    Ok(())
}

/// Keeps a key, where it is to be kept.
fn add_if(keys: &mut HashSet<Key>, kept: bool, key: Key) -> Result<(), OutOfMemory>
    ensures { OnOk result ((q : (ℕ × ℕ) × ℕ) → has_key keys.new q ≡ cond kept (cond (is_key key q) true (has_key keys.old q)) (has_key keys.old q)) }
{
    if kept {
        add(keys, key)?;
    }
    Ok(())
}

/// Whether the command is one of the processor.
fn is_own(cpu: Cpu, who: Who) -> bool
    ensures { result ≡ (who.cpu.0 == cpu.0) }
{
    who.cpu.0 == cpu.0
}

/// Keeps what a mark says, where it is of one of the processor's commands.
fn add_mark(
    keys: &mut HashSet<Key>,
    cpu: Cpu,
    frame: usize,
    mark: &MarkLine,
) -> Result<(), OutOfMemory>
    ensures { OnOk result ((q : (ℕ × ℕ) × ℕ) → has_key keys.new q ≡ mark_kept cpu frame q (has_key keys.old q) mark.now) }
{
    let who = who_in(mark);
    let own = is_own(cpu, who);
    add_if(keys, own, ((frame, who.seq), mark_number(mark)))
}

/// Keeps what the marks of a frame say so.
fn add_marks(
    keys: &mut HashSet<Key>,
    cpu: Cpu,
    frame: usize,
    marks: &[MarkLine],
) -> Result<(), OutOfMemory>
    ensures { OnOk result ((q : (ℕ × ℕ) × ℕ) → has_key keys.new q ≡ marks_kept cpu frame q (has_key keys.old q) marks.now) }
{
    for mark in marks {
        add_mark(keys, cpu, frame, mark)?;
    }
    Ok(())
}

/// The record of a frame. One that isn't shown has none.
pub(crate) fn marks_at(frames: &[FrameLine], frame: usize) -> &[MarkLine]
    ensures { result.now ≡ marks_at frames.now frame }
{
    match frames.get(frame) {
        Some(line) => line.marks.as_slice(),
        None => &[],
    }
}

/// What the marks of all frames say of the processor's commands.
pub fn results_of(alloc: Global, cpu: Cpu, frames: &[FrameLine]) -> Result<Results, OutOfMemory>
    ensures { IfOk result (λ results. AreResults cpu frames.now results) }
{
    let mut keys = HashSet::new(alloc);
    for frame in 0..frames.len() {
        add_marks(&mut keys, cpu, frame, marks_at(frames, frame))?;
    }
    Ok(Results { keys })
}

/// Whether a mark of the command in the frame has the number.
pub(crate) fn has_number(
    report: &Report,
    results: &Results,
    who: Who,
    frame: u64,
    number: u8,
) -> bool
    requires { AreResults who.cpu report.now.frames results.now }
    ensures { result ≡ has_number who number (marks_of report.now frame) }
{
    let _report = report;
    has_key(&results.keys, ((frame as usize, who.seq), number))
}

/// Whether what was done says what came of a failure of the frame by an event of the command.
pub fn has_result(report: &Report, results: &Results, who: Who, frame: u64, acted: Acted) -> bool
    requires { AreResults who.cpu report.now.frames results.now }
    ensures { result ≡ has_result who acted (marks_of report.now frame) }
{
    has_number(report, results, who, frame, acted_number(acted))
}
