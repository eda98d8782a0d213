ghost use Rattle.std.specs.Prelude.{◌≡◌, ◌<◌, ◌+◌, MatchOption, drop, length, option_map, unwrap_or};
ghost use Rattle.hwp_check_rules.specs.hwp_law.Private.{freeze_from, loaded, private_word, word_at_fork, word_before, word_in, word_stored};
ghost use Rattle.hwp_check_processes.specs.Words.{last_before, last_stored, pair_in, word_if};

use hwp_check_rules::{
    Answer, Command, Cpu, Entry, Layout, Line, Met, Report, VSlot, What, entries_through,
    freezes_slot,
};

/// A translation and a line of its page.
#[derive(Clone, Copy)]
pub struct Spot {
    pub slot: VSlot,
    pub line: Line,
}

/// What the command loads, if it loads a line.
pub(crate) fn loaded(command: &Command) -> Option<Spot>
    ensures { option_map pair_in result ≡ loaded command.now }
{
    match *command {
        Command::Load { slot, line, .. }
        | Command::Fetch { slot, line, .. }
        | Command::KLoad { slot, line, .. } => Some(Spot { slot, line }),
        _ => None,
    }
}

/// The number of the first command that froze the translation, if one did.
pub(crate) fn frozen_at(layout: &Layout, pairs: &[(Command, Answer)], slot: VSlot) -> Option<usize>
    ensures at { result ≡ freeze_from layout.now slot 0 pairs.now }
    ensures within { MatchOption result (Unit {0}) (λ n. n < length pairs.now) }
{
    for number in 0..pairs.len() {
        let pair = &pairs[number];
        if freezes_slot(layout, slot, pair.0, pair.1) {
            return Some(number);
        }
    }
    None
}

/// The word, or the last one where there is none.
fn word_or(word: Option<u64>, last: u64) -> u64
    ensures { result ≡ unwrap_or word last }
{
    match word {
        Some(word) => word,
        None => last,
    }
}

/// The word, if it was stored through the translation on the line, and the answer says so.
fn word_if(spot: &Spot, slot: VSlot, line: Line, word: u64, answer: Answer) -> Option<u64>
    ensures { result ≡ word_if spot.now.slot spot.now.line slot line word answer }
{
    match answer {
        Answer::Stored(_) => {
            if slot.0 == spot.slot.0 && line.get() == spot.line.get() {
                Some(word)
            } else {
                None
            }
        }
        _ => None,
    }
}

/// The word that a command with this answer stored there, if it stored one.
#[tactic(auto, using(crate::proofs::WordLaws::stored_if))]
fn word_stored(spot: &Spot, command: Command, answer: Answer) -> Option<u64>
    ensures { result ≡ word_stored spot.now.slot spot.now.line (command, answer) }
{
    match command {
        Command::Store {
            slot,
            line,
            word,
            ..
        } => word_if(spot, slot, line, word, answer),
        _ => None,
    }
}

/// The word that the last of some commands stored there, or this one where none did.
fn last_stored(spot: &Spot, first: u64, pairs: &[(Command, Answer)]) -> u64
    ensures { result ≡ last_stored spot.now.slot spot.now.line first pairs.now }
{
    let mut last = first;
    for pair in pairs {
        last = word_or(word_stored(spot, pair.0, pair.1), last);
    }
    last
}

/// The word that an entry stored on the line, if it stored one.
fn word_in(line: Line, what: &What) -> Option<u64>
    ensures { result ≡ word_in line what.now }
{
    match what {
        What::Store {
            line: at,
            met: Met::Word { word, .. },
            ..
        } => if at.get() == line.get() {
            Some(*word)
        } else {
            None
        },
        _ => None,
    }
}

/// The same of an entry of a processor's command before the number.
fn word_before(cpu: Cpu, number: u64, line: Line, entry: &Entry) -> Option<u64>
    ensures { result ≡ word_before cpu number line entry.now }
{
    if entry.who.cpu.0 == cpu.0 && u64::from(entry.who.seq) < number {
        word_in(line, &entry.what)
    } else {
        None
    }
}

/// The word that the last of some entries stored on the line, by a command of the processor before the number; 0 where none did.
fn last_before(cpu: Cpu, number: u64, line: Line, entries: &[Entry]) -> u64
    ensures { result ≡ last_before cpu number line entries.now }
{
    let mut last = 0;
    for entry in entries {
        last = word_or(word_before(cpu, number, line, entry), last);
    }
    last
}

/// What the translation's own page held on the line at the fork with this number.
#[tactic(auto, using(crate::proofs::WordLaws::at_fork))]
fn word_at_fork(layout: &Layout, report: &Report, cpu: Cpu, fork: u64, spot: &Spot) -> u64
    ensures { result ≡ word_at_fork layout.now report.now cpu fork spot.now.slot spot.now.line }
{
    last_before(
        cpu,
        fork,
        spot.line,
        entries_through(layout, report, spot.slot),
    )
}

/// The pairs behind the one with the number.
#[tactic(auto, using(crate::proofs::WordLaws::rest_is))]
fn behind(earlier: &[(Command, Answer)], number: usize) -> &[(Command, Answer)]
    requires { number < length earlier.now }
    ensures { result.now ≡ drop (number + 1) earlier.now }
{
    &earlier[number + 1..]
}

/// What a full copy at the fork with this number would hold there, behind these commands of the processor.
pub(crate) fn private_word(
    layout: &Layout,
    report: &Report,
    cpu: Cpu,
    fork: usize,
    spot: &Spot,
    earlier: &[(Command, Answer)],
) -> u64
    requires { fork < length earlier.now }
    ensures { result ≡ private_word layout.now report.now cpu fork spot.now.slot spot.now.line earlier.now }
{
    let first = word_at_fork(layout, report, cpu, fork as u64, spot);
    let since = behind(earlier, fork);
    last_stored(spot, first, since)
}
