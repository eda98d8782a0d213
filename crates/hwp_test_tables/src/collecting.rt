//! The collector of corrected errors: what it answers to notes of two frames, with rounds between them.

ghost use Rattle.std.specs.Prelude.{◌≡◌, length};

use crate::checking::check;
use hwp_cec::{Collector, Frame, MAX_THRESHOLD, MAX_WINDOW, Noted};
use std::alloc::Global;
use std::process::Abort;

const FRAMES: u16 = 2;

/// What is told to a collector, and what it has to answer.
#[derive(Clone, Copy)]
enum Step {
    /// A note of the frame, which isn't 2 or above.
    Note(u16, Noted),
    /// So many notes of frame 0, which are the first, the second, .. in the window.
    Notes(u16),
    /// So many rounds end.
    Rounds(u8),
    /// It begins anew, with this threshold and window.
    Restart(u16, u8),
}

const ONE: Noted = Noted::Counted(1);

const TWO: Noted = Noted::Counted(2);

const THREE: Noted = Noted::Counted(3);

const OFF: Noted = Noted::Offline;

/// The steps are answered so.
fn answers(rt: &impl Abort, alloc: Global, threshold: u16, window: u8, steps: &[Step]) {
    check(rt, 1 <= threshold);
    check(rt, threshold <= MAX_THRESHOLD);
    check(rt, 1 <= window);
    check(rt, window <= MAX_WINDOW);
    let mut collector = Collector::new(alloc, threshold, window, FRAMES).expect(rt, "memory");
    for step in steps {
        answers_one(rt, &mut collector, *step);
    }
}

fn answers_one(rt: &impl Abort, collector: &mut Collector, step: Step)
    requires { length collector.old.counts ≡ 2 }
    ensures { length collector.new.counts ≡ 2 }
{
    match step {
        Step::Note(frame, answer) => {
            check(rt, frame < FRAMES);
            check(rt, collector.note(Frame(frame)) == answer);
        }
        Step::Notes(count) => counts_up(rt, collector, count),
        Step::Rounds(count) => ends_rounds(collector, count),
        Step::Restart(threshold, window) => begins_anew(rt, collector, threshold, window),
    }
}

fn counts_up(rt: &impl Abort, collector: &mut Collector, count: u16)
    requires { length collector.old.counts ≡ 2 }
    ensures { length collector.new.counts ≡ 2 }
{
    for before in 0..count {
        check(rt, collector.note(Frame(0)) == Noted::Counted(before + 1));
    }
}

fn ends_rounds(collector: &mut Collector, count: u8)
    requires { length collector.old.counts ≡ 2 }
    ensures { length collector.new.counts ≡ 2 }
{
    for _ in 0..count {
        collector.round();
    }
}

fn begins_anew(rt: &impl Abort, collector: &mut Collector, threshold: u16, window: u8)
    requires { length collector.old.counts ≡ 2 }
    ensures { length collector.new.counts ≡ 2 }
{
    check(rt, 1 <= threshold);
    check(rt, threshold <= MAX_THRESHOLD);
    check(rt, 1 <= window);
    check(rt, window <= MAX_WINDOW);
    collector.restart(threshold, window);
}

/// A threshold, a window, and the steps with what they are answered.
type Row = (u16, u8, &'static [Step]);

/// Worked out by hand: the notes that a frame has in the current round and the `window - 1` rounds before it, since its last `Offline`.
#[rattlefmt::skip]
const ROWS: &[Row] = &[
    // Each note is the one that makes the threshold.
    (1, 1, &[Step::Note(0, OFF), Step::Note(0, OFF), Step::Rounds(1), Step::Note(0, OFF)]),
    // The note of the round before counts, and `Offline` forgets both.
    (2, 2, &[Step::Note(0, ONE), Step::Rounds(1), Step::Note(0, OFF), Step::Note(0, ONE), Step::Rounds(1), Step::Note(0, OFF)]),
    // With a window of one round it doesn't.
    (2, 1, &[Step::Note(0, ONE), Step::Rounds(1), Step::Note(0, ONE), Step::Note(0, OFF)]),
    // Two rounds on, it doesn't with a window of two; what `Offline` forgot doesn't come back.
    (2, 2, &[Step::Note(0, ONE), Step::Rounds(2), Step::Note(0, ONE), Step::Rounds(1), Step::Note(0, OFF), Step::Rounds(1), Step::Note(0, ONE)]),
    // Each frame has its own count: frame 0 is offlined, and frame 1 isn't; its first note falls out of the window.
    (3, 2, &[
        Step::Note(0, ONE), Step::Note(1, ONE), Step::Note(0, TWO), Step::Rounds(1), Step::Note(0, OFF), Step::Note(1, TWO),
        Step::Rounds(1), Step::Note(1, TWO), Step::Note(0, ONE),
    ]),
    // The ring turns more than once: one note in each round, of which the last three count.
    (10, 3, &[
        Step::Note(0, ONE), Step::Rounds(1), Step::Note(0, TWO), Step::Rounds(1), Step::Note(0, THREE), Step::Rounds(1), Step::Note(0, THREE),
        Step::Rounds(1), Step::Note(0, THREE), Step::Rounds(2), Step::Note(0, TWO),
    ]),
    // The highest threshold.
    (1000, 64, &[Step::Notes(999), Step::Note(0, OFF), Step::Note(0, ONE)]),
    // The longest window: the first note still counts 63 rounds later, and no more one round after that.
    (1000, 64, &[Step::Note(0, ONE), Step::Rounds(63), Step::Note(0, TWO), Step::Rounds(1), Step::Note(0, TWO)]),
    // Begun anew, it has no note, and another threshold and window.
    (5, 1, &[Step::Notes(4), Step::Restart(2, 3), Step::Note(0, ONE), Step::Rounds(2), Step::Note(0, OFF)]),
];

#[test]
fn a_collector_counts_the_notes_of_the_last_rounds(rt: HostRuntime) {
    for (threshold, window, steps) in ROWS {
        answers(&rt, rt.alloc(), *threshold, *window, steps);
    }
}
