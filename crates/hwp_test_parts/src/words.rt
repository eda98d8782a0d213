//! The words behind each turn of a frame that is taken and let go.

ghost use Rattle.std.specs.Prelude.{◌≡◌, ◌<◌};
ghost use Rattle.hwp_core.specs.hwp_core_rule.Opening.{opening_view};
ghost use Rattle.hwp_core.specs.hwp_core_rule.Boards.{view_of};
ghost use Rattle.hwp_core.specs.hwp_core_rule.Hands.{hand_of};
ghost use Rattle.hwp_core.specs.Unlocks as unlocks;
ghost use Rattle.hwp_evict.specs.Takes as takes;
ghost use Rattle.hwp_test_parts.specs.TakenFrames.{taken};

use crate::checking::check;
use crate::machine::machine;
use crate::turns::is_turn;
use hwp_core::{Board, Cpu, Frame, Kind, Task, Turn, Unlock, Who};
use hwp_evict::{Take, TakeAnswer};
use hwp_plain::PlainBoard;
use std::alloc::Global;
use std::process::Abort;

/// A processor and three frames, of which frame 0 is the kernel's.
const THREE_FRAMES: &[u8] = b"hwp 1\ncpus 1\nframes 3\nkernel 0\nend\n";

/// The processor's first command.
const FIRST: Who = Who {
    cpu: Cpu(0),
    seq: 0,
};

/// The board of that machine at opening.
fn opened(rt: &impl Abort, alloc: Global) -> PlainBoard
    ensures cpus { 0 < result.layout.cpus }
    ensures view { view_of result.state 0 ≡ opening_view 0 }
{
    let layout = machine(rt, alloc, THREE_FRAMES);
    assert!(rt; layout.cpus == 1);
    PlainBoard::new(alloc, &layout).expect(rt, "memory")
}

/// A task that takes a frame for the first command.
fn taking(board: &PlainBoard) -> Take
    requires { view_of board.now.state 0 ≡ opening_view 0 }
    ensures who { result.who.cpu.0 ≡ 0 }
    ensures fits { takes.Fits board.now.layout (view_of board.now.state 0) result }
    ensures hand { hand_of (view_of board.now.state 0) ≡ taken result.at }
{
    let _board = board;
    Take::new(FIRST)
}

/// One turn of the take: the processor holds what belongs to where the task is.
fn take(board: &mut PlainBoard, task: &mut Take) -> (Turn, Option<Kind>)
    requires cpus { 0 < board.old.layout.cpus }
    requires own { task.old.who.cpu.0 ≡ 0 }
    requires fits { takes.Fits board.old.layout (view_of board.old.state 0) task.old }
    requires hand { hand_of (view_of board.old.state 0) ≡ taken task.old.at }
    ensures layout { board.new.layout ≡ board.old.layout }
    ensures own { task.new.who.cpu.0 ≡ 0 }
    ensures fits { takes.Fits board.new.layout (view_of board.new.state 0) task.new }
    ensures hand { hand_of (view_of board.new.state 0) ≡ taken task.new.at }
{
    board.keeps();
    board.advance(Cpu(0), task)
}

/// The available word, the free word and the word of frame 1 are these.
fn are_words(words: &[u64], want: &[u64; 3]) -> bool {
    match words {
        [_, frame, _, free, available, ..] => {
            (*available == want[0]) & (*free == want[1]) & (*frame == want[2])
        }
        _ => false,
    }
}

/// The kinds of the steps, each with the three words behind it.
type Steps<'a> = &'a [(Kind, [u64; 3])];

/// The take makes these steps, and then it is over.
fn takes(rt: &impl Abort, board: &mut PlainBoard, task: &mut Take, steps: Steps)
    requires cpus { 0 < board.old.layout.cpus }
    requires own { task.old.who.cpu.0 ≡ 0 }
    requires fits { takes.Fits board.old.layout (view_of board.old.state 0) task.old }
    requires hand { hand_of (view_of board.old.state 0) ≡ taken task.old.at }
    ensures layout { board.new.layout ≡ board.old.layout }
    ensures own { task.new.who.cpu.0 ≡ 0 }
    ensures fits { takes.Fits board.new.layout (view_of board.new.state 0) task.new }
    ensures hand { hand_of (view_of board.new.state 0) ≡ taken task.new.at }
{
    for (kind, words) in steps {
        is_turn(rt, take(board, task), Turn::Moved, Some(*kind));
        check(rt, are_words(board.words(), words));
    }
}

/// The task lets the frame go by these steps, and then it is over.
fn lets_go(rt: &impl Abort, board: &mut PlainBoard, task: &mut Unlock, steps: Steps)
    requires cpus { 0 < board.old.layout.cpus }
    requires own { task.old.who.cpu.0 ≡ 0 }
    requires fits { unlocks.Fits board.old.layout (view_of board.old.state 0) task.old }
{
    for (kind, words) in steps {
        let made = board.advance(Cpu(0), task);
        is_turn(rt, made, Turn::Moved, Some(*kind));
        check(rt, are_words(board.words(), words));
    }
    let made = board.advance(Cpu(0), task);
    is_turn(rt, made, Turn::Finished, None);
}

/// KERNEL is 8; of the free word bits 1 and 2 are frames 1 and 2; 16 is one reference to a frame, and 1 its lock.
#[rattlefmt::skip]
const TAKEN: Steps<'static> = &[
    (Kind::LoadAvail, [2, 6, 0]),
    (Kind::Reserve, [1, 6, 0]),
    (Kind::LoadFree, [1, 6, 0]),
    (Kind::TakeBit, [1, 4, 0]),
    (Kind::Adopt, [1, 4, 17]),
];

#[rattlefmt::skip]
const LET_GO: Steps<'static> = &[
    (Kind::UnlockFrame, [1, 4, 16]),
    (Kind::PutRef, [1, 4, 0]),
    (Kind::GiveBit, [1, 6, 0]),
    (Kind::Unreserve, [2, 6, 0]),
];

#[test]
fn a_frame_is_taken_and_let_go_in_nine_steps(rt: HostRuntime) {
    let mut board = opened(&rt, rt.alloc());
    let mut task = taking(&board);
    takes(&rt, &mut board, &mut task, TAKEN);
    let Some(TakeAnswer::Taken(frame)) = task.answer() else {
        panic!(&rt; "a frame")
    };
    check(&rt, frame == Frame(1));
    let mut task = Unlock::new(task.who(), frame, None);
    lets_go(&rt, &mut board, &mut task, LET_GO);
}
