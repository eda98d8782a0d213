//! Turns of two processors on a board.

ghost use Rattle.std.specs.Prelude.{◌≡◌, ℕ, ◌<◌, length};
ghost use Rattle.hwp_core.specs.hwp_geom.Layout.{IsSound};
ghost use Rattle.hwp_core.specs.hwp_core_rule.Opening.{opening_view};
ghost use Rattle.hwp_core.specs.hwp_core_rule.Boards.{view_of};
ghost use Rattle.hwp_core.specs.Holds as holds;
ghost use Rattle.hwp_core.specs.Unholds.{LetsGo};
ghost use Rattle.hwp_evict.specs.Takes.{Fits};

use crate::checking::check;
use crate::machine::machine;
use hwp_core::{
    Board, Cpu, Hold, Kind, Layout, List, Page, PageKind, Task, Turn, Unhold, Version, Who,
};
use hwp_evict::{Take, TakeAnswer};
use hwp_plain::PlainBoard;
use std::alloc::Global;
use std::process::Abort;

/// Two processors and one frame.
fn two_processors(rt: &impl Abort, alloc: Global) -> Layout
    ensures sound { IsSound result }
    ensures cpus { result.cpus ≡ 2 }
{
    Layout {
        version: Version::One,
        cpus: 2,
        frames: 1,
        kernel: List::from_vec([false].to_vec(alloc).expect(rt, "memory")),
        recovery: true,
        early: false,
        files: 0,
        procs: 0,
        threads: List::new(alloc),
        pages: List::new(alloc),
        trans: List::new(alloc),
        locked: List::new(alloc),
        twins: List::new(alloc),
        guests: List::new(alloc),
    }
}

/// The board at opening, on which each processor can begin a task.
fn opened(rt: &impl Abort, alloc: Global) -> PlainBoard
    ensures cpus { result.layout.cpus ≡ 2 }
    ensures views { (c : ℕ) → c < 2 → view_of result.state c ≡ opening_view c }
{
    let layout = two_processors(rt, alloc);
    PlainBoard::new(alloc, &layout).expect(rt, "memory")
}

/// A task that takes a frame for the processor's first command.
fn taking(board: &PlainBoard, cpu: u8) -> Take
    requires { view_of board.now.state cpu ≡ opening_view cpu }
    ensures fits { Fits board.now.layout (view_of board.now.state cpu) result }
    ensures who { result.who.cpu.0 ≡ cpu }
{
    let _board = board;
    Take::new(Who {
        cpu: Cpu(cpu),
        seq: 0,
    })
}

/// One turn of the first task, of processor 0, or of the other, of processor 1.
fn turn_of<A: Task, B: Task>(
    board: &mut PlainBoard,
    first: &mut A,
    second: &mut B,
    other: bool,
) -> (Turn, Option<Kind>)
    requires cpus { 1 < board.old.layout.cpus }
    requires own { ((A.task.who first.old).cpu.0 ≡ 0) × ((B.task.who second.old).cpu.0 ≡ 1) }
    requires first { A.task.fits board.old.layout (view_of board.old.state 0) first.old }
    requires second { B.task.fits board.old.layout (view_of board.old.state 1) second.old }
    ensures layout { board.new.layout ≡ board.old.layout }
    ensures own { ((A.task.who first.new).cpu.0 ≡ 0) × ((B.task.who second.new).cpu.0 ≡ 1) }
    ensures first { A.task.fits board.new.layout (view_of board.new.state 0) first.new }
    ensures second { B.task.fits board.new.layout (view_of board.new.state 1) second.new }
{
    if other {
        board.advance(Cpu(1), second)
    } else {
        board.advance(Cpu(0), first)
    }
}

/// The turn ended so, with a step of this kind or none.
pub(crate) fn is_turn(rt: &impl Abort, made: (Turn, Option<Kind>), turn: Turn, kind: Option<Kind>) {
    check(rt, (made.0 == turn) & (made.1 == kind));
}

/// Makes these turns: whether each is processor 1's, how it ends, and the kind of step that it makes.
fn play<A: Task, B: Task>(
    rt: &impl Abort,
    board: &mut PlainBoard,
    first: &mut A,
    second: &mut B,
    turns: &[(bool, Turn, Option<Kind>)],
)
    requires cpus { 1 < board.old.layout.cpus }
    requires own { ((A.task.who first.old).cpu.0 ≡ 0) × ((B.task.who second.old).cpu.0 ≡ 1) }
    requires first { A.task.fits board.old.layout (view_of board.old.state 0) first.old }
    requires second { B.task.fits board.old.layout (view_of board.old.state 1) second.old }
    ensures layout { board.new.layout ≡ board.old.layout }
    ensures own { ((A.task.who first.new).cpu.0 ≡ 0) × ((B.task.who second.new).cpu.0 ≡ 1) }
    ensures first { A.task.fits board.new.layout (view_of board.new.state 0) first.new }
    ensures second { B.task.fits board.new.layout (view_of board.new.state 1) second.new }
{
    for (other, turn, kind) in turns {
        let made = turn_of(board, first, second, *other);
        is_turn(rt, made, *turn, *kind);
    }
}

const ONE_FRAME: &[(bool, Turn, Option<Kind>)] = &[
    (false, Turn::Moved, Some(Kind::LoadAvail)),
    (true, Turn::Moved, Some(Kind::LoadAvail)),
    (true, Turn::Moved, Some(Kind::Reserve)),
    (false, Turn::Changed(0), Some(Kind::Reserve)),
    (false, Turn::Finished, None),
];

#[test]
fn of_two_processors_one_reserves_the_only_frame(rt: HostRuntime) {
    let mut board = opened(&rt, rt.alloc());
    let mut first = taking(&board, 0);
    let mut second = taking(&board, 1);
    play(&rt, &mut board, &mut first, &mut second, ONE_FRAME);
    check(&rt, matches!(first.answer(), Some(TakeAnswer::NoFrame)));
}

/// Two processors, a frame and an anonymous page.
const ONE_PAGE: &[u8] = b"hwp 1\ncpus 2\nframes 1\npage 0 anon\nend\n";

/// The board of that machine at opening, on which each processor can hold the page.
fn opened_with_page(rt: &impl Abort, alloc: Global) -> PlainBoard
    ensures cpus { result.layout.cpus ≡ 2 }
    ensures page { 0 < length result.layout.pages }
    ensures views { (c : ℕ) → c < 2 → view_of result.state c ≡ opening_view c }
{
    let layout = machine(rt, alloc, ONE_PAGE);
    assert!(rt; layout.cpus == 2);
    assert!(rt; layout.pages.len() == 1);
    PlainBoard::new(alloc, &layout).expect(rt, "memory")
}

/// A task that holds page 0 for the processor's first command.
fn holding(board: &PlainBoard, cpu: u8) -> Hold
    requires page { 0 < length board.now.layout.pages }
    requires view { view_of board.now.state cpu ≡ opening_view cpu }
    ensures fits { holds.Fits board.now.layout (view_of board.now.state cpu) result }
    ensures who { result.who.cpu.0 ≡ cpu }
{
    let _board = board;
    let who = Who {
        cpu: Cpu(cpu),
        seq: 0,
    };
    Hold::new(who, Page(0))
}

/// The page that is held, and in no frame, is let go.
fn let_go(rt: &impl Abort, hold: Hold, cpu: u8) -> Unhold
    ensures lets { LetsGo hold result }
    ensures own { result.who.cpu.0 ≡ cpu }
{
    let Some(None) = hold.answer() else {
        panic!(rt; "a page in no frame")
    };
    let unhold = hold.let_go();
    assert!(rt; unhold.who().cpu == Cpu(cpu));
    unhold
}

/// The second processor waits for the page's lock, which the first one has; then the first one is told that no frame has the page.
const FIRST_HOLDS: &[(bool, Turn, Option<Kind>)] = &[
    (false, Turn::Moved, Some(Kind::LockPage)),
    (true, Turn::Waits(1), Some(Kind::LockPage)),
    (false, Turn::Moved, Some(Kind::LoadCache)),
    (false, Turn::Finished, None),
];

/// The first one frees the lock, and the second one has it.
const SECOND_HOLDS: &[(bool, Turn, Option<Kind>)] = &[
    (false, Turn::Moved, Some(Kind::UnlockPage)),
    (true, Turn::Moved, Some(Kind::LockPage)),
    (true, Turn::Moved, Some(Kind::LoadCache)),
    (true, Turn::Finished, None),
];

const SECOND_LETS_GO: &[(bool, Turn, Option<Kind>)] = &[
    (true, Turn::Moved, Some(Kind::UnlockPage)),
    (true, Turn::Finished, None),
    (false, Turn::Finished, None),
];

/// The words at opening: the one frame is free (bit 0 of the free word) and available.
#[rattlefmt::skip]
const WORDS: &[u64] = &[
    0, // Frame
    0, // Cache
    0, // Page
    1, // Free
    1, // Available
    0, // Bad
    0, // Weak
    0, // Counter
    0, // Stop
];

#[test]
fn of_two_processors_one_waits_for_the_page(rt: HostRuntime) {
    let mut board = opened_with_page(&rt, rt.alloc());
    check(&rt, board.words() == WORDS);
    let mut first = holding(&board, 0);
    let mut second = holding(&board, 1);
    play(&rt, &mut board, &mut first, &mut second, FIRST_HOLDS);
    let mut first = let_go(&rt, first, 0);
    play(&rt, &mut board, &mut first, &mut second, SECOND_HOLDS);
    let mut second = let_go(&rt, second, 1);
    play(&rt, &mut board, &mut first, &mut second, SECOND_LETS_GO);
    check(&rt, board.words() == WORDS);
}
