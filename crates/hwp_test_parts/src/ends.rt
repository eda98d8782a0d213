//! What a machine comes to, on a plain board and at a table.

ghost use Rattle.std.specs.Prelude.{◌≡◌, []};
ghost use Rattle.hwp_core.specs.hwp_geom.Layout.{IsSound};
ghost use Rattle.hwp_table.specs.hwp_table_words.Ends.{HasAll};
ghost use Rattle.hwp_table.specs.hwp_table_words.Known.{first_knowing};
ghost use Rattle.hwp_table.specs.hwp_table_words.Seats.{IsTableOf};

use crate::checking::check;
use crate::machine::machine;
use hwp_core::{Body, Layout};
use hwp_plain::{Machine, PlainBoard};
use hwp_table::{Bare, OfTable, Pass, SeatBoard, Sheet, Ways, begin, close, join};
use std::alloc::Global;
use std::marker::Brand;
use std::process::Abort;
use std::sync::Arc;

/// Two processors, two frames, of which frame 0 is the kernel's, and one page.
const TWO_FRAMES: &[u8] =
    b"hwp 1\ncpus 2\nframes 2\nkernel 0\nproc 0\nthread 0 0 0 handler\npage 0 anon\ntrans 0 0 0\nend\n";

/// The words at opening: KERNEL is 8, frame 1 has bit 1 of the free word and is the one frame available, and the thread's
/// policy is the default.
#[rattlefmt::skip]
const WORDS: &[u64] = &[
    8, 0, // Frame
    0, // Trans
    0, // Cache
    0, // Page
    2, // Free
    1, // Available
    0, 0, // Bad
    0, 0, // Weak
    0, // Counter
    0, // Process
    2, // Policy
    0, // Stop
];

/// The slot has the body of this page, with so many entries, or none.
fn has(slot: &Option<Body>, page: &Option<(u16, u64)>) -> bool {
    match (slot, page) {
        (Some(body), Some((page, entries))) => (body.page().0 == *page) & (body.len() == *entries),
        (None, None) => true,
        _ => false,
    }
}

/// The slots have these pages.
fn have(rt: &impl Abort, slots: &[Option<Body>], pages: &[Option<(u16, u64)>]) {
    check(rt, slots.len() == pages.len());
    for (slot, page) in slots.iter().zip(pages) {
        check(rt, has(slot, page));
    }
}

/// The machine has the words of the opening, nothing in its frames, and the page on its shelf without an entry.
fn is_open(rt: &impl Abort, machine: &Machine) {
    check(rt, machine.words.as_slice() == WORDS);
    have(rt, machine.frames.as_slice(), &[None, None]);
    have(rt, machine.shelves.as_slice(), &[Some((0, 0))]);
}

/// The machine of two frames.
fn two_frames(rt: &impl Abort, alloc: Global) -> Layout
    ensures sound { IsSound result }
    ensures cpus { result.cpus ≡ 2 }
{
    let layout = machine(rt, alloc, TWO_FRAMES);
    assert!(rt; layout.cpus == 2);
    layout
}

/// What a plain board comes to on which no step is made.
fn on_board(rt: &impl Abort, alloc: Global) -> Machine {
    let layout = two_frames(rt, alloc);
    let board = PlainBoard::new(alloc, &layout).expect(rt, "memory");
    board.close(alloc).expect(rt, "memory")
}

#[test]
fn a_plain_board_is_closed_with_its_words_and_bodies(rt: HostRuntime) {
    is_open(&rt, &on_board(&rt, rt.alloc()));
}

/// The pass of a table at opening, which is dealt to a seat for each of two processors, and put together again of these.
fn dealt<N: OfTable, W: Ways>(
    rt: &impl Abort,
    alloc: Global,
    sheet: &Sheet<W>,
    layout: &Layout,
    pass: Pass,
) -> Pass
    requires table { IsTableOf W.ways layout.now sheet.now.table_id × (sheet.now.key ≡ layout.now) }
    requires named { N.table ≡ sheet.now.table_id }
    requires seat { (pass.table_id ≡ sheet.now.table_id) × (pass.me ≡ (first_knowing layout.now, [])) }
    requires two { layout.now.cpus ≡ 2 }
    ensures same { result.table_id ≡ sheet.now.table_id }
    ensures all { HasAll layout.now result.me.0.known }
{
    let board = SeatBoard::<N, W>::new(alloc, sheet, layout, pass).expect(rt, "memory");
    let mut seats = board.seats().into_vec();
    let second = seats.pop().expect(rt, "the seat of processor 1");
    let first = seats.pop().expect(rt, "the seat of processor 0");
    check(rt, seats.is_empty());
    let mut pass = first.pass();
    join(sheet, &mut pass, second.pass());
    pass
}

/// What a table comes to whose seats make no step.
fn at_table(rt: &impl Abort, alloc: Global) -> Machine {
    let layout = Arc::new(alloc, two_frames(rt, alloc)).expect(rt, "memory");
    let (table, pass) = begin::<Bare>(alloc, &layout).expect(rt, "memory");
    let pass = dealt::<Brand, Bare>(rt, alloc, &table.shared, &layout, pass);
    let Ok((ended, bodies)) = close(alloc, &layout, table, pass) else {
        panic!(rt; "memory")
    };
    ended.machine(&layout, bodies).expect(rt, "memory")
}

#[test]
fn a_table_whose_seats_are_put_together_is_closed_with_its_words_and_bodies(rt: HostRuntime) {
    is_open(&rt, &at_table(&rt, rt.alloc()));
}
