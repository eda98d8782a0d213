//! Copy on write: which access of a copy comes, where each was told the word 1000 and the number of accesses before it.

use crate::checking::check;
use hwp_fork::{Cow, Line, Sub, VSlot};
use std::process::Abort;

const FROZEN: VSlot = VSlot(1);

const TWIN: VSlot = VSlot(4095);

/// The access that comes: loads through the translation, stores through its twin.
#[derive(Clone, Copy)]
enum Comes {
    Load(u8),
    Store(u8, u64),
    Free,
    Switched,
}

fn line_of(rt: &impl Abort, number: u8) -> Line {
    Line::new(number).expect(rt, "a line")
}

fn sub_of(rt: &impl Abort, comes: Comes) -> Sub {
    match comes {
        Comes::Load(line) => Sub::Load(FROZEN, line_of(rt, line)),
        Comes::Store(line, word) => Sub::Store(TWIN, line_of(rt, line), word),
        Comes::Free => Sub::Free(FROZEN),
        Comes::Switched => Sub::Switched,
    }
}

/// The access that comes in a copy for this store, when so many went well.
fn next_of(line: Line, x: u64, told: u16) -> Sub {
    let mut cow = Cow::new(FROZEN, TWIN, line, x);
    for number in 0..told {
        cow.told(1000 + u64::from(number));
    }
    cow.next()
}

/// The line and the word of the store that is asked for, how many accesses went well, and the one that comes.
type Row = (u8, u64, u16, Comes);

#[rattlefmt::skip]
const ROWS: &[Row] = &[
    (5, 88, 0, Comes::Load(0)),
    (5, 88, 1, Comes::Store(0, 1000)),
    (5, 88, 10, Comes::Load(5)),
    (5, 88, 11, Comes::Store(5, 1010)),
    (5, 88, 126, Comes::Load(63)),
    (5, 88, 127, Comes::Store(63, 1126)),
    (5, 88, 128, Comes::Store(5, 88)),
    (0, 0xffffffffffffffff, 128, Comes::Store(0, 0xffffffffffffffff)),
    (63, 0, 128, Comes::Store(63, 0)),
    (5, 88, 129, Comes::Free),
    (5, 88, 130, Comes::Switched),
    (5, 88, 300, Comes::Switched),
];

#[test]
fn a_copy_makes_its_accesses_in_order(rt: HostRuntime) {
    for (line, x, told, comes) in ROWS {
        check(
            &rt,
            next_of(line_of(&rt, *line), *x, *told) == sub_of(&rt, *comes),
        );
    }
}
