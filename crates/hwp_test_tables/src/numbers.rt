//! Lines, masks and lists at the edges of their ranges.

use crate::checking::check;
use hwp_kill::{Line, Lines, List, Mask, Text};
use std::alloc::Global;
use std::process::Abort;

/// Whether the number is one of a line, and what stands on it among words of which the last is 70 and all others are 9.
fn is_line(number: u8, want: Option<u64>) -> bool {
    let Some(last) = Line::new(63) else {
        return false;
    };
    let mut lines = Lines::filled(9);
    lines.set(last, 70);
    match (Line::new(number), want) {
        (Some(line), Some(want)) => lines.copy().get(line) == want,
        (None, None) => true,
        _ => false,
    }
}

#[test]
fn lines_are_those_below_64(rt: HostRuntime) {
    check(
        &rt,
        is_line(0, Some(9))
            & is_line(62, Some(9))
            & is_line(63, Some(70))
            & is_line(64, None)
            & is_line(255, None),
    );
}

/// Whether the mask has the line.
fn has(mask: u64, number: u8, want: bool) -> bool {
    match Line::new(number) {
        Some(line) => Mask(mask).has(line) == want,
        None => false,
    }
}

#[test]
fn a_mask_has_the_lines_of_its_bits(rt: HostRuntime) {
    check(
        &rt,
        has(0x20, 5, true)
            & has(0x20, 4, false)
            & has(0x8000_0000_0000_0000, 63, true)
            & has(0, 0, false),
    );
}

const END: &[u8] = b"end\n";

/// The bytes of a text that was a string.
fn items_of(rt: &impl Abort, alloc: Global) -> List<u8> {
    let string = String::from_str(alloc, "end\n").expect(rt, "memory");
    let text = Text::from_string(string);
    List::from_vec(text.as_slice().to_vec(alloc).expect(rt, "memory"))
}

#[test]
fn a_text_is_the_bytes_of_its_string(rt: HostRuntime) {
    let items = items_of(&rt, rt.alloc());
    let copy = items.copy(rt.alloc()).expect(&rt, "memory").into_vec();
    check(&rt, (items.len() == 4) & (copy.as_slice() == END));
}
