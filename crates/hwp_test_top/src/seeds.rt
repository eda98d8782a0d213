//! `gen` and `sum`: the script that a seed gives, its report, and the summary of that.

use crate::checking::check;
use crate::helpers::{Left, call, has_tables, leaves};
use hwp_script::{Script, generate, print, read};
use std::alloc::Global;
use std::process::Abort;

/// A call from a source whose first read fails.
fn unread(rt: &impl Abort, alloc: Global, words: &[&str]) -> Left {
    call(rt, alloc, words, b"step", &[1], (4096, &[]))
}

/// The bytes are the text of the script.
fn has_text(rt: &impl Abort, alloc: Global, bytes: &[u8], script: &Script) {
    let text = print(alloc, script).expect(rt, "memory");
    check(rt, bytes == text.as_slice());
}

/// `gen` writes the script of the seed, which is read back, and reads nothing itself.
fn writes_script(rt: &impl Abort, alloc: Global, word: &str, seed: u64) {
    let left = unread(rt, alloc, &["gen", word]);
    has_tables(rt, &left, false, false);
    check(rt, !left.reported & (left.status == 0));
    is_generated(rt, alloc, left.out.bytes(), seed);
    is_read_back(rt, alloc, left.out.bytes());
}

/// The bytes are the text of the script that the seed gives.
fn is_generated(rt: &impl Abort, alloc: Global, bytes: &[u8], seed: u64) {
    let script = generate(alloc, seed).expect(rt, "memory");
    has_text(rt, alloc, bytes, &script);
    drop(script);
}

/// The bytes are read as a script, of which they are the text.
fn is_read_back(rt: &impl Abort, alloc: Global, bytes: &[u8]) {
    let script = read(alloc, bytes).expect(rt, "a script");
    has_text(rt, alloc, bytes, &script);
    drop(script);
}

#[test]
fn gen_writes_the_script_of_its_seed(rt: HostRuntime) {
    writes_script(&rt, rt.alloc(), "5", 5);
    writes_script(&rt, rt.alloc(), "0", 0);
    writes_script(&rt, rt.alloc(), "18446744073709551615", u64::MAX);
}

#[test]
fn two_runs_of_gen_write_equal_bytes(rt: HostRuntime) {
    let first = unread(&rt, rt.alloc(), &["gen", "5"]);
    let second = unread(&rt, rt.alloc(), &["gen", "5"]);
    let other = unread(&rt, rt.alloc(), &["gen", "6"]);
    check(&rt, first.out.bytes() == second.out.bytes());
    check(&rt, first.out.bytes() != other.out.bytes());
}

/// The third write of 16 bytes fails.
#[test]
fn gen_tells_a_fault_of_the_sink(rt: HostRuntime) {
    let left = call(&rt, rt.alloc(), &["gen", "5"], b"", &[], (16, &[3]));
    leaves(
        &rt,
        left,
        false,
        5,
        b"hwp 1\ncpus 4\nframes 256\nkernel 0",
        b"write fault\n",
    );
}

/// `sum` runs the script of the seed, reads nothing, and begins its summary with these lines.
fn sums(rt: &impl Abort, alloc: Global, word: &str, front: &str) -> Left {
    let left = unread(rt, alloc, &["sum", word]);
    has_tables(rt, &left, true, false);
    check(rt, left.reported & (left.status == 0));
    check(rt, left.out.bytes().starts_with(front.as_bytes()));
    left
}

#[test]
fn sum_tells_of_the_run_of_its_seed(rt: HostRuntime) {
    let front = "hwp-sum 1\nseed 7\ncommands 4000\nnoframe 0\nstop none\n";
    let first = sums(&rt, rt.alloc(), "7", front);
    let second = sums(&rt, rt.alloc(), "7", front);
    check(&rt, first.out.bytes() == second.out.bytes());
}
