//! Calls whose source or sink fails at a read or a write, or takes few bytes at once, and the words that another call serves.

ghost use Rattle.std.specs.Prelude.{◌<◌};

use crate::helpers::{Left, call, call_untold, has_tables, leaves};
use std::alloc::Global;
use std::process::Abort;

/// A script, which each of these calls has.
pub const STORE_AND_LOAD: &[u8] = b"\
hwp 1
cpus 1
frames 2
proc 0
thread 0 0 0 handler
page 0 anon
trans 0 0 0
cpu 0
store 0 0 5 77
load 0 0 5
end
";

/// Its report.
pub const STORED_AND_LOADED: &[u8] = b"\
hwp-report 1
stop none
count 0
frame 0 page 0 bad 0 weak 0
frame 1 free bad 0 weak 0
page 0 4
in 0 0
map 0 0 0
store 0 0 0 5 0 77
load 0 1 0 5 0 77
cpu 0 2
0 stored 0 2
1 value 77 0 3
end
";

/// `step tlb` fails as `step` does.
#[test]
fn step_tlb_tells_faults(rt: HostRuntime) {
    let words = &["step", "tlb"];
    let unread = call(&rt, rt.alloc(), words, STORE_AND_LOAD, &[1], (4096, &[]));
    has_tables(&rt, &unread, false, false);
    leaves(&rt, unread, false, 4, b"", b"read fault\n");
    let cut = call(&rt, rt.alloc(), words, STORE_AND_LOAD, &[], (4, &[2]));
    has_tables(&rt, &cut, false, true);
    leaves(&rt, cut, true, 5, b"hwp-", b"write fault\n");
}

/// Each of the words is a usage.
fn are_usage(rt: &impl Abort, alloc: Global, rows: &[&[&str]]) {
    for words in rows {
        let left = call(rt, alloc, words, STORE_AND_LOAD, &[], (4096, &[]));
        let usage = b"usage: hwp step [tlb]|run [tlb]|check|gen N|sum N\n";
        leaves(rt, left, false, 2, b"", usage);
    }
}

/// `top` doesn't serve what starts threads.
const OF_RUN: &[&[&str]] = &[&["run"], &["run", "tlb"]];

#[test]
fn run_is_a_call_of_its_own(rt: HostRuntime) {
    are_usage(&rt, rt.alloc(), OF_RUN);
}

/// `step` on a store and a load, from a source and into a sink that fail so.
fn step_through(rt: &impl Abort, alloc: Global, read: &[u64], sink: (usize, &[u64])) -> Left
    requires { 0 < sink.0 }
{
    call(rt, alloc, &["step"], STORE_AND_LOAD, read, sink)
}

/// A failing read of this number leaves nothing on `out`.
fn is_fault(rt: &impl Abort, alloc: Global, read: u64) {
    let left = step_through(rt, alloc, &[read], (4096, &[]));
    leaves(rt, left, false, 4, b"", b"read fault\n");
}

#[test]
fn a_failing_read_leaves_nothing_on_out(rt: HostRuntime) {
    is_fault(&rt, rt.alloc(), 1);
    is_fault(&rt, rt.alloc(), 2);
}

/// Where the write of this number fails, of so many bytes each, the front of the report that was written before stays.
fn is_cut(rt: &impl Abort, alloc: Global, take: usize, write: u64, front: &[u8])
    requires { 0 < take }
{
    let left = step_through(rt, alloc, &[], (take, &[write]));
    leaves(rt, left, true, 5, front, b"write fault\n");
}

#[test]
fn a_failing_write_leaves_a_front_of_the_report(rt: HostRuntime) {
    for write in 1..13 {
        let kept = 16 * (write - 1);
        assert!(rt; kept < STORED_AND_LOADED.len());
        is_cut(
            &rt,
            rt.alloc(),
            16,
            write as u64,
            &STORED_AND_LOADED[..kept],
        );
    }
}

#[test]
fn each_byte_before_a_failing_write_stays(rt: HostRuntime) {
    for kept in 0..STORED_AND_LOADED.len() {
        is_cut(
            &rt,
            rt.alloc(),
            1,
            kept as u64 + 1,
            &STORED_AND_LOADED[..kept],
        );
    }
}

#[test]
fn a_fault_of_the_error_sink_changes_nothing(rt: HostRuntime) {
    let left = call_untold(&rt, rt.alloc(), &["step"], b"", &[], (4096, &[]), &[1]);
    leaves(&rt, left, false, 3, b"", b"");
}

#[test]
fn a_report_is_written_in_pieces(rt: HostRuntime) {
    let left = step_through(&rt, rt.alloc(), &[], (16, &[]));
    has_tables(&rt, &left, true, false);
    leaves(&rt, left, true, 0, STORED_AND_LOADED, b"");
}

#[test]
fn check_tells_faults_of_its_source_and_its_sink(rt: HostRuntime) {
    let unread = call(
        &rt,
        rt.alloc(),
        &["check"],
        STORE_AND_LOAD,
        &[2],
        (4096, &[]),
    );
    leaves(&rt, unread, false, 4, b"", b"read fault\n");
    let cut = call(&rt, rt.alloc(), &["check"], STORE_AND_LOAD, &[], (4, &[2]));
    leaves(&rt, cut, false, 5, b"not ", b"write fault\n");
}
