//! The top call for runs on threads over memory: other words, refused scripts, and faults of the source and the sink.

ghost use Rattle.std.specs.Prelude.{◌<◌};

use crate::faults::{STORE_AND_LOAD, STORED_AND_LOADED};
use crate::helpers::{Left, call_run, has_tables, leaves};
use hwp_top::Open;
use std::alloc::Global;
use std::process::Abort;
use std::sync::Wait;
use std::thread::Threads;

/// A machine check inside another one stops the machine.
const NESTED: &[u8] = b"\
hwp 1\ncpus 1\nframes 2\nproc 0\nthread 0 0 0 handler\npage 0 anon\ntrans 0 0 0\ncpu 0\nraise nested\nend\n";

const STOPPED: &[u8] = b"\
hwp-report 1\nstop 0 0 shutdown\ncount 0\nframe 0 free bad 0 weak 0\nframe 1 free bad 0 weak 0\npage 0 0\ncpu 0 1\n\
0 stopped\nend\n";

const USAGE: &[u8] = b"usage: hwp step [tlb]|run [tlb]|check|gen N|sum N\n";

/// A script, its report, and the status.
const RUNS: &[(&[u8], &[u8], u8)] = &[(STORE_AND_LOAD, STORED_AND_LOADED, 0), (NESTED, STOPPED, 8)];

/// These words give the report of each script, and a table without translation caches or not, and one with them or not.
fn runs(
    rt: &(impl Abort + Threads + Wait + Sync),
    alloc: Global,
    words: &[&str],
    ended: bool,
    tlb: bool,
) {
    for (script, report, status) in RUNS {
        let left = call_run(rt, alloc, words, script, &[], (4096, &[]), &Open);
        has_tables(rt, &left, ended, tlb);
        leaves(rt, left, true, *status, report, b"");
    }
}

#[test]
fn a_script_is_run(rt: HostRuntime) {
    runs(&rt, rt.alloc(), &["run"], true, false);
    runs(&rt, rt.alloc(), &["run", "tlb"], false, true);
}

/// Words for which there is no run on threads.
const OTHER_WORDS: &[&[&str]] = &[
    &[],
    &["step"],
    &["step", "tlb"],
    &["check"],
    &["tlb"],
    &["runs"],
    &["Run"],
    &[""],
    &["run", ""],
    &["run", "now"],
    &["run", "tlb", "now"],
    &["tlb", "run"],
];

#[test]
fn the_words_run_and_run_tlb_alone_are_served(rt: HostRuntime) {
    for words in OTHER_WORDS {
        let left = call_run(
            &rt,
            rt.alloc(),
            words,
            STORE_AND_LOAD,
            &[],
            (4096, &[]),
            &Open,
        );
        has_tables(&rt, &left, false, false);
        leaves(&rt, left, false, 2, b"", USAGE);
    }
}

/// `run` on a script, from a source and into a sink that fail so.
fn run_through(
    rt: &(impl Abort + Threads + Wait + Sync),
    alloc: Global,
    script: &[u8],
    read: &[u64],
    sink: (usize, &[u64]),
) -> Left
    requires { 0 < sink.0 }
{
    call_run(rt, alloc, &["run"], script, read, sink, &Open)
}

#[test]
fn a_refused_script_and_a_source_that_fails_leave_nothing(rt: HostRuntime) {
    let left = run_through(&rt, rt.alloc(), b"hwp 1\ncpus 9\n", &[], (4096, &[]));
    leaves(&rt, left, false, 3, b"", b"script line 2: OverLimit\n");
    let left = run_through(&rt, rt.alloc(), STORE_AND_LOAD, &[2], (4096, &[]));
    leaves(&rt, left, false, 4, b"", b"read fault\n");
}

#[test]
fn a_sink_that_fails_has_the_front_of_the_report(rt: HostRuntime) {
    let left = run_through(&rt, rt.alloc(), STORE_AND_LOAD, &[], (16, &[3]));
    let front = b"hwp-report 1\nstop none\ncount 0\nf";
    leaves(&rt, left, true, 5, front, b"write fault\n");
}
