//! Two processors under every order of their first turns: the checker calls each report legal.

use crate::checking::check;
use crate::helpers::{call, leaves, report_of};
use std::alloc::Global;
use std::process::Abort;

/// A script of two processors up to its schedule's words that go through all orders, and how its report begins.
pub type Race<'a> = (&'a [u8], &'a [u8]);

/// A turn of processor 0, as a word of a schedule, and one of processor 1.
const OF_0: &[u8] = b" 0";

const OF_1: &[u8] = b" 1";

/// The script of a race, where the next turns are the bits of the number: 0 is a turn of processor 0.
pub fn scheduled(rt: &impl Abort, alloc: Global, front: &[u8], turns: u32, number: u32) -> Vec<u8> {
    let mut script = front.to_vec(alloc).expect(rt, "memory");
    let mut rest = number;
    for _turn in 0..turns {
        let word = if rest % 2 == 0 { OF_0 } else { OF_1 };
        script.extend_from_slice(word).expect(rt, "memory");
        rest /= 2;
    }
    script.extend_from_slice(b"\nend\n").expect(rt, "memory");
    script
}

/// `check` says that the report of a script is legal.
pub fn are_legal(rt: &impl Abort, alloc: Global, script: &[u8], report: &[u8]) {
    let mut input = script.to_vec(alloc).expect(rt, "memory");
    input.extend_from_slice(report).expect(rt, "memory");
    let left = call(rt, alloc, &["check"], input.as_slice(), &[], (4096, &[]));
    leaves(rt, left, false, 0, b"legal\n", b"");
}

/// The report that a script gives begins so, and is legal.
fn gives_legal(rt: &impl Abort, alloc: Global, script: &[u8], head: &[u8]) {
    let left = report_of(rt, alloc, script);
    check(rt, left.out.bytes().starts_with(head));
    are_legal(rt, alloc, script, left.out.bytes());
}

/// Each order of so many turns gives a report that begins so, and is legal.
pub fn all_legal(
    rt: &impl Abort,
    alloc: Global,
    front: &[u8],
    head: &[u8],
    turns: u32,
    orders: u32,
) {
    for number in 0..orders {
        let script = scheduled(rt, alloc, front, turns, number);
        gives_legal(rt, alloc, script.as_slice(), head);
    }
}

/// No frame is poisoned.
const SOUND: &[u8] = b"hwp-report 1\nstop none\ncount 0\n";

/// One frame is.
const POISONED: &[u8] = b"hwp-report 1\nstop none\ncount 1\n";

/// Two frames are.
const BOTH_POISONED: &[u8] = b"hwp-report 1\nstop none\ncount 2\n";

/// It doesn't matter how many are.
const SOME_POISONED: &[u8] = b"hwp-report 1\nstop none\ncount ";

/// The machine stops.
const STOPPED: &[u8] = b"hwp-report 1\nstop ";

/// One frame, which the processors race for.
#[rattlefmt::skip]
const OF_TEN_TURNS: &[Race<'static>] = &[
    // a store, and a load of the same page
    (b"hwp 1\ncpus 2\nframes 1\nproc 0\nproc 1\nthread 0 0 0 handler\nthread 1 1 1 handler\npage 0 anon\ntrans 0 0 0\n\
trans 1 1 0\ncpu 0\nstore 0 0 0 7\nload 0 0 0\ncpu 1\nload 1 1 0\nstore 1 1 0 8\nschedule", SOUND),
    // a page that is swapped out under a load
    (b"hwp 1\ncpus 2\nframes 1\nproc 0\nproc 1\nthread 0 0 0 handler\nthread 1 1 1 handler\npage 0 anon\ntrans 0 0 0\n\
trans 1 1 0\ncpu 0\nout 0\nstore 0 0 0 7\ncpu 1\nload 1 1 0\nout 0\nschedule", SOUND),
    // a translation that is freed under a load through it
    (b"hwp 1\ncpus 2\nframes 1\nproc 0\nthread 0 0 0 handler\nthread 1 0 1 handler\npage 0 anon\ntrans 0 0 0\ncpu 0\n\
free 0\nstore 0 0 0 7\nfree 0\ncpu 1\nload 1 0 0\nload 1 0 0\nschedule", SOUND),
    // two pages
    (b"hwp 1\ncpus 2\nframes 1\nproc 0\nproc 1\nthread 0 0 0 handler\nthread 1 1 1 handler\npage 0 anon\npage 1 anon\n\
trans 0 0 0\ntrans 1 1 1\ncpu 0\nstore 0 0 0 7\nout 0\ncpu 1\nstore 1 1 0 8\nout 1\nschedule", SOUND),
    // a page of a file
    (b"hwp 1\ncpus 2\nframes 1\nfile 0\nproc 0\nproc 1\nthread 0 0 0 handler\nthread 1 1 1 handler\n\
page 0 file 0 fill 9\ntrans 0 0 0\ntrans 1 1 0\ncpu 0\nload 0 0 0\nfree 0\ndrop 0\ncpu 1\nsync 0\nstore 1 1 0 8\nschedule", SOUND),

    // a frame fails under another command that needs it:
    // the frame is free, and the other processor takes one
    (b"hwp 1\ncpus 2\nframes 2\nproc 0\nthread 0 0 1 handler\npage 0 anon\ntrans 0 0 0\ncpu 0\ninject 0\ncpu 1\n\
store 0 0 0 7\nload 0 0 0\nschedule", POISONED),
    // a dirty page of a file is stored to, and written back
    (b"hwp 1\ncpus 2\nframes 2\nfile 0\nproc 0\nproc 1\nthread 0 0 0 handler\nthread 1 1 1 handler\n\
page 0 file 0 fill 9\ntrans 0 0 0\ntrans 1 1 0\ncpu 0\nstore 0 0 0 7\ninject 0\nfsync 0\ncpu 1\nstore 1 1 0 8\nsync 0\n\
fsync 0\nschedule 0.", POISONED),
    // a process sets an early policy before it uses the page again
    (b"hwp 1\ncpus 2\nframes 2\nproc 0\nproc 1\nthread 0 0 0 handler\nthread 1 1 1 nohandler\npage 0 anon\n\
trans 0 0 0\ntrans 1 1 0\ncpu 0\nstore 0 0 0 7\ninject 0\ncpu 1\nload 1 1 0\nprctl 1 33 1 1 0 0\nload 1 1 0\n\
prctl 1 34 0 0 0 0\nschedule 0. 1.", POISONED),
    // the machine doesn't recover
    (b"hwp 1\ncpus 2\nframes 2\nrecovery 0\nproc 0\nthread 0 0 1 handler\npage 0 anon\ntrans 0 0 0\ncpu 0\ninject 0\n\
inject 1\ncpu 1\nload 0 0 0\ninject 0\nschedule", STOPPED),
];

#[test]
fn every_order_of_ten_turns_gives_a_legal_report(rt: HostRuntime) {
    for (front, head) in OF_TEN_TURNS {
        all_legal(&rt, rt.alloc(), front, head, 10, 1024);
    }
}

/// Failures, frames taken out of use and back, and bad lines.
#[rattlefmt::skip]
const OF_TWELVE_TURNS: &[Race<'static>] = &[
    // two failures of one frame, whose page both processors use:
    // an anonymous page
    (b"hwp 1\ncpus 2\nframes 2\nearly 1\nproc 0\nproc 1\nthread 0 0 0 handler\nthread 1 1 1 nohandler\npage 0 anon\n\
trans 0 0 0\ntrans 1 1 0\ncpu 0\nstore 0 0 0 7\ninject 0\nload 0 0 0\ncpu 1\nload 1 1 0\ninject 0\nload 1 1 0\nschedule 0. 1.", POISONED),
    // a dirty page of a file
    (b"hwp 1\ncpus 2\nframes 2\nfile 0\nproc 0\nproc 1\nthread 0 0 0 handler\nthread 1 1 1 handler\n\
page 0 file 0 fill 9\ntrans 0 0 0\ntrans 1 1 0\ncpu 0\nstore 0 0 0 7\ninject 0\nfsync 0\ncpu 1\nload 1 1 0\ninject 0\nfsync 0\n\
schedule 0. 1.", POISONED),

    // a frame fails while its page leaves it, or a translation to it goes out of use:
    // its page is swapped out, and comes back
    (b"hwp 1\ncpus 2\nframes 2\nproc 0\nproc 1\nthread 0 0 0 handler\nthread 1 1 1 handler\npage 0 anon\ntrans 0 0 0\n\
trans 1 1 0\ncpu 0\nstore 0 0 0 7\ninject 0\nload 0 0 0\ncpu 1\nout 0\nload 1 1 0\nschedule 0.", POISONED),
    // its translation is freed, and comes into use again
    (b"hwp 1\ncpus 2\nframes 2\nproc 0\nproc 1\nthread 0 0 0 handler\nthread 1 1 1 handler\npage 0 anon\ntrans 0 0 0\n\
trans 1 1 0\ncpu 0\nstore 0 0 0 7\nfree 0\nload 0 0 0\ncpu 1\ninject 0\nload 1 1 0\nschedule 0.", POISONED),

    // a frame is taken out of use, and it, or the frame that its page goes to, fails, or is taken out of use once more:
    // it fails under its page, which both use
    (b"hwp 1\ncpus 2\nframes 3\nproc 0\nproc 1\nthread 0 0 0 handler\nthread 1 1 1 handler\npage 0 anon\ntrans 0 0 0\n\
trans 1 1 0\ncpu 0\nstore 0 0 0 7\nsoft 0\nload 0 0 0\ncpu 1\nload 1 1 0\ninject 0\nload 1 1 0\nschedule 0. 1.", POISONED),
    // it is taken out of use twice
    (b"hwp 1\ncpus 2\nframes 3\nproc 0\nproc 1\nthread 0 0 0 handler\nthread 1 1 1 handler\npage 0 anon\ntrans 0 0 0\n\
trans 1 1 0\ncpu 0\nstore 0 0 0 7\nsoft 0\nload 0 0 0\ncpu 1\nsoft 0\nload 1 1 0\nschedule 0.", POISONED),
    // it fails where it is free
    (b"hwp 1\ncpus 2\nframes 3\nproc 0\nproc 1\nthread 0 0 0 handler\nthread 1 1 1 handler\npage 0 anon\ntrans 0 0 0\n\
trans 1 1 0\ncpu 0\nsoft 0\nstore 0 0 0 7\ncpu 1\ninject 0\nload 1 1 0\nschedule", POISONED),
    // the frame fails to which its page goes
    (b"hwp 1\ncpus 2\nframes 4\nproc 0\nproc 1\nthread 0 0 0 handler\nthread 1 1 1 handler\npage 0 anon\ntrans 0 0 0\n\
trans 1 1 0\ncpu 0\nstore 0 0 0 7\nsoft 0\nload 0 0 0\ncpu 1\ninject 1\nload 1 1 0\nschedule 0. 0@load_bad", BOTH_POISONED),

    // a frame is taken out of use while another processor uses it:
    // a page comes into it, or leaves it
    (b"hwp 1\ncpus 2\nframes 3\nproc 0\nproc 1\nthread 0 0 0 handler\nthread 1 1 1 handler\npage 0 anon\ntrans 0 0 0\n\
trans 1 1 0\ncpu 0\nsoft 0\nload 0 0 0\ncpu 1\nstore 1 1 0 7\nout 0\nload 1 1 0\nschedule", POISONED),
    // a line of it goes bad
    (b"hwp 1\ncpus 2\nframes 3\nproc 0\nproc 1\nthread 0 0 0 handler\nthread 1 1 1 handler\npage 0 anon\ntrans 0 0 0\n\
trans 1 1 0\ncpu 0\nstore 0 0 0 7\nsoft 0\nload 0 0 0\ncpu 1\nbad 0 0\nload 1 1 0\nschedule 0.", POISONED),

    // a frame is taken back while another processor's command is under way on it:
    // both make it fail
    (b"hwp 1\ncpus 2\nframes 3\nproc 0\nproc 1\nthread 0 0 0 handler\nthread 1 1 1 handler\npage 0 anon\ntrans 0 0 0\n\
trans 1 1 0\ncpu 0\ninject 0\nunpoison 0\nstore 0 0 0 7\ncpu 1\ninject 0\nload 1 1 0\nschedule 0.", SOME_POISONED),
    // both take it back, and make it fail again
    (b"hwp 1\ncpus 2\nframes 3\nproc 0\nproc 1\nthread 0 0 0 handler\nthread 1 1 1 handler\npage 0 anon\ntrans 0 0 0\n\
trans 1 1 0\ncpu 0\ninject 0\nunpoison 0\ninject 0\ncpu 1\nunpoison 0\ninject 0\nunpoison 0\nschedule 0.", SOME_POISONED),
    // its failure has begun, and a store has put it out of use: it is taken back, and a page is moved there
    (b"hwp 1\ncpus 2\nframes 3\nproc 0\nproc 1\nthread 0 0 0 handler\nthread 1 1 1 handler\npage 0 anon\ntrans 0 0 0\n\
trans 1 1 0\ncpu 0\ninject 0\nload 0 0 0\ncpu 1\nstore 1 1 0 7\nunpoison 0\nsoft 1\nload 1 1 0\nschedule 0@poison 1.", POISONED),
    // it is taken out of use again
    (b"hwp 1\ncpus 2\nframes 3\nproc 0\nproc 1\nthread 0 0 0 handler\nthread 1 1 1 handler\npage 0 anon\ntrans 0 0 0\n\
trans 1 1 0\ncpu 0\nsoft 0\nunpoison 0\nload 0 0 0\ncpu 1\nunpoison 0\nsoft 0\nstore 1 1 0 7\nschedule 0.", SOME_POISONED),

    // a bad line under two processors that both need its page:
    // both meet it, in a page of which the other process is signalled early
    (b"hwp 1\ncpus 2\nframes 2\nearly 1\nproc 0\nproc 1\nthread 0 0 0 handler\nthread 1 1 1 handler\npage 0 anon\n\
trans 0 0 0\ntrans 1 1 0\ncpu 0\nstore 0 0 0 7\nbad 0 0\nload 0 0 0\ncpu 1\nload 1 1 1\nload 1 1 0\nload 1 1 1\n\
schedule 0. 1. 0.", POISONED),
    // one meets it in a dirty page of a file, which the other one makes fail
    (b"hwp 1\ncpus 2\nframes 2\nfile 0\nproc 0\nproc 1\nthread 0 0 0 handler\nthread 1 1 1 nohandler\n\
page 0 file 0 fill 9\ntrans 0 0 0\ntrans 1 1 0\ncpu 0\nstore 0 0 0 7\nbad 0 0\nstore 0 0 0 8\nfsync 0\ncpu 1\nload 1 1 1\n\
inject 0\nload 1 1 0\nschedule 0. 0. 1.", POISONED),
    // one meets it on a machine that doesn't recover, while the other one raises an event of its own
    (b"hwp 1\ncpus 2\nframes 2\nrecovery 0\nproc 0\nproc 1\nthread 0 0 0 handler\nthread 1 1 1 handler\npage 0 anon\n\
trans 0 0 0\ntrans 1 1 0\ncpu 0\nbad 0 0\nload 0 0 0\ncpu 1\nlog 0xbd000000000000c0 0x1000 0x86\nraise user 1 1 1\nload 1 1 0\n\
schedule 0. 1.", STOPPED),
];

#[test]
fn every_order_of_twelve_turns_gives_a_legal_report(rt: HostRuntime) {
    for (front, head) in OF_TWELVE_TURNS {
        all_legal(&rt, rt.alloc(), front, head, 12, 4096);
    }
}
