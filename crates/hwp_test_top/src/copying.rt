//! A store that copies a page, and a command of another processor on one of the two pages, under every order of eight turns: the checker
//! calls each report legal.

use crate::judging::{Race, all_legal};
use std::alloc::Global;
use std::process::Abort;

/// A script up to the command of processor 1. Page 0 is shared by a parent and its child, whose store copies it to page 2.
const FRONT: &[u8] =
    b"hwp 2\ncpus 2\nframes 4\nproc 0\nproc 1\nthread 0 0 0 handler\nthread 1 1 0 handler\npage 0 anon\npage 1 anon\n\
page 2 anon\ntrans 0 0 0\ntrans 1 1 0\ntrans 2 0 1\ntrans 3 1 2\ncow 0 2\ncow 1 3\ncpu 0\nstore 0 0 0 7\nfork 0 1\nstore 1 1 1 8\n\
load 0 0 0\nload 1 1 0\ncpu 1\n";

/// No frame is poisoned.
const SOUND: &[u8] = b"hwp-report 2\nstop none\ncount 0\n";

/// One frame is.
const POISONED: &[u8] = b"hwp-report 2\nstop none\ncount 1\n";

/// It doesn't matter how many are.
const SOME_POISONED: &[u8] = b"hwp-report 2\nstop none\ncount ";

/// A command on the page that is copied, with a schedule up to the load of its first line, and how the report begins: it is swapped out,
/// its translation is freed, it moves to another frame, it fails, its first line goes bad.
/// Then the same on the page that the copy comes to, up to the store of its first line.
#[rattlefmt::skip]
const BESIDE_A_COPY: &[Race<'static>] = &[
    (b"out 0\nschedule 0. 0. 0@lock_page", SOUND),
    (b"free 1\nschedule 0. 0. 0@lock_page", SOUND),
    (b"soft 0\nschedule 0. 0. 0@lock_page", POISONED),
    (b"inject 0\nschedule 0. 0. 0@lock_page", POISONED),
    (b"bad 0 0\nschedule 0. 0. 0@lock_page", SOME_POISONED),
    (b"out 2\nschedule 0. 0. 0@load_bad 0@lock_page", SOUND),
    (b"soft 1\nschedule 0. 0. 0@load_bad 0@lock_page", POISONED),
    (b"inject 1\nschedule 0. 0. 0@load_bad 0@lock_page", POISONED),
    (b"bad 1 0\nschedule 0. 0. 0@load_bad 0@lock_page", SOME_POISONED),
];

/// Each order of eight turns beside this command gives a report that begins so, and is legal.
fn all_legal_beside(rt: &impl Abort, alloc: Global, other: &[u8], head: &[u8]) {
    let mut front = FRONT.to_vec(alloc).expect(rt, "memory");
    front.extend_from_slice(other).expect(rt, "memory");
    all_legal(rt, alloc, front.as_slice(), head, 8, 256);
}

#[test]
fn every_order_of_eight_turns_beside_a_copy_gives_a_legal_report(rt: HostRuntime) {
    for (other, head) in BESIDE_A_COPY {
        all_legal_beside(&rt, rt.alloc(), other, head);
    }
}
