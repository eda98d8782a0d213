//! Scripts in the one spelling in which they are printed.

use crate::checking::check;
use crate::scripts::script_of;
use hwp_script::print;
use hwp_script_read::Script;
use std::alloc::Global;
use std::process::Abort;

/// A script with every form of line and every command, as it is printed.
const ALL: &[u8] =
    b"hwp 1\ncpus 2\nframes 4\nkernel 1\nkernel 3\nrecovery 0\nearly 1\nfile 0\nproc 0\nproc 1\nthread 0 0 0 handler\nthread 1 1 1 nohandler\npage 0 anon\npage 1 file 0 fill 9\ntrans 0 0 0\ntrans 1 1 1\ncpu 0\nout 0\nbad 0 3\nweak 1 63\nscrub 0 3\nlog 0xbd000000000000c0 0x1000 0x0\nraise user 0 1 0\nraise kernel 0 1\nraise nested\ninject 1\nsoft 2\nunpoison 3\ncpu 1\nload 1 1 7\nfetch 1 1 8\nkload 1 1 9\nstore 1 1 10 18446744073709551615\nfree 1\ndrop 1\nsync 1\nfsync 0\nprctl 1 33 1 2 0 7\nschedule 0 1. 0@poison 1\nend\n";

/// The same script, in other spellings that a user may choose.
const SPELLED: &[u8] =
    b"# all forms\n\n  hwp   1 \ncpus 2\nframes 4\nkernel 3\nkernel 1\nrecovery 0\nearly 1\nfile 0\nproc 0\nproc 1\nthread 0 0 0 handler\nthread 1 1 1 nohandler\npage 0 anon\npage 1 file 0 fill 9\ntrans 0 0 0\ntrans 1 1 1\ncpu 1\nload 1 1 7\nfetch 1 1 8\nkload 1 1 9\nstore 1 1 10 18446744073709551615\nfree 1\ndrop 1\nsync 1\nfsync 0\nprctl 1 33 1 2 0 7\ncpu 0\nout 0\nbad 0 3\nweak 1 63\nscrub 0 3\nlog 0xBD000000000000c0 0x01000 0\nraise user 0 1 0\nraise kernel 0 1\nraise nested\ninject 1\nsoft 2\nunpoison 3\nschedule 0 1.\n# done\nschedule 0@poison\nschedule 1\nend\n\n# after the end";

/// A script of version 2 on a machine that version 1 can't have, with locked pages of both kinds, as it is printed.
const NEWER: &[u8] =
    b"hwp 2\ncpus 9\nframes 4096\nkernel 4095\nrecovery 1\nearly 0\nfile 0\nproc 0\nthread 0 0 8 handler\npage 0 anon locked\npage 1 anon\npage 2 file 0 fill 9 locked\npage 3 file 0 fill 7\ntrans 0 0 2\ncpu 0\nfsync 0\nopen 0\ncpu 1\ncpu 2\ncpu 3\ncpu 4\ncpu 5\ncpu 6\ncpu 7\ncpu 8\nstore 0 0 63 1\ninject 4094\nopen 0\nwatch 20 3\nschedule 8. 0@load_count 8\nend\n";

/// The same script, in other spellings.
const NEWLY_SPELLED: &[u8] =
    b"\n# version 2\n  hwp  2\ncpus 9\nframes 4096\nkernel 4095\nfile 0\nproc 0\nthread 0 0 8 handler\npage 0   anon  locked \npage 1 anon\npage 2 file 0 fill 9 locked\npage 3 file 0 fill 7\ntrans 0 0 2\ncpu 8\nstore 0 0 63 1\ninject 4094\n open  0\nwatch  20 3 \ncpu 0\nfsync 0\nopen 0\nschedule 8.\nschedule 0@load_count 8\nend\n";

/// A script whose processes share a page behind a fork, each with a twin for its translation, as it is printed.
const FORKING: &[u8] =
    b"hwp 2\ncpus 1\nframes 4\nrecovery 1\nearly 0\nproc 0\nproc 1\nthread 0 0 0 handler\nthread 1 1 0 handler\npage 0 anon\npage 1 anon\npage 2 anon\ntrans 0 0 0\ntrans 1 1 0\ntrans 2 0 1\ntrans 3 1 2\ncow 0 2\ncow 1 3\ncpu 0\nstore 0 0 5 77\nfork 0 1\nstore 1 1 5 88\nend\n";

/// The same script, in other spellings.
const SPELLED_FORKING: &[u8] =
    b"hwp 2\ncpus 1\nframes 4\nproc 0\nproc 1\nthread 0 0 0 handler\nthread 1 1 0 handler\npage 0 anon\npage 1 anon\npage 2 anon\ntrans 0 0 0\ntrans 1 1 0\ntrans 2 0 1\ntrans 3 1 2\n cow  1  3\n# the parent's\ncow 0 2 \ncpu 0\nstore 0 0 5 77\n fork  0 1 \nstore 1 1 5 88\nend\n";

/// A script with two guests, as it is printed.
const HOSTING: &[u8] =
    b"hwp 2\ncpus 1\nframes 3\nrecovery 1\nearly 0\nproc 0\nproc 1\nproc 2\nthread 0 0 0 handler\nthread 1 1 0 nohandler\nthread 2 0 0 handler\nguest 0\nguest 2\npage 0 anon\ntrans 0 0 0\ncpu 0\nstore 0 0 5 77\nend\n";

/// The same script, in other spellings.
const SPELLED_HOSTING: &[u8] =
    b"hwp 2\ncpus 1\nframes 3\nproc 0\nproc 1\nproc 2\nthread 0 0 0 handler\nthread 1 1 0 nohandler\nthread 2 0 0 handler\n guest  2 \n# the first\nguest 0\npage 0 anon\ntrans 0 0 0\ncpu 0\nstore 0 0 5 77\nend\n";

/// Scripts, and how each is printed.
const SPELLINGS: &[(&[u8], &[u8])] = &[
    // a printed script is printed as itself
    (SPELLED, ALL),
    (ALL, ALL),
    // what is not declared is printed as it is by default
    (
        b"hwp 1\ncpus 1\nframes 1\nend",
        b"hwp 1\ncpus 1\nframes 1\nrecovery 1\nearly 0\ncpu 0\nend\n",
    ),
    (
        b"hwp 1\n\ncpus 2\nframes 3\nkernel 2\nkernel 0\nearly 0\ncpu 1\nlog 0 0x00Ab 0xF\nend\n#",
        b"hwp 1\ncpus 2\nframes 3\nkernel 0\nkernel 2\nrecovery 1\nearly 0\ncpu 0\ncpu 1\nlog 0x0 0xab 0xf\nend\n",
    ),
    // a script of version 2 is printed with its version and its locked pages
    (NEWLY_SPELLED, NEWER),
    (NEWER, NEWER),
    (
        b"hwp 2\ncpus 1\nframes 1\nend",
        b"hwp 2\ncpus 1\nframes 1\nrecovery 1\nearly 0\ncpu 0\nend\n",
    ),
    // twins are printed in the order of their translations
    (SPELLED_FORKING, FORKING),
    (FORKING, FORKING),
    // guests are printed in the order of their processes
    (SPELLED_HOSTING, HOSTING),
    (HOSTING, HOSTING),
];

/// The script that a text is read as is printed as another.
fn is_spelled(rt: &impl Abort, alloc: Global, text: &[u8], want: &[u8]) {
    let script = script_of(rt, alloc, text);
    is_printed(rt, alloc, &script, want);
    drop(script);
}

/// The printed text of a script.
fn is_printed(rt: &impl Abort, alloc: Global, script: &Script, want: &[u8]) {
    let text = print(alloc, script).expect(rt, "memory");
    check(rt, text.as_slice() == want);
}

#[test]
fn a_script_is_printed_in_one_spelling(rt: HostRuntime) {
    for (text, want) in SPELLINGS {
        is_spelled(&rt, rt.alloc(), text, want);
    }
}

/// The parts one after another, each so often.
fn repeated(rt: &impl Abort, alloc: Global, parts: &[(&str, u32)]) -> String {
    let mut text = String::new(alloc);
    for (part, count) in parts {
        for _ in 0..*count {
            text.push_str(part).expect(rt, "memory");
        }
    }
    text
}

const ONE_BY_ONE: &[(&str, u32)] = &[
    ("hwp 1\ncpus 1\nframes 1\n", 1),
    ("schedule 0\n", 101),
    ("end\n", 1),
];

const BY_FIFTY: &[(&str, u32)] = &[
    ("hwp 1\ncpus 1\nframes 1\nrecovery 1\nearly 0\ncpu 0\n", 1),
    ("schedule", 1),
    (" 0", 50),
    ("\nschedule", 1),
    (" 0", 50),
    ("\nschedule 0\nend\n", 1),
];

#[test]
fn fifty_words_of_the_schedule_stand_on_a_line(rt: HostRuntime) {
    let text = repeated(&rt, rt.alloc(), ONE_BY_ONE);
    let want = repeated(&rt, rt.alloc(), BY_FIFTY);
    is_spelled(
        &rt,
        rt.alloc(),
        text.as_str().as_bytes(),
        want.as_str().as_bytes(),
    );
}
