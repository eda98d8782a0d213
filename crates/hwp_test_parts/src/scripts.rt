//! Scripts whose lines say what their fields have.

use crate::checking::check;
use hwp_script_read::{Command, Layout, Script, Version, read};
use std::alloc::Global;
use std::process::Abort;

/// A script with every form of line, in the spellings that a user may choose.
const ALL: &[u8] =
    b"# all forms\n\n  hwp   1 \ncpus 2\nframes 4\nkernel 3\nrecovery 0\nearly 1\nfile 0\nproc 0\nproc 1\nthread 0 0 0 handler\nthread 1 1 1 nohandler\npage 0 anon\npage 1 file 0 fill 9\ntrans 0 0 0\ntrans 1 1 1\ncpu 1\nload 1 1 7\nfetch 1 1 8\nkload 1 1 9\nstore 1 1 10 18446744073709551615\nfree 1\ndrop 1\nsync 1\nfsync 0\nprctl 1 33 1 2 0 7\ncpu 0\nout 0\nbad 0 3\nweak 1 63\nscrub 0 3\nlog 0xBD000000000000c0 0x1000 0x86\nraise user 0 1 0\nraise kernel 0 1\nraise nested\ninject 1\nsoft 2\nunpoison 3\nschedule 0 1. 0@poison\n# done\nschedule 1\nend\n\n# after the end";

/// A script of version 2 with its three forms, on the largest machine.
const TWO: &[u8] =
    b"hwp 2\ncpus 16\nframes 4096\nfile 0\nproc 0\nthread 0 0 15 handler\npage 0 file 0 fill 1 locked\ntrans 0 0 0\ncpu 15\nopen 0\ninject 4095\nwatch 1000 64\nschedule 15\nend\n";

/// The script that the text is read as.
pub fn script_of(rt: &impl Abort, alloc: Global, text: &[u8]) -> Script {
    match read(alloc, text) {
        Ok(script) => script,
        Err(_) => rt.panic("a script"),
    }
}

/// The numbers of a command that have one type and stand side by side.
fn side_by_side(command: &Command) -> [u64; 5] {
    match command {
        Command::Scrub { first, last } => [u64::from(first.0), u64::from(last.0), 0, 0, 0],
        Command::Log { status, addr, misc } => [*status, *addr, *misc, 0, 0],
        Command::RaiseUser { ripv, eipv, .. } => [u64::from(*ripv), u64::from(*eipv), 0, 0, 0],
        Command::RaiseKernel { ripv, eipv } => [u64::from(*ripv), u64::from(*eipv), 0, 0, 0],
        Command::Prctl { args, .. } => [args.operation, args.arg2, args.arg3, args.arg4, args.arg5],
        _ => [0; 5],
    }
}

/// The commands, by the processor and their number in its list, have these numbers.
fn have(rt: &impl Abort, script: &Script, rows: &[(usize, usize, [u64; 5])]) {
    for (cpu, seq, want) in rows {
        let list = script.lists.as_slice().get(*cpu).expect(rt, "a list");
        let command = list.as_slice().get(*seq).expect(rt, "a command");
        check(rt, side_by_side(command) == *want);
    }
}

/// The layout that `ALL` declares.
fn is_declared(layout: &Layout) -> bool {
    let counts = (layout.cpus == 2)
        & (layout.frames == 4)
        & (layout.procs == 2)
        & (layout.files == 1);
    counts
        & !layout.recovery
        & layout.early
        & (layout.version == Version::One)
        & matches!(layout.locked.as_slice(), [false, false])
}

const NUMBERS: &[(usize, usize, [u64; 5])] = &[
    (0, 3, [0, 3, 0, 0, 0]),
    (0, 4, [0xbd00_0000_0000_00c0, 0x1000, 0x86, 0, 0]),
    (0, 5, [1, 0, 0, 0, 0]),
    (0, 6, [0, 1, 0, 0, 0]),
    (1, 8, [33, 1, 2, 0, 7]),
];

#[test]
fn numbers_go_to_the_fields_of_their_names(rt: HostRuntime) {
    let script = script_of(&rt, rt.alloc(), ALL);
    check(&rt, is_declared(&script.layout));
    have(&rt, &script, NUMBERS);
    drop(script);
}

#[test]
fn a_script_of_version_2_is_read(rt: HostRuntime) {
    let script = script_of(&rt, rt.alloc(), TWO);
    check(&rt, script.layout.version == Version::Two);
    check(&rt, matches!(script.layout.locked.as_slice(), [true]));
    drop(script);
}

/// A script with a guest.
const HOSTED: &[u8] =
    b"hwp 2\ncpus 2\nframes 3\nproc 0\nproc 1\nthread 0 0 0 handler\nthread 1 1 1 nohandler\nthread 2 0 0 handler\nguest 0\npage 0 anon\ntrans 0 0 0\ncpu 0\nstore 0 0 5 77\nend\n";

#[test]
fn a_guest_is_declared(rt: HostRuntime) {
    let script = script_of(&rt, rt.alloc(), HOSTED);
    check(
        &rt,
        matches!(script.layout.guests.as_slice(), [true, false]),
    );
    drop(script);
}
