//! The lines of scripts: each kind as it is read and printed, and what is no line.

use crate::checking::check;
use hwp_script::put_form;
use hwp_script_read::{LineRead, OutOfMemory, read_lines};
use std::alloc::Global;
use std::process::Abort;

/// The line as it is printed, or what is wrong with it, and in which version, where version 2 alone has its form.
fn put_read(out: &mut String, read: &LineRead) -> Result<(), OutOfMemory> {
    let wrong = match read {
        LineRead::ScriptLine(form) => {
            return put_form(out, form);
        }
        LineRead::Unknown => "unknown\n",
        LineRead::BadNumber { newer: false } => "bad number\n",
        LineRead::BadNumber { newer: true } => "bad number in version 2\n",
        LineRead::OverLimit { newer: false } => "over the limit\n",
        LineRead::OverLimit { newer: true } => "over the limit in version 2\n",
    };
    out.push_str(wrong)
}

/// The lines that are not skipped, one a line: the number, and the line as it is printed, or what is wrong with it.
fn told(rt: &impl Abort, alloc: Global, text: &[u8]) -> String {
    check(rt, text.len() < 1000);
    let lines = read_lines(alloc, text).expect(rt, "memory");
    let mut out = String::new(alloc);
    for numbered in lines.as_slice() {
        write!(out, "{} ", numbered.line).expect(rt, "memory");
        put_read(&mut out, &numbered.read).expect(rt, "memory");
    }
    out
}

/// Each text is read as what stands beside it.
fn are_told(rt: &impl Abort, alloc: Global, rows: &[(&[u8], &[u8])]) {
    for (text, want) in rows {
        let read = told(rt, alloc, text);
        check(rt, read.as_str().as_bytes() == *want);
    }
}

/// Each text is read as this.
fn are_all(rt: &impl Abort, alloc: Global, texts: &[&[u8]], want: &[u8]) {
    for text in texts {
        let read = told(rt, alloc, text);
        check(rt, read.as_str().as_bytes() == want);
    }
}

/// The forms of version 2, and its highest numbers.
const NEWER: &[(&[u8], &[u8])] = &[
    (
        b"hwp 2\ncpus 16\nframes 4096\npage 6 anon locked\npage 7 file 8 fill 9 locked\nopen 15\n",
        b"1 hwp 2\n2 cpus 16\n3 frames 4096\n4 page 6 anon locked\n5 page 7 file 8 fill 9 locked\n6 open 15\n",
    ),
    (
        b"load 0 4095 0\ndrop 4095\nscrub 256 4095\ninject 4095\nschedule 8 9. 15@stop\n",
        b"1 load 0 4095 0\n2 drop 4095\n3 scrub 256 4095\n4 inject 4095\n5 schedule 8 9. 15@stop\n",
    ),
    (
        b"watch 1 1\nwatch 1000 64\n  watch  2  3  \n",
        b"1 watch 1 1\n2 watch 1000 64\n3 watch 2 3\n",
    ),
    (
        b"cow 0 4095\n cow  18446744073709551615  1 \nfork 31 15\nfork  0  1\n",
        b"1 cow 0 4095\n2 cow 18446744073709551615 1\n3 fork 31 15\n4 fork 0 1\n",
    ),
];

/// What has a form of version 2 but for a word in a number's place.
const NEWER_WORDS: &[&[u8]] = &[
    b"open x",
    b"watch x 65",
    b"watch 0 01",
    b"cow x 1",
    b"cow 0 18446744073709551616",
    b"fork x 16",
    b"fork 32 01",
    b"page x anon locked",
    b"page 0 file x fill 1 locked",
];

/// What has a form of version 2 but for a number outside its range.
const NEWER_OVER: &[&[u8]] = &[
    b"open 16",
    b"watch 0 1",
    b"watch 1001 1",
    b"watch 1 0",
    b"watch 1 65",
    b"watch 65537 257",
    b"fork 32 0",
    b"fork 0 16",
    b"fork 256 256",
];

#[test]
fn forms_of_version_2_are_read_as_they_are_printed(rt: HostRuntime) {
    are_told(&rt, rt.alloc(), NEWER);
    are_all(&rt, rt.alloc(), NEWER_WORDS, b"1 bad number in version 2\n");
    are_all(
        &rt,
        rt.alloc(),
        NEWER_OVER,
        b"1 over the limit in version 2\n",
    );
}

/// Every kind of line, as it is read and as it is printed.
const KINDS: &[(&[u8], &[u8])] = &[
    (
        b"hwp 1\ncpus 8\nframes 256\nkernel 3\nrecovery 0\nearly 1\nfile 0\nproc 1\n",
        b"1 hwp 1\n2 cpus 8\n3 frames 256\n4 kernel 3\n5 recovery 0\n6 early 1\n7 file 0\n8 proc 1\n",
    ),
    (
        b"thread 0 1 2 handler\nthread 3 4 5 nohandler\npage 6 anon\npage 7 file 8 fill 9\ntrans 1 2 3\n",
        b"1 thread 0 1 2 handler\n2 thread 3 4 5 nohandler\n3 page 6 anon\n4 page 7 file 8 fill 9\n5 trans 1 2 3\n",
    ),
    (
        b"cpu 4\nload 1 2 3\nfetch 4 5 6\nkload 7 8 9\nstore 1 2 3 18446744073709551615\nfree 0\n",
        b"1 cpu 4\n2 load 1 2 3\n3 fetch 4 5 6\n4 kload 7 8 9\n5 store 1 2 3 18446744073709551615\n6 free 0\n",
    ),
    (
        b"drop 1\nsync 2\nout 3\nfsync 4\nprctl 1 33 1 0 0 0\nbad 5 6\nweak 7 8\nscrub 9 10\n",
        b"1 drop 1\n2 sync 2\n3 out 3\n4 fsync 4\n5 prctl 1 33 1 0 0 0\n6 bad 5 6\n7 weak 7 8\n8 scrub 9 10\n",
    ),
    (
        b"log 0x0 0xbd000000000000c0 0x86\nraise user 1 0 1\nraise kernel 1 0\nraise nested\ninject 1\n",
        b"1 log 0x0 0xbd000000000000c0 0x86\n2 raise user 1 0 1\n3 raise kernel 1 0\n4 raise nested\n5 inject 1\n",
    ),
    (
        b"soft 2\nunpoison 3\nschedule 0 1. 2@poison 3@report_lost 7\nend\n",
        b"1 soft 2\n2 unpoison 3\n3 schedule 0 1. 2@poison 3@report_lost 7\n4 end\n",
    ),
];

#[test]
fn every_kind_of_line_is_read_as_it_is_printed(rt: HostRuntime) {
    are_told(&rt, rt.alloc(), KINDS);
}

const SKIPPED: &[(&[u8], &[u8])] = &[
    (b"", b""),
    (b"\n\n\n", b""),
    (b"# cpus 1\n\n   \ncpus 1\n#\nend", b"4 cpus 1\n6 end\n"),
    (b"#\xff\x00\t\nend\n", b"2 end\n"),
    (b"  cpu   3  \n", b"1 cpu 3\n"),
    (b"end\n\n# no more\n", b"1 end\n"),
    (b" # end\n", b"1 unknown\n"),
    (
        b"log 0 0x00Ab 0xFFFFFFFFFFFFFFFF",
        b"1 log 0x0 0xab 0xffffffffffffffff\n",
    ),
];

#[test]
fn lines_are_counted_whether_they_are_skipped_or_not(rt: HostRuntime) {
    are_told(&rt, rt.alloc(), SKIPPED);
}

const UNKNOWN: &[&[u8]] = &[
    b"sotre 0 0 5 77",
    b"cpus",
    b"cpus 1 2",
    b"hwp 3",
    b"hwp 1 2",
    b"hwp 01",
    b"HWP 1",
    b"thread 0 0 0 maybe",
    b"thread 0 0 0",
    b"page 0 file 0 full 1",
    b"page 0 anon 1",
    b"page 0 anon locked locked",
    b"page 0 file 0 fill 1 lock",
    b"open",
    b"open 0 0",
    b"watch 1",
    b"watch 1 1 1",
    b"cow",
    b"cow 0",
    b"cow 0 1 2",
    b"fork 0",
    b"fork 0 1 2",
    b"raise user 0 1",
    b"raise nested 1",
    b"raise other 1 1",
    b"schedule",
    b"schedule 0 x@foo",
    b"schedule x 0@poison@poison",
    b"\tend",
    b"end\r",
    b"end \x00",
    b"cpus \xff",
];

#[test]
fn a_line_of_no_form_is_unknown(rt: HostRuntime) {
    are_all(&rt, rt.alloc(), UNKNOWN, b"1 unknown\n");
}

const NO_NUMBERS: &[&[u8]] = &[
    b"cpus x",
    b"cpus 01",
    b"cpus +1",
    b"cpus -1",
    b"cpus 18446744073709551616",
    b"cpus 0x1",
    b"page x file 0 fill 1",
    b"page 0 file 0 fill 1.5",
    b"page 0 file 0 fill locked",
    b"prctl 0 33 1 0 0 x",
    b"log 1 0 0",
    b"log 0x 0 0",
    b"log 0x11112222333344445 0 0",
    b"log 0 0 0x+1",
    b"log 0X1 0 0",
    b"schedule x",
    b"schedule .",
    b"schedule @poison",
    b"schedule 0.5",
    b"schedule 0..",
    b"schedule 8 00",
];

#[test]
fn a_word_in_a_numbers_place_is_a_number(rt: HostRuntime) {
    are_all(&rt, rt.alloc(), NO_NUMBERS, b"1 bad number\n");
}

const TOO_LARGE: &[&[u8]] = &[
    b"load 32 0 0",
    b"fetch 0 4096 0",
    b"kload 0 0 64",
    b"store 32 0 0 1",
    b"free 4096",
    b"drop 4096",
    b"sync 4096",
    b"fsync 16",
    b"prctl 32 33 0 0 0 0",
    b"bad 4096 0",
    b"weak 0 64",
    b"scrub 1 0",
    b"scrub 0 4096",
    b"raise user 0 2 0",
    b"raise kernel 0 2",
    b"inject 4096",
    b"schedule 16",
    b"schedule 0 16@poison",
];

#[test]
fn a_number_of_a_command_is_in_its_range(rt: HostRuntime) {
    are_all(&rt, rt.alloc(), TOO_LARGE, b"1 over the limit\n");
}
