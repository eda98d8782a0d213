//! Reports read back from their texts, and the lines at which other texts are at fault.

use crate::checking::check;
use hwp_report::{BadReport, print, read};
use std::alloc::Global;
use std::process::Abort;

/// Reports, with each form of line.
const REPORTS: &[&[u8]] = &[
    b"hwp-report 1\nstop none\ncount 0\nfile 0 lost 0\nfile 1 lost 18446744073709551615\nframe 0 free bad 0 weak 0\nframe 1 kernel bad 20 weak 8000000000000000\nframe 2 page 65535 bad ffffffffffffffff weak a5\npage 0 0\npage 1 7\nin 1 0\nmap 1 0 511\nload 255 4294967295 511 63 20 18446744073709551615\nstore 0 4095 511 0 8000000000000000 0\nload 0 7 3 10 sigbus 31\nstore 1 8 3 10 sigbus 0\nmce 0 5 3 63 8000000000000000\ncpu 0 0\ncpu 1 3\n0 value 18446744073709551615 1 2\n9 noframe\n4094 stored 255 18446744073709551615\nend\n",
    b"hwp-report 1\nstop 7 4095 shutdown\ncount 1\nfile 0 lost 0\nfile 1 lost 3\nfile 2 lost 18446744073709551615\npage 0 8\nfree 0 1 511\ndrop 0 2\nsync 1 3\nout 7 4\nfail 0 5 filedirty req 0 3 2\nseen 1 late 0\nseen 2 default 4095\nseen 31 early 1\nsignal 0 0 ar 0\nsignal 15 31 ao 511\nfail 2 6 swapclean opt - 0 0\nfail 2 6 kernel opt - 0 1\nsignal 15 31 ao 511\nsoft 0 7\nend\n",
    b"hwp-report 2\nstop 0 0 panic 255\ncount 3\nframe 0 handled bad 20 weak 0\npoisoned 0 0 0 sw free recovered\nunpoisoned 0 1 1\npoisoned 1 0 6 hw anononly ignored\nframe 1 handled bad 0 weak 0\npoisoned 4095 0 2 soft moved recovered\npoisoned 4096 0 3 soft free recovered\npoisoned 4097 0 4 hw swapdirty delayed\npoisoned 4098 0 5 sw fileclean recovered\npoisoned 4099 0 6 sw filedirty recovered\npoisoned 4100 0 7 sw swapclean recovered\npoisoned 4101 0 8 hw lockedclean recovered\npoisoned 4102 0 9 sw lockedfile recovered\npoisoned 4103 0 10 sw lockedanon recovered\nframe 2 kernel bad 0 weak 1\npoisoned 0 0 9 hw kernel ignored\nend\n",
    b"hwp-report 1\nstop 0 2 severity S8 1 fd800000000000c0 1 0 user\ncount 0\ncpu 0 12\n2 event 0 fd800000000000c0 1040 86 S9 recovered\n2 event 1 fd800000000000c0 1040 86 S8 stop\n2 event 2 fd800000000000c0 1040 86 S1 none\n2 event 0 fd800000000000c0 1040 86 S4 keep\n2 event 0 fd800000000000c0 1040 86 S6 deferred\n2 event 0 fd800000000000c0 1040 86 S13 logged\n2 event 0 fd800000000000c0 1040 86 S12 delayed\n2 event 0 fd800000000000c0 1040 86 S12 ignored\n2 event 0 fd800000000000c0 1040 86 S12 already\n2 event 0 fd800000000000c0 1040 86 S12 outside\n2 event 0 fd800000000000c0 1040 86 S12 panic\n2 event 0 fd800000000000c0 1040 86 S255 held\ncpu 1 28\n0 sigbus 255 10\n1 gone 255\n2 stopped\n3 done\n4 done 255 10\n5 notresident 255 10\n6 notmapped 255 10\n7 dirty 255 10\n8 mapped 255 10\n9 badlines 2a 255 10\n10 eio 10\n11 is 2\n12 einval\n13 recovered\n14 delayed\n15 ignored\n16 already\n17 moved 1 255 10\n18 takenfree\n19 kernel\n20 hasbad a\n21 notpoisoned\n22 hardwareseen\n23 inuse 10\n24 scrubbed 10\n25 raised 3\n26 opened 10\n27 locked 255 10\nend\n",
    b"hwp-report 2\nstop none\ncount 0\ncpu 0 10\n4 event 2 9c000000000000c0 40 86 S4 keep\n4 offlined 0 moved 1 0 3\n4 offlined 65535 takenfree\n4 offlined 2 already\n4 offlined 2 hasbad ffffffffffffffff\n4 offlined 3 noframe\n4 offlined 3 stopped\n4 scrubbed 1\n2 guest 0 bd80000000000134 140 86 S9 bad\n2 sigbus 0 4\ncpu 1 3\n2 guest 255 bd80000000000134 140 86 S10 stop\n3 guestbad\n3 gueststopped\nend\n",
    b"hwp-report 1\nstop none\ncount 0\ncpu 0 4\n0 offlined 0 takenfree\n0 guest 0 bd80000000000134 140 86 S9 bad\n0 guestbad\n1 gueststopped\nend\n",
];

/// The report that a text is read as is printed as the text.
fn is_read(rt: &impl Abort, alloc: Global, text: &[u8]) {
    let report = read(alloc, text).ok().expect(rt, "a report");
    let printed = print(alloc, &report).expect(rt, "memory");
    check(rt, printed.as_slice() == text);
}

#[test]
fn a_report_is_read_as_it_is_printed(rt: HostRuntime) {
    for text in REPORTS {
        is_read(&rt, rt.alloc(), text);
    }
}

/// Texts that are no report's, and the line at which each is at fault.
const FAULTS: &[(&[u8], u64)] = &[
    (b"", 1),
    (b"hwp-report 1", 1),
    (b"hwp-report 2\n", 2),
    (b"hwp-report 3\n", 1),
    (b"hwp-report 1\n", 2),
    (b"hwp-report 1\n\nstop none\n", 2),
    (b"hwp-report 1\nstop  none\n", 2),
    (b"hwp-report 1\nstop none \n", 2),
    (b"hwp-report 1\nstop none\ncount 00\n", 3),
    (b"hwp-report 1\nstop none\ncount 0\nend", 4),
    (b"hwp-report 1\ncount 0\nstop none\nend\n", 2),
    (b"hwp-report 1\nstop none\ncount 0\nend\n\n", 5),
    (b"hwp-report 1\nstop none\ncount 0\nend\nend", 5),
    (b"hwp-report 1\nstop none\ncount 0\nfile 1 lost 0\n", 4),
    (
        b"hwp-report 1\nstop none\ncount 0\nframe 0 free bad 0A weak 0\n",
        4,
    ),
    (
        b"hwp-report 1\nstop none\ncount 0\nframe 0 free bad 00 weak 0\n",
        4,
    ),
    (
        b"hwp-report 1\nstop none\ncount 0\npage 0 1\nsoft 0 0\nsoft 0 1\n",
        6,
    ),
    (
        b"hwp-report 1\nstop none\ncount 0\npage 0 2\nsoft 0 0\nend\n",
        6,
    ),
    (
        b"hwp-report 1\nstop none\ncount 0\npage 0 18446744073709551615\nend\n",
        5,
    ),
    (
        b"hwp-report 1\nstop none\ncount 0\ncpu 0 18446744073709551615\nend\n",
        5,
    ),
    (
        b"hwp-report 1\nstop none\ncount 0\npage 0 18446744073709551616\nend\n",
        4,
    ),
    (
        b"hwp-report 1\nstop none\ncount 0\ncpu 0 1\n0 opened 01\nend\n",
        5,
    ),
    (
        b"hwp-report 1\nstop none\ncount 0\ncpu 0 1\n0 opened 1 0 2\nend\n",
        5,
    ),
    (
        b"hwp-report 1\nstop none\ncount 0\npage 0 1\nfail 0 0 free opt - 0 17\n",
        5,
    ),
    (
        b"hwp-report 1\nstop none\ncount 0\npage 0 1\nfail 0 0 free opt - 9 16\nseen 0 late 0\nend\n",
        7,
    ),
    (
        b"hwp-report 1\nstop none\ncount 0\npage 0 1\nfail 0 0 free opt - 1 1\nsignal 0 0 ar 0\n",
        6,
    ),
    (
        b"hwp-report 1\nstop none\ncount 0\npage 0 1\nload 0 0 0 64 0 0\n",
        5,
    ),
    (
        b"hwp-report 1\nstop none\ncount 0\nframe 0 page 65536 bad 0 weak 0\n",
        4,
    ),
    (b"hwp-report 1\nstop 256 0 shutdown\n", 2),
];

/// The fault is at this line.
fn is_at(fault: Option<BadReport>, line: u64) -> bool {
    match fault {
        Some(BadReport::Line(at)) => at == line,
        _ => false,
    }
}

/// Each text is at fault at its line.
fn are_at_fault(rt: &impl Abort, alloc: Global, rows: &[(&[u8], u64)]) {
    for (text, line) in rows {
        check(rt, is_at(read(alloc, text).err(), *line));
    }
}

#[test]
fn the_first_line_that_does_not_follow_is_at_fault(rt: HostRuntime) {
    are_at_fault(&rt, rt.alloc(), FAULTS);
}

/// What is no line of a processor: frames taken out of use and machine checks of guests that lack a word or have one more, and
/// numbers and outcomes that these lines don't have.
const NO_LINES: &[&[u8]] = &[
    b"0 offlined\n",
    b"0 offlined 0\n",
    b"0 offlined 0 moved 1 0\n",
    b"0 offlined 0 takenfree 1\n",
    b"0 offlined 0 done\n",
    b"0 offlined 0 kernel\n",
    b"0 offlined 65536 takenfree\n",
    b"0 offlined 00 already\n",
    b"0 offlined 0 hasbad 0A\n",
    b"0 guest 0 bd80000000000134 140 86 S9\n",
    b"0 guest 0 bd80000000000134 140 86 S9 bad 0\n",
    b"0 guest 0 bd80000000000134 140 86 S9 recovered\n",
    b"0 guest 256 bd80000000000134 140 86 S9 bad\n",
    b"0 event 0 bd80000000000134 140 86 S9 bad\n",
    b"0 guestbad 0\n",
    b"0 gueststopped 0 0\n",
];

/// Each is at fault where it stands as the first line of a processor.
fn are_no_lines(rt: &impl Abort, alloc: Global, lines: &[&[u8]]) {
    for line in lines {
        let mut text = b"hwp-report 2\nstop none\ncount 0\ncpu 0 1\n"
            .to_vec(alloc)
            .expect(rt, "memory");
        text.extend_from_slice(line).expect(rt, "memory");
        text.extend_from_slice(b"end\n").expect(rt, "memory");
        check(rt, is_at(read(alloc, text.as_slice()).err(), 5));
    }
}

#[test]
fn a_line_beside_an_answer_has_its_words_alone(rt: HostRuntime) {
    are_no_lines(&rt, rt.alloc(), NO_LINES);
}
