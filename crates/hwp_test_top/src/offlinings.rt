//! A frame that the collector of one processor takes out of use beside a machine check, and a command of another processor on the same
//! frame, under every order of twelve turns: the reports that they can come to. Page 0 is in frame 0 and was stored to, and one corrected
//! error of the frame is as many as the collector takes.

use crate::meetings::{Meeting, comes_to_its_ends};

const OFFLININGS: &[Meeting] = &[
    // The page is loaded.
    Meeting {
        front: b"hwp 2\ncpus 2\nframes 2\nproc 0\nthread 0 0 0 handler\nthread 1 0 1 handler\npage 0 anon\ntrans 0 0 0\ncpu 0\nstore 0 0 0 5\nwatch 1 1\n\
log 0x9c000000000000c0 0x0 0x86\nraise kernel 1 0\ncpu 1\nload 1 0 0\nschedule 0. 0. 0.",
        ends: &[
            // the load is made in the page's old frame
            b"hwp-report 2\nstop none\ncount 1\nframe 0 handled bad 0 weak 0\npoisoned 0 0 3 soft moved recovered\nframe 1 page 0 bad 0 weak 0\npage 0 5\n\
in 0 0\nmap 0 0 0\nstore 0 0 0 0 0 5\nload 1 0 0 0 0 5\nsoft 0 3\ncpu 0 6\n0 stored 0 2\n1 done\n2 done\n\
3 event 1 9c000000000000c0 0 86 S4 keep\n3 offlined 0 moved 1 0 4\n3 raised 1\ncpu 1 1\n0 value 5 0 3\nend\n",
            // or in its new one
            b"hwp-report 2\nstop none\ncount 1\nframe 0 handled bad 0 weak 0\npoisoned 0 0 3 soft moved recovered\nframe 1 page 0 bad 0 weak 0\npage 0 5\n\
in 0 0\nmap 0 0 0\nstore 0 0 0 0 0 5\nsoft 0 3\nload 1 0 0 0 0 5\ncpu 0 6\n0 stored 0 2\n1 done\n2 done\n\
3 event 1 9c000000000000c0 0 86 S4 keep\n3 offlined 0 moved 1 0 3\n3 raised 1\ncpu 1 1\n0 value 5 0 4\nend\n",
        ],
    },
    // The translation that leads to the frame is freed.
    Meeting {
        front: b"hwp 2\ncpus 2\nframes 2\nproc 0\nthread 0 0 0 handler\npage 0 anon\ntrans 0 0 0\ncpu 0\nstore 0 0 0 5\nwatch 1 1\n\
log 0x9c000000000000c0 0x0 0x86\nraise kernel 1 0\ncpu 1\nfree 0\nschedule 0. 0. 0.",
        ends: &[
            // before the page moves
            b"hwp-report 2\nstop none\ncount 1\nframe 0 handled bad 0 weak 0\npoisoned 0 0 3 soft moved recovered\nframe 1 page 0 bad 0 weak 0\npage 0 5\n\
in 0 0\nmap 0 0 0\nstore 0 0 0 0 0 5\nfree 1 0 0\nsoft 0 3\ncpu 0 6\n0 stored 0 2\n1 done\n2 done\n\
3 event 1 9c000000000000c0 0 86 S4 keep\n3 offlined 0 moved 1 0 4\n3 raised 1\ncpu 1 1\n0 done 0 3\nend\n",
            // or after that
            b"hwp-report 2\nstop none\ncount 1\nframe 0 handled bad 0 weak 0\npoisoned 0 0 3 soft moved recovered\nframe 1 page 0 bad 0 weak 0\npage 0 5\n\
in 0 0\nmap 0 0 0\nstore 0 0 0 0 0 5\nsoft 0 3\nfree 1 0 0\ncpu 0 6\n0 stored 0 2\n1 done\n2 done\n\
3 event 1 9c000000000000c0 0 86 S4 keep\n3 offlined 0 moved 1 0 3\n3 raised 1\ncpu 1 1\n0 done 0 4\nend\n",
        ],
    },
    // A command takes the frame out of use too.
    Meeting {
        front: b"hwp 2\ncpus 2\nframes 2\nproc 0\nthread 0 0 0 handler\npage 0 anon\ntrans 0 0 0\ncpu 0\nstore 0 0 0 5\nwatch 1 1\n\
log 0x9c000000000000c0 0x0 0x86\nraise kernel 1 0\ncpu 1\nsoft 0\nschedule 0. 0. 0.",
        ends: &[
            // the collector's processor is first
            b"hwp-report 2\nstop none\ncount 1\nframe 0 handled bad 0 weak 0\npoisoned 0 0 3 soft moved recovered\nframe 1 page 0 bad 0 weak 0\npage 0 4\n\
in 0 0\nmap 0 0 0\nstore 0 0 0 0 0 5\nsoft 0 3\ncpu 0 6\n0 stored 0 2\n1 done\n2 done\n\
3 event 1 9c000000000000c0 0 86 S4 keep\n3 offlined 0 moved 1 0 3\n3 raised 1\ncpu 1 1\n0 already\nend\n",
            // or the command
            b"hwp-report 2\nstop none\ncount 1\nframe 0 handled bad 0 weak 0\npoisoned 0 1 0 soft moved recovered\nframe 1 page 0 bad 0 weak 0\npage 0 4\n\
in 0 0\nmap 0 0 0\nstore 0 0 0 0 0 5\nsoft 1 0\ncpu 0 6\n0 stored 0 2\n1 done\n2 done\n\
3 event 1 9c000000000000c0 0 86 S4 keep\n3 offlined 0 already\n3 raised 1\ncpu 1 1\n0 moved 1 0 3\nend\n",
        ],
    },
    // The frame fails.
    Meeting {
        front: b"hwp 2\ncpus 2\nframes 2\nproc 0\nthread 0 0 0 handler\npage 0 anon\ntrans 0 0 0\ncpu 0\nstore 0 0 0 5\nwatch 1 1\n\
log 0x9c000000000000c0 0x0 0x86\nraise kernel 1 0\ncpu 1\ninject 0\nschedule 0. 0. 0.",
        ends: &[
            // the page has moved
            b"hwp-report 2\nstop none\ncount 1\nframe 0 handled bad 0 weak 0\npoisoned 0 0 3 soft moved recovered\nframe 1 page 0 bad 0 weak 0\npage 0 4\n\
in 0 0\nmap 0 0 0\nstore 0 0 0 0 0 5\nsoft 0 3\ncpu 0 6\n0 stored 0 2\n1 done\n2 done\n\
3 event 1 9c000000000000c0 0 86 S4 keep\n3 offlined 0 moved 1 0 3\n3 raised 1\ncpu 1 1\n0 already\nend\n",
            // or is lost
            b"hwp-report 2\nstop none\ncount 1\nframe 0 handled bad 0 weak 0\npoisoned 0 1 0 sw anononly recovered\nframe 1 free bad 0 weak 0\npage 0 4\n\
in 0 0\nmap 0 0 0\nstore 0 0 0 0 0 5\nfail 1 0 anononly opt - 1 0\nseen 0 default 0\ncpu 0 6\n0 stored 0 2\n1 done\n2 done\n\
3 event 1 9c000000000000c0 0 86 S4 keep\n3 offlined 0 already\n3 raised 1\ncpu 1 1\n0 recovered\nend\n",
        ],
    },
];

#[test]
fn each_offlining_comes_to_its_reports(rt: HostRuntime) {
    for meeting in OFFLININGS {
        comes_to_its_ends(&rt, rt.alloc(), meeting);
    }
}
