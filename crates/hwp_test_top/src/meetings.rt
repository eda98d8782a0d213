//! Two commands on one frame, or on one file, under every order of twelve turns: the reports that they can come to.

use crate::checking::check;
use crate::helpers::report_of;
use crate::judging::{are_legal, scheduled};
use std::alloc::Global;
use std::process::Abort;

/// A script of two processors up to its schedule's words that go through all orders, and the reports that these come to.
pub struct Meeting {
    pub front: &'static [u8],
    pub ends: &'static [&'static [u8]],
}

/// Processor 0 has moved the page, and the other one finds the frame poisoned.
const MOVED_BY_0: &[u8] = b"\
hwp-report 1\nstop none\ncount 1\nframe 0 handled bad 0 weak 0\npoisoned 0 0 1 soft moved recovered\n\
frame 1 page 0 bad 0 weak 0\npage 0 4\nin 0 0\nmap 0 0 0\nstore 0 0 0 0 0 5\nsoft 0 1\ncpu 0 2\n0 stored 0 2\n1 moved 1 0 3\n\
cpu 1 1\n0 already\nend\n";

const MEETINGS: &[Meeting] = &[
    // Page 0 is in frame 0 and was stored to. The frame is to be taken out of use, and fails.
    Meeting {
        front: b"hwp 1\ncpus 2\nframes 2\nproc 0\nthread 0 0 0 handler\npage 0 anon\ntrans 0 0 0\ncpu 0\nstore 0 0 0 5\nsoft 0\n\
cpu 1\ninject 0\nschedule 0.",
        ends: &[
            // the page was moved before
            MOVED_BY_0,
            // the page is lost
            b"hwp-report 1\nstop none\ncount 1\nframe 0 handled bad 0 weak 0\npoisoned 0 1 0 sw anononly recovered\n\
frame 1 free bad 0 weak 0\npage 0 4\nin 0 0\nmap 0 0 0\nstore 0 0 0 0 0 5\nfail 1 0 anononly opt - 1 0\nseen 0 default 0\n\
cpu 0 2\n0 stored 0 2\n1 already\ncpu 1 1\n0 recovered\nend\n",
        ],
    },
    // Both take it out of use.
    Meeting {
        front: b"hwp 1\ncpus 2\nframes 2\nproc 0\nthread 0 0 0 handler\npage 0 anon\ntrans 0 0 0\ncpu 0\nstore 0 0 0 5\nsoft 0\n\
cpu 1\nsoft 0\nschedule 0.",
        ends: &[
            MOVED_BY_0,
            // processor 1 has moved the page
            b"hwp-report 1\nstop none\ncount 1\nframe 0 handled bad 0 weak 0\npoisoned 0 1 0 soft moved recovered\n\
frame 1 page 0 bad 0 weak 0\npage 0 4\nin 0 0\nmap 0 0 0\nstore 0 0 0 0 0 5\nsoft 1 0\ncpu 0 2\n0 stored 0 2\n1 already\n\
cpu 1 1\n0 moved 1 0 3\nend\n",
        ],
    },
    // It fails while its page is swapped out.
    Meeting {
        front: b"hwp 1\ncpus 2\nframes 2\nproc 0\nthread 0 0 0 handler\npage 0 anon\ntrans 0 0 0\ncpu 0\nstore 0 0 0 5\ninject 0\n\
cpu 1\nout 0\nschedule 0.",
        ends: &[
            // the page is lost
            b"hwp-report 1\nstop none\ncount 1\nframe 0 handled bad 0 weak 0\npoisoned 0 0 1 sw anononly recovered\n\
frame 1 free bad 0 weak 0\npage 0 4\nin 0 0\nmap 0 0 0\nstore 0 0 0 0 0 5\nfail 0 1 anononly opt - 1 0\nseen 0 default 0\n\
cpu 0 2\n0 stored 0 2\n1 recovered\ncpu 1 1\n0 notresident 0 4\nend\n",
            // the page is in swap, and the frame fails as one without a page
            b"hwp-report 1\nstop none\ncount 1\nframe 0 handled bad 0 weak 0\npoisoned 0 0 1 sw free recovered\n\
frame 1 free bad 0 weak 0\npage 0 4\nin 0 0\nmap 0 0 0\nstore 0 0 0 0 0 5\nout 1 0\ncpu 0 2\n0 stored 0 2\n1 recovered\n\
cpu 1 1\n0 done 0 3\nend\n",
        ],
    },
    // It fails while the translation that leads to it is freed.
    Meeting {
        front: b"hwp 1\ncpus 2\nframes 2\nproc 0\nthread 0 0 0 handler\npage 0 anon\ntrans 0 0 0\ncpu 0\nstore 0 0 0 5\nfree 0\n\
cpu 1\ninject 0\nschedule 0.",
        ends: &[
            // nobody uses the page any more
            b"hwp-report 1\nstop none\ncount 1\nframe 0 handled bad 0 weak 0\npoisoned 0 1 0 sw anononly recovered\n\
frame 1 free bad 0 weak 0\npage 0 5\nin 0 0\nmap 0 0 0\nstore 0 0 0 0 0 5\nfree 0 1 0\nfail 1 0 anononly opt - 0 0\n\
cpu 0 2\n0 stored 0 2\n1 done 0 3\ncpu 1 1\n0 recovered\nend\n",
            // the failure has taken the translation away
            b"hwp-report 1\nstop none\ncount 1\nframe 0 handled bad 0 weak 0\npoisoned 0 1 0 sw anononly recovered\n\
frame 1 free bad 0 weak 0\npage 0 4\nin 0 0\nmap 0 0 0\nstore 0 0 0 0 0 5\nfail 1 0 anononly opt - 1 0\nseen 0 default 0\n\
cpu 0 2\n0 stored 0 2\n1 notmapped 0 4\ncpu 1 1\n0 recovered\nend\n",
        ],
    },
    // It has failed, and is taken back while it fails again.
    Meeting {
        front: b"hwp 1\ncpus 2\nframes 2\ncpu 0\ninject 0\nunpoison 0\ncpu 1\ninject 0\nschedule 0.",
        ends: &[
            // it is taken back afterwards
            b"hwp-report 1\nstop none\ncount 0\nframe 0 free bad 0 weak 0\npoisoned 0 0 0 sw free recovered\nunpoisoned 0 0 1\n\
frame 1 free bad 0 weak 0\ncpu 0 2\n0 recovered\n1 done\ncpu 1 1\n0 already\nend\n",
            // it was taken back before
            b"hwp-report 1\nstop none\ncount 1\nframe 0 handled bad 0 weak 0\npoisoned 0 0 0 sw free recovered\nunpoisoned 0 0 1\n\
poisoned 1 1 0 sw free recovered\nframe 1 free bad 0 weak 0\ncpu 0 2\n0 recovered\n1 done\ncpu 1 1\n0 recovered\nend\n",
        ],
    },
    // It fails under its page, and is to be taken back.
    Meeting {
        front: b"hwp 1\ncpus 2\nframes 2\nproc 0\nthread 0 0 0 handler\npage 0 anon\ntrans 0 0 0\ncpu 0\nstore 0 0 0 5\ninject 0\n\
cpu 1\nunpoison 0\nschedule 0.",
        ends: &[
            // it has not failed yet
            b"hwp-report 1\nstop none\ncount 1\nframe 0 handled bad 0 weak 0\npoisoned 0 0 1 sw anononly recovered\n\
frame 1 free bad 0 weak 0\npage 0 4\nin 0 0\nmap 0 0 0\nstore 0 0 0 0 0 5\nfail 0 1 anononly opt - 1 0\nseen 0 default 0\n\
cpu 0 2\n0 stored 0 2\n1 recovered\ncpu 1 1\n0 notpoisoned\nend\n",
            // its page and the page's translation refer to it
            b"hwp-report 1\nstop none\ncount 1\nframe 0 handled bad 0 weak 0\npoisoned 0 0 1 sw anononly recovered\n\
frame 1 free bad 0 weak 0\npage 0 4\nin 0 0\nmap 0 0 0\nstore 0 0 0 0 0 5\nfail 0 1 anononly opt - 1 0\nseen 0 default 0\n\
cpu 0 2\n0 stored 0 2\n1 recovered\ncpu 1 1\n0 inuse 2\nend\n",
            // the failure does too
            b"hwp-report 1\nstop none\ncount 1\nframe 0 handled bad 0 weak 0\npoisoned 0 0 1 sw anononly recovered\n\
frame 1 free bad 0 weak 0\npage 0 4\nin 0 0\nmap 0 0 0\nstore 0 0 0 0 0 5\nfail 0 1 anononly opt - 1 0\nseen 0 default 0\n\
cpu 0 2\n0 stored 0 2\n1 recovered\ncpu 1 1\n0 inuse 3\nend\n",
            // its failure is over
            b"hwp-report 1\nstop none\ncount 0\nframe 0 free bad 0 weak 0\npoisoned 0 0 1 sw anononly recovered\nunpoisoned 0 1 0\n\
frame 1 free bad 0 weak 0\npage 0 4\nin 0 0\nmap 0 0 0\nstore 0 0 0 0 0 5\nfail 0 1 anononly opt - 1 0\nseen 0 default 0\n\
cpu 0 2\n0 stored 0 2\n1 recovered\ncpu 1 1\n0 done\nend\n",
        ],
    },
    // Its page is a dirty one of a file, which both ask for losses, twice. The failure has still to take the page out.
    Meeting {
        front: b"hwp 1\ncpus 2\nframes 2\nfile 0\nproc 0\nthread 0 0 0 handler\npage 0 file 0 fill 9\ntrans 0 0 0\ncpu 0\nstore 0 0 0 5\n\
inject 0\nfsync 0\nfsync 0\ncpu 1\nfsync 0\nfsync 0\nschedule 0. 0@set_pte",
        ends: &[
            // processor 1 asks twice before the loss is counted
            b"hwp-report 1\nstop none\ncount 1\nfile 0 lost 1\nframe 0 handled bad 0 weak 0\npoisoned 0 0 1 sw filedirty recovered\n\
frame 1 free bad 0 weak 0\npage 0 4\nin 0 0\nmap 0 0 0\nstore 0 0 0 0 0 5\nfail 0 1 filedirty opt - 1 0\nseen 0 default 0\n\
cpu 0 4\n0 stored 0 2\n1 recovered\n2 eio 1\n3 done\ncpu 1 2\n0 done\n1 done\nend\n",
            // once before, and once behind it
            b"hwp-report 1\nstop none\ncount 1\nfile 0 lost 1\nframe 0 handled bad 0 weak 0\npoisoned 0 0 1 sw filedirty recovered\n\
frame 1 free bad 0 weak 0\npage 0 4\nin 0 0\nmap 0 0 0\nstore 0 0 0 0 0 5\nfail 0 1 filedirty opt - 1 0\nseen 0 default 0\n\
cpu 0 4\n0 stored 0 2\n1 recovered\n2 eio 1\n3 done\ncpu 1 2\n0 done\n1 eio 1\nend\n",
            // twice behind it
            b"hwp-report 1\nstop none\ncount 1\nfile 0 lost 1\nframe 0 handled bad 0 weak 0\npoisoned 0 0 1 sw filedirty recovered\n\
frame 1 free bad 0 weak 0\npage 0 4\nin 0 0\nmap 0 0 0\nstore 0 0 0 0 0 5\nfail 0 1 filedirty opt - 1 0\nseen 0 default 0\n\
cpu 0 4\n0 stored 0 2\n1 recovered\n2 eio 1\n3 done\ncpu 1 2\n0 eio 1\n1 done\nend\n",
        ],
    },
    // Its page is a locked one of a file, dirty, which is dropped while the frame fails.
    Meeting {
        front: b"hwp 2\ncpus 2\nframes 2\nfile 0\nproc 0\nthread 0 0 0 handler\npage 0 file 0 fill 9 locked\ntrans 0 0 0\ncpu 0\n\
store 0 0 0 5\ndrop 0\ncpu 1\ninject 0\nschedule 0.",
        ends: &[
            // the drop is refused before
            b"hwp-report 2\nstop none\ncount 1\nfile 0 lost 1\nframe 0 handled bad 0 weak 0\npoisoned 0 1 0 sw lockedfile recovered\n\
frame 1 free bad 0 weak 0\npage 0 4\nin 0 0\nmap 0 0 0\nstore 0 0 0 0 0 5\nfail 1 0 lockedfile opt - 1 1\nseen 0 default 0\n\
signal 0 0 ao 0\ncpu 0 2\n0 stored 0 2\n1 locked 0 3\ncpu 1 1\n0 recovered\nend\n",
            // the failure has taken the page out of its frame
            b"hwp-report 2\nstop none\ncount 1\nfile 0 lost 1\nframe 0 handled bad 0 weak 0\npoisoned 0 1 0 sw lockedfile recovered\n\
frame 1 free bad 0 weak 0\npage 0 4\nin 0 0\nmap 0 0 0\nstore 0 0 0 0 0 5\nfail 1 0 lockedfile opt - 1 1\nseen 0 default 0\n\
signal 0 0 ao 0\ncpu 0 2\n0 stored 0 2\n1 notresident 0 4\ncpu 1 1\n0 recovered\nend\n",
        ],
    },
];

/// The places of the texts that are the report, as bits.
fn places(texts: &[&'static [u8]], report: &[u8]) -> u64 {
    let mut found = 0;
    let mut place = 1;
    for text in texts {
        if *text == report {
            found |= place;
        }
        place <<= 1;
    }
    found
}

/// The report that this order of twelve turns gives is legal. The places that it has among those that may come.
fn came(rt: &impl Abort, alloc: Global, meeting: &Meeting, order: u32) -> u64 {
    let script = scheduled(rt, alloc, meeting.front, 12, order);
    let left = report_of(rt, alloc, script.as_slice());
    are_legal(rt, alloc, script.as_slice(), left.out.bytes());
    places(meeting.ends, left.out.bytes())
}

/// Each order of twelve turns comes to one of the reports, which is legal, and each of the reports comes.
pub fn comes_to_its_ends(rt: &impl Abort, alloc: Global, meeting: &Meeting) {
    let mut all = 0;
    for order in 0..4096 {
        let found = came(rt, alloc, meeting, order);
        check(rt, found != 0);
        all |= found;
    }
    check(rt, all.count_ones() as usize == meeting.ends.len());
}

#[test]
fn each_meeting_comes_to_its_reports(rt: HostRuntime) {
    for meeting in MEETINGS {
        comes_to_its_ends(&rt, rt.alloc(), meeting);
    }
}
