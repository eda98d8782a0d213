//! References given back, and a page let go: the steps, and what they come to.

use crate::checking::check;
use crate::machine::machine;
use hwp_core::{
    Body, Cpu, Frame, Kind, POISON, Page, REFERENCE, Release, ReleaseAnswer, Task, Unhold,
    UnholdAnswer, Who,
};
use std::alloc::Global;
use std::process::Abort;
use std::sync::Arc;

/// A process with an anonymous page.
const ONE_PAGE: &[u8] =
    b"hwp 1\ncpus 1\nframes 1\nproc 0\nthread 0 0 0 handler\npage 0 anon\ntrans 0 0 0\nend\n";

/// The processor's first command.
const FIRST: Who = Who {
    cpu: Cpu(0),
    seq: 0,
};

/// The kinds of the steps, each with the word that it shows.
type Steps<'a> = &'a [(Kind, u64)];

/// Two references to frame 0 are given back by these steps.
fn given_back(rt: &impl Abort, alloc: Global, steps: Steps) -> Option<ReleaseAnswer> {
    let layout = machine(rt, alloc, ONE_PAGE);
    let mut release = Release::new(FIRST, Frame(0), 2);
    for (kind, found) in steps {
        check(rt, release.answer().is_none());
        let step = release.plan().expect(rt, "a step");
        check(rt, step.kind() == Some(*kind));
        let _turn = release.settle(&layout, *found, None);
    }
    check(rt, release.plan().is_none());
    release.answer()
}

/// Page 0 is let go by these steps, with this frame and two references to it.
fn let_go(
    rt: &impl Abort,
    alloc: Global,
    frame: Option<Frame>,
    steps: Steps,
) -> Option<UnholdAnswer> {
    let layout = machine(rt, alloc, ONE_PAGE);
    if layout.pages.len() == 0 {
        panic!(rt; "a page");
    }
    let layout = Arc::new(alloc, layout).expect(rt, "memory");
    let body = Body::new(alloc, &layout, Page(0)).expect(rt, "memory");
    let mut unhold = Unhold::new(FIRST, Page(0), frame, 2, body);
    for (kind, found) in steps {
        check(rt, unhold.answer().is_none());
        let step = unhold.plan().expect(rt, "a step");
        check(rt, step.kind() == Some(*kind));
        drop(unhold.give());
        let _turn = unhold.settle(&layout, *found, None);
    }
    check(rt, unhold.plan().is_none());
    unhold.answer()
}

fn is_done(answer: Option<ReleaseAnswer>) -> bool {
    matches!(answer, Some(ReleaseAnswer::Done))
}

const LAST_OF_A_POISONED: Steps = &[
    (Kind::PutRef, 2 * REFERENCE + POISON),
    (Kind::Adopt, POISON),
    (Kind::Retire, REFERENCE + POISON),
];

const OTHERS_OF_A_POISONED: Steps = &[(Kind::PutRef, 3 * REFERENCE + POISON)];

const LAST_OF_A_SOUND: Steps = &[
    (Kind::PutRef, 2 * REFERENCE),
    (Kind::GiveBit, 0),
    (Kind::Unreserve, 0),
];

const OTHERS_OF_A_SOUND: Steps = &[(Kind::PutRef, 3 * REFERENCE)];

#[test]
fn the_last_references_to_a_poisoned_frame_retire_it(rt: HostRuntime) {
    let alloc = rt.alloc();
    let retired = given_back(&rt, alloc, LAST_OF_A_POISONED);
    check(&rt, matches!(retired, Some(ReleaseAnswer::Retired)));
    check(&rt, is_done(given_back(&rt, alloc, OTHERS_OF_A_POISONED)));
    check(&rt, is_done(given_back(&rt, alloc, LAST_OF_A_SOUND)));
    check(&rt, is_done(given_back(&rt, alloc, OTHERS_OF_A_SOUND)));
}

const WITH_ITS_FRAME: Steps = &[
    (Kind::UnlockFrame, 2 * REFERENCE + POISON),
    (Kind::PutRef, 2 * REFERENCE + POISON),
    (Kind::Adopt, POISON),
    (Kind::Retire, REFERENCE + POISON),
    (Kind::UnlockPage, 1),
];

#[test]
fn a_page_is_let_go_with_its_frame_or_without_one(rt: HostRuntime) {
    let alloc = rt.alloc();
    let answer = let_go(&rt, alloc, Some(Frame(0)), WITH_ITS_FRAME);
    check(&rt, matches!(answer, Some(UnholdAnswer::Done)));
    let answer = let_go(&rt, alloc, None, &[(Kind::UnlockPage, 1)]);
    check(&rt, matches!(answer, Some(UnholdAnswer::Done)));
}
