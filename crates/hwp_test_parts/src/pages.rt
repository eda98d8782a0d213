//! A page of a file that was stored at, and fails: what its body allows, and what becomes of it.

use crate::checking::check;
use crate::machine::machine;
use hwp_core::{
    Body, Code, Cpu, Entry, Line, List, Mask, Page, PageState, Proc, Signal, Situation, Thread,
    VSlot, What, Who,
};
use hwp_page::Met;
use std::alloc::Global;
use std::process::Abort;
use std::sync::Arc;

/// A process with a page of a file, which is filled with 9.
const FILE_PAGE: &[u8] =
    b"hwp 1\ncpus 1\nframes 1\nfile 0\nproc 0\nthread 0 0 0 handler\npage 0 file 0 fill 9\ntrans 0 0 0\nend\n";

/// An entry of the processor's command 3.
fn entry(what: What) -> Entry {
    let who = Who {
        cpu: Cpu(0),
        seq: 3,
    };
    Entry { who, what }
}

/// Adds an entry, which is allowed.
fn add(rt: &impl Abort, body: &mut Body, what: What) {
    let entry = entry(what);
    body.room().expect(rt, "memory");
    assert!(rt; body.allowed(&entry));
    body.append(entry);
}

/// The page in a frame, with translation 0 in use, through which 70 was stored at line 2.
fn stored(rt: &impl Abort, alloc: Global) -> Body {
    let layout = machine(rt, alloc, FILE_PAGE);
    if layout.pages.len() == 0 {
        panic!(rt; "a page");
    }
    let layout = Arc::new(alloc, layout).expect(rt, "memory");
    let mut body = Body::new(alloc, &layout, Page(0)).expect(rt, "memory");
    let (slot, mask) = (VSlot(0), Mask(0));
    let line = Line::new(2).expect(rt, "a line");
    add(rt, &mut body, What::FaultIn);
    add(rt, &mut body, What::Map { slot });
    let met = Met::Word { mask, word: 70 };
    add(rt, &mut body, What::Store { slot, line, met });
    body
}

/// Its failure, of which thread 0 needs the data, and is signalled so.
fn failure(rt: &impl Abort, alloc: Global, situation: Situation) -> What {
    let thread = Thread(0);
    let signal = Signal {
        process: Proc(0),
        thread,
        code: Code::Ar,
        slot: VSlot(0),
    };
    let signals = [signal].to_vec(alloc).expect(rt, "memory");
    What::Fail {
        situation,
        required: Some(thread),
        seen: List::new(alloc),
        signals: List::from_vec(signals),
    }
}

/// Each line has the fill of the file, translation 0 alone has a poison entry, and the page is in no frame.
fn is_lost(rt: &impl Abort, state: &PageState) -> bool {
    for number in 0..64 {
        let line = Line::new(number).expect(rt, "a line");
        if state.val.get(line) != 9 {
            return false;
        }
    }
    let barred = state.bar.has(VSlot(0)) & state.bar.lowest_from(VSlot(1)).is_none();
    let unmapped = state.maps.lowest_from(VSlot(0)).is_none();
    barred & unmapped & !state.dirty & !state.cached
}

#[test]
fn a_page_of_a_file_that_was_stored_at_fails_as_a_dirty_one(rt: HostRuntime) {
    let alloc = rt.alloc();
    let mut body = stored(&rt, alloc);
    let clean = failure(&rt, alloc, Situation::FileClean);
    check(&rt, !body.allowed(&entry(clean)));
    add(&rt, &mut body, failure(&rt, alloc, Situation::FileDirty));
    check(&rt, is_lost(&rt, body.state()));
}
