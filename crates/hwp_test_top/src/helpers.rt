//! Calls of `top` and of `top_run` over memory, and what they left.

ghost use Rattle.std.specs.Prelude.{◌<◌};

use crate::checking::check;
use hwp_io::{MemSink, MemSource};
use hwp_top::{Gate, top, top_run};
use std::alloc::Global;
use std::process::Abort;
use std::sync::Wait;
use std::thread::Threads;

/// What a call left: whether it gave a report, and a table without translation caches, and one with them; its status, and both sinks.
#[derive(Drop)]
pub struct Left {
    pub reported: bool,
    pub ended: bool,
    pub tlb: bool,
    pub status: u8,
    pub out: MemSink,
    pub err: MemSink,
}

fn words_of(rt: &impl Abort, alloc: Global, words: &[&str]) -> Vec<String> {
    let mut list = Vec::new(alloc);
    for word in words {
        let word = String::from_str(alloc, word).expect(rt, "memory");
        list.push(word).expect(rt, "memory");
    }
    list
}

fn numbers_of(rt: &impl Abort, alloc: Global, numbers: &[u64]) -> Vec<u64> {
    numbers.to_vec(alloc).expect(rt, "memory")
}

fn source_of(rt: &impl Abort, alloc: Global, script: &[u8], read: &[u64]) -> MemSource {
    let script = script.to_vec(alloc).expect(rt, "memory");
    MemSource::new(script, numbers_of(rt, alloc, read))
}

/// A call of `top` over memory: the source fails at the read, the sink, which takes so many bytes a write, at the write, and the
/// error sink at the last of these.
pub fn call_untold(
    rt: &impl Abort,
    alloc: Global,
    words: &[&str],
    script: &[u8],
    read: &[u64],
    sink: (usize, &[u64]),
    untold: &[u64],
) -> Left
    requires { 0 < sink.0 }
{
    let list = words_of(rt, alloc, words);
    let mut src = source_of(rt, alloc, script, read);
    let mut out = MemSink::new(alloc, sink.0, numbers_of(rt, alloc, sink.1));
    let mut err = MemSink::new(alloc, 4096, numbers_of(rt, alloc, untold));
    let done = top(alloc, list.as_slice(), &mut src, &mut out, &mut err);
    Left {
        reported: matches!(done.report, Some(_)),
        ended: matches!(done.ended, Some(_)),
        tlb: matches!(done.tlb, Some(_)),
        status: done.status,
        out,
        err,
    }
}

/// The same with an error sink that doesn't fail.
pub fn call(
    rt: &impl Abort,
    alloc: Global,
    words: &[&str],
    script: &[u8],
    read: &[u64],
    sink: (usize, &[u64]),
) -> Left
    requires { 0 < sink.0 }
{
    call_untold(rt, alloc, words, script, read, sink, &[])
}

/// A call of `top_run`, whose processors pass this gate.
pub fn call_run<R: Abort + Threads + Wait + Sync>(
    rt: &R,
    alloc: Global,
    words: &[&str],
    script: &[u8],
    read: &[u64],
    sink: (usize, &[u64]),
    gate: &(impl Gate + Sync),
) -> Left
    requires { 0 < sink.0 }
{
    let list = words_of(rt, alloc, words);
    let mut src = source_of(rt, alloc, script, read);
    let mut out = MemSink::new(alloc, sink.0, numbers_of(rt, alloc, sink.1));
    let mut err = MemSink::new(alloc, 4096, Vec::new(alloc));
    let done = top_run(
        rt,
        alloc,
        list.as_slice(),
        &mut src,
        &mut out,
        &mut err,
        gate,
    );
    Left {
        reported: matches!(done.report, Some(_)),
        ended: matches!(done.ended, Some(_)),
        tlb: matches!(done.tlb, Some(_)),
        status: done.status,
        out,
        err,
    }
}

/// What `step` leaves of a script, with nothing that fails: a report.
pub fn report_of(rt: &impl Abort, alloc: Global, script: &[u8]) -> Left {
    let left = call(rt, alloc, &["step"], script, &[], (4096, &[]));
    check(rt, left.reported);
    left
}

/// The call gave a table without translation caches or not, and one with them or not.
pub fn has_tables(rt: &impl Abort, left: &Left, ended: bool, tlb: bool) {
    check(rt, (left.ended == ended) & (left.tlb == tlb));
}

/// The call gave a report or not, ended with the status, and left these bytes on `out` and on `err`. What it left is let go here.
pub fn leaves(rt: &impl Abort, left: Left, reported: bool, status: u8, out: &[u8], err: &[u8]) {
    let ended = (left.reported == reported) & (left.status == status);
    check(
        rt,
        ended & (left.out.bytes() == out) & (left.err.bytes() == err),
    );
}
