ghost use Rattle.std.specs.Prelude.{◌≡◌, ◌<◌, ◌≤◌, ◌↔◌, ◌⊎◌, ◌++◌, [], false, min, take, drop, length, IfOk, OnOk, OnErr, IsErr, IsTrue, Some};
ghost use Rattle.std.specs.Io.{ReadsAtMost, WritesAtMost};
ghost use Rattle.std.specs.Io.KnownBytes.{ReadConsumes, WriteAppends};
ghost use Rattle.hwp_io.specs.Calls.{IsNextFailing, no_calls, counted, counted_failed};

use super::plan::FaultPlan;
use super::{Failed, Sink, Source};
use std::alloc::Global;
use std::marker::Model;

/// A source that gives bytes held in memory, and tells what it has left.
#[derive(Drop)]
pub struct MemSource {
    bytes: Vec<u8>,
    at: usize,
    plan: FaultPlan,
}

impl Model for MemSource {
    ghost use Rattle.std.specs.Prelude.{◌≤◌, drop, vec_len};
    ghost use Rattle.hwp_io.specs.Calls.{SourceState};

    ghost Value = { SourceState };

    ghost view = { λ s. record { left = drop s.at s.bytes.items; calls = s.plan } };

    ghost invariant = { λ s. s.at ≤ vec_len s.bytes };
}

impl MemSource {
    /// A source of these bytes, of which the reads numbered in `fail` fail. The first read has the
    /// number 1.
    pub fn new(bytes: Vec<u8>, fail: Vec<u64>) -> MemSource
        ensures { result ≡ record { left = bytes.items; calls = no_calls fail.items } }
    {
        MemSource {
            bytes,
            at: 0,
            plan: FaultPlan::new(fail),
        }
    }
}

impl Source for MemSource {
    ghost left = { λ s. Some s.left };

    ghost faults = { λ s. s.calls.failed };

    /// Gives as many bytes as are left and fit. It fails exactly where its number is listed.
    fn read(&mut self, buf: &mut [u8]) -> Result<usize, Failed>
        ensures bound { ReadsAtMost result buf.new }
        ensures bytes { ReadConsumes (Some self.old.left) (Some self.new.left) result buf.new }
        ensures later { self.old.calls.failed ≤ self.new.calls.failed }
        ensures quiet { OnOk result (self.new.calls.failed ≡ self.old.calls.failed) }
        ensures fault { OnErr result (self.old.calls.failed < self.new.calls.failed) }

        ensures listed { IsErr result ↔ IsNextFailing self.old.calls }
        ensures count { IfOk result (λ n. n ≡ min (length buf.new) (length self.old.left)) }
        ensures given { IfOk result (λ n.
            self.new ≡ record { left = drop n self.old.left; calls = counted self.old.calls }) }
        ensures failed { OnErr result
            (self.new ≡ record self.old { calls = counted_failed self.old.calls }) }
        ensures beyond { IfOk result (λ n. drop n buf.new ≡ drop n buf.old) }
        ensures untouched { OnErr result (buf.new ≡ buf.old) }
    {
        if self.plan.next_fails() {
            return Err(Failed);
        }
        let rest = &self.bytes[self.at..];
        let count = rest.len().min(buf.len());
        buf[..count].copy_from_slice(&rest[..count]);
        self.at += count;
        Ok(count)
    }
}

/// A sink that keeps what it took in memory, and tells it.
#[derive(Drop)]
pub struct MemSink {
    taken: Vec<u8>,
    take: usize,
    plan: FaultPlan,
    starved: bool,
}

impl Model for MemSink {
    ghost use Rattle.std.specs.Prelude.{◌<◌};
    ghost use Rattle.hwp_io.specs.Calls.{SinkState};

    ghost Value = { SinkState };

    ghost view = { λ s. record
        { taken = s.taken.items; take = s.take; calls = s.plan; starved = s.starved } };

    ghost invariant = { λ s. 0 < s.take };
}

impl MemSink {
    /// A sink that accepts at most `take` bytes a write, and fails the writes whose numbers (from 1)
    /// are in `fail`. It takes no memory until it is written to.
    pub fn new(alloc: Global, take: usize, fail: Vec<u64>) -> MemSink
        requires { 0 < take }
        ensures { result ≡ record
            { taken = []; take = take; calls = no_calls fail.items; starved = false } }
    {
        MemSink {
            taken: Vec::new(alloc),
            take,
            plan: FaultPlan::new(fail),
            starved: false,
        }
    }

    /// All bytes that it took.
    pub fn bytes(&self) -> &[u8]
        ensures { result.now ≡ self.now.taken }
    {
        self.taken.as_slice()
    }
}

impl Sink for MemSink {
    ghost taken = { λ s. Some s.taken };

    ghost faults = { λ s. s.calls.failed };

    /// Takes as many bytes as it may. It fails exactly where its number is listed, or where memory
    /// was refused to it, in this write or an earlier one.
    fn write(&mut self, buf: &[u8]) -> Result<usize, Failed>
        ensures bound { WritesAtMost result buf.now }
        ensures moves { 0 < length buf.now → IfOk result (λ n. 0 < n) }
        ensures bytes { WriteAppends (Some self.old.taken) (Some self.new.taken) result buf.now }
        ensures later { self.old.calls.failed ≤ self.new.calls.failed }
        ensures quiet { OnOk result (self.new.calls.failed ≡ self.old.calls.failed) }
        ensures fault { OnErr result (self.old.calls.failed < self.new.calls.failed) }

        ensures listed { IsErr result ↔ (IsNextFailing self.old.calls ⊎ IsTrue self.new.starved) }
        ensures starved { IsNextFailing self.old.calls → self.new.starved ≡ self.old.starved }
        ensures count { IfOk result (λ n. n ≡ min (length buf.now) self.old.take) }
        ensures appended { IfOk result (λ n. self.new ≡ record self.old
            { taken = self.old.taken ++ take n buf.now; calls = counted self.old.calls }) }
        ensures failed { OnErr result (self.new ≡ record self.old
            { calls = counted_failed self.old.calls; starved = self.new.starved }) }
    {
        if self.plan.next_fails() {
            return Err(Failed);
        }
        let count = buf.len().min(self.take);
        if self.starved || self.taken.extend_from_slice(&buf[..count]).is_err() {
            self.starved = true;
            self.plan.add_failure();
            return Err(Failed);
        }
        Ok(count)
    }
}
