ghost use Rattle.std.specs.Prelude.{◌≡◌, ◌<◌, ◌≤◌, true, drop, length, OnOk, OnErr};
ghost use Rattle.hwp_cpu_row.specs.Dues.{Covers, HasCollected, HasTaken, next_due, no_due, with_offlining};
ghost use Rattle.hwp_cpu_row.specs.Locals.{collects};

use crate::collect::collect;
use crate::local::Watching;
use crate::row::Offlining;
use hwp_claim::{Collector, EventOutcome, Frame, Layout, List, OutOfMemory};
use std::alloc::Global;
use std::marker::Model;
use std::mem;

/// The frames that are taken out of use beside a command, in order, and what came of the first of them. Clauses see the room for what
/// comes of the others beside it.
#[derive(Drop)]
pub struct DueFrames {
    frames: Vec<Frame>,
    offlined: Vec<Offlining>,
}

impl Model for DueFrames {
    ghost use Rattle.std.specs.Prelude.{◌-◌, vec_len, vec_capacity};
    ghost use Rattle.hwp_cpu_row.specs.Dues.{DueValue};

    ghost Value = { DueValue };

    ghost view = { λ d. record { frames = d.frames.items; offlined = d.offlined.items; spare = vec_capacity d.offlined - vec_len d.offlined } };
}

impl DueFrames {
    /// No frame is due.
    pub fn new(alloc: Global) -> DueFrames
        ensures { result ≡ no_due }
    {
        DueFrames {
            frames: Vec::new(alloc),
            offlined: Vec::new(alloc),
        }
    }

    /// The frame that comes next; `None` where all were taken out of use, or were to be.
    #[inline(always)]
    pub fn next(&self) -> Option<Frame>
        ensures { result ≡ next_due self.now }
    {
        self.frames.as_slice().get(self.offlined.len()).copied()
    }

    /// This came of the frame that comes next. It takes no memory.
    pub fn push(&mut self, offlining: Offlining)
        requires { 0 < self.old.spare }
        ensures { self.new ≡ with_offlining self.old offlining }
    {
        self.offlined.push_reserved(offlining);
    }

    /// The collector takes the notes of these events, and the frames that are due by them come last, with room for what comes of them.
    ///
    /// # Errors
    /// `OutOfMemory` where there is no room, and nothing changes.
    pub fn collect(
        &mut self,
        layout: &Layout,
        told: &[EventOutcome],
        collector: &mut Collector,
    ) -> Result<(), OutOfMemory>
        requires { layout.now.frames ≤ length collector.old.counts }
        ensures ok { OnOk result (HasCollected layout.now told.now self.old collector.old self.new collector.new) }
        ensures err { OnErr result (self.new ≡ self.old) }
        ensures untold { OnErr result (collector.new ≡ collector.old) }
    {
        self.frames.reserve(told.len())?;
        self.offlined.reserve(told.len())?;
        collect(layout, told, collector, &mut self.frames);
        Ok(())
    }

    /// What came of the frames. None is due any more.
    pub fn finish(&mut self, alloc: Global) -> List<Offlining>
        ensures list { result ≡ self.old.offlined }
        ensures none { self.new ≡ no_due }
    {
        let DueFrames { offlined, .. } = mem::replace(self, DueFrames::new(alloc));
        List::from_vec(offlined)
    }
}

/// The processor's collector takes the notes of what was told but for the first so many events, and the frames that are due by them come
/// last.
///
/// # Errors
/// `OutOfMemory` where there is no room, and nothing changes.
pub fn take_notes(
    layout: &Layout,
    told: &[EventOutcome],
    noted: usize,
    watching: &mut Option<Watching>,
    due: &mut DueFrames,
) -> Result<(), OutOfMemory>
    requires on { collects watching.old ≡ true }
    requires covered { Covers layout.now.frames watching.old }
    requires noted { noted ≤ length told.now }
    ensures ok { OnOk result (HasTaken layout.now (drop noted told.now) watching.old due.old watching.new due.new) }
    ensures err { OnErr result (watching.new ≡ watching.old) }
    ensures not_due { OnErr result (due.new ≡ due.old) }
{
    let (_, since) = told.split_at(noted);
    match watching {
        Some(watching) => {
            due.collect(layout, since, &mut watching.collector)?;
            Ok(())
        }
        None => unreachable!(),
    }
}
