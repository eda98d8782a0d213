ghost use Rattle.std.specs.Prelude.{◌≡◌, ◌↔◌, IsTrue, [], Contains, slice_get};
ghost use Rattle.hwp_script_lines.specs.hwp_geom.Limits.{cpu_limit_of, frame_limit_of, page_limit_of, translation_limit_of};
ghost use Rattle.hwp_script_read.specs.Context.{version_in};
ghost use Rattle.hwp_script_read.specs.Collects.{Collects};
ghost use Rattle.hwp_script_read.specs.Sums.{Sums};

use hwp_script_lines::{
    Command, Go, Layout, List, PageKind, Script, ScriptLine, ThreadDecl, TransDecl, VSlot, Version,
};
use std::alloc::Global;

/// The value at a place of a list, if it has one. A `match` on it is proved three times as fast as one on `get`.
pub(crate) fn at<T: Copy>(values: &[T], place: usize) -> Option<T>
    ensures { result ≡ slice_get values.now place }
{
    values.get(place).copied()
}

/// What the lines above a line declare.
#[derive(Drop)]
pub(crate) struct Summary {
    /// The highest group.
    pub group: u8,
    /// The version, which the header gives.
    pub version: Version,
    /// The number of processors, 0 before its line.
    pub cpus: u8,
    /// The number of frames, 0 before its line.
    pub frames: u16,
    /// For each frame, whether it is the kernel's.
    pub kernel: Vec<bool>,
    /// The setting `vm.memory_failure_recovery`, if its line is above.
    pub recovery: Option<bool>,
    /// The setting `vm.memory_failure_early_kill`, if its line is above.
    pub early: Option<bool>,
    pub files: u8,
    pub procs: u8,
    pub threads: List<ThreadDecl>,
    pub pages: List<PageKind>,
    /// For each page, whether it is locked.
    pub locked: List<bool>,
    pub trans: List<TransDecl>,
    /// For each translation its twin, if it has one.
    pub twins: Vec<Option<VSlot>>,
    /// For each process, whether it is a guest.
    pub guests: Vec<bool>,
    /// The processors whose lists have begun.
    pub begun: List<u64>,
    /// The processor in whose list the next line stands.
    pub place: Option<u64>,
    /// The number of commands.
    pub commands: u32,
    /// The commands of each processor.
    pub lists: Vec<List<Command>>,
    /// The words of the schedule.
    pub go: List<Go>,
}

impl Summary {
    /// The summary of no lines.
    pub(crate) fn new(alloc: Global) -> Summary
        ensures { Sums [] result }
    {
        Summary {
            group: 0,
            version: Version::One,
            cpus: 0,
            frames: 0,
            kernel: Vec::new(alloc),
            recovery: None,
            early: None,
            files: 0,
            procs: 0,
            threads: List::new(alloc),
            pages: List::new(alloc),
            locked: List::new(alloc),
            trans: List::new(alloc),
            twins: Vec::new(alloc),
            guests: Vec::new(alloc),
            begun: List::new(alloc),
            place: None,
            commands: 0,
            lists: Vec::new(alloc),
            go: List::new(alloc),
        }
    }

    /// Whether the lines are of version 1.
    pub(crate) fn is_first_version(&self, lines: &[ScriptLine]) -> bool
        requires { Sums lines.now self.now }
        ensures { IsTrue result ↔ (version_in lines.now ≡ Version.One) }
    {
        matches!(self.version, Version::One)
    }

    /// The most processors in the version of the lines.
    pub(crate) fn max_cpus(&self, lines: &[ScriptLine]) -> u64
        requires { Sums lines.now self.now }
        ensures { result ≡ cpu_limit_of (version_in lines.now) }
    {
        u64::from(self.version.max_cpus())
    }

    /// The most frames in the version of the lines.
    pub(crate) fn max_frames(&self, lines: &[ScriptLine]) -> u64
        requires { Sums lines.now self.now }
        ensures { result ≡ frame_limit_of (version_in lines.now) }
    {
        u64::from(self.version.max_frames())
    }

    /// The most pages in the version of the lines.
    pub(crate) fn max_pages(&self, lines: &[ScriptLine]) -> u64
        requires { Sums lines.now self.now }
        ensures { result ≡ page_limit_of (version_in lines.now) }
    {
        u64::from(self.version.max_pages())
    }

    /// The most translations in the version of the lines.
    pub(crate) fn max_trans(&self, lines: &[ScriptLine]) -> u64
        requires { Sums lines.now self.now }
        ensures { result ≡ translation_limit_of (version_in lines.now) }
    {
        u64::from(self.version.max_trans())
    }

    /// Whether a processor's list has begun.
    pub(crate) fn has_list(&self, cpu: u64) -> bool
        ensures { IsTrue result ↔ Contains self.now.begun cpu }
    {
        self.begun.as_slice().contains(&cpu)
    }

    /// The script that these lines give.
    pub(crate) fn into_script(self, lines: &[ScriptLine]) -> Script
        requires { Sums lines.now self }
        ensures { Collects lines.now result }
    {
        Script {
            layout: Layout {
                version: self.version,
                cpus: self.cpus,
                frames: self.frames,
                kernel: List::from_vec(self.kernel),
                recovery: self.recovery.unwrap_or(true),
                early: self.early.unwrap_or(false),
                files: self.files,
                procs: self.procs,
                threads: self.threads,
                pages: self.pages,
                trans: self.trans,
                locked: self.locked,
                twins: List::from_vec(self.twins),
                guests: List::from_vec(self.guests),
            },
            lists: List::from_vec(self.lists),
            go: self.go,
        }
    }
}
