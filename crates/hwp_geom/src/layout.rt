ghost use Rattle.std.specs.Prelude.{◌≡◌, IfOk};
ghost use Rattle.hwp_geom.specs.Layout.{has_guests, is_guest, is_locked, twin_of};
ghost use Rattle.hwp_geom.specs.Limits.{cpu_limit, frame_limit, file_limit, process_limit, thread_limit, page_limit, translation_limit, command_limit};

use crate::OutOfMemory;
use crate::list::List;
use crate::numbers::{Cpu, FileNo, Page, Proc, VSlot};
use crate::version::Version;
use std::alloc::Global;

/// The most processors of a machine, in any version (this project's rule).
pub const MAX_CPUS: u8 = 16;
/// The most frames of a machine, in any version (this project's rule).
pub const MAX_FRAMES: u16 = 4096;
/// The most files of a script (this project's rule).
pub const MAX_FILES: u8 = 16;
/// The most processes of a script (this project's rule).
pub const MAX_PROCS: u8 = 16;
/// The most threads of a script (this project's rule).
pub const MAX_THREADS: u8 = 32;
/// The most pages of a script, in any version (this project's rule).
pub const MAX_PAGES: u16 = 4096;
/// The most translations of a script, in any version (this project's rule).
pub const MAX_TRANS: u16 = 4096;
/// The most commands of a script, over all processors (this project's rule).
pub const MAX_COMMANDS: u32 = 4096;

/// These are the limits that the definitions name.
fn limits()
    ensures cpus { MAX_CPUS ≡ cpu_limit }
    ensures frames { MAX_FRAMES ≡ frame_limit }
    ensures files { MAX_FILES ≡ file_limit }
    ensures procs { MAX_PROCS ≡ process_limit }
    ensures threads { MAX_THREADS ≡ thread_limit }
    ensures pages { MAX_PAGES ≡ page_limit }
    ensures trans { MAX_TRANS ≡ translation_limit }
    ensures commands { MAX_COMMANDS ≡ command_limit }
{}

/// What stands behind a page: nothing (anonymous memory), or a file whose words are all `fill` at opening.
#[derive(Clone, Copy, PartialEq, Eq)]
pub enum PageKind {
    Anon,
    File { file: FileNo, fill: u64 },
}

/// A thread: its process, the processor that runs it, and whether it has a SIGBUS handler (sigaction(2)).
#[derive(Clone, Copy)]
pub struct ThreadDecl {
    pub process: Proc,
    pub cpu: Cpu,
    pub handler: bool,
}

/// A translation: its process, and the page that it leads to.
#[derive(Clone, Copy)]
pub struct TransDecl {
    pub process: Proc,
    pub page: Page,
}

/// What a script declares of the machine. `kernel` has a value for each frame, `locked` one for each page: a locked page is never
/// dropped or swapped out on request. `recovery` and `early` are the settings `vm.memory_failure_recovery` and
/// `vm.memory_failure_early_kill` (Linux hwpoison.rst). `twins` has a value for each translation: the private one that stands for it
/// once it is stored through behind a fork (copy on write). `guests` has a value for each process: one that is a guest gets its machine
/// checks from its host.
#[derive(Drop)]
pub struct Layout {
    pub version: Version,
    pub cpus: u8,
    pub frames: u16,
    pub kernel: List<bool>,
    pub recovery: bool,
    pub early: bool,
    pub files: u8,
    pub procs: u8,
    pub threads: List<ThreadDecl>,
    pub pages: List<PageKind>,
    pub trans: List<TransDecl>,
    pub locked: List<bool>,
    pub twins: List<Option<VSlot>>,
    pub guests: List<bool>,
}

impl Layout {
    /// An equal layout.
    pub fn copy(&self, alloc: Global) -> Result<Layout, OutOfMemory>
        ensures { IfOk result (λ layout. layout ≡ self.now) }
    {
        Ok(Layout {
            version: self.version,
            cpus: self.cpus,
            frames: self.frames,
            kernel: self.kernel.copy(alloc)?,
            recovery: self.recovery,
            early: self.early,
            files: self.files,
            procs: self.procs,
            threads: self.threads.copy(alloc)?,
            pages: self.pages.copy(alloc)?,
            trans: self.trans.copy(alloc)?,
            locked: self.locked.copy(alloc)?,
            twins: self.twins.copy(alloc)?,
            guests: self.guests.copy(alloc)?,
        })
    }

    /// Whether the page is declared as locked.
    pub fn is_locked(&self, page: Page) -> bool
        ensures { result ≡ is_locked self.now page }
    {
        match self.locked.as_slice().get(usize::from(page.0)) {
            Some(locked) => *locked,
            None => false,
        }
    }

    /// Whether the process is a guest.
    pub fn is_guest(&self, process: Proc) -> bool
        ensures { result ≡ is_guest self.now process }
    {
        match self.guests.as_slice().get(usize::from(process.0)) {
            Some(guest) => *guest,
            None => false,
        }
    }

    /// Whether a process is a guest, whichever.
    pub fn has_guests(&self) -> bool
        ensures { result ≡ has_guests self.now }
    {
        self.guests.as_slice().iter().any(|guest| *guest)
    }

    /// The private twin of a translation, if it has one.
    pub fn twin_of(&self, slot: VSlot) -> Option<VSlot>
        ensures { result ≡ twin_of self.now slot }
    {
        match self.twins.as_slice().get(usize::from(slot.0)) {
            Some(twin) => *twin,
            None => None,
        }
    }
}
