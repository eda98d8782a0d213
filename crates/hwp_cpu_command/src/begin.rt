ghost use Rattle.std.specs.Prelude.{◌≡◌, ◌<◌, ℕ, Bool, true, false, List, None, Some, length, IsSome};
ghost use Rattle.hwp_cpu_control.specs.hwp_geom.Layout.{IsSound};
ghost use Rattle.hwp_cpu_control.specs.hwp_geom.Limits.{line_limit};
ghost use Rattle.hwp_cpu_control.specs.hwp_page.Step.{IsOf};
ghost use Rattle.hwp_cpu_access.specs.hwp_fault.Accesses.{IsDeclared};
ghost use Rattle.hwp_cpu_row.specs.hwp_script_words.Valid.{IsAccess, IsCommandOf, IsThreadOf};
ghost use Rattle.hwp_cpu_row.specs.hwp_banks.Banks.{Banks, empty_banks, raw_event};
ghost use Rattle.hwp_cpu_row.specs.Locals.{collects, number_in};
ghost use Rattle.hwp_cpu_row.specs.hwp_law.Commands.{access_of, process_of_thread};
ghost use Rattle.hwp_cpu_row.specs.hwp_law.Settings.{arguments};
ghost use Rattle.hwp_scrub.specs.Scrubs as scrubs;
ghost use Rattle.hwp_evict.specs.Fsyncs as fsyncs;
ghost use Rattle.hwp_scrub.specs.declared.LocalChange.TheVariants as changes;
ghost use Rattle.hwp_scrub.specs.Logs as logs;
ghost use Rattle.hwp_cpu_command.specs.Begins.{Begins, BeginsAs, BeginsCopy, BeginsFork, BeginsLine, BeginsPrctl, BeginsRaiseUser, BeginsWith, CanCopy, CanCopyFrom, CanDeny, IsDeniedAnyhow, access_in, is_rare, line_access, request_of};
ghost use Rattle.hwp_cpu_command.specs.FileHandles.{HasHandle, local_left};
ghost use Rattle.hwp_cpu_command.specs.Jobs.{left_in};
ghost use Rattle.hwp_cpu_command.specs.declared.job.Job.TheVariants as jobs;

use crate::job::Job;
use hwp_cpu_access::{AccessKind, Copying, Instruction, Request};
use hwp_cpu_control::{Denial, Denied, Fork, Nested, Prctl, Spoil, Targets};
use hwp_cpu_row::{
    Admit, BANKS, Bank, Command, Event, Handles, Inject, Local, McgBits, Origin, PrctlArgs, Status,
    Watching, no_events,
};
use hwp_evict::{
    Damage, Evict, FileNo, Frame, Fsync, Layout, Line, Mode, Page, Proc, Thread, VSlot, Who,
};
use hwp_scrub::{LocalChange, Log, Raise, Raiser, Scrub};
use hwp_soft::{Soft, Unpoison};
use std::alloc::Global;
use std::mem;

impl Job {
    /// The command at its beginning, in place of the one that is there, which is let go: what it carries lies where the other one lay. One that
    /// can log or raise an event takes what the banks of its processor hold, and an `fsync` or an `open` gets the number of the processor's
    /// handle of the file. A store copies the page of the translation `copies` first, where there is one. An access that its guest doesn't
    /// admit does nothing, and is answered so.
    pub fn begin_next(
        &mut self,
        alloc: Global,
        layout: &Layout,
        who: Who,
        command: Command,
        copies: Option<VSlot>,
        admit: Admit,
        local: &mut Local,
    )
        requires sound { IsSound layout.now }
        requires of { IsCommandOf layout.now who.cpu.0 command }
        requires copies { CanCopy layout.now who.cpu.0 command copies }
        requires denied { CanDeny command admit }
        ensures begins { BeginsWith layout.now who command copies admit local.old.banks (collects local.old.watching) self.new }
        ensures handle { HasHandle local.old.handles self.new }
        ensures local { local.new ≡ local_left self.new local.old }
    {
        match admit {
            Admit::Yes => self.begin_own(alloc, layout, who, command, copies, local),
            Admit::Bad => deny(layout, who, &command, Denial::BadFrame, self),
            Admit::Stopped => deny(layout, who, &command, Denial::Stopped, self),
        }
    }

    /// The same of a command that no guest denies.
    fn begin_own(
        &mut self,
        alloc: Global,
        layout: &Layout,
        who: Who,
        command: Command,
        copies: Option<VSlot>,
        local: &mut Local,
    )
        requires sound { IsSound layout.now }
        requires of { IsCommandOf layout.now who.cpu.0 command }
        requires copies { CanCopy layout.now who.cpu.0 command copies }
        ensures begins { BeginsAs layout.now who command copies local.old.banks (collects local.old.watching) self.new }
        ensures handle { HasHandle local.old.handles self.new }
        ensures local { local.new ≡ local_left self.new local.old }
    {
        let collects = collects(&local.watching);
        let banks = &mut local.banks;
        match copies {
            Some(from) => copy(alloc, layout, who, &command, from, collects, banks, self),
            None => match access_in(&command) {
                Some(at) => access(alloc, layout, who, at, collects, banks, self),
                None => begin_other(alloc, layout, who, &command, banks, &local.handles, self),
            },
        }
    }
}

/// Whether a processor with this collector, if it has one, collects corrected errors.
fn collects(watching: &Option<Watching>) -> bool
    ensures { result ≡ collects watching.now }
{
    match watching {
        Some(watching) => watching.on,
        None => false,
    }
}

/// An access that its guest doesn't admit, at its beginning, which leaves the banks as they are.
fn deny(layout: &Layout, who: Who, command: &Command, why: Denial, job: &mut Job)
    requires sound { IsSound layout.now }
    requires of { IsCommandOf layout.now who.cpu.0 command.now }
    requires access { IsSome (access_of command.now) }
    ensures begins { IsDeniedAnyhow layout.now who command.now why job.new }
    ensures handle { (handles : List ℕ) → HasHandle handles job.new }
    ensures banks { (banks : Banks) → left_in job.new banks ≡ banks }
{
    let Some(at) = access_in(command) else {
        unreachable!();
    };
    let process = process_of(layout, at.thread);
    set(job, Job::Denied(Denied::new(who, process, why)));
}

/// The process of a thread.
fn process_of(layout: &Layout, thread: Thread) -> Proc
    requires sound { IsSound layout.now }
    requires declared { thread.0 < length layout.now.threads }
    ensures process { process_of_thread layout.now thread ≡ Some result }
    ensures within { result.0 < layout.now.procs }
{
    layout.threads.as_slice()[usize::from(thread.0)].process
}

/// A store that copies the page of a translation first, at its beginning, which takes what the banks hold.
fn copy(
    alloc: Global,
    layout: &Layout,
    who: Who,
    command: &Command,
    from: VSlot,
    collects: bool,
    banks: &mut [Bank; BANKS],
    job: &mut Job,
)
    requires sound { IsSound layout.now }
    requires of { IsCommandOf layout.now who.cpu.0 command.now }
    requires copies { CanCopyFrom layout.now who.cpu.0 command.now from }
    ensures begins { BeginsCopy layout.now who command.now from banks.old collects job.new }
    ensures handle { (handles : List ℕ) → HasHandle handles job.new }
    ensures banks { banks.new ≡ left_in job.new banks.old }
{
    let Command::Store {
        thread,
        slot,
        line,
        word,
    } = *command
    else {
        unreachable!();
    };
    let store = request(layout, who, thread, slot, line, AccessKind::Store { word });
    let page = page_of(layout, from);
    set(
        job,
        Job::Copying(Copying::new(alloc, store, word, from, page, taken(banks), collects)),
    );
}

/// A command that is no access, at its beginning, in place of the one that is there. It doesn't ask whether its processor collects corrected
/// errors.
fn begin_other(
    alloc: Global,
    layout: &Layout,
    who: Who,
    command: &Command,
    banks: &mut [Bank; BANKS],
    handles: &Handles,
    job: &mut Job,
)
    requires sound { IsSound layout.now }
    requires of { IsCommandOf layout.now who.cpu.0 command.now }
    requires other { access_in command.now ≡ None }
    ensures begins { (collects : Bool) → Begins layout.now who command.now banks.old collects job.new }
    ensures handle { HasHandle handles.now job.new }
    ensures banks { banks.new ≡ left_in job.new banks.old }
{
    match *command {
        Command::Load { .. } | Command::Fetch { .. } => unreachable!(),
        Command::KLoad { .. } | Command::Store { .. } => unreachable!(),
        Command::Free { slot } => {
            let page = page_of(layout, slot);
            set(job, Job::Evict(Evict::free_slot(who, slot, page)))
        }
        Command::Drop { page } => set(job, Job::Evict(Evict::drop_page(who, page))),
        Command::Sync { page } => set(job, Job::Evict(Evict::sync_page(who, page))),
        Command::Out { page } => set(job, Job::Evict(Evict::out_page(who, page))),
        Command::Fsync { file } => set(job, Job::Fsync(ask(who, file, handles, false))),
        Command::Open { file } => set(job, Job::Fsync(ask(who, file, handles, true))),
        Command::Bad { frame, line } => set(
            job,
            Job::Spoil(Spoil::new(who, frame, line, Damage::Bad)),
        ),
        Command::Weak { frame, line } => set(
            job,
            Job::Spoil(Spoil::new(who, frame, line, Damage::Weak)),
        ),
        Command::Inject { frame } => set(job, Job::Inject(Inject::new(alloc, who, frame))),
        Command::Soft { frame } => set(job, Job::Soft(Soft::new(who, frame))),
        _ => begin_rare(alloc, layout, who, command, banks, job),
    }
}

/// The same of a command that comes seldom. The room for such a task is cleared where this function begins, so it stands apart.
fn begin_rare(
    alloc: Global,
    layout: &Layout,
    who: Who,
    command: &Command,
    banks: &mut [Bank; BANKS],
    job: &mut Job,
)
    requires sound { IsSound layout.now }
    requires of { IsCommandOf layout.now who.cpu.0 command.now }
    requires rare { is_rare command.now ≡ true }
    ensures begins { (collects : Bool) → Begins layout.now who command.now banks.old collects job.new }
    ensures handle { (handles : List ℕ) → HasHandle handles job.new }
    ensures banks { banks.new ≡ left_in job.new banks.old }
{
    match *command {
        Command::Prctl { thread, args } => set(job, Job::Prctl(call(layout, who, thread, args))),
        Command::Fork { thread, process } => {
            set(job, Job::Fork(fork(layout, who, thread, process)))
        }
        Command::Scrub { first, last } => {
            set(job, Job::Scrub(scrub(alloc, who, first, last, banks)))
        }
        Command::Log { status, addr, misc } => {
            set(job, Job::Log(log(who, status, addr, misc, banks)))
        }
        Command::Watch { threshold, window } => {
            set(job, Job::Log(watch(who, threshold, window, banks)))
        }
        Command::Unpoison { frame } => set(job, Job::Unpoison(Unpoison::new(who, frame))),
        Command::RaiseUser { thread, ripv, eipv } => {
            let mcg = McgBits { ripv, eipv };
            set(
                job,
                Job::Raise(raise_user(alloc, layout, who, thread, mcg, banks)),
            )
        }
        Command::RaiseKernel { ripv, eipv } => {
            let mcg = McgBits { ripv, eipv };
            set(
                job,
                Job::Raise(Raise::new(alloc, who, None, mcg, taken(banks))),
            )
        }
        Command::RaiseNested => set(job, Job::Nested(Nested::new(who))),
        _ => unreachable!(),
    }
}

/// A machine check by a thread of the processor, at its beginning, which takes what the banks hold.
fn raise_user(
    alloc: Global,
    layout: &Layout,
    who: Who,
    thread: Thread,
    mcg: McgBits,
    banks: &mut [Bank; BANKS],
) -> Raise
    requires sound { IsSound layout.now }
    requires of { IsThreadOf layout.now who.cpu.0 thread }
    ensures begins { BeginsRaiseUser layout.now who thread mcg banks.old (jobs.Raise result) }
    ensures banks { banks.new ≡ empty_banks }
{
    let decl = layout.threads.as_slice()[usize::from(thread.0)];
    let raiser = Raiser {
        thread,
        process: decl.process,
    };
    Raise::new(alloc, who, Some(raiser), mcg, taken(banks))
}

/// Puts the value in the place, and lets go of the one before it there. A call of `assign` for a job proves how a job is laid out, so there
/// is one such call, here.
#[inline(always)]
fn set(place: &mut Job, value: Job)
    ensures { place.new ≡ value }
{
    assign(place, value);
}

/// The same of a value of any type. An assignment in a function that knows the type lets go of its parts one by one.
#[inline(always)]
fn assign<T: Drop>(place: &mut T, value: T)
    ensures { place.new ≡ value }
{
    *place = value;
}

/// A scrub at its beginning, which takes what the banks hold.
fn scrub(alloc: Global, who: Who, first: Frame, last: Frame, banks: &mut [Bank; BANKS]) -> Scrub
    ensures begins { result ≡ scrubs.begin alloc who first last banks.old }
    ensures banks { banks.new ≡ empty_banks }
{
    Scrub::new(alloc, who, first, last, taken(banks))
}

/// What the banks hold, which leaves them empty.
fn taken(banks: &mut [Bank; BANKS]) -> [Bank; BANKS]
    ensures held { result ≡ banks.old }
    ensures empty { banks.new ≡ empty_banks }
{
    mem::replace(banks, no_events())
}

/// An `fsync` at its beginning, or where it opens the handle an `open`, with the number of the processor's handle of the file.
fn ask(who: Who, file: FileNo, handles: &Handles, opens: bool) -> Fsync
    ensures { result ≡ fsyncs.begin who file (number_in handles.now file) opens }
{
    Fsync::new(who, file, handles.number(file), opens)
}

/// The page that a translation leads to.
fn page_of(layout: &Layout, slot: VSlot) -> Page
    requires sound { IsSound layout.now }
    requires inside { slot.0 < length layout.now.trans }
    ensures of { IsOf layout.now result slot }
    ensures inside { result.0 < length layout.now.pages }
{
    layout.trans.as_slice()[usize::from(slot.0)].page
}

/// What an access by a thread of the processor asks for.
fn request(
    layout: &Layout,
    who: Who,
    thread: Thread,
    slot: VSlot,
    line: Line,
    kind: AccessKind,
) -> Request
    requires sound { IsSound layout.now }
    requires of { IsAccess layout.now who.cpu.0 thread slot }
    requires line { line < line_limit }
    ensures asked { result ≡ request_of who thread slot line kind result.page result.process }
    ensures names { IsDeclared layout.now result }
{
    let decl = layout.trans.as_slice()[usize::from(slot.0)];
    Request {
        who,
        thread,
        slot,
        line,
        kind,
        page: decl.page,
        process: decl.process,
    }
}

/// How a command accesses a line.
#[derive(Clone, Copy)]
struct Manner {
    kind: AccessKind,
    /// What makes the machine log its own event where the line is bad.
    origin: Origin,
    mode: Mode,
}

/// A load of data by the program.
const LOAD: Manner = Manner {
    kind: AccessKind::Load,
    origin: Origin::Access,
    mode: Mode::User,
};

/// A load of an instruction.
const FETCH: Manner = Manner {
    kind: AccessKind::Load,
    origin: Origin::Fetch,
    mode: Mode::User,
};

/// A load of data by the kernel.
const KERNEL_LOAD: Manner = Manner {
    kind: AccessKind::Load,
    origin: Origin::Access,
    mode: Mode::Kernel,
};

/// What an access asks for: by which thread, through which translation, at which line, and how.
#[derive(Clone, Copy)]
struct LineAccess {
    thread: Thread,
    slot: VSlot,
    line: Line,
    manner: Manner,
}

fn line_access(thread: Thread, slot: VSlot, line: Line, manner: Manner) -> LineAccess
    ensures { result ≡ line_access thread slot line manner }
{
    LineAccess {
        thread,
        slot,
        line,
        manner,
    }
}

/// What a command asks for, if it is an access.
fn access_in(command: &Command) -> Option<LineAccess>
    ensures { result ≡ access_in command.now }
{
    match *command {
        Command::Load { thread, slot, line } => Some(line_access(thread, slot, line, LOAD)),
        Command::Fetch { thread, slot, line } => Some(line_access(thread, slot, line, FETCH)),
        Command::KLoad { thread, slot, line } => Some(line_access(thread, slot, line, KERNEL_LOAD)),
        Command::Store {
            thread,
            slot,
            line,
            word,
        } => {
            let kind = AccessKind::Store { word };
            Some(line_access(thread, slot, line, Manner { kind, ..LOAD }))
        }
        _ => None,
    }
}

/// An access by a thread of the processor, at its beginning, which takes what the banks hold. Where an instruction ran before, it begins where
/// that one lies: to let go of that one whole, and to copy a whole job, costs nearly as much as a turn.
fn access(
    alloc: Global,
    layout: &Layout,
    who: Who,
    at: LineAccess,
    collects: bool,
    banks: &mut [Bank; BANKS],
    job: &mut Job,
)
    requires sound { IsSound layout.now }
    requires of { IsAccess layout.now who.cpu.0 at.thread at.slot }
    requires line { at.line < line_limit }
    ensures begins { BeginsLine layout.now who at banks.old collects job.new }
    ensures handle { (handles : List ℕ) → HasHandle handles job.new }
    ensures banks { banks.new ≡ left_in job.new banks.old }
{
    let Manner { kind, origin, mode } = at.manner;
    let request = request(layout, who, at.thread, at.slot, at.line, kind);
    let banks = taken(banks);
    match job {
        Job::Instruction(before) => {
            before.begin_next(alloc, request, origin, mode, banks, collects)
        }
        _ => set(
            job,
            Job::Instruction(Instruction::new(alloc, request, origin, mode, banks, collects)),
        ),
    }
}

/// An event of these registers is logged, at its beginning, which takes what the banks hold.
fn log(who: Who, status: u64, addr: u64, misc: u64, banks: &mut [Bank; BANKS]) -> Log
    ensures begins { result ≡ logs.begin who (changes.Event (raw_event status addr misc)) banks.old }
    ensures banks { banks.new ≡ empty_banks }
{
    let event = raw_event(status, addr, misc);
    Log::new(who, LocalChange::Event(event), taken(banks))
}

/// The processor gets a new collector, at its beginning, which takes what the banks hold.
fn watch(who: Who, threshold: u16, window: u8, banks: &mut [Bank; BANKS]) -> Log
    ensures begins { result ≡ logs.begin who (changes.Watch threshold window) banks.old }
    ensures banks { banks.new ≡ empty_banks }
{
    Log::new(who, LocalChange::Watch { threshold, window }, taken(banks))
}

/// A raw event of these registers.
fn raw_event(status: u64, addr: u64, misc: u64) -> Event
    ensures { result ≡ raw_event status addr misc }
{
    Event {
        status: Status(status),
        addr,
        misc,
    }
}

/// A call of prctl(2) by a thread of the processor, at its beginning.
fn call(layout: &Layout, who: Who, thread: Thread, args: PrctlArgs) -> Prctl
    requires sound { IsSound layout.now }
    requires of { IsThreadOf layout.now who.cpu.0 thread }
    ensures { BeginsPrctl layout.now who thread args (jobs.Prctl result) }
{
    let decl = layout.threads.as_slice()[usize::from(thread.0)];
    Prctl::new(who, thread, decl.process, arguments_of(args))
}

/// A fork by a thread of the processor, at its beginning.
fn fork(layout: &Layout, who: Who, thread: Thread, child: Proc) -> Fork
    requires sound { IsSound layout.now }
    requires of { IsThreadOf layout.now who.cpu.0 thread }
    ensures { BeginsFork layout.now who thread child (jobs.Fork result) }
{
    let decl = layout.threads.as_slice()[usize::from(thread.0)];
    let targets = Targets::of(layout, child);
    Fork::new(who, thread, decl.process, targets)
}

/// The five arguments of a prctl command in their order.
fn arguments_of(args: PrctlArgs) -> [u64; 5]
    ensures { result ≡ arguments args }
{
    [args.operation, args.arg2, args.arg3, args.arg4, args.arg5]
}
