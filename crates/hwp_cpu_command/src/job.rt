ghost use Rattle.std.specs.Prelude.{◌≡◌, option_and_then, option_map};

use hwp_cpu_access::{Copying, Instruction, InstructionAnswer};
use hwp_cpu_control::{
    Denial, Denied, DeniedAnswer, Fork, ForkAnswer, Nested, NestedAnswer, Prctl, PrctlAnswer,
    ReadStopAnswer, Spoil, SpoilAnswer,
};
use hwp_cpu_row::{
    Answer, EventOutcome, FailAnswer, FrameChange, Inject, Local, Offlining, Row, Watching,
};
use hwp_evict::{
    At, Body, Evict, EvictAnswer, Frame, Fsync, FsyncAnswer, Layout, List, Outcome, Ranked,
    Refusal, Reply, Scheduled, Step, Task, Turn, Who,
};
use hwp_scrub::{LocalChange, Log, Raise, RaiseAnswer, Scrub, ScrubAnswer};
use hwp_soft::{Soft, SoftAnswer, Unpoison, UnpoisonAnswer};
use std::alloc::Global;

/// A command of a fault script that runs.
pub enum Job {
    /// A load, a fetch, a load in kernel mode or a store.
    Instruction(Instruction),
    /// A store that copies a page first.
    Copying(Copying),
    /// A command by which a page, or a part of it, leaves its frame.
    Evict(Evict),
    /// An `fsync`: what the processor's handle of a file hasn't seen of its losses; or an `open`: all of them.
    Fsync(Fsync),
    /// A call of prctl(2).
    Prctl(Prctl),
    /// A fork.
    Fork(Fork),
    /// A raw event is logged, or the processor gets a new collector.
    Log(Log),
    /// A machine check is raised.
    Raise(Raise),
    /// Frames are scrubbed.
    Scrub(Scrub),
    /// A line of a frame goes bad, or gets weak.
    Spoil(Spoil),
    /// A machine check inside a machine check.
    Nested(Nested),
    /// A failure of a frame.
    Inject(Inject),
    /// A frame is taken out of use.
    Soft(Soft),
    /// A frame's poison is taken back.
    Unpoison(Unpoison),
    /// An access that its guest doesn't admit.
    Denied(Denied),
}

impl Job {
    ghost use Rattle.hwp_cpu_command.specs.FileHandles.{HasChangeWithin, StandsOn, local_after};
    ghost use Rattle.hwp_cpu_command.specs.Jobs.{answer, give_up, resume, row_of, told_of};

    /// What the command answers; `None` until it is over, and where it gave up because memory ran out. Most turns are of an access: what any
    /// other kind needs room for stands in a function of its own.
    #[inline(always)]
    pub fn answer(&self) -> Option<Answer>
        ensures { result ≡ answer self.now }
    {
        match self {
            Job::Instruction(instruction) => match instruction.answer() {
                Some(answer) => Some(instruction_answer(answer)),
                None => None,
            },
            _ => self.answer_of_kind(),
        }
    }

    /// The same of a command of any kind.
    #[inline(never)]
    fn answer_of_kind(&self) -> Option<Answer>
        ensures { result ≡ answer self.now }
    {
        match self {
            Job::Instruction(instruction) => match instruction.answer() {
                Some(answer) => Some(instruction_answer(answer)),
                None => None,
            },
            Job::Copying(copying) => match copying.answer() {
                Some(answer) => Some(instruction_answer(answer)),
                None => None,
            },
            Job::Evict(evict) => evict.answer().map(evict_answer),
            Job::Fsync(fsync) => fsync.answer().map(fsync_answer),
            Job::Prctl(prctl) => prctl.answer().map(prctl_answer),
            Job::Fork(fork) => fork.answer().map(fork_answer),
            Job::Log(log) => log.answer().map(read_stop_answer),
            Job::Raise(raise) => match raise.answer() {
                Some(answer) => Some(raise_answer(raise.told().len(), answer)),
                None => None,
            },
            Job::Scrub(scrub) => match scrub.answer() {
                Some(answer) => Some(scrub_answer(scrub.told().len(), answer)),
                None => None,
            },
            Job::Spoil(spoil) => spoil.answer().map(spoil_answer),
            Job::Nested(nested) => nested.answer().map(nested_answer),
            Job::Inject(inject) => inject.answer().map(fail_answer),
            Job::Soft(soft) => soft.answer().map(soft_answer),
            Job::Unpoison(unpoison) => unpoison.answer().map(unpoison_answer),
            Job::Denied(denied) => match denied.answer() {
                Some(answer) => Some(denied_answer(denied.why(), answer)),
                None => None,
            },
        }
    }

    /// What was done about the events of its machine checks so far, in order.
    pub fn told(&self) -> &[EventOutcome]
        ensures { result.now ≡ told_of self.now }
    {
        match self {
            Job::Instruction(instruction) => instruction.told(),
            Job::Copying(copying) => copying.told(),
            Job::Raise(raise) => raise.told(),
            Job::Scrub(scrub) => scrub.told(),
            Job::Evict(_)
            | Job::Fsync(_)
            | Job::Prctl(_)
            | Job::Fork(_)
            | Job::Log(_)
            | Job::Spoil(_)
            | Job::Nested(_)
            | Job::Inject(_)
            | Job::Soft(_)
            | Job::Unpoison(_)
            | Job::Denied(_) => &[],
        }
    }

    /// Goes on behind its pause. Where it doesn't pause nothing changes.
    pub fn resume(&mut self)
        ensures { self.new ≡ resume self.old }
    {
        match self {
            Job::Instruction(instruction) => instruction.resume(),
            Job::Copying(copying) => copying.resume(),
            Job::Evict(_)
            | Job::Fsync(_)
            | Job::Prctl(_)
            | Job::Fork(_)
            | Job::Log(_)
            | Job::Raise(_)
            | Job::Scrub(_)
            | Job::Spoil(_)
            | Job::Nested(_)
            | Job::Inject(_)
            | Job::Soft(_)
            | Job::Unpoison(_)
            | Job::Denied(_) => {}
        }
    }

    /// Its next step gives it up, where it can have event lines: memory ran out.
    pub fn give_up(&mut self)
        ensures { self.new ≡ give_up self.old }
    {
        match self {
            Job::Instruction(instruction) => instruction.give_up(),
            Job::Copying(copying) => copying.give_up(),
            Job::Raise(raise) => raise.give_up(),
            Job::Scrub(scrub) => scrub.give_up(),
            Job::Evict(_)
            | Job::Fsync(_)
            | Job::Prctl(_)
            | Job::Fork(_)
            | Job::Log(_)
            | Job::Spoil(_)
            | Job::Nested(_)
            | Job::Inject(_)
            | Job::Soft(_)
            | Job::Unpoison(_)
            | Job::Denied(_) => {}
        }
    }

    /// The row of a command that is over, with this answer and these frames that were taken out of use beside it. The banks get back
    /// what the command took from them, and has left, and the handle of a file gets the number that the command saw. A `watch` that was
    /// done begins the collector anew, and a scrub that went to its end ends a round.
    pub fn finish(
        &mut self,
        alloc: Global,
        answer: Answer,
        offlined: List<Offlining>,
        local: &mut Local,
    ) -> Row
        requires within { HasChangeWithin self.old }
        ensures row { result ≡ row_of self.old answer offlined }
        ensures local { local.new ≡ local_after self.old answer local.old }
        ensures stands { StandsOn self.old answer local.old.watching }
    {
        match self {
            Job::Instruction(instruction) => {
                row(instruction.finish(&mut local.banks), offlined, None, answer)
            }
            Job::Copying(copying) => row(copying.finish(&mut local.banks), offlined, None, answer),
            Job::Raise(raise) => row(raise.finish(&mut local.banks), offlined, None, answer),
            Job::Scrub(scrub) => {
                end_round(answer, &mut local.watching);
                row(scrub.finish(&mut local.banks), offlined, None, answer)
            }
            Job::Log(log) => {
                watch(log.change(), answer, &mut local.watching);
                log.finish(&mut local.banks);
                row(List::new(alloc), offlined, None, answer)
            }
            Job::Fsync(fsync) => {
                local.handles.set(fsync.file(), fsync.number());
                row(List::new(alloc), offlined, None, answer)
            }
            Job::Inject(inject) => {
                let own = own_of(inject.frame(), inject.answer());
                row(List::new(alloc), offlined, own, answer)
            }
            Job::Soft(soft) => {
                let own = offlined_of(soft.frame(), soft.answer());
                row(List::new(alloc), offlined, own, answer)
            }
            Job::Unpoison(unpoison) => {
                let own = revived_of(unpoison.frame(), unpoison.answer());
                row(List::new(alloc), offlined, own, answer)
            }
            Job::Evict(_)
            | Job::Prctl(_)
            | Job::Fork(_)
            | Job::Spoil(_)
            | Job::Nested(_)
            | Job::Denied(_) => row(List::new(alloc), offlined, None, answer),
        }
    }
}

ghost use Rattle.hwp_cpu_command.specs.Answers.{denial_answer, denied_answer, evict_answer, fail_answer, fork_answer, fsync_answer, instruction_answer, nested_answer, prctl_answer, raise_answer, read_stop_answer, refusal_answer, scrub_answer, soft_answer, spoil_answer, unpoison_answer};
ghost use Rattle.hwp_cpu_command.specs.Jobs.{offlined_by, own_by, revived_by, row};
ghost use Rattle.hwp_cpu_row.specs.hwp_law.Outcomes.{outcome_answer, reply_answer};
ghost use Rattle.hwp_cpu_command.specs.FileHandles.{CanRound, IsChangeWithin, RoundStands, round_ended, rounded_by, watched_by};

fn row(
    told: List<EventOutcome>,
    offlined: List<Offlining>,
    own: Option<FrameChange>,
    answer: Answer,
) -> Row
    ensures { result ≡ row told offlined own answer }
{
    Row {
        told,
        offlined,
        own,
        guest: None,
        answer,
    }
}

/// A `watch` that was done begins the collector anew, and it collects from then on.
fn watch(change: LocalChange, answer: Answer, watching: &mut Option<Watching>)
    requires within { IsChangeWithin change }
    ensures { watching.new ≡ watched_by change answer watching.old }
{
    if let LocalChange::Watch { threshold, window } = change
        && let Answer::Done = answer
        && let Some(watching) = watching
    {
        watching.collector.restart(threshold, window);
        watching.on = true;
    }
}

/// A scrub that went to its end ends a round of the collector.
fn end_round(answer: Answer, watching: &mut Option<Watching>)
    ensures ends { watching.new ≡ rounded_by answer watching.old }
    ensures stands { RoundStands answer watching.old }
{
    if let Answer::Scrubbed(_lines) = answer {
        round(watching);
    }
}

/// A round of the collector ends, if there is one.
fn round(watching: &mut Option<Watching>)
    ensures ends { watching.new ≡ option_map round_ended watching.old }
    ensures stands { CanRound watching.old }
{
    if let Some(watching) = watching {
        watching.collector.round();
    }
}

/// The report's answer for an access.
fn instruction_answer(answer: InstructionAnswer) -> Answer
    ensures { result ≡ instruction_answer answer }
{
    match answer {
        InstructionAnswer::Value { word, at } => Answer::Value { word, at },
        InstructionAnswer::Stored { at } => Answer::Stored(at),
        InstructionAnswer::Sigbus { at } => Answer::Sigbus(at),
        InstructionAnswer::NoFrame => Answer::NoFrame,
        InstructionAnswer::Gone { page } => Answer::Gone(page),
        InstructionAnswer::Stopped => Answer::Stopped,
    }
}

/// What it says of a page that was left as it was.
fn refusal_answer(refusal: Refusal, at: At) -> Answer
    ensures { result ≡ refusal_answer refusal at }
{
    match refusal {
        Refusal::NotMapped => Answer::NotMapped(at),
        Refusal::NotResident => Answer::NotResident(at),
        Refusal::Locked => Answer::Locked(at),
        Refusal::Dirty => Answer::Dirty(at),
        Refusal::Mapped => Answer::Mapped(at),
        Refusal::BadLines(mask) => Answer::BadLines(mask, at),
    }
}

/// What it says of a page, or a part of it, that was to leave its frame.
fn evict_answer(answer: EvictAnswer) -> Answer
    ensures { result ≡ evict_answer answer }
{
    match answer {
        EvictAnswer::Stopped => Answer::Stopped,
        EvictAnswer::Done(at) => Answer::DoneAt(at),
        EvictAnswer::Refused(refusal, at) => refusal_answer(refusal, at),
    }
}

/// What it says of the losses of a file.
fn fsync_answer(answer: FsyncAnswer) -> Answer
    ensures { result ≡ fsync_answer answer }
{
    match answer {
        FsyncAnswer::Stopped => Answer::Stopped,
        FsyncAnswer::Done => Answer::Done,
        FsyncAnswer::Eio(lost) => Answer::Eio(lost),
        FsyncAnswer::Opened(lost) => Answer::Opened(lost),
    }
}

/// What it says of a reply of prctl(2).
fn reply_answer(reply: Reply) -> Answer
    ensures { result ≡ reply_answer reply }
{
    match reply {
        Reply::Set(_) => Answer::Done,
        Reply::Is(policy) => Answer::Is(policy.number()),
        Reply::Einval => Answer::Einval,
    }
}

/// What it says of a call of prctl(2).
fn prctl_answer(answer: PrctlAnswer) -> Answer
    ensures { result ≡ prctl_answer answer }
{
    match answer {
        PrctlAnswer::Replied(reply) => reply_answer(reply),
        PrctlAnswer::Gone(page) => Answer::Gone(page),
        PrctlAnswer::Stopped => Answer::Stopped,
    }
}

/// What it says of a fork.
fn fork_answer(answer: ForkAnswer) -> Answer
    ensures { result ≡ fork_answer answer }
{
    match answer {
        ForkAnswer::Done(_) => Answer::Done,
        ForkAnswer::Gone(page) => Answer::Gone(page),
        ForkAnswer::Stopped => Answer::Stopped,
    }
}

/// What it says of a machine check, which has this many event lines.
fn raise_answer(lines: usize, answer: RaiseAnswer) -> Answer
    ensures { result ≡ raise_answer lines answer }
{
    match answer {
        RaiseAnswer::Raised => Answer::Raised(lines as u64),
        RaiseAnswer::Gone(page) => Answer::Gone(page),
        RaiseAnswer::Stopped => Answer::Stopped,
    }
}

/// What it says of a scrub, which has this many event lines.
fn scrub_answer(lines: usize, answer: ScrubAnswer) -> Answer
    ensures { result ≡ scrub_answer lines answer }
{
    match answer {
        ScrubAnswer::Scrubbed => Answer::Scrubbed(lines as u64),
        ScrubAnswer::Stopped => Answer::Stopped,
    }
}

/// What it says of damage to a line.
fn spoil_answer(answer: SpoilAnswer) -> Answer
    ensures { result ≡ spoil_answer answer }
{
    match answer {
        SpoilAnswer::Done => Answer::Done,
        SpoilAnswer::Stopped => Answer::Stopped,
    }
}

/// What it says of a command that else only looked whether the machine had stopped.
fn read_stop_answer(answer: ReadStopAnswer) -> Answer
    ensures { result ≡ read_stop_answer answer }
{
    match answer {
        ReadStopAnswer::Done => Answer::Done,
        ReadStopAnswer::Stopped => Answer::Stopped,
    }
}

/// What it says of a machine check inside a machine check.
fn nested_answer(answer: NestedAnswer) -> Answer
    ensures { result ≡ nested_answer answer }
{
    match answer {
        NestedAnswer::Shutdown | NestedAnswer::Stopped => Answer::Stopped,
    }
}

/// What it says of a memory failure.
fn fail_answer(answer: FailAnswer) -> Answer
    ensures { result ≡ fail_answer answer }
{
    match answer {
        FailAnswer::Stopped => Answer::Stopped,
        FailAnswer::Already => Answer::Already,
        FailAnswer::Done(found) => outcome_answer(found.situation.outcome()),
    }
}

/// What it says of a frame that was to be taken out of use.
fn soft_answer(answer: SoftAnswer) -> Answer
    ensures { result ≡ soft_answer answer }
{
    match answer {
        SoftAnswer::Stopped => Answer::Stopped,
        SoftAnswer::Kernel => Answer::Kernel,
        SoftAnswer::Already => Answer::Already,
        SoftAnswer::HasBad(mask) => Answer::HasBad(mask),
        SoftAnswer::NoFrame => Answer::NoFrame,
        SoftAnswer::TakenFree { .. } => Answer::TakenFree,
        SoftAnswer::Moved { frame, at, .. } => Answer::Moved(frame, at),
    }
}

/// What it says of a frame whose poison was to be taken back.
fn unpoison_answer(answer: UnpoisonAnswer) -> Answer
    ensures { result ≡ unpoison_answer answer }
{
    match answer {
        UnpoisonAnswer::Done { .. } => Answer::Done,
        UnpoisonAnswer::Stopped => Answer::Stopped,
        UnpoisonAnswer::NotPoisoned => Answer::NotPoisoned,
        UnpoisonAnswer::HardwareSeen => Answer::HardwareSeen,
        UnpoisonAnswer::HasBad(mask) => Answer::HasBad(mask),
        UnpoisonAnswer::InUse { count } => Answer::InUse(u64::from(count)),
    }
}

/// What it says of an access that its guest doesn't admit for this reason.
fn denied_answer(why: Denial, answer: DeniedAnswer) -> Answer
    ensures { result ≡ denied_answer why answer }
{
    match answer {
        DeniedAnswer::Denied => denial_answer(why),
        DeniedAnswer::Gone(page) => Answer::Gone(page),
        DeniedAnswer::Stopped => Answer::Stopped,
    }
}

/// What it says of such a reason.
fn denial_answer(why: Denial) -> Answer
    ensures { result ≡ denial_answer why }
{
    match why {
        Denial::BadFrame => Answer::GuestBad,
        Denial::Stopped => Answer::GuestStopped,
    }
}

/// What it says of the outcome of a memory failure.
fn outcome_answer(outcome: Outcome) -> Answer
    ensures { result ≡ outcome_answer outcome }
{
    match outcome {
        Outcome::Recovered => Answer::Recovered,
        Outcome::Delayed => Answer::Delayed,
        Outcome::Ignored => Answer::Ignored,
    }
}

/// What a failure did to its frame.
fn own_of(frame: Frame, answer: Option<FailAnswer>) -> Option<FrameChange>
    ensures { result ≡ own_by frame answer }
{
    match answer? {
        FailAnswer::Stopped | FailAnswer::Already => None,
        FailAnswer::Done(found) => Some(FrameChange::Failed { frame, found }),
    }
}

/// What a command that takes a frame out of use did to it.
pub fn offlined_by(frame: Frame, answer: SoftAnswer) -> Option<FrameChange>
    ensures { result ≡ offlined_by frame answer }
{
    match answer {
        SoftAnswer::Stopped
        | SoftAnswer::Kernel
        | SoftAnswer::Already
        | SoftAnswer::HasBad(_)
        | SoftAnswer::NoFrame => None,
        SoftAnswer::TakenFree { cycle } => Some(FrameChange::Offlined {
            frame,
            cycle,
            moved: false,
        }),
        SoftAnswer::Moved { cycle, .. } => Some(FrameChange::Offlined {
            frame,
            cycle,
            moved: true,
        }),
    }
}

fn offlined_of(frame: Frame, answer: Option<SoftAnswer>) -> Option<FrameChange>
    ensures { result ≡ option_and_then (offlined_by frame) answer }
{
    offlined_by(frame, answer?)
}

/// What a command that takes a frame's poison back did to it.
fn revived_by(frame: Frame, answer: UnpoisonAnswer) -> Option<FrameChange>
    ensures { result ≡ revived_by frame answer }
{
    match answer {
        UnpoisonAnswer::Done { cycle } => Some(FrameChange::Revived { frame, cycle }),
        UnpoisonAnswer::Stopped
        | UnpoisonAnswer::NotPoisoned
        | UnpoisonAnswer::HardwareSeen
        | UnpoisonAnswer::HasBad(_)
        | UnpoisonAnswer::InUse { .. } => None,
    }
}

fn revived_of(frame: Frame, answer: Option<UnpoisonAnswer>) -> Option<FrameChange>
    ensures { result ≡ option_and_then (revived_by frame) answer }
{
    revived_by(frame, answer?)
}

/// A `match` whose arms are alike: what the task of a command does, whatever its kind.
macro_rules! of_kind {
    ($job:expr, $task:ident => $does:expr) => {
        match $job {
            Job::Instruction($task) => $does,
            Job::Copying($task) => $does,
            Job::Evict($task) => $does,
            Job::Fsync($task) => $does,
            Job::Prctl($task) => $does,
            Job::Fork($task) => $does,
            Job::Log($task) => $does,
            Job::Raise($task) => $does,
            Job::Scrub($task) => $does,
            Job::Spoil($task) => $does,
            Job::Nested($task) => $does,
            Job::Inject($task) => $does,
            Job::Soft($task) => $does,
            Job::Unpoison($task) => $does,
            Job::Denied($task) => $does,
        }
    };
}

// by hand, since hwp_cpu cites what is proved here: with a derive it proves anew how each part goes
impl Drop for Job {
    fn drop(self) {
        of_kind!(self, task => drop(task))
    }
}

impl Task for Job {
    ghost use Rattle.hwp_cpu_command.specs.Jobs as jobs;

    ghost task = { jobs.task };

    #[inline(always)]
    fn who(&self) -> Who {
        of_kind!(self, task => task.who())
    }

    #[inline(always)]
    fn plan(&self) -> Option<Step> {
        of_kind!(self, task => task.plan())
    }

    #[inline(always)]
    fn give(&mut self) -> Option<Body> {
        of_kind!(self, task => task.give())
    }

    #[inline(always)]
    fn settle(&mut self, layout: &Layout, found: u64, body: Option<Body>) -> Turn {
        of_kind!(self, task => task.settle(layout, found, body))
    }
}

impl Ranked for Job {
    #[inline(always)]
    fn class(&self) -> u8 {
        of_kind!(self, task => task.class())
    }

    fn ranked() {}
}

impl Scheduled for Job {
    fn tells() {}
}
