ghost use Rattle.std.specs.Prelude.{◌≡◌, ◌≤◌, ◌&&◌, Some, None, length};
ghost use Rattle.hwp_claim.specs.hwp_banks.Banks.{empty_banks};
ghost use Rattle.hwp_claim.specs.Checks.{with_own};
ghost use Rattle.hwp_claim.specs.hwp_banks.Events.{bank_count};
ghost use Rattle.hwp_fault.specs.hwp_core_rule.declared.Turn.TheVariants.{NoMemory};
ghost use Rattle.hwp_cpu_access.specs.declared.instruction.InstructionAt.TheVariants as states;
ghost use Rattle.hwp_cpu_access.specs.Instructions.{AfterAccessBy, BeginsCheck, after_handler, after_load, again_with, after_stop, answer, answered, begin, first, give_up, going_on, is_pending, left_to_do, over, over_with, pause, restarted, resume, resumed, turn_of_load, turn_of_stop};

use hwp_claim::{
    At, BANKS, Bank, Body, EventOutcome, Frame, FrameWord, Handler, Layout, List, McgBits, Mode,
    Origin, Page, Ranked, Scheduled, SharedWord, Step, StopWord, Task, ToldLines, Turn, Who,
    no_events,
};
use hwp_fault::{Access, AccessAnswer, Request};
use std::alloc::Global;
use std::mem;
use std::snapshot::Snapshot;

/// An instruction that accesses a line of a page. Where the line is bad it is a machine check, which is acted on, and
/// afterwards the instruction is made again, unless the machine is stopped or its thread was signalled (this project's rule).
#[derive(Drop)]
pub struct Instruction {
    alloc: Global,
    request: Request,
    /// What makes the machine log its own event where the line is bad.
    origin: Origin,
    mode: Mode,
    /// Whether the processor collects corrected errors: then it pauses behind a machine check that kept one.
    collects: bool,
    /// What the banks held at the beginning.
    before: Snapshot<[Bank; BANKS]>,
    banks: [Bank; BANKS],
    lines: ToldLines,
    at: InstructionAt,
}

#[derive(Drop)]
enum InstructionAt {
    Access { access: Access },
    /// The machine check of a line that was bad in this frame.
    Handle { frame: Frame, handler: Handler },
    /// The frame of the machine check was poisoned already: is its failure ended?
    LoadFrame { frame: Frame },
    /// It isn't. Has another processor given up?
    LoadStop { frame: Frame },
    GiveUp,
    /// Frames may be taken out of use now; then the instruction goes on.
    Paused { pause: Pause },
    /// No answer: the instruction gave up because memory ran out.
    Over { answer: Option<InstructionAnswer> },
}

/// What an `Instruction` came to (this project's rule).
#[derive(Clone, Copy)]
pub enum InstructionAnswer {
    /// This word was read, by the entry.
    Value { word: u64, at: At },
    /// The word was written, by the entry.
    Stored { at: At },
    /// The thread was signalled SIGBUS: by the entry of the access, or by the first entry of a memory failure that did so.
    Sigbus { at: At },
    /// No frame was available for the page.
    NoFrame,
    /// The thread's process has ended, by a signal in the history of this page.
    Gone { page: Page },
    /// The machine is stopped.
    Stopped,
}

/// What is left of an instruction behind a machine check that didn't stop the machine.
#[derive(Clone, Copy)]
pub enum Pause {
    /// To answer that the thread was signalled SIGBUS, by this entry.
    Sigbus { at: At },
    /// The end of the frame's failure is awaited, and then the access is made again.
    Wait { frame: Frame },
    /// The access is made again.
    Again,
}

impl Instruction {
    /// The instruction at its beginning: an access of this origin, in this mode, by a processor whose banks hold this, and which
    /// collects corrected errors or doesn't.
    pub fn new(
        alloc: Global,
        request: Request,
        origin: Origin,
        mode: Mode,
        banks: [Bank; BANKS],
        collects: bool,
    ) -> Instruction
        ensures { result ≡ begin alloc request origin mode banks collects }
    {
        Instruction {
            alloc,
            request,
            origin,
            mode,
            collects,
            before: Snapshot::of(&banks),
            banks,
            lines: ToldLines::new(alloc),
            at: first(&request),
        }
    }

    /// The instruction of another command begins as `new` says in place of this one: what a field carries lies where it lay before.
    pub fn begin_next(
        &mut self,
        alloc: Global,
        request: Request,
        origin: Origin,
        mode: Mode,
        banks: [Bank; BANKS],
        collects: bool,
    )
        ensures { self.new ≡ begin alloc request origin mode banks collects }
    {
        self.alloc = alloc;
        self.request = request;
        self.origin = origin;
        self.mode = mode;
        self.collects = collects;
        self.before = Snapshot::of(&banks);
        self.banks = banks;
        self.lines = ToldLines::new(alloc);
        let at = first(&request);
        self.set(at);
    }

    /// Another access of the same command begins where this one lies: with what the banks hold by now, and behind what was told so far.
    pub fn again_with(&mut self, request: Request)
        ensures { self.new ≡ again_with self.old request }
    {
        self.request = request;
        let at = first(&request);
        self.set(at);
    }

    /// Goes on behind its pause, with what is left of it. Where it doesn't pause nothing changes.
    pub fn resume(&mut self)
        ensures { self.new ≡ resume self.old }
    {
        if let Some(pause) = self.pause() {
            let at = resumed(&self.request, pause);
            self.set(at);
        }
    }

    /// Its next step gives up the command: memory ran out.
    pub fn give_up(&mut self)
        ensures { self.new ≡ give_up self.old }
    {
        self.set(InstructionAt::GiveUp);
    }

    /// What is left of it, where it pauses.
    pub fn pause(&self) -> Option<Pause>
        ensures { result ≡ pause self.now }
    {
        match self.at {
            InstructionAt::Paused { pause } => Some(pause),
            InstructionAt::Access { .. }
            | InstructionAt::Handle { .. }
            | InstructionAt::LoadFrame { .. }
            | InstructionAt::LoadStop { .. }
            | InstructionAt::GiveUp
            | InstructionAt::Over { .. } => None,
        }
    }

    /// What it came to; `None` until it is over, and where it gave up because memory ran out.
    pub fn answer(&self) -> Option<InstructionAnswer>
        ensures { result ≡ answer self.now }
    {
        match self.at {
            InstructionAt::Over { answer } => answer,
            InstructionAt::Access { .. }
            | InstructionAt::Handle { .. }
            | InstructionAt::LoadFrame { .. }
            | InstructionAt::LoadStop { .. }
            | InstructionAt::GiveUp
            | InstructionAt::Paused { .. } => None,
        }
    }

    /// What was done about the events of its machine checks, in order.
    pub fn told(&self) -> &[EventOutcome]
        ensures { result.now ≡ self.now.lines.told }
    {
        self.lines.told()
    }

    /// The same as a list, and its processor's banks are put back, once it is over.
    pub fn finish(&mut self, banks: &mut [Bank; BANKS]) -> List<EventOutcome>
        ensures told { result ≡ self.old.lines.told }
        ensures banks { banks.new ≡ self.old.banks }
    {
        mem::swap(banks, &mut self.banks);
        mem::replace(&mut self.lines, ToldLines::new(self.alloc)).into_list()
    }

    /// The access has its answer.
    fn after_access(&mut self, layout: &Layout, answer: AccessAnswer)
        ensures { (access : Access) → AfterAccessBy layout.now self.old access (Some answer) self.new }
    {
        match answer {
            AccessAnswer::Checked { frame, .. } => self.check(layout, frame),
            AccessAnswer::Value { word, at } => self.end(InstructionAnswer::Value { word, at }),
            AccessAnswer::Stored { at } => self.end(InstructionAnswer::Stored { at }),
            AccessAnswer::Sigbus { at } => self.end(InstructionAnswer::Sigbus { at }),
            AccessAnswer::NoFrame => self.end(InstructionAnswer::NoFrame),
            AccessAnswer::Gone { page } => self.end(InstructionAnswer::Gone { page }),
            AccessAnswer::Stopped => self.end(InstructionAnswer::Stopped),
        }
    }

    /// The line was bad in this frame: the event is logged, and the machine check begins, which leaves the banks empty. Where
    /// there is no room for its lines the command is given up.
    #[inline(never)]
    fn check(&mut self, layout: &Layout, frame: Frame)
        ensures { BeginsCheck layout.now self.old frame self.new }
    {
        if self.lines.room().is_err() {
            self.set(InstructionAt::GiveUp);
            return;
        }
        let banks = self.take_banks(frame);
        let handler = Handler::new(
            self.alloc,
            layout,
            self.request.who,
            Some(self.request.thread),
            RESTARTS,
            self.mode,
            &banks,
        );
        self.begin_check(frame, handler);
    }

    /// The banks with the machine's own event of the line in this frame. They are left empty.
    fn take_banks(&mut self, frame: Frame) -> [Bank; BANKS]
        ensures found { result ≡ with_own self.old.origin frame self.old.request.line self.old.banks }
        ensures left { self.new ≡ record self.old { banks = empty_banks } }
    {
        let event = self.origin.event(frame, self.request.line);
        let mut banks = mem::replace(&mut self.banks, no_events());
        banks[self.origin.bank()].log(event);
        banks
    }

    /// The machine check begins, or is over at once.
    fn begin_check(&mut self, frame: Frame, handler: Handler)
        requires { length handler.events.told ≤ self.old.lines.spare }
        ensures { self.new ≡ after_handler self.old frame handler }
    {
        let Some(stopped) = handler.answer() else {
            self.set(InstructionAt::Handle { frame, handler });
            return;
        };
        self.lines.append(handler.told());
        let signalled = handler.signalled();
        let kept = handler.has_kept();
        let pause = left_to_do(signalled, frame, handler.was_poisoned(frame));
        handler.dismiss();
        self.end_check(stopped, kept, pause);
    }

    /// The machine check is over: whether it stopped the machine, whether it kept an event, and what is left of the instruction.
    fn end_check(&mut self, stopped: bool, kept: bool, pause: Pause)
        ensures { self.new ≡ record self.old { at = over_with self.old.request stopped (kept && self.old.collects) pause } }
    {
        if stopped {
            self.end(InstructionAnswer::Stopped);
        } else {
            let at = going_on(&self.request, kept && self.collects, pause);
            self.set(at);
        }
    }

    #[inline(always)]
    fn set(&mut self, at: InstructionAt)
        ensures { self.new ≡ record self.old { at = at } }
    {
        self.at = at;
    }

    #[inline(always)]
    fn end(&mut self, answer: InstructionAnswer)
        ensures { self.new ≡ answered self.old answer }
    {
        self.set(over(answer));
    }

    /// Ends the command without an answer: memory ran out.
    fn end_without(&mut self) -> Turn
        ensures next { self.new ≡ record self.old { at = states.Over None } }
        ensures turn { result ≡ NoMemory }
    {
        self.set(InstructionAt::Over { answer: None });
        Turn::NoMemory
    }

    fn restarted(&self) -> InstructionAt
        ensures { result ≡ restarted self.now }
    {
        InstructionAt::Access {
            access: Access::again(self.request),
        }
    }

    /// Waits until the failure of the frame is ended; then the access is made again.
    fn after_load(&mut self, frame: Frame, found: u64) -> Turn
        ensures next { self.new ≡ after_load self.old frame found }
        ensures turn { result ≡ turn_of_load found }
    {
        if is_pending(found) {
            self.set(InstructionAt::LoadStop { frame });
            Turn::Waits(found)
        } else {
            let at = self.restarted();
            self.set(at);
            Turn::Moved
        }
    }

    /// Looks at the frame again, unless another processor has given up.
    fn after_stop(&mut self, frame: Frame, found: u64) -> Turn
        ensures next { self.new ≡ after_stop self.old frame found }
        ensures turn { result ≡ turn_of_stop found }
    {
        if StopWord::unpack(found).no_memory {
            self.end_without()
        } else {
            self.set(InstructionAt::LoadFrame { frame });
            Turn::Moved
        }
    }
}

/// The access at its beginning.
fn first(request: &Request) -> InstructionAt
    ensures { result ≡ first request.now }
{
    InstructionAt::Access {
        access: Access::new(*request),
    }
}

/// What is left behind a machine check of the frame, by the first entry that signalled the thread, and by whether a failure
/// found the frame poisoned already.
fn left_to_do(signalled: Option<At>, frame: Frame, was_poisoned: bool) -> Pause
    ensures { result ≡ left_to_do signalled frame was_poisoned }
{
    match signalled {
        Some(at) => Pause::Sigbus { at },
        None if was_poisoned => Pause::Wait { frame },
        None => Pause::Again,
    }
}

/// The instruction goes on with what is left of it.
fn resumed(request: &Request, pause: Pause) -> InstructionAt
    ensures { result ≡ resumed request.now pause }
{
    match pause {
        Pause::Sigbus { at } => over(InstructionAnswer::Sigbus { at }),
        Pause::Wait { frame } => InstructionAt::LoadFrame { frame },
        Pause::Again => InstructionAt::Access {
            access: Access::again(*request),
        },
    }
}

/// It pauses first, where the processor collects and an event was kept.
fn going_on(request: &Request, kept: bool, pause: Pause) -> InstructionAt
    ensures { result ≡ going_on request.now kept pause }
{
    if kept {
        InstructionAt::Paused { pause }
    } else {
        resumed(request, pause)
    }
}

#[inline(always)]
fn over(answer: InstructionAnswer) -> InstructionAt
    ensures { result ≡ over answer }
{
    InstructionAt::Over {
        answer: Some(answer),
    }
}

/// A thread's access can be started again, and its machine check goes with it.
const RESTARTS: McgBits = McgBits {
    ripv: true,
    eipv: true,
};

/// Whether the failure of the frame with this word is under way.
fn is_pending(word: u64) -> bool
    ensures { result ≡ is_pending word }
{
    let word = FrameWord::unpack(word);
    word.poisoned && !(word.handled || word.kernel)
}

impl Task for Instruction {
    ghost use Rattle.hwp_cpu_access.specs.Fits as fits;

    ghost task = { fits.task };

    fn who(&self) -> Who {
        self.request.who
    }

    fn plan(&self) -> Option<Step> {
        match &self.at {
            InstructionAt::Access { access } => access.plan(),
            InstructionAt::Handle { handler, .. } => handler.plan(),
            InstructionAt::LoadFrame { frame } => Some(Step::Load {
                place: SharedWord::Frame(*frame),
            }),
            InstructionAt::LoadStop { .. } => Some(Step::Load {
                place: SharedWord::Stop,
            }),
            InstructionAt::GiveUp => Some(Step::GiveUp),
            InstructionAt::Paused { .. } | InstructionAt::Over { .. } => None,
        }
    }

    fn give(&mut self) -> Option<Body> {
        match &mut self.at {
            InstructionAt::Access { access } => access.give(),
            InstructionAt::Handle { handler, .. } => handler.give(),
            InstructionAt::LoadFrame { .. }
            | InstructionAt::LoadStop { .. }
            | InstructionAt::GiveUp
            | InstructionAt::Paused { .. }
            | InstructionAt::Over { .. } => None,
        }
    }

    #[inline(always)]
    fn settle(&mut self, layout: &Layout, found: u64, body: Option<Body>) -> Turn {
        match &mut self.at {
            InstructionAt::Access { access } => {
                let turn = access.settle(layout, found, body);
                let Some(answer) = access.answer() else {
                    return turn;
                };
                self.after_access(layout, answer);
                turn
            }
            InstructionAt::Handle { frame, handler } => {
                let frame = *frame;
                let turn = handler.settle(layout, found, body);
                let Some(stopped) = handler.answer() else {
                    return turn;
                };
                self.lines.append(handler.told());
                let signalled = handler.signalled();
                let kept = handler.has_kept();
                let pause = left_to_do(signalled, frame, handler.was_poisoned(frame));
                self.end_check(stopped, kept, pause);
                turn
            }
            InstructionAt::LoadFrame { frame } => {
                let frame = *frame;
                self.after_load(frame, found)
            }
            InstructionAt::LoadStop { frame } => {
                let frame = *frame;
                self.after_stop(frame, found)
            }
            InstructionAt::GiveUp => self.end_without(),
            InstructionAt::Paused { .. } | InstructionAt::Over { .. } => Turn::Moved,
        }
    }
}

impl Ranked for Instruction {
    fn class(&self) -> u8 {
        match &self.at {
            InstructionAt::Access { access } => access.class(),
            InstructionAt::Handle { handler, .. } => handler.class(),
            InstructionAt::LoadFrame { .. }
            | InstructionAt::LoadStop { .. }
            | InstructionAt::GiveUp
            | InstructionAt::Paused { .. }
            | InstructionAt::Over { .. } => 4,
        }
    }

    fn ranked() {}
}

impl Scheduled for Instruction {
    fn tells() {}
}
