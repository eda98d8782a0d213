ghost use Rattle.std.specs.Prelude.{◌≡◌, ◌≤◌, length};
ghost use Rattle.hwp_scrub.specs.Raises.{AfterProcess, AfterStop, BeginsCheck, after_handler, answer, begin, checked, ended, give_up, mode_of, thread_of};

use hwp_claim::{
    BANKS, Bank, Body, EventOutcome, Handler, Layout, List, McgBits, Mode, Page, Proc, ProcessWord,
    Ranked, Scheduled, SharedWord, Step, Task, Thread, ToldLines, Turn, Who, is_stopped, let_go_of,
    no_events,
};
use std::alloc::Global;
use std::mem;
use std::snapshot::Snapshot;

/// A machine check of what the banks of its processor hold, raised while a thread runs, or the kernel does (this project's rule).
pub struct Raise {
    alloc: Global,
    who: Who,
    /// The thread that runs; `None` where the kernel does.
    raiser: Option<Raiser>,
    mcg: McgBits,
    /// What the banks held at the beginning.
    before: Snapshot<[Bank; BANKS]>,
    banks: [Bank; BANKS],
    lines: ToldLines,
    at: RaiseAt,
}

/// A thread, and its process.
#[derive(Clone, Copy)]
pub struct Raiser {
    pub thread: Thread,
    pub process: Proc,
}

#[derive(Drop)]
enum RaiseAt {
    LoadStop,
    /// Has the process of the thread ended?
    LoadProcess { raiser: Raiser },
    Handle { handler: Handler },
    GiveUp,
    /// No answer: the command gave up because memory ran out.
    Over { answer: Option<RaiseAnswer> },
}

/// What a `Raise` came to (this project's rule).
#[derive(Clone, Copy)]
pub enum RaiseAnswer {
    /// The machine check was acted on, and the machine goes on.
    Raised,
    /// The machine is stopped.
    Stopped,
    /// The thread's process has ended, by a signal in the history of this page.
    Gone(Page),
}

// by hand, since what lets a machine check that is raised go cites what is proved here; with a derive it proves anew how each part goes
impl Drop for Raise {
    fn drop(self) {
        let Raise {
            alloc: _,
            who: _,
            raiser: _,
            mcg: _,
            before: _,
            banks: _,
            lines: _,
            at: _,
        } = self;
    }
}

impl Raise {
    /// The command at its beginning: a machine check with these bits, by a processor whose banks hold this.
    pub fn new(
        alloc: Global,
        who: Who,
        raiser: Option<Raiser>,
        mcg: McgBits,
        banks: [Bank; BANKS],
    ) -> Raise
        ensures { result ≡ begin alloc who raiser mcg banks }
    {
        Raise {
            alloc,
            who,
            raiser,
            mcg,
            before: Snapshot::of(&banks),
            banks,
            lines: ToldLines::new(alloc),
            at: RaiseAt::LoadStop,
        }
    }

    /// What it came to; `None` until it is over, and where it gave up because memory ran out.
    pub fn answer(&self) -> Option<RaiseAnswer>
        ensures { result ≡ answer self.now }
    {
        match self.at {
            RaiseAt::Over { answer } => answer,
            RaiseAt::LoadStop
            | RaiseAt::LoadProcess { .. }
            | RaiseAt::Handle { .. }
            | RaiseAt::GiveUp => None,
        }
    }

    /// What was done about the events, in the order of their banks, once it is over.
    pub fn told(&self) -> &[EventOutcome]
        ensures { result.now ≡ self.now.lines.told }
    {
        self.lines.told()
    }

    /// The same as a list, once it is over; and its processor has its banks back.
    pub fn finish(&mut self, banks: &mut [Bank; BANKS]) -> List<EventOutcome>
        ensures told { result ≡ self.old.lines.told }
        ensures banks { banks.new ≡ self.old.banks }
    {
        mem::swap(banks, &mut self.banks);
        mem::replace(&mut self.lines, ToldLines::new(self.alloc)).into_list()
    }

    /// Its next step gives up the command: memory ran out.
    pub fn give_up(&mut self)
        ensures { self.new ≡ give_up self.old }
    {
        self.set(RaiseAt::GiveUp);
    }

    /// What follows the stop word.
    fn after_stop(&mut self, layout: &Layout, found: u64)
        ensures { AfterStop layout.now self.old found self.new }
    {
        if is_stopped(found) {
            self.end(RaiseAnswer::Stopped);
            return;
        }
        match self.raiser {
            Some(raiser) => self.set(RaiseAt::LoadProcess { raiser }),
            None => self.check(layout),
        }
    }

    /// What follows the word of the thread's process.
    fn after_process(&mut self, layout: &Layout, found: u64)
        ensures { AfterProcess layout.now self.old found self.new }
    {
        match ProcessWord::unpack(found).ended_by {
            Some(page) => self.end(RaiseAnswer::Gone(page)),
            None => self.check(layout),
        }
    }

    /// The machine check begins, which leaves the banks empty. Where there is no room for its lines the command is given up.
    fn check(&mut self, layout: &Layout)
        ensures { BeginsCheck layout.now self.old self.new }
    {
        if self.lines.room().is_err() {
            self.set(RaiseAt::GiveUp);
            return;
        }
        let banks = mem::replace(&mut self.banks, no_events());
        let handler = Handler::new(
            self.alloc,
            layout,
            self.who,
            thread_of(self.raiser),
            self.mcg,
            mode_of(self.raiser),
            &banks,
        );
        self.after_handler(handler);
    }

    /// The machine check has begun, or is over at once.
    fn after_handler(&mut self, handler: Handler)
        requires { length handler.events.told ≤ self.old.lines.spare }
        ensures { self.new ≡ after_handler self.old handler }
    {
        let Some(stopped) = handler.answer() else {
            self.set(RaiseAt::Handle { handler });
            return;
        };
        self.lines.append(handler.told());
        handler.dismiss();
        self.after_check(stopped);
    }

    /// The machine check is over, and what it told is taken over.
    fn after_check(&mut self, stopped: bool)
        ensures { self.new ≡ checked self.old stopped }
    {
        self.end(if stopped {
            RaiseAnswer::Stopped
        } else {
            RaiseAnswer::Raised
        });
    }

    fn end(&mut self, answer: RaiseAnswer)
        ensures { self.new ≡ ended self.old answer }
    {
        self.set(RaiseAt::Over {
            answer: Some(answer),
        });
    }

    fn set(&mut self, at: RaiseAt)
        ensures { self.new ≡ record self.old { at = at } }
    {
        match mem::replace(&mut self.at, at) {
            RaiseAt::Handle { handler } => handler.dismiss(),
            RaiseAt::LoadStop
            | RaiseAt::LoadProcess { .. }
            | RaiseAt::GiveUp
            | RaiseAt::Over { .. } => {}
        }
    }
}

/// The thread that runs.
fn thread_of(raiser: Option<Raiser>) -> Option<Thread>
    ensures { result ≡ thread_of raiser }
{
    match raiser {
        Some(raiser) => Some(raiser.thread),
        None => None,
    }
}

/// A thread runs in user mode.
fn mode_of(raiser: Option<Raiser>) -> Mode
    ensures { result ≡ mode_of raiser }
{
    if raiser.is_some() {
        Mode::User
    } else {
        Mode::Kernel
    }
}

impl Task for Raise {
    ghost use Rattle.hwp_scrub.specs.RaiseFits as fits;

    ghost task = { fits.task };

    fn who(&self) -> Who {
        self.who
    }

    fn plan(&self) -> Option<Step> {
        match &self.at {
            RaiseAt::LoadStop => Some(Step::Load {
                place: SharedWord::Stop,
            }),
            RaiseAt::LoadProcess { raiser } => Some(Step::Load {
                place: SharedWord::Process(raiser.process),
            }),
            RaiseAt::Handle { handler } => handler.plan(),
            RaiseAt::GiveUp => Some(Step::GiveUp),
            RaiseAt::Over { .. } => None,
        }
    }

    fn give(&mut self) -> Option<Body> {
        match &mut self.at {
            RaiseAt::Handle { handler } => handler.give(),
            _ => None,
        }
    }

    fn settle(&mut self, layout: &Layout, found: u64, body: Option<Body>) -> Turn {
        match &mut self.at {
            RaiseAt::LoadStop => {
                let_go_of(body);
                self.after_stop(layout, found);
                Turn::Moved
            }
            RaiseAt::LoadProcess { .. } => {
                let_go_of(body);
                self.after_process(layout, found);
                Turn::Moved
            }
            RaiseAt::Handle { handler } => {
                let turn = handler.settle(layout, found, body);
                if let Some(stopped) = handler.answer() {
                    self.lines.append(handler.told());
                    self.after_check(stopped);
                }
                turn
            }
            RaiseAt::GiveUp => {
                let_go_of(body);
                self.set(RaiseAt::Over { answer: None });
                Turn::NoMemory
            }
            RaiseAt::Over { .. } => {
                let_go_of(body);
                Turn::Moved
            }
        }
    }
}

impl Ranked for Raise {
    fn class(&self) -> u8 {
        match &self.at {
            RaiseAt::Handle { handler } => handler.class(),
            RaiseAt::LoadStop
            | RaiseAt::LoadProcess { .. }
            | RaiseAt::GiveUp
            | RaiseAt::Over { .. } => 4,
        }
    }

    fn ranked() {}
}

impl Scheduled for Raise {
    fn tells() {}
}
