ghost use Rattle.std.specs.Prelude.{◌≡◌, Some};
ghost use Rattle.hwp_cpu_access.specs.Instructions as instructions;
ghost use Rattle.hwp_cpu_access.specs.Copyings.{after_access, after_free, answer, begin, going_on, give_up, load_of, pause, resume, store_of, through, went};

use crate::instruction::{Instruction, InstructionAnswer, Pause};
use hwp_claim::{
    At, BANKS, Bank, Body, EventOutcome, Layout, Line, List, Mode, Origin, Page, Ranked, Scheduled,
    Step, Task, Turn, Who,
};
use hwp_fault::{AccessKind, Evict, EvictAnswer, Request};
use hwp_fork::{Cow, Sub, VSlot};
use std::alloc::Global;

/// A store through a frozen translation. Its page is copied first: each line is loaded through the translation and stored through its
/// twin, one access after the other, with the machine checks that they meet. Then the store itself is made, through the twin, and the
/// translation is freed (this project's rule).
#[derive(Drop)]
pub struct Copying {
    cow: Cow,
    /// The page of the frozen translation.
    page: Page,
    /// The store that was asked for, through the twin.
    store: Request,
    /// The access that goes on, or the last one.
    instruction: Instruction,
    at: CopyingAt,
}

#[derive(Drop)]
enum CopyingAt {
    /// The access goes on. One that doesn't go well answers the command.
    Access,
    /// The translation is freed. The store that was asked for was made, by the entry at this place.
    Free { evict: Evict, stored: At },
    Over { answer: InstructionAnswer },
}

impl Copying {
    /// The command at its beginning: `store` is what is asked for, of the word `x` through the twin of `slot`, which leads to `page`.
    /// The banks of its processor hold this, and it collects corrected errors or doesn't.
    #[inline(never)]
    pub fn new(
        alloc: Global,
        store: Request,
        x: u64,
        slot: VSlot,
        page: Page,
        banks: [Bank; BANKS],
        collects: bool,
    ) -> Copying
        ensures { result ≡ begin alloc store x slot page banks collects }
    {
        let cow = Cow::new(slot, store.slot, store.line, x);
        let first = load_of(&store, page, slot, first_line());
        Copying {
            cow,
            store,
            page,
            instruction: Instruction::new(
                alloc,
                first,
                Origin::Access,
                Mode::User,
                banks,
                collects,
            ),
            at: CopyingAt::Access,
        }
    }

    /// What it came to; `None` until it is over, and where it gave up because memory ran out. `stored` is of the store that was asked
    /// for; any other answer is that of the access that didn't go well, or of the freeing.
    #[inline(never)]
    pub fn answer(&self) -> Option<InstructionAnswer>
        ensures { result ≡ answer self.now }
    {
        match self.at {
            CopyingAt::Access => self.instruction.answer(),
            CopyingAt::Free { .. } => None,
            CopyingAt::Over { answer } => Some(answer),
        }
    }

    /// The translation of the access that goes on, or that answered the command.
    #[inline(never)]
    pub fn through(&self) -> VSlot
        ensures { result ≡ through self.now }
    {
        match self.cow.next() {
            Sub::Load(slot, _) | Sub::Free(slot) => slot,
            Sub::Store(..) | Sub::Switched => self.store.slot,
        }
    }

    /// What is left of the access that goes on, where it pauses.
    #[inline(never)]
    pub fn pause(&self) -> Option<Pause>
        ensures { result ≡ pause self.now }
    {
        match self.at {
            CopyingAt::Access => self.instruction.pause(),
            CopyingAt::Free { .. } | CopyingAt::Over { .. } => None,
        }
    }

    /// Goes on behind its pause. Where it doesn't pause nothing changes.
    #[inline(never)]
    pub fn resume(&mut self)
        ensures { self.new ≡ resume self.old }
    {
        match self.at {
            CopyingAt::Access => self.instruction.resume(),
            CopyingAt::Free { .. } | CopyingAt::Over { .. } => {}
        }
    }

    /// Its next step gives up the command: memory ran out.
    #[inline(never)]
    pub fn give_up(&mut self)
        ensures { self.new ≡ give_up self.old }
    {
        self.instruction.give_up();
        self.set(CopyingAt::Access);
    }

    /// What was done about the events of its machine checks, in order.
    #[inline(never)]
    pub fn told(&self) -> &[EventOutcome]
        ensures { result.now ≡ self.now.instruction.lines.told }
    {
        self.instruction.told()
    }

    /// The same as a list, and its processor's banks are put back, once it is over.
    #[inline(never)]
    pub fn finish(&mut self, banks: &mut [Bank; BANKS]) -> List<EventOutcome>
        ensures told { result ≡ self.old.instruction.lines.told }
        ensures banks { banks.new ≡ self.old.instruction.banks }
    {
        self.instruction.finish(banks)
    }

    /// An access that went well is followed by the next one; any other goes on, or answers the command.
    #[inline(never)]
    fn after_access(&mut self)
        ensures { self.new ≡ after_access self.old (instructions.answer self.old.instruction) }
    {
        match self.instruction.answer() {
            Some(InstructionAnswer::Value { word, at }) => self.went(word, at),
            Some(InstructionAnswer::Stored { at }) => self.went(0, at),
            _ => {}
        }
    }

    /// An access went well, by the entry at the place: a load read the word.
    #[inline(never)]
    fn went(&mut self, word: u64, place: At)
        ensures { self.new ≡ went self.old word place }
    {
        self.cow.told(word);
        let sub = self.cow.next();
        self.go_on(sub, place);
    }

    /// What comes next begins, behind an access whose entry stands at the place.
    #[inline(never)]
    fn go_on(&mut self, sub: Sub, place: At)
        ensures { self.new ≡ going_on self.old place sub }
    {
        match sub {
            Sub::Load(slot, line) => {
                let request = load_of(&self.store, self.page, slot, line);
                self.instruction.again_with(request);
            }
            Sub::Store(slot, line, word) => {
                let request = store_of(&self.store, slot, line, word);
                self.instruction.again_with(request);
            }
            Sub::Free(slot) => {
                let evict = Evict::free_slot(self.store.who, slot, self.page);
                self.set(CopyingAt::Free {
                    evict,
                    stored: place,
                });
            }
            Sub::Switched => self.set(CopyingAt::Over {
                answer: InstructionAnswer::Stored { at: place },
            }),
        }
    }

    /// The freeing has its answer: a translation that wasn't in use is as good as freed.
    #[inline(never)]
    fn after_free(&mut self, answer: EvictAnswer, stored: At)
        ensures { self.new ≡ after_free self.old answer stored }
    {
        match answer {
            EvictAnswer::Stopped => self.set(CopyingAt::Over {
                answer: InstructionAnswer::Stopped,
            }),
            EvictAnswer::Done(_) | EvictAnswer::Refused(_, _) => {
                self.cow.told(0);
                self.set(CopyingAt::Over {
                    answer: InstructionAnswer::Stored { at: stored },
                });
            }
        }
    }

    #[inline(always)]
    fn set(&mut self, at: CopyingAt)
        ensures { self.new ≡ record self.old { at = at } }
    {
        self.at = at;
    }
}

#[inline(never)]
fn first_line() -> Line
    ensures { result ≡ 0 }
{
    let Some(line) = Line::new(0) else {
        unreachable!();
    };
    line
}

/// A load of the line through the frozen translation, by the thread of the store.
#[inline(never)]
fn load_of(store: &Request, page: Page, slot: VSlot, line: Line) -> Request
    ensures { result ≡ load_of store.now page slot line }
{
    Request {
        who: store.who,
        thread: store.thread,
        slot,
        line,
        kind: AccessKind::Load,
        page,
        process: store.process,
    }
}

/// A store of the word on the line through the twin.
#[inline(never)]
fn store_of(store: &Request, slot: VSlot, line: Line, word: u64) -> Request
    ensures { result ≡ store_of store.now slot line word }
{
    Request {
        who: store.who,
        thread: store.thread,
        slot,
        line,
        kind: AccessKind::Store { word },
        page: store.page,
        process: store.process,
    }
}

impl Task for Copying {
    ghost use Rattle.hwp_cpu_access.specs.CopyFits as fits;

    ghost task = { fits.task };

    #[inline(never)]
    fn who(&self) -> Who {
        self.store.who
    }

    #[inline(never)]
    fn plan(&self) -> Option<Step> {
        match &self.at {
            CopyingAt::Access => self.instruction.plan(),
            CopyingAt::Free { evict, .. } => evict.plan(),
            CopyingAt::Over { .. } => None,
        }
    }

    #[inline(never)]
    fn give(&mut self) -> Option<Body> {
        match &mut self.at {
            CopyingAt::Access => self.instruction.give(),
            CopyingAt::Free { evict, .. } => evict.give(),
            CopyingAt::Over { .. } => None,
        }
    }

    #[inline(never)]
    fn settle(&mut self, layout: &Layout, found: u64, body: Option<Body>) -> Turn {
        match &mut self.at {
            CopyingAt::Access => {
                let turn = self.instruction.settle(layout, found, body);
                self.after_access();
                turn
            }
            CopyingAt::Free { evict, stored } => {
                let stored = *stored;
                let turn = evict.settle(layout, found, body);
                let Some(answer) = evict.answer() else {
                    return turn;
                };
                self.after_free(answer, stored);
                turn
            }
            CopyingAt::Over { .. } => Turn::Moved,
        }
    }
}

impl Ranked for Copying {
    #[inline(never)]
    fn class(&self) -> u8 {
        match &self.at {
            CopyingAt::Access => self.instruction.class(),
            CopyingAt::Free { evict, .. } => evict.class(),
            CopyingAt::Over { .. } => 4,
        }
    }

    fn ranked() {}
}

impl Scheduled for Copying {
    fn tells() {}
}
