ghost use Rattle.std.specs.Prelude.{◌≡◌, ◌<◌, true, None, Some, cond};
ghost use Rattle.hwp_cpu_row.specs.hwp_geom.Layout.{IsSound};
ghost use Rattle.hwp_cpu_row.specs.hwp_script_words.Valid.{IsCommandOf};
ghost use Rattle.hwp_cpu_row.specs.Locals.{collects};
ghost use Rattle.hwp_cpu_command.specs.Begins.{CanCopy, CanDeny};
ghost use Rattle.hwp_cpu_command.specs.FileHandles.{HasChangeWithin, StandsOn};
ghost use Rattle.hwp_cpu_command.specs.Jobs.{pauses};
ghost use Rattle.hwp_cpu.specs.Courses.{AfterOwnBy, BeginsCourse, IsGoingOn, answer, local_after, local_left, offline_result, passed, rests, row_of, with_result};
ghost use Rattle.hwp_cpu_row.specs.Dues.{Covers};

use hwp_cpu_command::{Job, offlined_by};
use hwp_cpu_row::{
    Admit, Answer, Body, Command, DueFrames, Frame, Layout, Local, OfflineResult, Offlining,
    Ranked, Row, Scheduled, Step, Task, Turn, VSlot, Watching, Who, take_notes,
};
use hwp_soft::{Soft, SoftAnswer};
use std::alloc::Global;

/// A command with the frames that are taken out of use beside it (this project's rule). Where its own task pauses behind a machine check, and
/// where that has its answer, its processor's collector takes the notes of what it told, the frames that are due are taken out of use one
/// after the other, and then it goes on.
pub struct Course {
    /// The command's own task.
    own: Job,
    /// The frame that is taken out of use now; none while the command's own task goes on.
    beside: Option<Soft>,
    /// The processor's collector, if it has one.
    watching: Option<Watching>,
    /// How many of the events that the command told of the collector has got.
    noted: usize,
    /// The frames that are due, and what came of them so far.
    due: DueFrames,
    /// How many frames the machine has, for which the collector has room. A turn on a machine with another number notes nothing.
    frames: u16,
}

impl Course {
    /// What stands where a processor's first command is to begin. Nothing is said of it, since each command begins in place of another.
    pub fn idle(alloc: Global, who: Who) -> Course {
        Course {
            own: Job::Soft(Soft::new(who, Frame(0))),
            beside: None,
            watching: None,
            noted: 0,
            due: DueFrames::new(alloc),
            frames: 0,
        }
    }

    /// The command at its beginning, in place of the one that is there, which is let go: what it carries lies where the other one lay. It takes
    /// what its processor's banks hold, where it can add to that, and its collector. A store copies the page of the translation `copies`
    /// first, where there is one. An access that its guest doesn't admit does nothing, and is answered so.
    pub fn begin_next(
        &mut self,
        alloc: Global,
        layout: &Layout,
        who: Who,
        command: Command,
        copies: Option<VSlot>,
        admit: Admit,
        local: &mut Local,
    )
        requires sound { IsSound layout.now }
        requires of { IsCommandOf layout.now who.cpu.0 command }
        requires copies { CanCopy layout.now who.cpu.0 command copies }
        requires denied { CanDeny command admit }
        ensures begins { BeginsCourse layout.now who command copies admit local.old self.new }
        ensures local { local.new ≡ local_left self.new local.old }
    {
        self.own
            .begin_next(alloc, layout, who, command, copies, admit, local);
        clear(&mut self.beside);
        set(&mut self.watching, local.watching.take());
        self.noted = 0;
        set(&mut self.due, DueFrames::new(alloc));
        self.frames = layout.frames;
    }

    /// What the command answers; `None` until its own task is over and no frame is due, and where memory ran out.
    #[inline(always)]
    pub fn answer(&self) -> Option<Answer>
        ensures { result ≡ answer self.now }
    {
        match self.beside {
            Some(_) => None,
            None => self.own.answer(),
        }
    }

    /// The row of a command that is over, with this answer. Its processor gets back what the command took of it.
    pub fn finish(&mut self, alloc: Global, answer: Answer, local: &mut Local) -> Row
        requires within { HasChangeWithin self.old.own }
        ensures row { result ≡ row_of self.old answer }
        ensures local { local.new ≡ local_after self.old answer local.old }
        ensures stands { StandsOn self.old.own answer self.old.watching }
    {
        set(&mut local.watching, self.watching.take());
        let offlined = self.due.finish(alloc);
        self.own.finish(alloc, answer, offlined, local)
    }

    /// The turn of its own task, where the processor collects. Where that rests, what it told since is noted, and the first frame that is due
    /// is taken out of use. Without room for that the command is given up.
    fn after_own(&mut self, layout: &Layout, turn: Turn) -> Turn
        requires on { collects self.old.watching ≡ true }
        requires covered { Covers self.old.frames self.old.watching }
        ensures { AfterOwnBy layout.now self.old (rests self.old.own) turn self.new result }
    {
        let (passed, pauses) = passed(&self.own, self.noted);
        if let Some(noted) = passed {
            self.noted = noted;
            return turn;
        }
        let told = self.own.told();
        let count = told.len();
        if self.noted < count && layout.frames == self.frames {
            if take_notes(layout, told, self.noted, &mut self.watching, &mut self.due).is_err() {
                self.own.give_up();
                return turned(pauses, turn, Turn::Moved);
            }
            self.noted = count;
            return turned(pauses, turn, self.go_on());
        }
        turned(pauses, turn, self.go_on())
    }

    /// The frame that was taken out of use beside it came to this.
    fn after_soft(&mut self, frame: Frame, answer: SoftAnswer) -> Turn
        requires room { 0 < self.old.due.spare }
        ensures { IsGoingOn (with_result self.old frame answer) self.new result }
    {
        let offlining = Offlining {
            frame,
            result: offline_result(answer),
            change: offlined_by(frame, answer),
            told: self.own.told().len(),
        };
        self.due.push(offlining);
        self.go_on()
    }

    /// The next frame that is due is taken out of use; or, where none is, the command's own task goes on.
    fn go_on(&mut self) -> Turn
        ensures { IsGoingOn self.old self.new result }
    {
        match self.due.next() {
            Some(frame) => {
                let soft = Soft::new(self.own.who(), frame);
                set(&mut self.beside, Some(soft));
                Turn::Moved
            }
            None => {
                self.own.resume();
                set(&mut self.beside, None);
                if self.own.answer().is_some() {
                    Turn::Answered
                } else {
                    Turn::Moved
                }
            }
        }
    }
}

// by hand, so that it is proved once: with a derive each function that lets one go proves anew how each part goes
impl Drop for Course {
    fn drop(self) {
        let Course {
            own: _,
            beside: _,
            watching: _,
            noted: _,
            due: _,
            frames: _,
        } = self;
    }
}

/// How much of what the task told its collector has got or passed over, while the task goes on: what an access told without a pause notes
/// nothing. `None` where the task rests, so that frames may be taken out of use: an access pauses, or any other command has its answer. And
/// whether it pauses, behind a machine check that kept an event: then it goes on.
fn passed(own: &Job, noted: usize) -> (Option<usize>, bool)
    ensures noted { result.0 ≡ cond (rests own.now) None (Some (passed own.now noted)) }
    ensures pauses { result.1 ≡ pauses own.now }
{
    match own {
        Job::Instruction(instruction) => match instruction.pause() {
            Some(_) => (None, true),
            None => (Some(instruction.told().len()), false),
        },
        Job::Copying(copying) => match copying.pause() {
            Some(_) => (None, true),
            None => (Some(copying.told().len()), false),
        },
        other => match other.answer() {
            Some(_) => (None, false),
            None => (Some(noted), false),
        },
    }
}

/// What a turn comes to behind which a task rests: as it was where the task pauses, and else what comes then.
fn turned(pauses: bool, turn: Turn, then: Turn) -> Turn
    ensures { result ≡ cond pauses turn then }
{
    if pauses { turn } else { then }
}

/// What was there is let go where it lies.
fn set<T: Drop>(place: &mut T, value: T)
    ensures { place.new ≡ value }
{
    *place = value;
}

/// Nothing is there. To find that out costs less than to let go of what isn't there.
#[inline(always)]
fn clear<T: Drop>(place: &mut Option<T>)
    ensures { place.new ≡ None }
{
    if place.is_some() {
        set(place, None);
    }
}

/// Whether the processor collects corrected errors.
#[inline(always)]
fn collects(watching: &Option<Watching>) -> bool
    ensures { result ≡ collects watching.now }
{
    match watching {
        Some(watching) => watching.on,
        None => false,
    }
}

/// What came of a frame that was to be taken out of use. One that is due isn't the kernel's.
fn offline_result(answer: SoftAnswer) -> OfflineResult
    ensures { result ≡ offline_result answer }
{
    match answer {
        SoftAnswer::Stopped | SoftAnswer::Kernel => OfflineResult::Stopped,
        SoftAnswer::Already => OfflineResult::Already,
        SoftAnswer::HasBad(mask) => OfflineResult::HasBad(mask),
        SoftAnswer::NoFrame => OfflineResult::NoFrame,
        SoftAnswer::TakenFree { .. } => OfflineResult::TakenFree,
        SoftAnswer::Moved { frame, at, .. } => OfflineResult::Moved(frame, at),
    }
}

impl Task for Course {
    ghost use Rattle.hwp_cpu.specs.Courses as courses;

    ghost task = { courses.task };

    #[inline(always)]
    fn who(&self) -> Who {
        self.own.who()
    }

    #[inline(always)]
    fn plan(&self) -> Option<Step> {
        match &self.beside {
            Some(soft) => soft.plan(),
            None => self.own.plan(),
        }
    }

    #[inline(always)]
    fn give(&mut self) -> Option<Body> {
        match &mut self.beside {
            Some(soft) => soft.give(),
            None => self.own.give(),
        }
    }

    #[inline(always)]
    fn settle(&mut self, layout: &Layout, found: u64, body: Option<Body>) -> Turn {
        if let Some(soft) = &mut self.beside {
            let turn = soft.settle(layout, found, body);
            let Some(answer) = soft.answer() else {
                return turn;
            };
            let frame = soft.frame();
            return self.after_soft(frame, answer);
        }
        let turn = self.own.settle(layout, found, body);
        if collects(&self.watching) {
            self.after_own(layout, turn)
        } else {
            turn
        }
    }
}

impl Ranked for Course {
    #[inline(always)]
    fn class(&self) -> u8 {
        match &self.beside {
            Some(soft) => soft.class(),
            None => self.own.class(),
        }
    }

    fn ranked() {}
}

impl Scheduled for Course {
    fn tells() {}
}
