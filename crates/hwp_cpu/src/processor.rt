ghost use Rattle.std.specs.Prelude.{◌≡◌, ◌+◌, ◌<◌, ◌≤◌, length, slice_get, None, IsSome, IfOk, OnErr};
ghost use Rattle.std.specs.List.{list_any};
ghost use Rattle.std.specs.Arc.{arc_value};
ghost use Rattle.hwp_cpu_row.specs.hwp_geom.Layout.{IsSound};
ghost use Rattle.hwp_cpu_row.specs.hwp_geom.Limits.{command_limit};
ghost use Rattle.hwp_cpu_row.specs.hwp_law.Commands.{is_watch};
ghost use Rattle.hwp_cpu.specs.Processors.{AreCommands, AtBeginning, BeginsAt, MayTellOf, left_of, line_of, told_local};
ghost use Rattle.hwp_law_served.specs.Rows.{at_number};

use crate::course::Course;
use hwp_cpu_row::{
    Answer, Body, Command, Cpu, GuestLine, Layout, List, Local, OutOfMemory, Ranked, Row,
    Scheduled, Step, Task, Turn, Who,
};
use std::alloc::{AllocError, Global};
use std::sync::Arc;

/// The commands of one processor, which run one after the other. Each comes to a row.
pub struct Processor {
    alloc: Global,
    layout: Arc<Layout, Global>,
    cpu: Cpu,
    commands: List<Command>,
    /// Rows of the answered commands; capacity is reserved for all of them.
    rows: Vec<Row>,
    /// What it carries from one command to the next.
    local: Local,
    /// The command that runs, whose number is that of the rows; none where all are answered.
    course: Option<Course>,
}

impl Processor {
    /// The processor at the beginning of its first command; its banks hold nothing, and the number of each of its handles is 0. If one of
    /// its commands is a `watch`, there is room for a collector, which doesn't collect yet.
    pub fn new(
        alloc: Global,
        layout: &Arc<Layout, Global>,
        cpu: Cpu,
        commands: &[Command],
    ) -> Result<Processor, OutOfMemory>
        requires sound { IsSound (arc_value layout.now) }
        requires commands { AreCommands (arc_value layout.now) cpu commands.now }
        ensures { IfOk result (λ p. AtBeginning (arc_value layout.now) cpu commands.now p) }
    {
        let layout = layout.clone()?;
        let list = List::from_vec(Vec::from_slice(alloc, commands)?);
        let rows = Vec::with_capacity(alloc, commands.len())?;
        let mut local = Local::new(alloc, &layout, has_watch(commands))?;
        let mut course = Some(Course::idle(alloc, Who { cpu, seq: 0 }));
        begin_next(alloc, &layout, cpu, commands, 0, &mut local, &mut course);
        Ok(Processor {
            alloc,
            layout,
            cpu,
            commands: list,
            rows,
            local,
            course,
        })
    }

    /// The rows of all commands, in order.
    ///
    /// # Errors
    /// `OutOfMemory` where a command is not answered: of a processor that is over, one that gave up because memory ran out.
    pub fn finish(self) -> Result<List<Row>, OutOfMemory>
        ensures all { IfOk result (λ rows. (rows ≡ self.rows.items) × (self.course ≡ None)) }
        ensures gave_up { OnErr result (IsSome self.course) }
    {
        let Processor {
            alloc: _,
            layout: _,
            cpu: _,
            commands: _,
            rows,
            local: _,
            course,
        } = self;
        let gave_up = course.is_some();
        // here, and not part by part at each exit
        drop(course);
        if gave_up {
            return Err(AllocError);
        }
        Ok(List::from_vec(rows))
    }
}

// by hand, so that it is proved once: with a derive each function that lets one go proves anew how each part goes
impl Drop for Processor {
    fn drop(self) {
        let Processor {
            alloc: _,
            layout: _,
            cpu: _,
            commands: _,
            rows: _,
            local: _,
            course: _,
        } = self;
    }
}

/// The processor knows what is frozen and switched behind the command of this number, which got this answer, and what each guest is; the
/// line is that of the guest which has a machine check by it.
fn remember(
    layout: &Layout,
    commands: &[Command],
    number: usize,
    answer: Answer,
    local: &mut Local,
) -> Option<GuestLine>
    requires few { number < command_limit }
    requires meets { MayTellOf layout.now (slice_get commands.now number) answer local.old.guests }
    ensures line { result ≡ line_of layout.now number (slice_get commands.now number) answer }
    ensures local { local.new ≡ told_local layout.now (slice_get commands.now number) answer local.old }
{
    let Some(command) = commands.get(number) else {
        return None;
    };
    local.cows.told(layout, command, answer);
    local.guests.told(layout, number as u32, command, answer)
}

/// Whether one of the commands is a `watch`.
fn has_watch(commands: &[Command]) -> bool
    ensures { result ≡ list_any is_watch commands.now }
{
    commands
        .iter()
        .any(|command| matches!(*command, Command::Watch { .. }))
}

/// The command of this number begins, in place of the one that runs; past the last none runs. It takes what the banks hold, if it can add to
/// that, gets the number of its file's handle, and has the processor's collector while it runs. It is acted on through the translations that
/// stand for those that it names.
fn begin_next(
    alloc: Global,
    layout: &Layout,
    cpu: Cpu,
    commands: &[Command],
    number: usize,
    local: &mut Local,
    course: &mut Option<Course>,
)
    requires sound { IsSound layout.now }
    requires commands { AreCommands layout.now cpu commands.now }
    requires inside { number ≤ length commands.now }
    requires running { IsSome course.old }
    ensures begins { BeginsAt layout.now (at_number cpu number) (slice_get commands.now number) local.old course.new }
    ensures local { local.new ≡ left_of course.new local.old }
{
    let Some(command) = commands.get(number) else {
        end(course);
        return;
    };
    let who = Who {
        cpu,
        seq: number as u32,
    };
    let copies = local.cows.copied_from(command);
    let acting = local.cows.acting(layout, command);
    let admit = local.guests.admission(layout, command);
    match course {
        Some(running) => running.begin_next(alloc, layout, who, acting, copies, admit, local),
        None => unreachable!(),
    }
}

/// None runs. The one that ran is let go where it lies.
fn end<T: Drop>(course: &mut Option<T>)
    ensures { course.new ≡ None }
{
    *course = None;
}

impl Task for Processor {
    ghost use Rattle.hwp_cpu.specs.Serving as serving;

    ghost task = { serving.task };

    #[inline(always)]
    fn who(&self) -> Who {
        match &self.course {
            Some(course) => course.who(),
            None => Who {
                cpu: self.cpu,
                seq: 0,
            },
        }
    }

    #[inline(always)]
    fn plan(&self) -> Option<Step> {
        match &self.course {
            Some(course) => course.plan(),
            None => None,
        }
    }

    #[inline(always)]
    fn give(&mut self) -> Option<Body> {
        match &mut self.course {
            Some(course) => course.give(),
            None => None,
        }
    }

    fn settle(&mut self, layout: &Layout, found: u64, body: Option<Body>) -> Turn {
        let Some(course) = &mut self.course else {
            return Turn::Moved;
        };
        let turn = course.settle(layout, found, body);
        let Some(answer) = course.answer() else {
            return turn;
        };
        // it is answered: its row is kept, and the next one begins with what it left
        let mut row = course.finish(self.alloc, answer, &mut self.local);
        let number = self.rows.len();
        let commands = self.commands.as_slice();
        row.guest = remember(&self.layout, commands, number, answer, &mut self.local);
        self.rows.push_reserved(row);
        begin_next(
            self.alloc,
            &self.layout,
            self.cpu,
            commands,
            number + 1,
            &mut self.local,
            &mut self.course,
        );
        Turn::Answered
    }
}

impl Ranked for Processor {
    #[inline(always)]
    fn class(&self) -> u8 {
        match &self.course {
            Some(course) => course.class(),
            None => 4,
        }
    }

    fn ranked() {}
}

impl Scheduled for Processor {
    fn tells() {}
}
