ghost use Rattle.std.specs.Prelude.{◌≡◌, ◌≤◌, ◌<◌, ◌+◌, ◌^◌, Some, length, slice_get, sum_by, IfOk};
ghost use Rattle.hwp_check_event_line.specs.Scripts.{IsDeclared};
ghost use Rattle.hwp_check_events.specs.Cases.{IsCaseAt, IsOfScript};
ghost use Rattle.hwp_check_events.specs.Indexed.{all_checkers};

use crate::case::EventCase;
use crate::checks::checks_by_command;
use crate::copied::{copied_of, list_at};
use crate::index::{answers_by_command, events_by_command};
use crate::known::Known;
use hwp_check_event_line::{Shown, Traced, rows_on};
use hwp_law::{Answer, Command, Cpu, Line, List, OutOfMemory, Script, VSlot, Who};
use std::alloc::Global;
use std::marker::Model;

/// A processor with its commands, and by their numbers the event lines of each, its first answer, its machine checks and those of its copy.
/// Clauses see the processor, its commands, the script and the report.
#[derive(Drop)]
pub(crate) struct IndexedProcessor<'a> {
    script: &'a Script,
    copies: &'a [List<Option<VSlot>>],
    report: &'a Traced<'a>,
    cpu: Cpu,
    commands: &'a [Command],
    lists: Vec<List<Shown>>,
    answers: Vec<Option<Answer>>,
    checks: Vec<u64>,
    copied: List<List<Line>>,
}

impl<'a> Model for IndexedProcessor<'a> {
    ghost use Rattle.hwp_check_events.specs.Cases.{IsIndexed, ProcessorValue};

    ghost Value = { ProcessorValue };

    ghost view = { λ p. record { script = p.script.now; copies = p.copies.now; report = p.report.now; cpu = p.cpu; commands = p.commands.now } };

    ghost invariant = { λ p. IsIndexed (record { script = p.script.now; copies = p.copies.now; report = p.report.now; cpu = p.cpu; commands = p.commands.now }) p.lists.items p.answers.items p.checks.items p.copied };
}

impl<'a> IndexedProcessor<'a> {
    /// A processor with these commands, and with the machine checks that the histories show.
    pub(crate) fn new(
        alloc: Global,
        script: &'a Script,
        copies: &'a [List<Option<VSlot>>],
        report: &'a Traced<'a>,
        cpu: Cpu,
        commands: &'a [Command],
        checkers: &[Who],
    ) -> Result<IndexedProcessor<'a>, OutOfMemory>
        requires valid { IsDeclared script.now }
        requires frames { length report.now.frames ≤ 65536 }
        requires room { sum_by length report.now.pages + 1 < 2 ^ 64 }
        requires of_script { slice_get script.now.lists cpu.0 ≡ Some commands.now }
        requires checkers { checkers.now ≡ all_checkers report.now.pages }
        ensures { IfOk result (λ p. p ≡ record { script = script.now; copies = copies.now; report = report.now; cpu = cpu; commands = commands.now }) }
    {
        let told = report.get();
        let rows = rows_on(told, cpu);
        let count = commands.len();
        let lists = events_by_command(alloc, count, rows)?;
        let answers = answers_by_command(alloc, count, rows)?;
        let checks = checks_by_command(alloc, count, cpu, told.pages.as_slice(), checkers)?;
        let copied = copied_of(alloc, &script.layout, copies, told, cpu, commands)?;
        Ok(IndexedProcessor {
            script,
            copies,
            report,
            cpu,
            commands,
            lists,
            answers,
            checks,
            copied,
        })
    }

    /// How many commands it has.
    pub(crate) fn count(&self) -> usize
        ensures count { result ≡ length self.now.commands }
        ensures of_script { IsOfScript self.now }
    {
        self.commands.len()
    }

    /// Its command with the number.
    pub(crate) fn case<'b>(&'b self, number: usize) -> EventCase<'b>
        requires { number < length self.now.commands }
        ensures { IsCaseAt self.now number result }
    {
        let commands = self.commands;
        let seq = number as u32;
        let known = Known {
            checks: self.checks[number],
            answer: self.answers[number],
        };
        EventCase {
            script: self.script,
            copies: self.copies,
            report: self.report,
            who: Who { cpu: self.cpu, seq },
            command: &commands[number],
            known,
            copied: list_at(self.copied.as_slice(), number),
            lines: self.lists[number].as_slice(),
        }
    }
}
