ghost use Rattle.std.specs.Prelude.{◌≡◌, ◌≤◌, ◌<◌, IfOk, Some, length, slice_get};
ghost use Rattle.std.specs.Option.{option_copied};
ghost use Rattle.hwp_check_evidence.specs.hwp_geom.Limits.{page_limit};
ghost use Rattle.hwp_check_answers.specs.Facts.{at_number};
ghost use Rattle.hwp_check_causes.specs.Knowing.{IsKnown};

use crate::facts::{Facts, facts_of, own_and_naming, told_at};
use crate::judging::Naming;
use hwp_check_causes::{Case, ProcessorFacts, ReportFacts};
use hwp_check_rules::{Command, Cpu, CpuLine, List, OutOfMemory, Report, Script, VSlot, Who};
use std::alloc::Global;
use std::marker::Model;

/// A processor with its commands and its lines, and what is known of them. Clauses see the processor, its commands, its lines, the
/// script and the report.
#[derive(Drop)]
pub(crate) struct JudgedProcessor<'a> {
    pub(crate) script: &'a Script,
    pub(crate) copies: &'a [List<Option<VSlot>>],
    pub(crate) report: &'a Report,
    pub(crate) cpu: Cpu,
    pub(crate) commands: &'a [Command],
    pub(crate) rows: &'a [CpuLine],
    pub(crate) known: &'a ReportFacts,
    pub(crate) own: ProcessorFacts,
    pub(crate) facts: Facts,
    pub(crate) naming: Naming,
}

impl<'a> Model for JudgedProcessor<'a> {
    ghost use Rattle.hwp_check_rules.specs.hwp_check_event_line.Reading.{copies_in};
    ghost use Rattle.hwp_check_answers.specs.Facts.{IsReady};
    ghost use Rattle.hwp_check_answers.specs.Values.{ProcessorValue};

    ghost Value = { ProcessorValue };

    ghost view = { λ p. record { script = p.script.now; copies = p.copies.now; report = p.report.now; cpu = p.cpu; commands = p.commands.now; rows = p.rows.now } };

    ghost invariant = { λ p. IsReady p.script.now (copies_in p.copies.now) p.report.now p.cpu p.commands.now p.rows.now p.known.now p.own p.facts p.naming };
}

impl<'a> JudgedProcessor<'a> {
    /// A processor whose commands and lines these are.
    pub(crate) fn new(
        alloc: Global,
        script: &'a Script,
        copies: &'a [List<Option<VSlot>>],
        report: &'a Report,
        known: &'a ReportFacts,
        cpu: Cpu,
        commands: &'a [Command],
        rows: &'a [CpuLine],
    ) -> Result<JudgedProcessor<'a>, OutOfMemory>
        requires few { length report.now.pages ≤ page_limit }
        requires known { IsKnown script.now report.now known.now }
        requires of_script { slice_get script.now.lists cpu.0 ≡ Some commands.now }
        requires of_report { slice_get report.now.cpus cpu.0 ≡ Some rows.now }
        ensures { IfOk result (λ processor. processor ≡ record { script = script.now; copies = copies.now; report = report.now; cpu = cpu; commands = commands.now; rows = rows.now }) }
    {
        let (own, naming) = own_and_naming(alloc, script, copies, report, cpu, commands, rows)?;
        let facts = facts_of(alloc, &script.layout, commands, rows)?;
        Ok(JudgedProcessor {
            script,
            copies,
            report,
            cpu,
            commands,
            rows,
            known,
            own,
            facts,
            naming,
        })
    }

    /// Its line with the number.
    pub(crate) fn line(&self, number: usize) -> &CpuLine
        requires { number < length self.now.rows }
        ensures there { slice_get self.now.rows number ≡ Some result.now }
        ensures shown { slice_get self.now.report.cpus self.now.cpu.0 ≡ Some self.now.rows }
    {
        let rows = self.rows;
        &rows[number]
    }

    /// Its command with the number.
    pub(crate) fn command(&self, seq: u32) -> Option<&Command>
        ensures { option_copied result ≡ slice_get self.now.commands seq }
    {
        self.commands.get(seq as usize)
    }

    /// The case of its command with the number.
    pub(crate) fn case<'b>(&'b self, seq: u32, command: &'b Command) -> Case<'b>
        requires { slice_get self.now.commands seq ≡ Some command.now }
        ensures { result ≡ record { script = self.now.script; report = self.now.report; who = at_number self.now.cpu seq; command = command.now } }
    {
        let told = told_at(&self.facts, seq);
        let who = Who { cpu: self.cpu, seq };
        Case::new(
            self.script,
            self.report,
            self.known,
            &self.own,
            told,
            who,
            command,
        )
    }
}
