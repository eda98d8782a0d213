ghost use Rattle.std.specs.Prelude.{◌≡◌};
ghost use Rattle.hwp_check_causes.specs.Knowing.{IsKnown, IsOwn, IsTold};

use crate::facts::{CommandFacts, ProcessorFacts, ReportFacts};
use hwp_check_rules::{Command, Report, Script, Who};
use std::marker::Model;

/// A command with its script and the report, and what is known of them, by which its answer is judged. Clauses see the command, its
/// number, the script and the report.
#[derive(Drop)]
pub struct Case<'a> {
    pub(crate) script: &'a Script,
    pub(crate) report: &'a Report,
    pub(crate) known: &'a ReportFacts,
    pub(crate) own: &'a ProcessorFacts,
    pub(crate) told: CommandFacts,
    pub(crate) who: Who,
    pub(crate) command: &'a Command,
}

impl<'a> Model for Case<'a> {
    ghost use Rattle.hwp_check_causes.specs.Cases.{CaseValue, IsCase};

    ghost Value = { CaseValue };

    ghost view = { λ c. record { script = c.script.now; report = c.report.now; who = c.who; command = c.command.now } };

    ghost invariant = { λ c. IsCase c.script.now c.report.now c.who c.command.now c.known.now c.own.now c.told };
}

impl<'a> Case<'a> {
    /// The case of the command with this number.
    pub fn new(
        script: &'a Script,
        report: &'a Report,
        known: &'a ReportFacts,
        own: &'a ProcessorFacts,
        told: CommandFacts,
        who: Who,
        command: &'a Command,
    ) -> Case<'a>
        requires known { IsKnown script.now report.now known.now }
        requires own { IsOwn script.now report.now who.cpu own.now }
        requires told { IsTold script.now report.now who command.now told }
        ensures { result ≡ record { script = script.now; report = report.now; who = who; command = command.now } }
    {
        Case {
            script,
            report,
            known,
            own,
            told,
            who,
            command,
        }
    }

    /// The script.
    pub fn script(&self) -> &Script
        ensures { result.now ≡ self.now.script }
    {
        self.script
    }

    /// The report.
    pub fn report(&self) -> &Report
        ensures { result.now ≡ self.now.report }
    {
        self.report
    }

    /// The number of the command.
    pub fn who(&self) -> Who
        ensures { result ≡ self.now.who }
    {
        self.who
    }

    /// What is known of the report for the answers of the command's processor.
    pub fn own(&self) -> &ProcessorFacts
        ensures { IsOwn self.now.script self.now.report self.now.who.cpu result.now }
    {
        self.own
    }
}
