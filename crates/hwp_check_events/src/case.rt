ghost use Rattle.std.specs.Prelude.{◌≡◌};
ghost use Rattle.hwp_check_event_line.specs.Misfits.{IsFit};

use crate::known::Known;
use hwp_check_event_line::{Shown, Traced};
use hwp_law::{Command, Line, List, Script, VSlot, Who};
use std::marker::Model;

/// A command with its event lines, and what the report says of it, by which its lines are judged. Clauses see the command, its number, its
/// lines, the script and the report.
#[derive(Drop)]
pub(crate) struct EventCase<'a> {
    pub(crate) script: &'a Script,
    pub(crate) copies: &'a [List<Option<VSlot>>],
    pub(crate) report: &'a Traced<'a>,
    pub(crate) who: Who,
    pub(crate) command: &'a Command,
    pub(crate) known: Known,
    pub(crate) copied: &'a [Line],
    pub(crate) lines: &'a [Shown],
}

impl<'a> Model for EventCase<'a> {
    ghost use Rattle.hwp_check_events.specs.Cases.{CaseValue, IsCase};

    ghost Value = { CaseValue };

    ghost view = { λ c. record { script = c.script.now; copies = c.copies.now; report = c.report.now; who = c.who; command = c.command.now; lines = c.lines.now } };

    ghost invariant = { λ c. IsCase c.script.now c.copies.now c.report.now c.who c.command.now c.known c.copied.now };
}

impl<'a> EventCase<'a> {
    /// The command. The frames of a scrub are in order.
    pub(crate) fn command(&self) -> &Command
        ensures command { result.now ≡ self.now.command }
        ensures fit { IsFit result.now }
    {
        self.command
    }

    /// Its event lines.
    pub(crate) fn lines(&self) -> &[Shown]
        ensures { result.now ≡ self.now.lines }
    {
        self.lines
    }
}
