ghost use Rattle.std.specs.Prelude.{◌≡◌, ◌↔◌, IsTrue};
ghost use Rattle.hwp_law.specs.Causes.{WasHardwareSeen};
ghost use Rattle.hwp_law.specs.Records.{is_by_hardware, who_in};
ghost use Rattle.hwp_check_evidence.specs.Marked.{no_command, reported, reported_at, reported_by, reported_in};

use hwp_law::{Cpu, FrameLine, How, MarkLine, Report, Who};

/// What stands for no command.
const NO_COMMAND: u64 = 4_294_967_296;

/// The command of a mark.
fn who_in(mark: &MarkLine) -> Who
    ensures { result ≡ who_in mark.now }
{
    match *mark {
        MarkLine::Poisoned { who, .. } => who,
        MarkLine::Unpoisoned { who, .. } => who,
    }
}

/// Whether a bank's event caused the mark.
fn is_by_hardware(mark: &MarkLine) -> bool
    ensures { result ≡ is_by_hardware mark.now }
{
    match *mark {
        MarkLine::Poisoned {
            how: How::Failure { hardware, .. },
            ..
        } => hardware,
        _ => false,
    }
}

/// The command of the processor at whose end the mark had been made.
fn reported_at(cpu: Cpu, mark: &MarkLine) -> u64
    ensures { result ≡ reported_at cpu mark.now }
{
    let who = who_in(mark);
    if who.cpu.0 == cpu.0 {
        u64::from(who.seq)
    } else {
        0
    }
}

/// The first command of the processor at whose end a bank's event had poisoned the frame, or one of those before.
fn reported_in(cpu: Cpu, before: u64, line: &FrameLine) -> u64
    ensures { result ≡ reported_in cpu before line.now }
{
    let mut first = before;
    for mark in line.marks.as_slice() {
        if is_by_hardware(mark) {
            first = first.min(reported_at(cpu, mark));
        }
    }
    first
}

/// The same of all frames.
pub fn reported(cpu: Cpu, frames: &[FrameLine]) -> u64
    ensures { result ≡ reported cpu frames.now }
{
    let mut first = NO_COMMAND;
    for line in frames {
        first = reported_in(cpu, first, line);
    }
    first
}

/// Whether a bank's event had poisoned some frame, by no later command of the processor.
#[tactic(auto, using(crate::proofs::MarkLaws::seen_low, crate::proofs::MarkLaws::low_seen))]
pub fn was_hardware_seen(report: &Report, first: u64, who: Who) -> bool
    requires { first ≡ reported who.cpu report.now.frames }
    ensures { IsTrue result ↔ WasHardwareSeen report.now who }
{
    let _frames = report.frames.as_slice();
    first <= u64::from(who.seq)
}
