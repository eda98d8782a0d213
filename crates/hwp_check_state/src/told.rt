ghost use Rattle.std.specs.Prelude.{◌≡◌, ◌↔◌, None, length, replicate, IfOk, IsTrue};
ghost use Rattle.hwp_check_state.specs.Lost.{AreLosses};
ghost use Rattle.hwp_check_state.specs.Told.{capped, fault_by, fault_of, is_good, number_with, raised, raised_by, telling, told_by, told_in, told_to, walk};

use crate::lost::{Loss, lost, lost_before};
use hwp_check_rules::{
    Answer, Command, Cpu, CpuLine, FileNo, OutOfMemory, Report, Script, Who, seq_of, soonest,
};
use std::alloc::Global;

/// What an answer told of a file: how many losses the processor hadn't been told of, or all of them.
#[derive(Clone, Copy)]
pub struct Told {
    pub file: FileNo,
    pub losses: u64,
    pub all: bool,
}

/// That of so many losses more the processor was told.
fn telling(file: FileNo, losses: u64) -> Told
    ensures { result ≡ telling file losses }
{
    Told {
        file,
        losses,
        all: false,
    }
}

/// What the answer of a command told.
fn told_by(command: &Command, answer: &Answer) -> Option<Told>
    ensures { result ≡ told_by command.now answer.now }
{
    match *command {
        Command::Fsync { file } => match *answer {
            Answer::Done => Some(telling(file, 0)),
            Answer::Eio(more) => Some(telling(file, more)),
            _ => None,
        },
        Command::Open { file } => match *answer {
            Answer::Opened(losses) => {
                Some(Told {
                    file,
                    losses,
                    all: true,
                })
            }
            _ => None,
        },
        _ => None,
    }
}

/// What a line told: an answer is that of the command with its number.
fn told_in(commands: &[Command], row: &CpuLine) -> Option<Told>
    ensures { result ≡ told_in commands.now row.now }
{
    match row {
        CpuLine::Event(_) | CpuLine::Offlined(_) | CpuLine::Guest(_) => None,
        CpuLine::Answer { seq, answer } => match commands.get(*seq as usize) {
            None => None,
            Some(command) => told_by(command, answer),
        },
    }
}

/// A handle's number after this was told, where it was `old`.
fn number_with(old: u64, told: Told) -> u64
    ensures { result ≡ capped (number_with old told) }
{
    if told.all {
        told.losses
    } else {
        old.saturating_add(told.losses)
    }
}

/// Whether a handle's number has not fallen, is at most the file's losses, and at least those by earlier commands of the processor.
fn is_good(
    script: &Script,
    report: &Report,
    list: &[Loss],
    file: FileNo,
    who: Who,
    old: u64,
    number: u64,
) -> bool
    requires { AreLosses script.now report.now list.now }
    ensures { result ≡ is_good script.now report.now file who old number }
{
    old <= number
        && number <= lost(script, report, list, file)
        && lost_before(script, report, list, file, who) <= number
}

/// Sets the number of the handle to what was told of it, and answers the file's line where the number is wrong then.
fn raise(
    script: &Script,
    report: &Report,
    list: &[Loss],
    numbers: &mut Vec<u64>,
    who: Who,
    told: Told,
) -> Option<u64>
    requires { AreLosses script.now report.now list.now }
    ensures numbers { numbers.new.items ≡ raised numbers.old.items told }
    ensures fault { result ≡ fault_of script.now report.now who numbers.old.items told }
{
    let at = usize::from(told.file.0);
    if at >= numbers.len() {
        return None;
    }
    let old = numbers[at];
    let number = number_with(old, told);
    numbers[at] = number;
    if is_good(script, report, list, told.file, who, old, number) {
        return None;
    }
    Some(4 + u64::from(told.file.0))
}

/// The same, where something was told.
fn raise_by(
    script: &Script,
    report: &Report,
    list: &[Loss],
    numbers: &mut Vec<u64>,
    who: Who,
    told: Option<Told>,
) -> Option<u64>
    requires { AreLosses script.now report.now list.now }
    ensures numbers { numbers.new.items ≡ raised_by numbers.old.items told }
    ensures fault { result ≡ fault_by script.now report.now who numbers.old.items told }
{
    match told {
        None => None,
        Some(told) => raise(script, report, list, numbers, who, told),
    }
}

/// The line of the first file of which a processor was told a wrong number. The numbers of its handles begin with 0.
pub(crate) fn told_fault(
    alloc: Global,
    script: &Script,
    report: &Report,
    list: &[Loss],
    cpu: Cpu,
    commands: &[Command],
    rows: &[CpuLine],
) -> Result<Option<u64>, OutOfMemory>
    requires { AreLosses script.now report.now list.now }
    ensures { IfOk result (λ found. found ≡ walk script.now report.now cpu commands.now (replicate script.now.layout.files 0) None rows.now) }
{
    let mut numbers = vec![in alloc; 0; usize::from(script.layout.files)]?;
    let mut found = None;
    for row in rows {
        let who = Who {
            cpu,
            seq: seq_of(row),
        };
        let told = told_in(commands, row);
        found = soonest(
            found,
            raise_by(script, report, list, &mut numbers, who, told),
        );
    }
    Ok(found)
}
