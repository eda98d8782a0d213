ghost use Rattle.std.specs.Prelude.{◌≡◌, ◌↔◌, ◌+◌, option_map, IsTrue, MatchOption};
ghost use Rattle.std.specs.List.{find};
ghost use Rattle.hwp_plain.specs.hwp_words.Stops.{stopper_of};
ghost use Rattle.hwp_cpu_row.specs.hwp_report_text.declared.Answer.TheVariants as answers;
ghost use Rattle.hwp_plain.specs.hwp_core_rule.Lists.{EachMember};
ghost use Rattle.hwp_cpu_row.specs.hwp_report_text.Acts.{is_panic, is_stopping};
ghost use Rattle.hwp_cpu_row.specs.hwp_law.Commands.{arrival_of};
ghost use Rattle.hwp_law_served.specs.Runs.{panic_cause, severity_cause, told_cause};
ghost use Rattle.hwp_law_served.specs.Served.{HasStopped};
ghost use Rattle.hwp_top_report.specs.Closing.{AreTellable, HasStopper, IsFirstStop, IsNamed, IsStopBy, IsTellable, cause_in, command_in, own_cause};

use crate::notes::frame_of;
use hwp_cpu_row::{
    Answer, Command, Cpu, EventOutcome, List, McgBits, Mode, Row, Stop, StopCause, StopWord, Who,
};

/// The stop record: the processor that the stop word names, the first of its commands that was answered `stopped`, and why that
/// one stopped the machine.
pub(crate) fn stop_of(word: u64, lists: &[List<Command>], rows: &[List<Row>]) -> Option<Stop>
    requires stopper { HasStopper word rows.now }
    requires tellable { AreTellable rows.now }
    ensures { IsStopBy word lists.now rows.now result }
{
    let Some(cpu) = stopper_of(word) else {
        return None;
    };
    let own = rows[usize::from(cpu.0)].as_slice();
    let seq = first_stop(own);
    let who = Who { cpu, seq };
    let cause = cause_in(command_in(lists, who), own[seq as usize].told.as_slice());
    Some(Stop { who, cause })
}

/// The processor that stopped the machine, by the stop word.
fn stopper_of(word: u64) -> Option<Cpu>
    ensures { MatchOption result (stopper_of word ≡ 0) (λ cpu. stopper_of word ≡ cpu.0 + 1) }
{
    StopWord::unpack(word).cpu
}

/// The command of a processor with a number.
fn command_in(lists: &[List<Command>], who: Who) -> Option<Command>
    ensures { result ≡ command_in lists.now who }
{
    let Some(list) = lists.get(usize::from(who.cpu.0)) else {
        return None;
    };
    let Some(command) = list.as_slice().get(who.seq as usize) else {
        return None;
    };
    Some(*command)
}

/// Why a command stops the machine: one that doesn't do so itself does by an event of its machine checks.
fn cause_in(command: Option<Command>, told: &[EventOutcome]) -> StopCause
    requires named { EachMember IsNamed told.now }
    ensures { result ≡ cause_in command told.now }
{
    let Some(command) = command else {
        return StopCause::Shutdown;
    };
    if let Some(cause) = own_cause(&command) {
        return cause;
    }
    told_cause(&command, told).unwrap_or(StopCause::Shutdown)
}

/// Why a command stops the machine itself: a machine check inside another one shuts it down, and a failure that the command brings
/// about is a panic.
fn own_cause(command: &Command) -> Option<StopCause>
    ensures { result ≡ own_cause command.now }
{
    match command {
        Command::RaiseNested => Some(StopCause::Shutdown),
        Command::Inject { frame } => Some(StopCause::Panic(*frame)),
        _ => None,
    }
}

/// The first event that is graded as stopping the machine, and else the first whose failure is a panic.
fn told_cause(command: &Command, told: &[EventOutcome]) -> Option<StopCause>
    requires named { EachMember IsNamed told.now }
    ensures { result ≡ told_cause (arrival_of command.now) told.now }
{
    let (mcg, mode) = arrival_of(command);
    severity_cause(mcg, mode, told).or(panic_cause(told))
}

/// How the machine checks of a command arrive: RIPV and EIPV, and the mode of the processor.
fn arrival_of(command: &Command) -> (McgBits, Mode)
    ensures mcg { result.0 ≡ (arrival_of command.now).mcg }
    ensures mode { result.1 ≡ (arrival_of command.now).mode }
{
    let (ripv, eipv, mode) = match command {
        Command::KLoad { .. } | Command::Scrub { .. } => (true, true, Mode::Kernel),
        Command::RaiseUser { ripv, eipv, .. } => (*ripv, *eipv, Mode::User),
        Command::RaiseKernel { ripv, eipv } => (*ripv, *eipv, Mode::Kernel),
        _ => (true, true, Mode::User),
    };
    (McgBits { ripv, eipv }, mode)
}

/// The first event that is graded as stopping the machine.
fn severity_cause(mcg: McgBits, mode: Mode, told: &[EventOutcome]) -> Option<StopCause>
    ensures { result ≡ option_map (severity_cause (record { mcg = mcg; mode = mode })) (find (λ t. is_stopping t.acted) told.now) }
{
    for event in told {
        if event.acted.is_stopping() {
            return Some(StopCause::Severity {
                row: event.held.grade.row,
                bank: event.held.bank,
                status: event.held.event.status.0,
                mcg,
                mode,
            });
        }
    }
    None
}

/// The first event whose failure is a panic.
fn panic_cause(told: &[EventOutcome]) -> Option<StopCause>
    requires named { EachMember IsNamed told.now }
    ensures { result ≡ option_map panic_cause (find (λ t. is_panic t.acted) told.now) }
{
    for event in told {
        if event.acted.is_panic() {
            return Some(StopCause::Panic(frame_of(&event.held)));
        }
    }
    None
}

/// The number of the first command that was answered `stopped`.
fn first_stop(rows: &[Row]) -> u32
    requires tellable { IsTellable rows.now }
    requires some { HasStopped rows.now }
    ensures { IsFirstStop rows.now result }
{
    for number in 0..rows.len() {
        if is_stopped(&rows[number]) {
            return number as u32;
        }
    }
    unreachable!()
}

/// Whether the command was answered `stopped`.
fn is_stopped(row: &Row) -> bool
    ensures { IsTrue result ↔ (row.now.answer ≡ answers.Stopped) }
{
    matches!(row.answer, Answer::Stopped)
}
