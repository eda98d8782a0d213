ghost use Rattle.std.specs.Prelude.{◌≡◌, ◌↔◌, false, Some, IsTrue};
ghost use Rattle.hwp_check_rules.specs.hwp_report_text.declared.Answer.TheVariants as answers;
ghost use Rattle.hwp_check_rules.specs.hwp_law.Commands.{arrival_of};
ghost use Rattle.hwp_check_rules.specs.hwp_law.Halts.{CanStop, IsStopOf, IsStoppedBy, Panics, is_panic_of};
ghost use Rattle.hwp_check_rules.specs.hwp_law.Lines.{answer_of, events_of};
ghost use Rattle.hwp_check_state.specs.Stopping.{IsCausedStop, all_stay, goes_on, has_stopped, is_lower, is_of_event, is_stopped, is_stopper, rows_panic, rows_stopped_by, some_stopped, stays};

use hwp_check_rules::{
    Answer, Command, CpuLine, Frame, List, McgBits, Mode, Report, Script, Stop, StopCause, Who,
    answer_among, command_of, rows_of,
};

/// Whether the line is an answer `stopped`.
fn is_stopped(row: &CpuLine) -> bool
    ensures { result ≡ is_stopped row.now }
{
    match row {
        CpuLine::Answer { answer, .. } => matches!(answer, Answer::Stopped),
        CpuLine::Event(_) | CpuLine::Offlined(_) | CpuLine::Guest(_) => false,
    }
}

/// Whether the line is another answer.
fn goes_on(row: &CpuLine) -> bool
    ensures { result ≡ goes_on row.now }
{
    match row {
        CpuLine::Answer { answer, .. } => !matches!(answer, Answer::Stopped),
        CpuLine::Event(_) | CpuLine::Offlined(_) | CpuLine::Guest(_) => false,
    }
}

/// Whether some answer is `stopped`.
fn has_stopped(rows: &[CpuLine]) -> bool
    ensures { result ≡ has_stopped rows.now }
{
    for row in rows {
        if is_stopped(row) {
            return true;
        }
    }
    false
}

/// Whether behind the first `stopped` no line has another answer.
fn stays_stopped(rows: &[CpuLine]) -> bool
    ensures { result ≡ stays false rows.now }
{
    let mut stopped = false;
    for row in rows {
        if stopped && goes_on(row) {
            return false;
        }
        stopped = stopped || is_stopped(row);
    }
    true
}

/// The record of an event that stopped the machine.
#[derive(Clone, Copy)]
struct Graded {
    row: u8,
    bank: u8,
    status: u64,
}

/// Whether the line is of the command, and stopped the machine so.
fn is_stopper(line: &CpuLine, number: u32, by: Graded) -> bool
    ensures { result ≡ is_of_event number (is_stopper by.row by.bank by.status) line.now }
{
    match line {
        CpuLine::Event(event) => {
            number == event.seq
                && event.acted.is_stopping()
                && event.bank == by.bank
                && event.status == by.status
                && event.row == by.row
        }
        CpuLine::Offlined(_) | CpuLine::Guest(_) | CpuLine::Answer { .. } => false,
    }
}

/// Whether the line is of the command, and stopped the machine by a lower bank.
fn is_lower(line: &CpuLine, number: u32, by: Graded) -> bool
    ensures { result ≡ is_of_event number (is_lower by.bank) line.now }
{
    match line {
        CpuLine::Event(event) => {
            number == event.seq && event.acted.is_stopping() && event.bank < by.bank
        }
        CpuLine::Offlined(_) | CpuLine::Guest(_) | CpuLine::Answer { .. } => false,
    }
}

/// Whether a line of the command stopped the machine so, and none before it by a lower bank.
fn is_stopped_by(rows: &[CpuLine], number: u32, by: Graded) -> bool
    ensures { result ≡ rows_stopped_by number by.row by.bank by.status rows.now }
{
    for line in rows {
        if is_stopper(line, number, by) {
            return true;
        }
        if is_lower(line, number, by) {
            return false;
        }
    }
    false
}

/// Whether the line is of the command, and was a panic of the frame.
fn is_panic_of(line: &CpuLine, number: u32, frame: Frame) -> bool
    ensures { result ≡ is_of_event number (is_panic_of frame) line.now }
{
    match line {
        CpuLine::Event(event) => {
            number == event.seq && event.acted.is_panic() && event.addr / 4096 == u64::from(frame.0)
        }
        CpuLine::Offlined(_) | CpuLine::Guest(_) | CpuLine::Answer { .. } => false,
    }
}

/// Whether a line of the command was a panic of the frame.
fn has_panic(rows: &[CpuLine], number: u32, frame: Frame) -> bool
    ensures { result ≡ rows_panic number frame rows.now }
{
    for line in rows {
        if is_panic_of(line, number, frame) {
            return true;
        }
    }
    false
}

/// Whether the machine checks of the command arrive so.
fn arrives_so(command: &Command, mcg: McgBits, mode: Mode) -> bool
    ensures { IsTrue result ↔ (arrival_of command.now ≡ record { mcg = mcg; mode = mode }) }
{
    let (ripv, eipv, expected) = match command {
        Command::KLoad { .. } | Command::Scrub { .. } => (true, true, Mode::Kernel),
        Command::RaiseUser { ripv, eipv, .. } => (*ripv, *eipv, Mode::User),
        Command::RaiseKernel { ripv, eipv } => (*ripv, *eipv, Mode::Kernel),
        _ => (true, true, Mode::User),
    };
    mcg.ripv == ripv && mcg.eipv == eipv && mode == expected
}

/// Whether an event of the command stopped the machine so.
#[tactic(auto, using(crate::proofs::StopScans::stopped_by_is))]
fn has_stopper(report: &Report, who: Who, by: Graded) -> bool
    ensures { IsTrue result ↔ IsStoppedBy by.row by.bank by.status (events_of report.now who) }
{
    is_stopped_by(rows_of(report, who), who.seq, by)
}

/// Whether the command meets a panic of the frame.
#[tactic(auto, using(crate::proofs::StopScans::rows_panics))]
fn panics(report: &Report, who: Who, frame: Frame, command: &Command) -> bool
    ensures { IsTrue result ↔ Panics report.now who frame command.now }
{
    match command {
        Command::Inject { frame: other } => other.0 == frame.0,
        _ => has_panic(rows_of(report, who), who.seq, frame),
    }
}

/// Whether the command can stop the machine for this cause.
fn can_stop(script: &Script, report: &Report, stop: &Stop, command: &Command) -> bool
    ensures { IsTrue result ↔ CanStop script.now report.now stop.now.who command.now stop.now.cause }
{
    match stop.cause {
        StopCause::Severity {
            row,
            bank,
            status,
            mcg,
            mode,
        } => {
            has_stopper(report, stop.who, Graded { row, bank, status })
                && arrives_so(command, mcg, mode)
        }
        StopCause::Panic(frame) => {
            !script.layout.recovery && panics(report, stop.who, frame, command)
        }
        StopCause::Shutdown => matches!(command, Command::RaiseNested),
    }
}

/// Whether the command was answered `stopped`.
fn was_stopped(report: &Report, who: Who) -> bool
    ensures { IsTrue result ↔ (answer_of report.now who ≡ Some answers.Stopped) }
{
    matches!(
        answer_among(rows_of(report, who), who.seq),
        Some(Answer::Stopped)
    )
}

/// Whether the record is that of a command that stopped the machine.
fn is_stop_of(script: &Script, report: &Report, stop: &Stop) -> bool
    ensures { IsTrue result ↔ IsStopOf script.now report.now stop.now }
{
    match command_of(script, stop.who) {
        Some(command) => {
            can_stop(script, report, stop, &command) && was_stopped(report, stop.who)
        }
        None => false,
    }
}

/// Whether the stop, if there is one, is that of a command.
pub(crate) fn is_caused(script: &Script, report: &Report) -> bool
    ensures { IsTrue result ↔ IsCausedStop script.now report.now }
{
    match &report.stop {
        Some(stop) => is_stop_of(script, report, stop),
        None => true,
    }
}

/// Whether some processor has an answer `stopped`.
pub(crate) fn some_stopped(cpus: &[List<CpuLine>]) -> bool
    ensures { result ≡ some_stopped cpus.now }
{
    for rows in cpus {
        if has_stopped(rows.as_slice()) {
            return true;
        }
    }
    false
}

/// Whether each processor stays stopped.
pub(crate) fn all_stay(cpus: &[List<CpuLine>]) -> bool
    ensures { result ≡ all_stay cpus.now }
{
    for rows in cpus {
        if !stays_stopped(rows.as_slice()) {
            return false;
        }
    }
    true
}
