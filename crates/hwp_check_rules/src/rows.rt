ghost use Rattle.std.specs.Prelude.{◌≡◌, [], slice_get, unwrap_or};
ghost use Rattle.hwp_law.specs.Lines.{answer_among, answer_of, rows_of, seq_of};
ghost use Rattle.hwp_check_rules.specs.Answered.{is_answer};

use hwp_check_event_line::rows_on;
use hwp_law::{Answer, Command, Cpu, CpuLine, Report, Script, Who};

/// The commands of a processor.
pub fn commands_of(script: &Script, cpu: Cpu) -> &[Command]
    ensures { result.now ≡ unwrap_or (slice_get script.now.lists cpu.0) [] }
{
    match script.lists.as_slice().get(usize::from(cpu.0)) {
        Some(list) => list.as_slice(),
        None => &[],
    }
}

/// The lines of a command's processor.
pub fn rows_of(report: &Report, who: Who) -> &[CpuLine]
    ensures { result.now ≡ rows_of report.now who }
{
    rows_on(report, who.cpu)
}

/// The number of the command that a line is of.
pub fn seq_of(row: &CpuLine) -> u32
    ensures { result ≡ seq_of row.now }
{
    match row {
        CpuLine::Event(event) => event.seq,
        CpuLine::Offlined(offlined) => offlined.seq,
        CpuLine::Guest(guest) => guest.seq,
        CpuLine::Answer { seq, .. } => *seq,
    }
}

/// Whether the line is an answer.
pub fn is_answer(row: &CpuLine) -> bool
    ensures { result ≡ is_answer row.now }
{
    matches!(row, CpuLine::Answer { .. })
}

/// The answer of a command of the processor with these lines.
pub fn answer_among(rows: &[CpuLine], seq: u32) -> Option<Answer>
    ensures { result ≡ answer_among rows.now seq }
{
    for row in rows {
        if let CpuLine::Answer {
            seq: number,
            answer,
        } = row
        {
            if *number == seq {
                return Some(*answer);
            }
        }
    }
    None
}

/// The answer of a command.
pub fn answer_of(report: &Report, who: Who) -> Option<Answer>
    ensures { result ≡ answer_of report.now who }
{
    answer_among(rows_of(report, who), who.seq)
}
