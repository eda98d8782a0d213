ghost use Rattle.std.specs.Prelude.{◌≡◌, length};
ghost use Rattle.std.specs.List.{sum_by};
ghost use Rattle.hwp_report.specs.Counts.{answers_in, capped, is_answer, is_without_frame, signals_in, signals_of, summary_of, without_frame_in};

use crate::counts::Summary;
use hwp_report_text::{Answer, CpuLine, Entry, List, Report, What};

/// The summary of a report, by one walk over its lines and one over its histories.
pub fn summary(report: &Report) -> Summary
    ensures { result ≡ summary_of report.now }
{
    let cpus = report.cpus.as_slice();
    let pages = report.pages.as_slice();
    Summary {
        commands: commands(cpus),
        noframe: without_frame(cpus),
        stopped: report.stop.is_some(),
        count: report.count,
        entries: entries(pages),
        signals: signals(pages),
    }
}

/// Whether the line is the answer of a command.
fn is_answer(row: &CpuLine) -> bool
    ensures { result ≡ is_answer row.now }
{
    matches!(row, CpuLine::Answer { .. })
}

/// Whether the line is the answer that no frame was free.
fn is_without_frame(row: &CpuLine) -> bool
    ensures { result ≡ is_without_frame row.now }
{
    match row {
        CpuLine::Answer { answer, .. } => matches!(answer, Answer::NoFrame),
        CpuLine::Event(_) | CpuLine::Offlined(_) | CpuLine::Guest(_) => false,
    }
}

/// The answers among a processor's lines.
fn answers_in(rows: &[CpuLine]) -> u64
    ensures { result ≡ answers_in rows.now }
{
    let mut count = 0;
    for row in rows {
        count += u64::from(is_answer(row));
    }
    count
}

/// Those of them that no frame was free.
fn without_frame_in(rows: &[CpuLine]) -> u64
    ensures { result ≡ without_frame_in rows.now }
{
    let mut count = 0;
    for row in rows {
        count += u64::from(is_without_frame(row));
    }
    count
}

/// The commands of all processors.
fn commands(cpus: &[List<CpuLine>]) -> u64
    ensures { result ≡ capped (sum_by answers_in cpus.now) }
{
    let mut sum = 0u64;
    for rows in cpus {
        sum = sum.saturating_add(answers_in(rows.as_slice()));
    }
    sum
}

/// Those of them for which no frame was free.
fn without_frame(cpus: &[List<CpuLine>]) -> u64
    ensures { result ≡ capped (sum_by without_frame_in cpus.now) }
{
    let mut sum = 0u64;
    for rows in cpus {
        sum = sum.saturating_add(without_frame_in(rows.as_slice()));
    }
    sum
}

/// The entries of all pages.
fn entries(pages: &[List<Entry>]) -> u64
    ensures { result ≡ capped (sum_by (λ page. length page) pages.now) }
{
    let mut sum = 0u64;
    for page in pages {
        sum = sum.saturating_add(page.len() as u64);
    }
    sum
}

/// The signals of an entry.
fn signals_of(what: &What) -> u64
    ensures { result ≡ signals_of what.now }
{
    match what {
        What::Fail { signals, .. } => signals.as_slice().len() as u64,
        _ => 0,
    }
}

/// The signals in a history.
fn signals_in(entries: &[Entry]) -> u64
    ensures { result ≡ capped (signals_in entries.now) }
{
    let mut sum = 0u64;
    for entry in entries {
        sum = sum.saturating_add(signals_of(&entry.what));
    }
    sum
}

/// The signals of all pages.
fn signals(pages: &[List<Entry>]) -> u64
    ensures { result ≡ capped (sum_by signals_in pages.now) }
{
    let mut sum = 0u64;
    for page in pages {
        sum = sum.saturating_add(signals_in(page.as_slice()));
    }
    sum
}
