ghost use Rattle.std.specs.Prelude.{◌≡◌, [], ◌<◌, ◌≤◌, ◌^◌, length, slice_get, unwrap_or};
ghost use Rattle.std.specs.List.{sum_by};
ghost use Rattle.hwp_check_rules.specs.Standing.{cpu_height, cpu_line, entry_height, file_line, frame_height, frame_line, last_line, page_height, page_line, row_line};

use hwp_law::{Cpu, CpuLine, Entry, FrameLine, List, Report, What};

/// The lines of an entry.
pub fn entry_height(entry: &Entry) -> u64
    requires small { entry_height entry.now < 2 ^ 64 }
    ensures { result ≡ entry_height entry.now }
{
    match &entry.what {
        What::Fail { seen, signals, .. } => 1 + seen.len() as u64 + signals.as_slice().len() as u64,
        _ => 1,
    }
}

/// The lines of some entries.
pub fn entries_height(entries: &[Entry]) -> u64
    requires small { sum_by entry_height entries.now < 2 ^ 64 }
    ensures { result ≡ sum_by entry_height entries.now }
{
    let mut lines = 0;
    for entry in entries {
        lines += entry_height(entry);
    }
    lines
}

/// The lines of some frames.
fn frames_height(frames: &[FrameLine]) -> u64
    requires small { sum_by frame_height frames.now < 2 ^ 64 }
    ensures { result ≡ sum_by frame_height frames.now }
{
    let mut lines = 0;
    for frame in frames {
        lines += 1 + frame.marks.len() as u64;
    }
    lines
}

/// The lines of some pages.
fn pages_height(pages: &[List<Entry>]) -> u64
    requires small { sum_by page_height pages.now < 2 ^ 64 }
    ensures { result ≡ sum_by page_height pages.now }
{
    let mut lines = 0;
    for page in pages {
        lines += 1 + entries_height(page.as_slice());
    }
    lines
}

/// The lines of some processors.
fn cpus_height(cpus: &[List<CpuLine>]) -> u64
    requires small { sum_by cpu_height cpus.now < 2 ^ 64 }
    ensures { result ≡ sum_by cpu_height cpus.now }
{
    let mut lines = 0;
    for rows in cpus {
        lines += 1 + rows.len() as u64;
    }
    lines
}

/// The line of the first page, or that behind the frames where there is none.
pub fn first_page_line(report: &Report) -> u64
    requires { last_line report.now < 2 ^ 64 }
    ensures { result ≡ page_line report.now 0 }
{
    4 + report.files.len() as u64 + frames_height(report.frames.as_slice())
}

/// The line of the file at the place, or the one behind the last.
pub fn file_at(report: &Report, at: usize) -> u64
    requires room { last_line report.now < 2 ^ 64 }
    requires within { at ≤ length report.now.files }
    ensures { result ≡ file_line report.now at }
{
    let _files = report.files.len();
    4 + at as u64
}

/// The line of the frame at the place, or the one behind the last.
pub fn frame_at(report: &Report, at: usize) -> u64
    requires room { last_line report.now < 2 ^ 64 }
    requires within { at ≤ length report.now.frames }
    ensures { result ≡ frame_line report.now at }
{
    4 + report.files.len() as u64 + frames_height(&report.frames.as_slice()[..at])
}

/// The line of the page at the place, or the one behind the last.
pub fn page_at(report: &Report, at: usize) -> u64
    requires room { last_line report.now < 2 ^ 64 }
    requires within { at ≤ length report.now.pages }
    ensures { result ≡ page_line report.now at }
{
    4 + report.files.len() as u64
        + frames_height(report.frames.as_slice())
        + pages_height(&report.pages.as_slice()[..at])
}

/// The line of the processor at the place, or the one behind the last.
pub fn cpu_at(report: &Report, at: usize) -> u64
    requires room { last_line report.now < 2 ^ 64 }
    requires within { at ≤ length report.now.cpus }
    ensures { result ≡ cpu_line report.now at }
{
    4 + report.files.len() as u64
        + frames_height(report.frames.as_slice())
        + pages_height(report.pages.as_slice())
        + cpus_height(&report.cpus.as_slice()[..at])
}

/// The line of a processor's answer or event.
pub fn row_at(report: &Report, cpu: Cpu, row: usize) -> u64
    requires room { last_line report.now < 2 ^ 64 }
    requires inside { row < length (unwrap_or (slice_get report.now.cpus cpu.0) []) }
    ensures { result ≡ row_line report.now cpu.0 row }
{
    cpu_at(report, usize::from(cpu.0)) + 1 + row as u64
}
