ghost use Rattle.std.specs.Prelude.{◌≡◌, [], ◌∷◌, ◌++◌, is_ok, IfOk, if◌then◌else◌};
ghost use Rattle.hwp_report.specs.Follows.{add_entry, add_line, after_entry, after_files, after_frame, after_head, after_line, after_nothing, after_seen, after_signal, after_stop, entry_of, follow, open_cpu, open_frame, open_page, report_of, seen_so_far, signals_so_far};

use crate::report_line::ReportLine;
use hwp_report_text::{
    CpuLine, Entry, FrameLine, List, MAX_SIGNALS, OutOfMemory, Report, Seen, Signal, Stop, Version,
    What,
};
use hwp_report_words::Failure;
use std::alloc::Global;

/// The most items for which a list has room before any was read.
const MOST_ROOM: u64 = 65_536;

/// What stands before the frames.
#[derive(Drop)]
pub(crate) struct Front {
    /// The version.
    pub version: Version,
    /// What stopped the machine, if it was stopped.
    pub stop: Option<Stop>,
    /// The number of poisoned frames.
    pub count: u64,
    /// The losses of each file.
    pub files: List<u64>,
}

/// What stands before the pages.
#[derive(Drop)]
pub(crate) struct Framed {
    /// What stands before the frames.
    pub front: Front,
    /// The frames, without the one in hand.
    pub frames: List<FrameLine>,
}

/// What stands before the processors.
#[derive(Drop)]
pub(crate) struct Paged {
    /// What stands before the pages.
    pub framed: Framed,
    /// The history of each page, without the one in hand.
    pub pages: List<List<Entry>>,
}

/// What stands before the end.
#[derive(Drop)]
pub(crate) struct Ran {
    /// What stands before the processors.
    pub paged: Paged,
    /// The lines of each processor, without the one in hand.
    pub cpus: List<List<CpuLine>>,
}

/// A page in hand.
#[derive(Drop)]
pub(crate) struct OpenPage {
    /// The pages above it, and what stands before them.
    pub paged: Paged,
    /// The number of its entries, as its heading says it.
    pub count: u64,
    /// Its entries so far, without a memory failure in hand.
    pub entries: List<Entry>,
}

/// A memory failure in hand.
#[derive(Drop)]
pub(crate) struct OpenFailure {
    /// Its line.
    pub line: Failure,
    /// Its policies so far.
    pub seen: List<Seen>,
}

/// A processor in hand.
#[derive(Drop)]
pub(crate) struct OpenCpu {
    /// The processors above it, and what stands before them.
    pub ran: Ran,
    /// The number of its lines, as its heading says it.
    pub count: u64,
    /// Its lines so far.
    pub lines: List<CpuLine>,
}

/// What was read of a report so far.
#[derive(Drop)]
pub(crate) enum Partial {
    /// Nothing.
    Nothing,
    /// The head, with its version.
    Headed(Version),
    /// The stop line too.
    Stopped(Version, Option<Stop>),
    /// The count too, and some files.
    Files(Front),
    /// Some frames, and the last one's marks so far.
    Frames(Framed, FrameLine),
    /// Some pages, of which the last one is in hand.
    Pages(OpenPage),
    /// In the last page's history a memory failure is in hand, and not all of its policies were read.
    Seeing(OpenPage, OpenFailure),
    /// All policies of the memory failure in hand were read, and not all of its signals.
    Signalling(OpenPage, OpenFailure, List<Signal>),
    /// Some processors, of which the last one is in hand.
    Cpus(OpenCpu),
    /// All.
    Whole(Report),
}

impl Ran {
    /// The report of these parts.
    fn into_report(self) -> Report
        ensures { result ≡ report_of self }
    {
        let Paged { framed, pages } = self.paged;
        let Framed { front, frames } = framed;
        Report {
            version: front.version,
            stop: front.stop,
            count: front.count,
            files: front.files,
            frames,
            pages,
            cpus: self.cpus,
        }
    }
}

impl OpenFailure {
    /// The entry of this failure.
    fn into_entry(self, signals: List<Signal>) -> Entry
        ensures { result ≡ entry_of self signals }
    {
        let OpenFailure { line, seen } = self;
        Entry {
            who: line.who,
            what: What::Fail {
                situation: line.situation,
                required: line.required,
                seen,
                signals,
            },
        }
    }
}

impl Partial {
    /// What was read with one line more, where the line may follow.
    pub(crate) fn with(
        self,
        alloc: Global,
        line: ReportLine,
    ) -> Result<Option<Partial>, OutOfMemory>
        ensures { IfOk result (λ next. next ≡ follow self line) }
    {
        match self {
            Partial::Nothing => Ok(begun(line)),
            Partial::Headed(version) => Ok(stopped(version, line)),
            Partial::Stopped(version, stop) => Ok(counted(alloc, version, stop, line)),
            Partial::Files(front) => with_file(alloc, front, line),
            Partial::Frames(framed, frame) => with_mark(alloc, framed, frame, line),
            Partial::Pages(page) => with_entry(alloc, page, line),
            Partial::Seeing(page, failure) => with_seen(alloc, page, failure, line),
            Partial::Signalling(page, failure, signals) => {
                with_signal(page, failure, signals, line)
            }
            Partial::Cpus(cpu) => with_cpu_line(alloc, cpu, line),
            Partial::Whole(report) => {
                let_go_of(Partial::Whole(report));
                let_go_of_line(line);
                Ok(None)
            }
        }
    }
}

/// Lets go of what was read. Each way out of a function that lets it go itself proves anew how it goes.
pub(crate) fn let_go_of(_partial: Partial) {}

/// Lets go of a line.
fn let_go_of_line(_line: ReportLine) {}

/// Lets go of what stands before the pages.
fn let_go_of_framed(_framed: Framed) {}

/// Lets go of what stands before the processors.
fn let_go_of_paged(_paged: Paged) {}

/// Lets go of what stands before the end.
fn let_go_of_ran(_ran: Ran) {}

/// The empty list, with room for as many items as a heading says, up to a bound.
fn with_room<T>(alloc: Global, count: u64) -> Result<List<T>, OutOfMemory>
    ensures { IfOk result (λ list. list ≡ []) }
{
    let room = count.min(MOST_ROOM) as usize;
    Ok(List::from_vec(Vec::with_capacity(alloc, room)?))
}

/// The list has the item at its end, where there is memory; else it stays, and the item is let go.
fn pushed<T: Drop>(list: &mut List<T>, item: T) -> Result<(), OutOfMemory>
    ensures { list.new ≡ (if is_ok result then list.old ++ item ∷ [] else list.old) }
{
    Ok(list.push(item)?)
}

/// The head of a report.
fn begun(line: ReportLine) -> Option<Partial>
    ensures { result ≡ after_nothing line }
{
    match line {
        ReportLine::Header(version) => Some(Partial::Headed(version)),
        other => {
            let_go_of_line(other);
            None
        }
    }
}

/// Behind the head stands what stopped the machine.
fn stopped(version: Version, line: ReportLine) -> Option<Partial>
    ensures { result ≡ after_head version line }
{
    match line {
        ReportLine::Stop(stop) => Some(Partial::Stopped(version, stop)),
        other => {
            let_go_of_line(other);
            None
        }
    }
}

/// Behind the stop stands the count.
fn counted(alloc: Global, version: Version, stop: Option<Stop>, line: ReportLine) -> Option<Partial>
    ensures { result ≡ after_stop version stop line }
{
    match line {
        ReportLine::Count(count) => Some(Partial::Files(Front {
            version,
            stop,
            count,
            files: List::new(alloc),
        })),
        other => {
            let_go_of_line(other);
            None
        }
    }
}

/// One file more, or what stands behind the files.
fn with_file(alloc: Global, front: Front, line: ReportLine) -> Result<Option<Partial>, OutOfMemory>
    ensures { IfOk result (λ next. next ≡ after_files front line) }
{
    match line {
        ReportLine::File { number, lost } => {
            if number != front.files.len() as u64 {
                let_go_of(Partial::Files(front));
                return Ok(None);
            }
            let mut front = front;
            match pushed(&mut front.files, lost) {
                Ok(()) => Ok(Some(Partial::Files(front))),
                Err(refused) => {
                    let_go_of(Partial::Files(front));
                    Err(refused)
                }
            }
        }
        line => {
            let frames = List::new(alloc);
            frame_begun(alloc, Framed { front, frames }, line)
        }
    }
}

/// One mark more of the frame in hand, or what stands behind its marks.
fn with_mark(
    alloc: Global,
    framed: Framed,
    frame: FrameLine,
    line: ReportLine,
) -> Result<Option<Partial>, OutOfMemory>
    ensures { IfOk result (λ next. next ≡ after_frame framed frame line) }
{
    match line {
        ReportLine::Mark(mark) => {
            let mut frame = frame;
            match pushed(&mut frame.marks, mark) {
                Ok(()) => Ok(Some(Partial::Frames(framed, frame))),
                Err(refused) => {
                    let_go_of(Partial::Frames(framed, frame));
                    Err(refused)
                }
            }
        }
        line => {
            let mut framed = framed;
            match pushed(&mut framed.frames, frame) {
                Ok(()) => frame_begun(alloc, framed, line),
                Err(refused) => {
                    let_go_of_line(line);
                    let_go_of_framed(framed);
                    Err(refused)
                }
            }
        }
    }
}

/// The next frame, or what stands behind the frames.
fn frame_begun(
    alloc: Global,
    framed: Framed,
    line: ReportLine,
) -> Result<Option<Partial>, OutOfMemory>
    ensures { IfOk result (λ next. next ≡ open_frame framed line) }
{
    match line {
        ReportLine::Frame {
            number,
            place,
            bad,
            weak,
        } => {
            if number != framed.frames.len() as u64 {
                let_go_of_framed(framed);
                return Ok(None);
            }
            let marks = List::new(alloc);
            let frame = FrameLine {
                place,
                bad,
                weak,
                marks,
            };
            Ok(Some(Partial::Frames(framed, frame)))
        }
        line => {
            let pages = List::new(alloc);
            page_begun(alloc, Paged { framed, pages }, line)
        }
    }
}

/// The next page, or what stands behind the pages.
fn page_begun(alloc: Global, paged: Paged, line: ReportLine) -> Result<Option<Partial>, OutOfMemory>
    ensures { IfOk result (λ next. next ≡ open_page paged line) }
{
    match line {
        ReportLine::Page {
            number,
            entries: count,
        } => {
            if number != paged.pages.len() as u64 {
                let_go_of_paged(paged);
                return Ok(None);
            }
            match with_room(alloc, count) {
                Ok(entries) => Ok(Some(Partial::Pages(OpenPage {
                    paged,
                    count,
                    entries,
                }))),
                Err(refused) => {
                    let_go_of_paged(paged);
                    Err(refused)
                }
            }
        }
        line => {
            let cpus = List::new(alloc);
            cpu_begun(alloc, Ran { paged, cpus }, line)
        }
    }
}

/// The next processor, or the end.
fn cpu_begun(alloc: Global, ran: Ran, line: ReportLine) -> Result<Option<Partial>, OutOfMemory>
    ensures { IfOk result (λ next. next ≡ open_cpu ran line) }
{
    match line {
        ReportLine::Cpu {
            number,
            lines: count,
        } => {
            if number != ran.cpus.len() as u64 {
                let_go_of_ran(ran);
                return Ok(None);
            }
            match with_room(alloc, count) {
                Ok(lines) => Ok(Some(Partial::Cpus(OpenCpu { ran, count, lines }))),
                Err(refused) => {
                    let_go_of_ran(ran);
                    Err(refused)
                }
            }
        }
        ReportLine::End => Ok(Some(Partial::Whole(ran.into_report()))),
        other => {
            let_go_of_line(other);
            let_go_of_ran(ran);
            Ok(None)
        }
    }
}

/// One entry more of the page in hand, or what stands behind the page.
fn with_entry(
    alloc: Global,
    page: OpenPage,
    line: ReportLine,
) -> Result<Option<Partial>, OutOfMemory>
    ensures { IfOk result (λ next. next ≡ after_entry page line) }
{
    if page.entries.len() as u64 == page.count {
        let OpenPage { paged, entries, .. } = page;
        let mut paged = paged;
        match pushed(&mut paged.pages, entries) {
            Ok(()) => page_begun(alloc, paged, line),
            Err(refused) => {
                let_go_of_line(line);
                let_go_of_paged(paged);
                Err(refused)
            }
        }
    } else {
        entry_added(alloc, page, line)
    }
}

/// The page in hand with this entry, or with a memory failure in hand.
fn entry_added(
    alloc: Global,
    page: OpenPage,
    line: ReportLine,
) -> Result<Option<Partial>, OutOfMemory>
    ensures { IfOk result (λ next. next ≡ add_entry page line) }
{
    match line {
        ReportLine::Entry(entry) => {
            let mut page = page;
            match pushed(&mut page.entries, entry) {
                Ok(()) => Ok(Some(Partial::Pages(page))),
                Err(refused) => {
                    let_go_of(Partial::Pages(page));
                    Err(refused)
                }
            }
        }
        ReportLine::Fail(line) => {
            let seen = List::new(alloc);
            Ok(Some(failed(alloc, page, OpenFailure { line, seen })?))
        }
        other => {
            let_go_of_line(other);
            let_go_of(Partial::Pages(page));
            Ok(None)
        }
    }
}

/// One policy more of the memory failure in hand.
fn with_seen(
    alloc: Global,
    page: OpenPage,
    failure: OpenFailure,
    line: ReportLine,
) -> Result<Option<Partial>, OutOfMemory>
    ensures { IfOk result (λ next. next ≡ after_seen page failure line) }
{
    match line {
        ReportLine::Seen(seen) => {
            let mut failure = failure;
            match pushed(&mut failure.seen, seen) {
                Ok(()) => Ok(Some(failed(alloc, page, failure)?)),
                Err(refused) => {
                    let_go_of(Partial::Seeing(page, failure));
                    Err(refused)
                }
            }
        }
        other => {
            let_go_of_line(other);
            let_go_of(Partial::Seeing(page, failure));
            Ok(None)
        }
    }
}

/// One signal more of the memory failure in hand.
fn with_signal(
    page: OpenPage,
    failure: OpenFailure,
    signals: List<Signal>,
    line: ReportLine,
) -> Result<Option<Partial>, OutOfMemory>
    ensures { IfOk result (λ next. next ≡ after_signal page failure signals line) }
{
    match line {
        ReportLine::Signal(signal) => {
            if signals.as_slice().len() == MAX_SIGNALS {
                let_go_of(Partial::Signalling(page, failure, signals));
                return Ok(None);
            }
            let mut signals = signals;
            match pushed(&mut signals, signal) {
                Ok(()) => Ok(Some(signalled(page, failure, signals)?)),
                Err(refused) => {
                    let_go_of(Partial::Signalling(page, failure, signals));
                    Err(refused)
                }
            }
        }
        other => {
            let_go_of_line(other);
            let_go_of(Partial::Signalling(page, failure, signals));
            Ok(None)
        }
    }
}

/// With the last of its policies, a memory failure in hand comes to its signals.
fn failed(alloc: Global, page: OpenPage, failure: OpenFailure) -> Result<Partial, OutOfMemory>
    ensures { IfOk result (λ next. next ≡ seen_so_far page failure) }
{
    if failure.seen.len() as u64 == failure.line.seen {
        signalled(page, failure, List::new(alloc))
    } else {
        Ok(Partial::Seeing(page, failure))
    }
}

/// With the last of its signals, a memory failure in hand is an entry of the page.
fn signalled(
    page: OpenPage,
    failure: OpenFailure,
    signals: List<Signal>,
) -> Result<Partial, OutOfMemory>
    ensures { IfOk result (λ next. next ≡ signals_so_far page failure signals) }
{
    if signals.as_slice().len() as u64 == failure.line.signals {
        let mut page = page;
        match pushed(&mut page.entries, failure.into_entry(signals)) {
            Ok(()) => Ok(Partial::Pages(page)),
            Err(refused) => {
                let_go_of(Partial::Pages(page));
                Err(refused)
            }
        }
    } else {
        Ok(Partial::Signalling(page, failure, signals))
    }
}

/// One line more of the processor in hand, or what stands behind the processor.
fn with_cpu_line(
    alloc: Global,
    cpu: OpenCpu,
    line: ReportLine,
) -> Result<Option<Partial>, OutOfMemory>
    ensures { IfOk result (λ next. next ≡ after_line cpu line) }
{
    if cpu.lines.len() as u64 == cpu.count {
        let OpenCpu { ran, lines, .. } = cpu;
        let mut ran = ran;
        match pushed(&mut ran.cpus, lines) {
            Ok(()) => cpu_begun(alloc, ran, line),
            Err(refused) => {
                let_go_of_line(line);
                let_go_of_ran(ran);
                Err(refused)
            }
        }
    } else {
        line_added(cpu, line)
    }
}

/// The processor in hand with this line.
fn line_added(cpu: OpenCpu, line: ReportLine) -> Result<Option<Partial>, OutOfMemory>
    ensures { IfOk result (λ next. next ≡ add_line cpu line) }
{
    match line {
        ReportLine::CpuLine(item) => {
            let mut cpu = cpu;
            match pushed(&mut cpu.lines, item) {
                Ok(()) => Ok(Some(Partial::Cpus(cpu))),
                Err(refused) => {
                    let_go_of(Partial::Cpus(cpu));
                    Err(refused)
                }
            }
        }
        other => {
            let_go_of_line(other);
            let_go_of(Partial::Cpus(cpu));
            Ok(None)
        }
    }
}
