ghost use Rattle.std.specs.Prelude.{slice_get, slice_index_or, ◌≡◌, ◌↔◌, ◌≤◌, ◌<◌, IsTrue, IfOk, [], ◌+◌, length};
ghost use Rattle.std.specs.Option.{option_copied};
ghost use Rattle.hwp_law.specs.States.{place_named};
ghost use Rattle.hwp_check_evidence.specs.Windows.{AreOfEarlier, AreSpans, AreStarts, IsBeforeLater, IsNotBelow, IsPastEarlier, IsSpan, came_to, end_before, ends_from, floors_of, named_in, none_number, raised, start_from, starts_with};

use hwp_law::{Answer, At, Cpu, CpuLine, Entry, List, OutOfMemory, Page, Who};
use std::alloc::Global;

/// What stands for no command.
const NONE: u64 = 4_294_967_296;

/// Where the commands of one processor stand in a page's history.
#[derive(Drop)]
pub struct Span {
    /// One more than the highest command number before each entry, and behind the last; 0 where there is none.
    pub ends: List<u64>,
    /// The lowest command number of the last entries: of none, of the last one, and so on.
    pub starts: List<u64>,
}

/// One more than the highest command number of the processor so far, with one entry more.
fn came_to(cpu: Cpu, end: u64, entry: &Entry) -> u64
    ensures { result ≡ came_to cpu end entry.now }
{
    if entry.who.cpu.0 == cpu.0 {
        end.max(u64::from(entry.who.seq) + 1)
    } else {
        end
    }
}

/// The lowest command number of the processor, with one entry more before.
fn starts_with(cpu: Cpu, start: u64, entry: &Entry) -> u64
    ensures { result ≡ starts_with cpu start entry.now }
{
    if entry.who.cpu.0 == cpu.0 {
        start.min(u64::from(entry.who.seq))
    } else {
        start
    }
}

/// The empty list, with room for so many numbers.
fn with_room(alloc: Global, numbers: usize) -> Result<List<u64>, OutOfMemory>
    ensures { IfOk result (λ list. list ≡ []) }
{
    Ok(List::from_vec(Vec::with_capacity(alloc, numbers)?))
}

/// One more than the highest command number of the processor before each entry, and behind the last.
fn ends(alloc: Global, cpu: Cpu, entries: &[Entry]) -> Result<List<u64>, OutOfMemory>
    ensures { IfOk result (λ list. list ≡ ends_from cpu 0 entries.now) }
{
    let mut list = with_room(alloc, entries.len() + 1)?;
    let mut end = 0;
    for entry in entries {
        list.push(end)?;
        end = came_to(cpu, end, entry);
    }
    list.push(end)?;
    Ok(list)
}

/// The lowest command number of the processor in the last entries: in none, in the last one, and so on.
fn starts(alloc: Global, cpu: Cpu, entries: &[Entry]) -> Result<List<u64>, OutOfMemory>
    ensures many { IfOk result (λ list. length list ≡ length entries.now + 1) }
    ensures starts { IfOk result (λ list. AreStarts cpu entries.now list) }
{
    let mut list = with_room(alloc, entries.len() + 1)?;
    let mut start = NONE;
    for back in 0..entries.len() {
        list.push(start)?;
        start = starts_with(cpu, start, &entries[entries.len() - 1 - back]);
    }
    list.push(start)?;
    Ok(list)
}

/// Where the commands of the processor stand in a page's history.
pub(crate) fn page_span(alloc: Global, cpu: Cpu, entries: &[Entry]) -> Result<Span, OutOfMemory>
    ensures { IfOk result (λ span. IsSpan cpu entries.now span) }
{
    let ends = ends(alloc, cpu, entries)?;
    let starts = starts(alloc, cpu, entries)?;
    Ok(Span { ends, starts })
}

/// One more than the highest command number before a place of a page's history.
fn end_before(span: &Span, place: u64) -> u64
    ensures { result ≡ end_before span.now place }
{
    let last = span.ends.len().saturating_sub(1) as u64;
    match span.ends.as_slice().get(place.min(last) as usize) {
        Some(end) => *end,
        None => 0,
    }
}

/// The lowest command number from a place of a page's history on.
fn start_from(span: &Span, place: u64) -> u64
    ensures { result ≡ start_from span.now place }
{
    let all = span.starts.len().saturating_sub(1) as u64;
    match span.starts.as_slice().get((all - place.min(all)) as usize) {
        Some(start) => *start,
        None => NONE,
    }
}

/// Where the commands stand in a page's history.
fn span_of(spans: &[Span], page: Page) -> Option<&Span>
    ensures { option_copied result ≡ slice_get spans.now page.0 }
{
    spans.get(usize::from(page.0))
}

/// Whether these leave the place to a command with the number.
fn leaves(span: &Span, seq: u32, place: u64) -> bool
    ensures { IsTrue result ↔ ((seq ≤ start_from span.now place) × (end_before span.now place ≤ seq + 1)) }
{
    u64::from(seq) <= start_from(span, place) && end_before(span, place) <= u64::from(seq) + 1
}

/// Whether the command's processor has no entry of an earlier command in the page from the place on, and none of a later one
/// before it.
pub fn is_in_span(pages: &[List<Entry>], spans: &[Span], who: Who, at: At) -> bool
    requires { AreSpans who.cpu pages.now spans.now }
    ensures { IsTrue result ↔ (IsPastEarlier pages.now who at × IsBeforeLater pages.now who at) }
{
    let _pages = pages;
    match span_of(spans, at.page) {
        Some(span) => leaves(span, who.seq, at.entry),
        None => true,
    }
}

/// The place that an answer names, of an entry or of a number of entries.
fn named_place(answer: &Answer) -> Option<At>
    ensures { result ≡ place_named answer.now }
{
    match *answer {
        Answer::Value { at, .. } => Some(at),
        Answer::Stored(at) => Some(at),
        Answer::Sigbus(at) => Some(at),
        Answer::DoneAt(at) => Some(at),
        Answer::Moved(_, at) => Some(at),
        Answer::NotResident(at) => Some(at),
        Answer::NotMapped(at) => Some(at),
        Answer::Dirty(at) => Some(at),
        Answer::Mapped(at) => Some(at),
        Answer::Locked(at) => Some(at),
        Answer::BadLines(_, at) => Some(at),
        _ => None,
    }
}

/// The place that a line's answer names.
fn named_in(row: &CpuLine) -> Option<At>
    ensures { result ≡ named_in row.now }
{
    match row {
        CpuLine::Event(_) | CpuLine::Offlined(_) | CpuLine::Guest(_) => None,
        CpuLine::Answer { answer, .. } => named_place(answer),
    }
}

/// Notes the place that a line's answer names, if it is the highest of its page so far.
pub fn raise(floors: &mut Vec<u64>, row: &CpuLine)
    ensures { floors.new.items ≡ raised floors.old.items row.now }
{
    if let Some(at) = named_in(row) {
        let page = usize::from(at.page.0);
        if page < floors.len() {
            floors[page] = floors[page].max(at.entry);
        }
    }
}

/// The places before any line was read, of so many pages.
pub fn no_floors(alloc: Global, pages: usize) -> Result<Vec<u64>, OutOfMemory>
    ensures { IfOk result (λ floors. floors.items ≡ floors_of pages []) }
{
    Ok(vec![in alloc; 0; pages]?)
}

/// The highest place of a page.
fn floor_of(floors: &[u64], page: Page) -> u64
    ensures { result ≡ slice_index_or floors.now page.0 0 }
{
    match floors.get(usize::from(page.0)) {
        Some(floor) => *floor,
        None => 0,
    }
}

/// Whether no answer of an earlier command in the lines before names a higher place of the page.
pub fn is_not_below(pages: usize, before: &[CpuLine], floors: &[u64], who: Who, at: At) -> bool
    requires floors { floors.now ≡ floors_of pages before.now }
    requires earlier { AreOfEarlier before.now who.seq }
    requires within { at.page.0 < pages }
    ensures { IsTrue result ↔ IsNotBelow before.now who at }
{
    let _pages = pages;
    let _before = before;
    floor_of(floors, at.page) <= at.entry
}
