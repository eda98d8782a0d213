ghost use Rattle.std.specs.Prelude.{◌≡◌, ◌==◌, ◌&&◌, ◌≤◌, ◌<◌, ◌^◌, ℕ, nat_lt, not, false, Some, None, cond, length, map, option_map, slice_get, slice_index_or, take, unwrap_or, IfOk, IfSome, MatchOption};
ghost use Rattle.hwp_check_rules.specs.hwp_geom.Limits.{frame_limit};
ghost use Rattle.hwp_check_rules.specs.hwp_check_event_line.Scripts.{IsDeclared};
ghost use Rattle.hwp_check_rules.specs.hwp_law.Records.{ends_poisoned};
ghost use Rattle.hwp_check_rules.specs.Faults.{first_free, is_free, sayers, IsFrameFault};
ghost use Rattle.hwp_check_state.specs.Frames.{AreMarked, AreRight, bad_bit, cached_after, cached_by, is_beyond, is_placed, is_right_frame, is_right_line, is_unsaid_from, keeps, marked_at, said_by, said_with, weak_bit, with_bad, with_bits, with_weak};
ghost use Rattle.hwp_check_rules.specs.Standing.{frame_line, last_line};
ghost use Rattle.hwp_check_rules.specs.Firsts.{IsFirstFault};
ghost use Rattle.hwp_check_rules.specs.Rules.{FramesFit, ShapeFits, AreLegal};

use crate::count::ends_poisoned;
use crate::dones::done_commands;
use hwp_check_rules::{
    Command, Entry, Frame, FrameLine, Line, List, OutOfMemory, Report, Script, Situation, What,
    Whereabouts, frame_at, soonest,
};
use std::alloc::Global;

/// Whether a failure in this situation leaves the page cached.
fn keeps(situation: Situation, cached: bool) -> bool
    ensures { result ≡ keeps situation cached }
{
    match situation {
        Situation::Free | Situation::Kernel => cached,
        _ => false,
    }
}

/// Whether the page is cached after the entry.
fn cached_by(cached: bool, what: &What) -> bool
    ensures { result ≡ cached_by cached what.now }
{
    match what {
        What::FaultIn => true,
        What::Drop | What::Out => false,
        What::Fail { situation, .. } => keeps(*situation, cached),
        _ => cached,
    }
}

/// Whether the page is cached after the entries of its history.
fn ends_cached(entries: &[Entry]) -> bool
    ensures { result ≡ cached_after false entries.now }
{
    let mut cached = false;
    for entry in entries {
        cached = cached_by(cached, &entry.what);
    }
    cached
}

/// Which pages are cached at the end of their histories.
fn ends_of(alloc: Global, pages: &[List<Entry>]) -> Result<Vec<bool>, OutOfMemory>
    ensures { IfOk result (λ ends. ends.items ≡ map (cached_after false) pages.now) }
{
    let mut ends = Vec::new(alloc);
    for entries in pages {
        ends.push(ends_cached(entries.as_slice()))?;
    }
    Ok(ends)
}

/// The bit of a line.
fn bit_of(line: Line) -> u64
    ensures { result ≡ 2 ^ line }
{
    1 << line.get()
}

/// Marks a line of a frame, if there is such a frame.
fn mark(marked: &mut Vec<u64>, frame: Frame, line: Line)
    ensures { marked.new.items ≡ marked_at marked.old.items frame.0 line }
{
    let at = usize::from(frame.0);
    if at < marked.len() {
        marked[at] |= bit_of(line);
    }
}

/// Marks the line that a command marks bad.
fn mark_bad(marked: &mut Vec<u64>, command: &Command)
    ensures { marked.new.items ≡ with_bad marked.old.items command.now }
{
    if let Command::Bad { frame, line } = *command {
        mark(marked, frame, line);
    }
}

/// Marks the line that a command marks weak.
fn mark_weak(marked: &mut Vec<u64>, command: &Command)
    ensures { marked.new.items ≡ with_weak marked.old.items command.now }
{
    if let Command::Weak { frame, line } = *command {
        mark(marked, frame, line);
    }
}

/// The lines of each of so many frames that commands mark.
#[derive(Drop)]
pub struct Marked {
    pub bad: Vec<u64>,
    pub weak: Vec<u64>,
}

/// Those that these commands mark.
fn marked_by(alloc: Global, frames: usize, done: &[Command]) -> Result<Marked, OutOfMemory>
    ensures { IfOk result (λ marked. AreMarked frames done.now marked) }
{
    let mut bad = vec![in alloc; 0; frames]?;
    let mut weak = vec![in alloc; 0; frames]?;
    for command in done {
        mark_bad(&mut bad, command);
        mark_weak(&mut weak, command);
    }
    Ok(Marked { bad, weak })
}

/// Notes that a frame says the page of its place.
fn say(said: &mut Vec<bool>, place: &Whereabouts)
    ensures { said.new.items ≡ said_with said.old.items place.now }
{
    if let Whereabouts::Of(page) = place {
        let at = usize::from(page.0);
        if at < said.len() {
            said[at] = true;
        }
    }
}

/// Which of so many pages some frame says.
fn said_by(alloc: Global, pages: usize, frames: &[FrameLine]) -> Result<Vec<bool>, OutOfMemory>
    ensures { IfOk result (λ said. said.items ≡ said_by pages frames.now) }
{
    let mut said = vec![in alloc; false; pages]?;
    for frame in frames {
        say(&mut said, &frame.place);
    }
    Ok(said)
}

/// Whether the place fits the layout and the frame's record.
fn is_placed(pages: usize, kernel: bool, poisoned: bool, place: &Whereabouts) -> bool
    ensures { result ≡ is_placed pages kernel poisoned place.now }
{
    match place {
        Whereabouts::Free => !kernel && !poisoned,
        Whereabouts::Kernel => kernel,
        Whereabouts::Handled => !kernel && poisoned,
        Whereabouts::Of(page) => !kernel && !poisoned && usize::from(page.0) < pages,
    }
}

/// Whether some of the frames says the page with this number, where these pages are said there.
fn is_said(pages: usize, frames: &[FrameLine], said: &[bool], page: usize) -> bool
    requires said { said.now ≡ said_by pages frames.now }
    requires within { page < pages }
    ensures { result ≡ not (sayers (record { 0 = page }) frames.now == 0) }
{
    let _pages = pages;
    let _frames = frames;
    said[page]
}

/// The lines that are marked at the place.
fn lines_at(marked: &[u64], place: usize) -> u64
    requires { place < length marked.now }
    ensures { result ≡ slice_index_or marked.now place 0 }
{
    marked[place]
}

/// The lines of the frame with this number that the commands mark bad.
fn bad_in(frames: usize, done: &[Command], marked: &Marked, number: usize) -> u64
    requires marked { AreMarked frames done.now marked.now }
    requires within { number < frames }
    ensures { result ≡ with_bits (bad_bit number) 0 done.now }
{
    let _frames = frames;
    let _done = done;
    lines_at(marked.bad.as_slice(), number)
}

/// Those that they mark weak.
fn weak_in(frames: usize, done: &[Command], marked: &Marked, number: usize) -> u64
    requires marked { AreMarked frames done.now marked.now }
    requires within { number < frames }
    ensures { result ≡ with_bits (weak_bit number) 0 done.now }
{
    let _frames = frames;
    let _done = done;
    lines_at(marked.weak.as_slice(), number)
}

/// Whether a page is said before as often as it should be, where it is said before or not, and should be said or not.
fn is_full(said: bool, cached: bool) -> bool
    ensures { (n : ℕ) → said ≡ not (n == 0) → result ≡ not (nat_lt n (cond cached 1 0)) }
{
    said || !cached
}

/// Whether the place says a page that as many frames as should say before, where these pages are said there.
fn is_beyond(cached: &[bool], front: &[FrameLine], said: &[bool], place: &Whereabouts) -> bool
    requires { said.now ≡ said_by (length cached.now) front.now }
    ensures { result ≡ is_beyond cached.now front.now place.now }
{
    match place {
        Whereabouts::Of(page) => {
            let number = usize::from(page.0);
            if number < cached.len() {
                is_full(is_said(cached.len(), front, said, number), cached[number])
            } else {
                false
            }
        }
        _ => false,
    }
}

/// Whether the place of the frame with this number fits the layout and the frame's record.
fn has_place(script: &Script, number: u16, line: &FrameLine) -> bool
    ensures { result ≡ is_placed (length script.now.layout.pages) (unwrap_or (slice_get script.now.layout.kernel number) false) (ends_poisoned line.now.marks) line.now.place }
{
    let at = usize::from(number);
    let pages = script.layout.pages.len();
    let kernel = script.layout.kernel.as_slice().get(at).copied();
    let kernel = kernel.unwrap_or(false);
    is_placed(
        pages,
        kernel,
        ends_poisoned(line.marks.as_slice()),
        &line.place,
    )
}

/// Whether a frame's place, its bad and its weak lines are right, and its page isn't said too often.
fn are_right(placed: bool, bad: bool, weak: bool, beyond: bool) -> bool
    ensures { result ≡ (placed && bad && weak && not beyond) }
{
    placed && bad && weak && !beyond
}

/// Whether the line of the frame with this number is right, where these commands mark these lines, and the frames before say these
/// pages.
fn is_right_line(
    script: &Script,
    report: &Report,
    done: &[Command],
    marked: &Marked,
    cached: &[bool],
    said: &[bool],
    number: u16,
    line: &FrameLine,
) -> bool
    requires within { number < length report.now.frames }
    requires marked { AreMarked (length report.now.frames) done.now marked.now }
    requires said { said.now ≡ said_by (length cached.now) (take number report.now.frames) }
    ensures { result ≡ is_right_line script.now report.now done.now cached.now number line.now }
{
    let at = usize::from(number);
    let placed = has_place(script, number, line);
    let frames = report.frames.as_slice();
    let bad = bad_in(frames.len(), done, marked, at);
    let weak = weak_in(frames.len(), done, marked, at);
    let beyond = is_beyond(cached, &frames[..at], said, &line.place);
    are_right(placed, line.bad.0 == bad, line.weak.0 == weak, beyond)
}

/// Whether the frame with this number is right, where there is one.
fn is_right_frame(
    script: &Script,
    report: &Report,
    done: &[Command],
    marked: &Marked,
    cached: &[bool],
    said: &[bool],
    number: u16,
) -> bool
    requires marked { AreMarked (length report.now.frames) done.now marked.now }
    requires said { said.now ≡ said_by (length cached.now) (take number report.now.frames) }
    ensures { result ≡ is_right_frame script.now report.now done.now cached.now number }
{
    match report.frames.as_slice().get(usize::from(number)) {
        Some(line) => is_right_line(script, report, done, marked, cached, said, number, line),
        None => true,
    }
}

/// The first frame that is not right.
fn first_frame(
    alloc: Global,
    script: &Script,
    report: &Report,
    done: &[Command],
    marked: &Marked,
    cached: &[bool],
) -> Result<Option<u16>, OutOfMemory>
    requires few { length report.now.frames ≤ frame_limit }
    requires marked { AreMarked (length report.now.frames) done.now marked.now }
    ensures { IfOk result (λ found. MatchOption found (AreRight script.now report.now done.now cached.now (length report.now.frames))
        (λ at. AreRight script.now report.now done.now cached.now at × (at < length report.now.frames) × (is_right_frame script.now report.now done.now cached.now at ≡ false))) }
{
    let mut said = vec![in alloc; false; cached.len()]?;
    let frames = report.frames.as_slice();
    for at in 0..frames.len() {
        let number = at as u16;
        if !is_right_frame(
            script,
            report,
            done,
            marked,
            cached,
            said.as_slice(),
            number,
        ) {
            return Ok(Some(number));
        }
        say(&mut said, &frames[at].place);
    }
    Ok(None)
}

/// Whether some page is cached that no frame says, where these are said.
fn is_some_unsaid(cached: &[bool], frames: &[FrameLine], said: &[bool]) -> bool
    requires { said.now ≡ said_by (length cached.now) frames.now }
    ensures { result ≡ is_unsaid_from 0 cached.now frames.now }
{
    for number in 0..cached.len() {
        if cached[number] && !is_said(cached.len(), frames, said, number) {
            return true;
        }
    }
    false
}

/// Whether the frame is free.
fn is_free(place: &Whereabouts) -> bool
    ensures { result ≡ is_free place.now }
{
    matches!(place, Whereabouts::Free)
}

/// The first frame that is free, or frame 0 where none is.
fn first_free(frames: &[FrameLine]) -> usize
    ensures first { result ≡ first_free 0 frames.now }
    ensures within { result ≤ length frames.now }
{
    for at in 0..frames.len() {
        if is_free(&frames[at].place) {
            return at;
        }
    }
    0
}

/// The line of the frame that was found, if one was.
fn line_of(report: &Report, found: Option<u16>) -> Option<u64>
    requires room { last_line report.now < 2 ^ 64 }
    requires within { IfSome found (λ at. at ≤ length report.now.frames) }
    ensures { result ≡ option_map (frame_line report.now) found }
{
    match found {
        Some(at) => Some(frame_at(report, usize::from(at))),
        None => None,
    }
}

/// The line of the first free frame, if a page is cached that no frame says.
fn unsaid_line(alloc: Global, report: &Report, cached: &[bool]) -> Result<Option<u64>, OutOfMemory>
    requires room { last_line report.now < 2 ^ 64 }
    ensures { IfOk result (λ line. line ≡ cond (is_unsaid_from 0 cached.now report.now.frames) (Some (frame_line report.now (first_free 0 report.now.frames))) None) }
{
    let frames = report.frames.as_slice();
    let said = said_by(alloc, cached.len(), frames)?;
    if !is_some_unsaid(cached, frames, said.as_slice()) {
        return Ok(None);
    }
    Ok(Some(frame_at(report, first_free(frames))))
}

/// Whether each frame's line is right, and each page is cached exactly where one frame says it; else the first line that
/// breaks this.
pub fn frames_fault(
    alloc: Global,
    script: &Script,
    report: &Report,
) -> Result<Option<u64>, OutOfMemory>
    requires valid { IsDeclared script.now }
    requires room { last_line report.now < 2 ^ 64 }
    requires shape { ShapeFits script.now report.now }
    requires legal { AreLegal script.now report.now }
    ensures { IfOk result (λ found. MatchOption found (FramesFit script.now report.now) (IsFirstFault (FramesFit script.now report.now) (IsFrameFault script.now report.now))) }
{
    let done = done_commands(alloc, script, report)?;
    let marked = marked_by(alloc, report.frames.len(), done.as_slice())?;
    let cached = ends_of(alloc, report.pages.as_slice())?;
    let wrong = first_frame(
        alloc,
        script,
        report,
        done.as_slice(),
        &marked,
        cached.as_slice(),
    )?;
    let unsaid = unsaid_line(alloc, report, cached.as_slice())?;
    Ok(soonest(line_of(report, wrong), unsaid))
}
