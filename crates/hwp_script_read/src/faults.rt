ghost use Rattle.std.specs.Prelude.{◌≡◌, ℕ, max, ◌<◌, ◌+◌, ◌↔◌, length, slice_get, IsTrue, MatchOption, Contains, Some, true};
ghost use Rattle.hwp_script_read.specs.Reasons.{IsClean, IsLowest, IsMisplaced, IsBackingOver, IsBackingUndeclared, top_cpu};
ghost use Rattle.hwp_script_lines.specs.hwp_script_words.Limits.{schedule_limit};
ghost use Rattle.hwp_script_read.specs.Sums.{Sums};

use crate::commands::command_fault;
use crate::context::{Summary, at};
use crate::cows::cow_fault;
use crate::guests::guest_fault;
use crate::why::Why;
use hwp_script_lines::{Backing, Go, MAX_FILES, MAX_PROCS, MAX_SCHEDULE, MAX_THREADS, ScriptLine};

/// Whether a line of a group may not stand below these lines.
pub(crate) fn is_misplaced(summary: &Summary, above: &[ScriptLine], group: u8) -> bool
    requires { Sums above.now summary.now }
    ensures { IsTrue result ↔ IsMisplaced above.now group }
{
    group < summary.group || summary.cpus == 0 || summary.frames == 0
}

/// Whether a frame is given to the kernel already.
fn is_kernel(summary: &Summary, frame: u64) -> bool
    ensures { IsTrue result ↔ (slice_get summary.now.kernel.items frame ≡ Some true) }
{
    matches!(at(summary.kernel.as_slice(), frame as usize), Some(true))
}

/// The higher of two numbers.
fn higher(left: u8, right: u8) -> u8
    ensures { result ≡ max left right }
{
    if left < right { right } else { left }
}

/// The highest processor that words of a schedule name.
fn highest_cpu(words: &[Go]) -> u8
    ensures { result ≡ top_cpu words.now }
{
    let mut highest = 0;
    for word in words {
        highest = higher(highest, word.cpu.0);
    }
    highest
}

fn cpus_fault(summary: &Summary, above: &[ScriptLine], n: u64) -> Option<Why>
    requires sums { Sums above.now summary.now }
    requires some { 0 < length above.now }
    ensures { MatchOption result (IsClean above.now (ScriptLine.Cpus n)) (λ why. IsLowest above.now (ScriptLine.Cpus n) why) }
{
    if n == 0 || n > summary.max_cpus(above) {
        Some(Why::OverLimit)
    } else if summary.cpus > 0 {
        Some(Why::Twice)
    } else if summary.group > 1 {
        Some(Why::WrongPlace)
    } else {
        None
    }
}

fn frames_fault(summary: &Summary, above: &[ScriptLine], n: u64) -> Option<Why>
    requires sums { Sums above.now summary.now }
    requires some { 0 < length above.now }
    ensures { MatchOption result (IsClean above.now (ScriptLine.Frames n)) (λ why. IsLowest above.now (ScriptLine.Frames n) why) }
{
    if n == 0 || n > summary.max_frames(above) {
        Some(Why::OverLimit)
    } else if summary.frames > 0 {
        Some(Why::Twice)
    } else if summary.group > 2 || summary.cpus == 0 {
        Some(Why::WrongPlace)
    } else {
        None
    }
}

fn kernel_fault(summary: &Summary, above: &[ScriptLine], frame: u64) -> Option<Why>
    requires sums { Sums above.now summary.now }
    requires some { 0 < length above.now }
    ensures { MatchOption result (IsClean above.now (ScriptLine.Kernel frame)) (λ why. IsLowest above.now (ScriptLine.Kernel frame) why) }
{
    if frame >= summary.max_frames(above) {
        Some(Why::OverLimit)
    } else if frame >= u64::from(summary.frames) {
        Some(Why::Undeclared)
    } else if is_kernel(summary, frame) {
        Some(Why::Twice)
    } else if is_misplaced(summary, above, 3) {
        Some(Why::WrongPlace)
    } else {
        None
    }
}

fn recovery_fault(summary: &Summary, above: &[ScriptLine], value: u64) -> Option<Why>
    requires sums { Sums above.now summary.now }
    requires some { 0 < length above.now }
    ensures { MatchOption result (IsClean above.now (ScriptLine.Recovery value)) (λ why. IsLowest above.now (ScriptLine.Recovery value) why) }
{
    if value > 1 {
        Some(Why::OverLimit)
    } else if summary.recovery.is_some() {
        Some(Why::Twice)
    } else if is_misplaced(summary, above, 4) {
        Some(Why::WrongPlace)
    } else {
        None
    }
}

fn early_fault(summary: &Summary, above: &[ScriptLine], value: u64) -> Option<Why>
    requires sums { Sums above.now summary.now }
    requires some { 0 < length above.now }
    ensures { MatchOption result (IsClean above.now (ScriptLine.Early value)) (λ why. IsLowest above.now (ScriptLine.Early value) why) }
{
    if value > 1 {
        Some(Why::OverLimit)
    } else if summary.early.is_some() {
        Some(Why::Twice)
    } else if is_misplaced(summary, above, 5) {
        Some(Why::WrongPlace)
    } else {
        None
    }
}

fn file_fault(summary: &Summary, above: &[ScriptLine], file: u64) -> Option<Why>
    requires sums { Sums above.now summary.now }
    requires some { 0 < length above.now }
    ensures { MatchOption result (IsClean above.now (ScriptLine.File file)) (λ why. IsLowest above.now (ScriptLine.File file) why) }
{
    if file >= u64::from(MAX_FILES) {
        Some(Why::OverLimit)
    } else if file < u64::from(summary.files) {
        Some(Why::Twice)
    } else if is_misplaced(summary, above, 6) || file > u64::from(summary.files) {
        Some(Why::WrongPlace)
    } else {
        None
    }
}

fn proc_fault(summary: &Summary, above: &[ScriptLine], process: u64) -> Option<Why>
    requires sums { Sums above.now summary.now }
    requires some { 0 < length above.now }
    ensures { MatchOption result (IsClean above.now (ScriptLine.Proc process)) (λ why. IsLowest above.now (ScriptLine.Proc process) why) }
{
    if process >= u64::from(MAX_PROCS) {
        Some(Why::OverLimit)
    } else if process < u64::from(summary.procs) {
        Some(Why::Twice)
    } else if is_misplaced(summary, above, 7) || process > u64::from(summary.procs) {
        Some(Why::WrongPlace)
    } else {
        None
    }
}

fn thread_fault(
    summary: &Summary,
    above: &[ScriptLine],
    thread: u64,
    process: u64,
    cpu: u64,
    handler: bool,
) -> Option<Why>
    requires sums { Sums above.now summary.now }
    requires some { 0 < length above.now }
    ensures { MatchOption result (IsClean above.now (ScriptLine.Thread thread process cpu handler)) (λ why. IsLowest above.now (ScriptLine.Thread thread process cpu handler) why) }
{
    let threads = summary.threads.len() as u64;
    if thread >= u64::from(MAX_THREADS)
        || process >= u64::from(MAX_PROCS)
        || cpu >= summary.max_cpus(above)
    {
        Some(Why::OverLimit)
    } else if process >= u64::from(summary.procs) || cpu >= u64::from(summary.cpus) {
        Some(Why::Undeclared)
    } else if thread < threads {
        Some(Why::Twice)
    } else if is_misplaced(summary, above, 8) || thread > threads {
        Some(Why::WrongPlace)
    } else {
        None
    }
}

/// Whether the number of the file behind a page is too high.
fn is_backing_over(backing: Backing) -> bool
    ensures { IsTrue result ↔ IsBackingOver backing }
{
    match backing {
        Backing::Anon => false,
        Backing::File { file, .. } => file >= u64::from(MAX_FILES),
    }
}

/// Whether the file behind a page is not declared.
fn is_backing_undeclared(summary: &Summary, above: &[ScriptLine], backing: Backing) -> bool
    requires { Sums above.now summary.now }
    ensures { IsTrue result ↔ IsBackingUndeclared above.now backing }
{
    match backing {
        Backing::Anon => false,
        Backing::File { file, .. } => file >= u64::from(summary.files),
    }
}

fn page_fault(
    summary: &Summary,
    above: &[ScriptLine],
    page: u64,
    backing: Backing,
    locked: bool,
) -> Option<Why>
    requires sums { Sums above.now summary.now }
    requires some { 0 < length above.now }
    ensures { MatchOption result (IsClean above.now (ScriptLine.Page page backing locked)) (λ why. IsLowest above.now (ScriptLine.Page page backing locked) why) }
{
    let pages = summary.pages.len() as u64;
    if locked && summary.is_first_version(above) {
        Some(Why::UnknownWord)
    } else if page >= summary.max_pages(above) || is_backing_over(backing) {
        Some(Why::OverLimit)
    } else if is_backing_undeclared(summary, above, backing) {
        Some(Why::Undeclared)
    } else if page < pages {
        Some(Why::Twice)
    } else if is_misplaced(summary, above, 10) || page > pages {
        Some(Why::WrongPlace)
    } else {
        None
    }
}

fn trans_fault(
    summary: &Summary,
    above: &[ScriptLine],
    slot: u64,
    process: u64,
    page: u64,
) -> Option<Why>
    requires sums { Sums above.now summary.now }
    requires some { 0 < length above.now }
    ensures { MatchOption result (IsClean above.now (ScriptLine.Trans slot process page)) (λ why. IsLowest above.now (ScriptLine.Trans slot process page) why) }
{
    let slots = summary.trans.len() as u64;
    if slot >= summary.max_trans(above)
        || process >= u64::from(MAX_PROCS)
        || page >= summary.max_pages(above)
    {
        Some(Why::OverLimit)
    } else if process >= u64::from(summary.procs) || page >= summary.pages.len() as u64 {
        Some(Why::Undeclared)
    } else if slot < slots {
        Some(Why::Twice)
    } else if is_misplaced(summary, above, 11) || slot > slots {
        Some(Why::WrongPlace)
    } else {
        None
    }
}

fn cpu_fault(summary: &Summary, above: &[ScriptLine], cpu: u64) -> Option<Why>
    requires sums { Sums above.now summary.now }
    requires some { 0 < length above.now }
    ensures { MatchOption result (IsClean above.now (ScriptLine.Cpu cpu)) (λ why. IsLowest above.now (ScriptLine.Cpu cpu) why) }
{
    if cpu >= summary.max_cpus(above) {
        Some(Why::OverLimit)
    } else if cpu >= u64::from(summary.cpus) {
        Some(Why::Undeclared)
    } else if summary.has_list(cpu) {
        Some(Why::Twice)
    } else if is_misplaced(summary, above, 13) {
        Some(Why::WrongPlace)
    } else {
        None
    }
}

/// Whether so many more words make the schedule too long.
fn is_too_long(words: usize, more: usize) -> bool
    ensures { IsTrue result ↔ (schedule_limit < words + more) }
{
    words > MAX_SCHEDULE as usize || more > MAX_SCHEDULE as usize - words
}

fn schedule_fault(summary: &Summary, above: &[ScriptLine], words: &[Go]) -> Option<Why>
    requires sums { Sums above.now summary.now }
    requires some { 0 < length above.now }
    ensures { MatchOption result (IsClean above.now (ScriptLine.Schedule words.now)) (λ why. IsLowest above.now (ScriptLine.Schedule words.now) why) }
{
    let highest = highest_cpu(words);
    if is_too_long(summary.go.len(), words.len()) || u64::from(highest) >= summary.max_cpus(above) {
        Some(Why::OverLimit)
    } else if highest >= summary.cpus {
        Some(Why::Undeclared)
    } else if is_misplaced(summary, above, 14) {
        Some(Why::WrongPlace)
    } else {
        None
    }
}

fn end_fault(summary: &Summary, above: &[ScriptLine]) -> Option<Why>
    requires sums { Sums above.now summary.now }
    requires some { 0 < length above.now }
    ensures { MatchOption result (IsClean above.now ScriptLine.End) (λ why. IsLowest above.now ScriptLine.End why) }
{
    if is_misplaced(summary, above, 14) {
        Some(Why::WrongPlace)
    } else {
        None
    }
}

/// The lowest reason that applies to a line below these, if any does.
pub(crate) fn fault(summary: &Summary, above: &[ScriptLine], form: &ScriptLine) -> Option<Why>
    requires { Sums above.now summary.now }
    ensures { MatchOption result (IsClean above.now form.now) (λ why. IsLowest above.now form.now why) }
{
    if above.is_empty() {
        first_fault(above, form)
    } else {
        later_fault(summary, above, form)
    }
}

/// The fault of a line below others.
fn later_fault(summary: &Summary, above: &[ScriptLine], form: &ScriptLine) -> Option<Why>
    requires sums { Sums above.now summary.now }
    requires some { 0 < length above.now }
    ensures { MatchOption result (IsClean above.now form.now) (λ why. IsLowest above.now form.now why) }
{
    match form {
        ScriptLine::Header(_) => Some(Why::UnknownWord),
        ScriptLine::Cpus(n) => cpus_fault(summary, above, *n),
        ScriptLine::Frames(n) => frames_fault(summary, above, *n),
        ScriptLine::Kernel(frame) => kernel_fault(summary, above, *frame),
        ScriptLine::Recovery(value) => recovery_fault(summary, above, *value),
        ScriptLine::Early(value) => early_fault(summary, above, *value),
        ScriptLine::File(file) => file_fault(summary, above, *file),
        ScriptLine::Proc(process) => proc_fault(summary, above, *process),
        ScriptLine::Thread {
            thread,
            process,
            cpu,
            handler,
        } => thread_fault(summary, above, *thread, *process, *cpu, *handler),
        ScriptLine::Guest(process) => guest_fault(summary, above, *process),
        ScriptLine::Page {
            page,
            backing,
            locked,
        } => page_fault(summary, above, *page, *backing, *locked),
        ScriptLine::Trans {
            slot,
            process,
            page,
        } => trans_fault(summary, above, *slot, *process, *page),
        ScriptLine::Cow { slot, twin } => cow_fault(summary, above, *slot, *twin),
        ScriptLine::Cpu(cpu) => cpu_fault(summary, above, *cpu),
        ScriptLine::Command(command) => command_fault(summary, above, command),
        ScriptLine::Schedule(words) => schedule_fault(summary, above, words.as_slice()),
        ScriptLine::End => end_fault(summary, above),
    }
}

/// The fault of a first line.
fn first_fault(above: &[ScriptLine], form: &ScriptLine) -> Option<Why>
    requires { length above.now ≡ 0 }
    ensures { MatchOption result (IsClean above.now form.now) (λ why. IsLowest above.now form.now why) }
{
    match form {
        ScriptLine::Header(_) => None,
        _ => Some(Why::BadHeader),
    }
}
