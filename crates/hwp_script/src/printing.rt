ghost use Rattle.std.specs.Prelude.{◌≡◌, ◌∷◌, ◌++◌, [], Bool, OnOk, IfOk, length, take, drop, ◌<◌, ◌≤◌, ◌+◌, ◌*◌, ◌⊎◌, string_bytes};
ghost use Rattle.hwp_script_read.specs.hwp_geom.Words.{line};
ghost use Rattle.hwp_script_read.specs.hwp_script_lines.Grammar.{form_words};
ghost use Rattle.hwp_script.specs.Printed.{forms_text};
ghost use Rattle.hwp_script_read.specs.hwp_script_words.Limits.{script_limit};
ghost use Rattle.hwp_script_read.specs.hwp_script_words.Valid.{IsValid};
ghost use Rattle.hwp_script.specs.Round.{IsTextOf};
ghost use Rattle.hwp_script.specs.Text.{backing_of, head_forms, kernel_forms, setting_forms, thread_forms, guest_forms, page_forms, trans_forms, cow_forms, list_forms, go_row, numbered, counted, file_form, proc_form, rows_of, script_text};

use crate::put_form;
use hwp_script_read::{
    Backing, Command, Go, List, OutOfMemory, PageKind, Script, ScriptLine, Text, ThreadDecl,
    TransDecl, VSlot, Version,
};
use std::alloc::Global;

/// How many words of the schedule stand on a line.
const WORDS_ON_A_LINE: usize = 50;

/// The one text of a script. Where the script is valid, as each that `read` gives is, and its text has at most
/// `MAX_SCRIPT` bytes, `read` takes the text for this script, and for no other.
pub fn print(alloc: Global, script: &Script) -> Result<Text, OutOfMemory>
    ensures text { IfOk result (λ text. text ≡ script_text script.now) }
    ensures read { IfOk result (λ text. IsValid script.now → length text ≤ script_limit → IsTextOf text script.now) }
{
    let layout = &script.layout;
    let mut out = String::new(alloc);
    put_head(&mut out, layout.version, layout.cpus, layout.frames)?;
    put_kernel(&mut out, layout.kernel.as_slice())?;
    put_settings(&mut out, layout.recovery, layout.early)?;
    put_files(&mut out, layout.files)?;
    put_procs(&mut out, layout.procs)?;
    put_threads(&mut out, layout.threads.as_slice())?;
    put_guests(&mut out, layout.guests.as_slice())?;
    put_pages(&mut out, layout.pages.as_slice(), layout.locked.as_slice())?;
    put_trans(&mut out, layout.trans.as_slice())?;
    put_cows(&mut out, layout.twins.as_slice())?;
    put_lists(&mut out, script.lists.as_slice())?;
    put_schedule(alloc, &mut out, script.go.as_slice())?;
    put_form(&mut out, &ScriptLine::End)?;
    Ok(Text::from_string(out))
}

fn put_head(out: &mut String, version: Version, cpus: u8, frames: u16) -> Result<(), OutOfMemory>
    ensures { OnOk result (string_bytes out.new ≡ string_bytes out.old ++ forms_text (head_forms version cpus frames)) }
{
    put_form(out, &ScriptLine::Header(version))?;
    put_form(out, &ScriptLine::Cpus(u64::from(cpus)))?;
    put_form(out, &ScriptLine::Frames(u64::from(frames)))?;
    Ok(())
}

fn put_kernel(out: &mut String, kernel: &[bool]) -> Result<(), OutOfMemory>
    ensures { OnOk result (string_bytes out.new ≡ string_bytes out.old ++ forms_text (numbered kernel_forms 0 kernel.now)) }
{
    for (number, is_kernel) in kernel.iter().enumerate() {
        put_mark(out, number, *is_kernel)?;
    }
    Ok(())
}

fn put_mark(out: &mut String, number: usize, is_kernel: bool) -> Result<(), OutOfMemory>
    ensures { OnOk result (string_bytes out.new ≡ string_bytes out.old ++ forms_text (kernel_forms number is_kernel)) }
{
    if is_kernel {
        put_form(out, &ScriptLine::Kernel(number as u64))?;
    }
    Ok(())
}

fn put_settings(out: &mut String, recovery: bool, early: bool) -> Result<(), OutOfMemory>
    ensures { OnOk result (string_bytes out.new ≡ string_bytes out.old ++ forms_text (setting_forms recovery early)) }
{
    put_form(out, &ScriptLine::Recovery(u64::from(recovery)))?;
    put_form(out, &ScriptLine::Early(u64::from(early)))?;
    Ok(())
}

fn put_files(out: &mut String, count: u8) -> Result<(), OutOfMemory>
    ensures { OnOk result (string_bytes out.new ≡ string_bytes out.old ++ forms_text (counted file_form count)) }
{
    for file in 0..count {
        put_form(out, &ScriptLine::File(u64::from(file)))?;
    }
    Ok(())
}

fn put_procs(out: &mut String, count: u8) -> Result<(), OutOfMemory>
    ensures { OnOk result (string_bytes out.new ≡ string_bytes out.old ++ forms_text (counted proc_form count)) }
{
    for process in 0..count {
        put_form(out, &ScriptLine::Proc(u64::from(process)))?;
    }
    Ok(())
}

fn put_threads(out: &mut String, threads: &[ThreadDecl]) -> Result<(), OutOfMemory>
    ensures { OnOk result (string_bytes out.new ≡ string_bytes out.old ++ forms_text (numbered thread_forms 0 threads.now)) }
{
    for (number, thread) in threads.iter().enumerate() {
        put_thread(out, number, *thread)?;
    }
    Ok(())
}

fn put_thread(out: &mut String, number: usize, thread: ThreadDecl) -> Result<(), OutOfMemory>
    ensures { OnOk result (string_bytes out.new ≡ string_bytes out.old ++ forms_text (thread_forms number thread)) }
{
    let form = ScriptLine::Thread {
        thread: number as u64,
        process: u64::from(thread.process.0),
        cpu: u64::from(thread.cpu.0),
        handler: thread.handler,
    };
    put_form(out, &form)?;
    Ok(())
}

fn put_guests(out: &mut String, guests: &[bool]) -> Result<(), OutOfMemory>
    ensures { OnOk result (string_bytes out.new ≡ string_bytes out.old ++ forms_text (numbered guest_forms 0 guests.now)) }
{
    for (number, is_guest) in guests.iter().enumerate() {
        put_guest(out, number, *is_guest)?;
    }
    Ok(())
}

fn put_guest(out: &mut String, number: usize, is_guest: bool) -> Result<(), OutOfMemory>
    ensures { OnOk result (string_bytes out.new ≡ string_bytes out.old ++ forms_text (guest_forms number is_guest)) }
{
    if is_guest {
        put_form(out, &ScriptLine::Guest(number as u64))?;
    }
    Ok(())
}

/// What stands behind a page, as its line says it.
fn backing(kind: PageKind) -> Backing
    ensures { result ≡ backing_of kind }
{
    match kind {
        PageKind::Anon => Backing::Anon,
        PageKind::File { file, fill } => Backing::File {
            file: u64::from(file.0),
            fill,
        },
    }
}

fn put_pages(out: &mut String, pages: &[PageKind], locked: &[bool]) -> Result<(), OutOfMemory>
    ensures { OnOk result (string_bytes out.new ≡ string_bytes out.old ++ forms_text (numbered (page_forms locked.now) 0 pages.now)) }
{
    for (number, kind) in pages.iter().enumerate() {
        put_page(out, number, *kind, locked)?;
    }
    Ok(())
}

fn put_page(
    out: &mut String,
    number: usize,
    kind: PageKind,
    locked: &[bool],
) -> Result<(), OutOfMemory>
    ensures { OnOk result (string_bytes out.new ≡ string_bytes out.old ++ forms_text (page_forms locked.now number kind)) }
{
    let form = ScriptLine::Page {
        page: number as u64,
        backing: backing(kind),
        locked: locked.get(number).copied().unwrap_or(false),
    };
    put_form(out, &form)?;
    Ok(())
}

fn put_trans(out: &mut String, trans: &[TransDecl]) -> Result<(), OutOfMemory>
    ensures { OnOk result (string_bytes out.new ≡ string_bytes out.old ++ forms_text (numbered trans_forms 0 trans.now)) }
{
    for (number, slot) in trans.iter().enumerate() {
        put_slot(out, number, *slot)?;
    }
    Ok(())
}

fn put_slot(out: &mut String, number: usize, slot: TransDecl) -> Result<(), OutOfMemory>
    ensures { OnOk result (string_bytes out.new ≡ string_bytes out.old ++ forms_text (trans_forms number slot)) }
{
    let form = ScriptLine::Trans {
        slot: number as u64,
        process: u64::from(slot.process.0),
        page: u64::from(slot.page.0),
    };
    put_form(out, &form)?;
    Ok(())
}

fn put_cows(out: &mut String, twins: &[Option<VSlot>]) -> Result<(), OutOfMemory>
    ensures { OnOk result (string_bytes out.new ≡ string_bytes out.old ++ forms_text (numbered cow_forms 0 twins.now)) }
{
    for (number, twin) in twins.iter().enumerate() {
        put_twin(out, number, *twin)?;
    }
    Ok(())
}

fn put_twin(out: &mut String, number: usize, twin: Option<VSlot>) -> Result<(), OutOfMemory>
    ensures { OnOk result (string_bytes out.new ≡ string_bytes out.old ++ forms_text (cow_forms number twin)) }
{
    if let Some(twin) = twin {
        let form = ScriptLine::Cow {
            slot: number as u64,
            twin: u64::from(twin.0),
        };
        put_form(out, &form)?;
    }
    Ok(())
}

fn put_lists(out: &mut String, lists: &[List<Command>]) -> Result<(), OutOfMemory>
    ensures { OnOk result (string_bytes out.new ≡ string_bytes out.old ++ forms_text (numbered list_forms 0 lists.now)) }
{
    for (number, list) in lists.iter().enumerate() {
        put_list(out, number, list.as_slice())?;
    }
    Ok(())
}

fn put_list(out: &mut String, number: usize, commands: &[Command]) -> Result<(), OutOfMemory>
    ensures { OnOk result (string_bytes out.new ≡ string_bytes out.old ++ forms_text (list_forms number commands.now)) }
{
    put_form(out, &ScriptLine::Cpu(number as u64))?;
    for command in commands {
        put_form(out, &ScriptLine::Command(*command))?;
    }
    Ok(())
}

/// Where a line of the schedule ends that begins at a word.
fn end_of_row(start: usize, count: usize) -> usize
    requires start { start ≤ count }
    ensures { ((result ≡ count) × (count ≤ start + 50)) ⊎ ((result ≡ start + 50) × (start + 50 ≤ count)) }
{
    if count - start > WORDS_ON_A_LINE {
        start + WORDS_ON_A_LINE
    } else {
        count
    }
}

/// The words of a line of the schedule.
fn row_of(go: &[Go], row: usize) -> &[Go]
    requires { row < rows_of (length go.now) }
    ensures { result.now ≡ take 50 (drop (row * 50) go.now) }
{
    let start = row * WORDS_ON_A_LINE;
    &go[start..end_of_row(start, go.len())]
}

fn put_row(alloc: Global, out: &mut String, go: &[Go], row: usize) -> Result<(), OutOfMemory>
    requires { row < rows_of (length go.now) }
    ensures { OnOk result (string_bytes out.new ≡ string_bytes out.old ++ line (form_words (go_row go.now row))) }
{
    let form = ScriptLine::Schedule(List::from_vec(row_of(go, row).to_vec(alloc)?));
    put_form(out, &form)?;
    Ok(())
}

fn put_schedule(alloc: Global, out: &mut String, go: &[Go]) -> Result<(), OutOfMemory>
    ensures { OnOk result (string_bytes out.new ≡ string_bytes out.old ++ forms_text (counted (go_row go.now) (rows_of (length go.now)))) }
{
    for row in 0..go.len().div_ceil(WORDS_ON_A_LINE) {
        put_row(alloc, out, go, row)?;
    }
    Ok(())
}
