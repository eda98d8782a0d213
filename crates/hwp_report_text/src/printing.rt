ghost use Rattle.std.specs.Prelude.{◌≡◌, [], ◌∷◌, ◌++◌, OnOk, IfOk, string_bytes, codes, decimal, map};
ghost use Rattle.std.specs.List.{flat_map};
ghost use Rattle.hwp_page.specs.hwp_geom.Words.{hex, line};
ghost use Rattle.hwp_report_text.specs.ReportText.{cause_words, cpu_lines, file_lines, frame_lines, frame_words, head_lines, how_words, mark_words, numbered, page_lines, report_text, stop_words};

use crate::frames::{FrameLine, How, MarkLine, Whereabouts};
use crate::lines::CpuLine;
use crate::report::{Report, Stop, StopCause};
use crate::terms::{
    flag_number, mode_word, origin_word, outcome_word, situation_word, version_word,
};
use answers::put_cpu_lines;
use entries::put_entries;
use hwp_page::{Entry, List, Mask, OutOfMemory, Text, Version, Who};
use hwp_script_words::{Word, put_line};
use std::alloc::Global;
use verbs::put_verb;

mod answers;
mod entries;
mod verbs;

/// The one text of a report.
pub fn print(alloc: Global, report: &Report) -> Result<Text, OutOfMemory>
    ensures { IfOk result (λ text. text ≡ report_text report.now) }
{
    let mut out = String::new(alloc);
    put_front(&mut out, report)?;
    put_frames(&mut out, report.frames.as_slice())?;
    put_pages(&mut out, report.pages.as_slice())?;
    put_cpus(&mut out, report.cpus.as_slice())?;
    put_line(&mut out, Word::Text("end"), &[])?;
    Ok(Text::from_string(out))
}

fn put_front(out: &mut String, report: &Report) -> Result<(), OutOfMemory>
    ensures { OnOk result (string_bytes out.new ≡ string_bytes out.old
        ++ flat_map line (head_lines report.now.version report.now.stop report.now.count ++ numbered file_lines 0 report.now.files)) }
{
    put_head(out, report.version, report.stop, report.count)?;
    put_files(out, report.files.as_slice())
}

fn put_head(
    out: &mut String,
    version: Version,
    stop: Option<Stop>,
    count: u64,
) -> Result<(), OutOfMemory>
    ensures { OnOk result (string_bytes out.new ≡ string_bytes out.old ++ flat_map line (head_lines version stop count)) }
{
    let version = Word::Text(version_word(version));
    put_line(out, Word::Text("hwp-report"), &[version])?;
    put_stop(out, stop)?;
    put_line(out, Word::Text("count"), &[Word::Number(count)])
}

fn put_stop(out: &mut String, stop: Option<Stop>) -> Result<(), OutOfMemory>
    ensures { OnOk result (string_bytes out.new ≡ string_bytes out.old ++ line (stop_words stop)) }
{
    match stop {
        None => put_line(out, Word::Text("stop"), &[Word::Text("none")]),
        Some(stop) => put_cause(out, stop.who, stop.cause),
    }
}

fn put_cause(out: &mut String, who: Who, cause: StopCause) -> Result<(), OutOfMemory>
    ensures { OnOk result (string_bytes out.new ≡ string_bytes out.old
        ++ line (codes "stop" ∷ decimal who.cpu.0 ∷ decimal who.seq ∷ cause_words cause)) }
{
    match cause {
        StopCause::Severity {
            row,
            bank,
            status,
            mcg,
            mode,
        } => {
            let ripv = flag_number(mcg.ripv);
            let eipv = flag_number(mcg.eipv);
            let mode = mode_word(mode);
            let graded = [
                Word::Text("severity"),
                Word::Row(row),
                Word::Number(bank as u64),
                Word::Hex(status),
                Word::Number(ripv as u64),
                Word::Number(eipv as u64),
                Word::Text(mode),
            ];
            put_verb(out, "stop", who, &graded)
        }
        StopCause::Shutdown => put_verb(out, "stop", who, &[Word::Text("shutdown")]),
        StopCause::Panic(frame) => {
            let frame = Word::Number(frame.0 as u64);
            put_verb(out, "stop", who, &[Word::Text("panic"), frame])
        }
    }
}

fn put_files(out: &mut String, files: &[u64]) -> Result<(), OutOfMemory>
    ensures { OnOk result (string_bytes out.new ≡ string_bytes out.old ++ flat_map line (numbered file_lines 0 files.now)) }
{
    for (number, lost) in files.iter().enumerate() {
        put_file(out, number, *lost)?;
    }
    Ok(())
}

fn put_file(out: &mut String, number: usize, lost: u64) -> Result<(), OutOfMemory>
    ensures { OnOk result (string_bytes out.new ≡ string_bytes out.old ++ flat_map line (file_lines number lost)) }
{
    put_line(
        out,
        Word::Text("file"),
        &[
            Word::Number(number as u64),
            Word::Text("lost"),
            Word::Number(lost),
        ],
    )
}

fn put_frames(out: &mut String, frames: &[FrameLine]) -> Result<(), OutOfMemory>
    ensures { OnOk result (string_bytes out.new ≡ string_bytes out.old ++ flat_map line (numbered frame_lines 0 frames.now)) }
{
    for (number, frame) in frames.iter().enumerate() {
        put_frame(out, number, frame)?;
    }
    Ok(())
}

fn put_frame(out: &mut String, number: usize, frame: &FrameLine) -> Result<(), OutOfMemory>
    ensures { OnOk result (string_bytes out.new ≡ string_bytes out.old ++ flat_map line (frame_lines number frame.now)) }
{
    put_frame_head(out, number, frame)?;
    put_marks(out, frame.marks.as_slice())
}

fn put_frame_head(out: &mut String, number: usize, frame: &FrameLine) -> Result<(), OutOfMemory>
    ensures { OnOk result (string_bytes out.new ≡ string_bytes out.old ++ line (frame_words number frame.now)) }
{
    let bad = frame.bad;
    let weak = frame.weak;
    match frame.place {
        Whereabouts::Free => put_pageless(out, number, "free", bad, weak),
        Whereabouts::Kernel => put_pageless(out, number, "kernel", bad, weak),
        Whereabouts::Handled => put_pageless(out, number, "handled", bad, weak),
        Whereabouts::Of(page) => put_line(
            out,
            Word::Text("frame"),
            &[
                Word::Number(number as u64),
                Word::Text("page"),
                Word::Number(page.0 as u64),
                Word::Text("bad"),
                Word::Hex(bad.0),
                Word::Text("weak"),
                Word::Hex(weak.0),
            ],
        ),
    }
}

fn put_pageless(
    out: &mut String,
    number: usize,
    state: &'static str,
    bad: Mask,
    weak: Mask,
) -> Result<(), OutOfMemory>
    ensures { OnOk result (string_bytes out.new ≡ string_bytes out.old
        ++ line (codes "frame" ∷ decimal number ∷ state.now ∷ codes "bad" ∷ hex bad.0 ∷ codes "weak" ∷ hex weak.0 ∷ [])) }
{
    put_line(
        out,
        Word::Text("frame"),
        &[
            Word::Number(number as u64),
            Word::Text(state),
            Word::Text("bad"),
            Word::Hex(bad.0),
            Word::Text("weak"),
            Word::Hex(weak.0),
        ],
    )
}

fn put_marks(out: &mut String, marks: &[MarkLine]) -> Result<(), OutOfMemory>
    ensures { OnOk result (string_bytes out.new ≡ string_bytes out.old ++ flat_map line (map mark_words marks.now)) }
{
    for mark in marks {
        put_mark(out, *mark)?;
    }
    Ok(())
}

fn put_mark(out: &mut String, mark: MarkLine) -> Result<(), OutOfMemory>
    ensures { OnOk result (string_bytes out.new ≡ string_bytes out.old ++ line (mark_words mark)) }
{
    match mark {
        MarkLine::Poisoned { cycle, who, how } => put_poisoned(out, cycle, who, how),
        MarkLine::Unpoisoned { cycle, who } => put_line(
            out,
            Word::Text("unpoisoned"),
            &[
                Word::Number(cycle as u64),
                Word::Number(who.cpu.0 as u64),
                Word::Number(who.seq as u64),
            ],
        ),
    }
}

fn put_poisoned(out: &mut String, cycle: u32, who: Who, how: How) -> Result<(), OutOfMemory>
    ensures { OnOk result (string_bytes out.new ≡ string_bytes out.old
        ++ line (codes "poisoned" ∷ decimal cycle ∷ decimal who.cpu.0 ∷ decimal who.seq ∷ how_words how)) }
{
    let (origin, situation, outcome) = match how {
        How::Failure {
            hardware,
            situation,
            outcome,
        } => (
            origin_word(hardware),
            situation_word(situation),
            outcome_word(outcome),
        ),
        How::Moved => ("soft", "moved", "recovered"),
        How::TakenFree => ("soft", "free", "recovered"),
    };
    put_line(
        out,
        Word::Text("poisoned"),
        &[
            Word::Number(cycle as u64),
            Word::Number(who.cpu.0 as u64),
            Word::Number(who.seq as u64),
            Word::Text(origin),
            Word::Text(situation),
            Word::Text(outcome),
        ],
    )
}

fn put_pages(out: &mut String, pages: &[List<Entry>]) -> Result<(), OutOfMemory>
    ensures { OnOk result (string_bytes out.new ≡ string_bytes out.old ++ flat_map line (numbered page_lines 0 pages.now)) }
{
    for (number, page) in pages.iter().enumerate() {
        put_page(out, number, page.as_slice())?;
    }
    Ok(())
}

fn put_page(out: &mut String, number: usize, entries: &[Entry]) -> Result<(), OutOfMemory>
    ensures { OnOk result (string_bytes out.new ≡ string_bytes out.old ++ flat_map line (page_lines number entries.now)) }
{
    let number = Word::Number(number as u64);
    let count = Word::Number(entries.len() as u64);
    put_line(out, Word::Text("page"), &[number, count])?;
    put_entries(out, entries)
}

fn put_cpus(out: &mut String, cpus: &[List<CpuLine>]) -> Result<(), OutOfMemory>
    ensures { OnOk result (string_bytes out.new ≡ string_bytes out.old ++ flat_map line (numbered cpu_lines 0 cpus.now)) }
{
    for (number, lines) in cpus.iter().enumerate() {
        put_cpu(out, number, lines.as_slice())?;
    }
    Ok(())
}

fn put_cpu(out: &mut String, number: usize, lines: &[CpuLine]) -> Result<(), OutOfMemory>
    ensures { OnOk result (string_bytes out.new ≡ string_bytes out.old ++ flat_map line (cpu_lines number lines.now)) }
{
    let number = Word::Number(number as u64);
    let count = Word::Number(lines.len() as u64);
    put_line(out, Word::Text("cpu"), &[number, count])?;
    put_cpu_lines(out, lines)
}
