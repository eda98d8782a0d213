ghost use Rattle.std.specs.Prelude.{◌≡◌, ◌==◌, ◌^◌, [], ◌∷◌, decimal, map, IfOk};
ghost use Rattle.std.specs.List.{slice_split};
ghost use Rattle.hwp_report_text.specs.Terms.{version_word};
ghost use Rattle.hwp_report_words.specs.Reads.{Any, AreBelow, Below, IsReadAs, two_words};
ghost use Rattle.hwp_report.specs.Forms.{IsFormRead, IsLineRead, IsRestRead};

use crate::frames::{read_frame, read_poisoned, read_unpoisoned};
use crate::heads::{Head, read_head};
use crate::report_line::ReportLine;
use hwp_report_text::{OutOfMemory, Version};
use hwp_report_words::{
    Verb, is_text, read_cpu_line, read_failure, read_number, read_plain_entry, read_seen,
    read_signal, read_stop, read_version,
};
use std::alloc::Global;

/// The parts of a text that the byte `at` parts.
fn parts<'a>(alloc: Global, bytes: &'a [u8], at: u8) -> Result<Vec<&'a [u8]>, OutOfMemory>
    ensures { IfOk result (λ parts. map (λ part. part.now) parts.items ≡ slice_split (λ b. b == at) bytes.now) }
{
    bytes.split(|b| *b == at).collect(alloc)
}

/// The number that is the only word.
fn one_number(words: &[&[u8]]) -> Option<u64>
    ensures { IsReadAs (Below (2 ^ 64)) (λ n. decimal n ∷ []) (map (λ w. w.now) words.now) result }
{
    match words {
        [word] => read_number(word),
        _ => None,
    }
}

/// The numbers that are the only two words.
fn two_numbers(words: &[&[u8]]) -> Option<(u64, u64)>
    ensures { IsReadAs AreBelow two_words (map (λ w. w.now) words.now) result }
{
    let [first, second] = words else {
        return None;
    };
    let Some(first) = read_number(first) else {
        return None;
    };
    let Some(second) = read_number(second) else {
        return None;
    };
    Some((first, second))
}

/// A file, by the words behind `file`.
fn read_file(words: &[&[u8]]) -> Option<ReportLine>
    ensures { IsRestRead Head.File (map (λ w. w.now) words.now) result }
{
    let [number, middle, lost] = words else {
        return None;
    };
    if !is_text(middle, "lost") {
        return None;
    }
    let Some(number) = read_number(number) else {
        return None;
    };
    let Some(lost) = read_number(lost) else {
        return None;
    };
    Some(ReportLine::File { number, lost })
}

/// The version that is the only word.
fn one_version(words: &[&[u8]]) -> Option<Version>
    ensures { IsReadAs Any (λ v. version_word v ∷ []) (map (λ w. w.now) words.now) result }
{
    match words {
        [word] => read_version(word),
        _ => None,
    }
}

/// The end, by the words behind `end`.
fn read_end(words: &[&[u8]]) -> Option<ReportLine>
    ensures { IsRestRead Head.End (map (λ w. w.now) words.now) result }
{
    match words {
        [] => Some(ReportLine::End),
        _ => None,
    }
}

/// A page, by the words behind `page`.
fn read_page(words: &[&[u8]]) -> Option<ReportLine>
    ensures { IsRestRead Head.Page (map (λ w. w.now) words.now) result }
{
    let Some((number, entries)) = two_numbers(words) else {
        return None;
    };
    Some(ReportLine::Page { number, entries })
}

/// An entry, by the words behind its first.
fn read_entry(verb: Verb, words: &[&[u8]]) -> Option<ReportLine>
    ensures { IsRestRead (Head.Entry verb) (map (λ w. w.now) words.now) result }
{
    if let Verb::Fail = verb {
        let Some(failure) = read_failure(words) else {
            return None;
        };
        return Some(ReportLine::Fail(failure));
    }
    let Some(entry) = read_plain_entry(verb, words) else {
        return None;
    };
    Some(ReportLine::Entry(entry))
}

/// A processor, by the words behind `cpu`.
fn read_cpu(words: &[&[u8]]) -> Option<ReportLine>
    ensures { IsRestRead Head.Cpu (map (λ w. w.now) words.now) result }
{
    let Some((number, lines)) = two_numbers(words) else {
        return None;
    };
    Some(ReportLine::Cpu { number, lines })
}

/// The line of this first word, by the words behind it.
fn read_rest(head: Head, words: &[&[u8]]) -> Option<ReportLine>
    ensures { IsRestRead head (map (λ w. w.now) words.now) result }
{
    match head {
        Head::Header => Some(ReportLine::Header(one_version(words)?)),
        Head::Count => Some(ReportLine::Count(one_number(words)?)),
        Head::File => read_file(words),
        Head::Page => read_page(words),
        Head::Cpu => read_cpu(words),
        Head::End => read_end(words),
        Head::Stop => Some(ReportLine::Stop(read_stop(words)?)),
        Head::Frame => read_frame(words),
        Head::Poisoned => Some(ReportLine::Mark(read_poisoned(words)?)),
        Head::Unpoisoned => Some(ReportLine::Mark(read_unpoisoned(words)?)),
        Head::Entry(verb) => read_entry(verb, words),
        Head::Seen => Some(ReportLine::Seen(read_seen(words)?)),
        Head::Signal => Some(ReportLine::Signal(read_signal(words)?)),
    }
}

/// The line of a report that these words are.
fn read_words(words: &[&[u8]]) -> Option<ReportLine>
    ensures { IsFormRead (map (λ w. w.now) words.now) result }
{
    let [first, rest @ ..] = words else {
        return None;
    };
    match read_head(first) {
        Some(head) => read_rest(head, rest),
        None => {
            let Some(line) = read_cpu_line(words) else {
                return None;
            };
            Some(ReportLine::CpuLine(line))
        }
    }
}

/// The line of a report that these bytes without a line feed are.
pub(crate) fn read_line(alloc: Global, line: &[u8]) -> Result<Option<ReportLine>, OutOfMemory>
    ensures { IfOk result (IsLineRead line.now) }
{
    let words = parts(alloc, line, b' ')?;
    Ok(read_words(words.as_slice()))
}
