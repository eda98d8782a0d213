ghost use Rattle.std.specs.Prelude.{◌≡◌, ◌<◌, ◌-◌, ◌^◌, ◌↔◌, true, false, length, map, IsTrue, IfOk, MatchOption};
ghost use Rattle.hwp_script_lines.specs.Lines.{IsRead, AreLinesOf, is_comment, is_skipped};
ghost use Rattle.hwp_script_words.specs.Words.{words_of};

use crate::keywords::read_keyword;
use crate::numbers::Misfit;
use crate::script_line::{LineRead, Numbered};
use crate::sentences::read_sentence;
use crate::words::{are_printable, parts};
use hwp_script_words::{OutOfMemory, words_in};
use std::alloc::Global;

/// What the words of a line are read as.
fn read_words(alloc: Global, words: &[&[u8]]) -> Result<LineRead, OutOfMemory>
    ensures { IfOk result (IsRead (map (λ w. w.now) words.now)) }
{
    let [first, rest @ ..] = words else {
        return Ok(LineRead::Unknown);
    };
    if !are_printable(words) {
        return Ok(LineRead::Unknown);
    }
    let Some(keyword) = read_keyword(first) else {
        return Ok(LineRead::Unknown);
    };
    let newer = keyword.is_newer(rest.len());
    match read_sentence(alloc, keyword, rest)? {
        Ok(form) => Ok(LineRead::ScriptLine(form)),
        Err(Misfit::Unknown) => Ok(LineRead::Unknown),
        Err(Misfit::BadNumber) => Ok(LineRead::BadNumber { newer }),
        Err(Misfit::OverLimit) => Ok(LineRead::OverLimit { newer }),
    }
}

/// Whether a line is a comment: its first byte is `#`.
fn is_remark(line: &[u8]) -> bool
    ensures { result ≡ is_comment line.now }
{
    match line {
        [first, ..] => *first == b'#',
        [] => false,
    }
}

/// What a line is read as, or `None` where it is skipped.
fn read_line(alloc: Global, line: &[u8]) -> Result<Option<LineRead>, OutOfMemory>
    ensures { IfOk result (λ read. MatchOption read (is_skipped line.now ≡ true) (λ read. (is_skipped line.now ≡ false) × IsRead (words_of line.now) read)) }
{
    if is_remark(line) {
        return Ok(None);
    }
    let words = words_in(alloc, line)?;
    if words.as_slice().is_empty() {
        return Ok(None);
    }
    Ok(Some(read_words(alloc, words.as_slice())?))
}

/// The lines of a text that are not skipped, each with its number and what it is read as, in one pass.
pub fn read_lines(alloc: Global, bytes: &[u8]) -> Result<Vec<Numbered>, OutOfMemory>
    requires short { length bytes.now < 2 ^ 32 - 1 }
    ensures { IfOk result (λ lines. AreLinesOf bytes.now lines.items) }
{
    let pieces = parts(alloc, bytes, b'\n')?;
    let mut lines = Vec::new(alloc);
    for (at, piece) in pieces.as_slice().iter().enumerate() {
        if let Some(read) = read_line(alloc, piece)? {
            let line = at as u32 + 1;
            lines.push(Numbered { line, read })?;
        }
    }
    Ok(lines)
}
