ghost use Rattle.std.specs.Prelude.{◌≡◌, ◌↔◌, ◌∷◌, [], codes, IsTrue, IfOk, map};
ghost use Rattle.hwp_check.specs.Parting.{IsEnd, IsParted};

use hwp_check_rules::{OutOfMemory, is_text, words_in};
use hwp_report::first_line;
use std::alloc::Global;

/// Whether `end` is the one word.
fn is_end_word(words: &[&[u8]]) -> bool
    ensures { IsTrue result ↔ (map (λ w. w.now) words.now ≡ codes "end" ∷ []) }
{
    match words {
        [word] => is_text(word, "end"),
        _ => false,
    }
}

/// Whether the only word of a line is `end`.
fn is_end(alloc: Global, line: &[u8]) -> Result<bool, OutOfMemory>
    ensures { IfOk result (λ ends. IsTrue ends ↔ IsEnd line.now) }
{
    let words = words_in(alloc, line)?;
    Ok(is_end_word(words.as_slice()))
}

/// The script that stands first in an input, up to its first line whose only word is `end`, and all that is behind it. Where no
/// such line ends with a line feed, all is script.
pub(crate) fn parted(alloc: Global, input: &[u8]) -> Result<(&[u8], &[u8]), OutOfMemory>
    ensures { IfOk result (λ parts. IsParted input.now parts.0.now parts.1.now) }
{
    let mut rest = input;
    while let Some((line, behind)) = first_line(rest) {
        if is_end(alloc, line)? {
            return Ok((&input[..input.len() - behind.len()], behind));
        }
        rest = behind;
    }
    Ok((input, &[]))
}
