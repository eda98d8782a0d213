ghost use Rattle.std.specs.Prelude.{◌≡◌, ◌↔◌, ◌==◌, IsTrue, IfOk, All, map};
ghost use Rattle.hwp_script_lines.specs.Grammar.{IsPrintable};
ghost use Rattle.std.specs.List.{slice_split};

use hwp_script_words::OutOfMemory;
use std::alloc::Global;

/// Whether all bytes of a word are printable ASCII.
fn is_printable(word: &[u8]) -> bool
    ensures { IsTrue result ↔ All IsPrintable word.now }
{
    for byte in word {
        if *byte < b' ' || *byte > b'~' {
            return false;
        }
    }
    true
}

/// Whether all bytes of all words are printable ASCII.
pub(crate) fn are_printable(words: &[&[u8]]) -> bool
    ensures { IsTrue result ↔ All (All IsPrintable) (map (λ w. w.now) words.now) }
{
    for word in words {
        if !is_printable(word) {
            return false;
        }
    }
    true
}

/// The parts of a text that the byte `at` parts.
pub(crate) fn parts<'a>(
    alloc: Global,
    bytes: &'a [u8],
    at: u8,
) -> Result<Vec<&'a [u8]>, OutOfMemory>
    ensures { IfOk result (λ parts. map (λ part. part.now) parts.items ≡ slice_split (λ b. b == at) bytes.now) }
{
    bytes.split(|b| *b == at).collect(alloc)
}
