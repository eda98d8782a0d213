//! Words of a line, each with a space behind it.
ghost use Rattle.std.specs.Prelude.{◌≡◌, [], ◌∷◌, ◌++◌, OnOk, string_bytes, decimal};
ghost use Rattle.hwp_core_rule.specs.hwp_geom.Words.{hex};
ghost use Rattle.hwp_plain.specs.TraceText.{flag_words, spaced};

use hwp_core_rule::OutOfMemory;

/// A word.
pub(crate) fn put_word(out: &mut String, word: &str) -> Result<(), OutOfMemory>
    ensures { OnOk result (string_bytes out.new ≡ string_bytes out.old ++ spaced (word.now ∷ [])) }
{
    write!(out, "{word} ")
}

/// A word and a number.
pub(crate) fn put_named(out: &mut String, word: &str, number: u64) -> Result<(), OutOfMemory>
    ensures { OnOk result (string_bytes out.new ≡ string_bytes out.old ++ spaced (word.now ∷ decimal number ∷ [])) }
{
    write!(out, "{word} {number} ")
}

/// A number.
pub(crate) fn put_number(out: &mut String, number: u64) -> Result<(), OutOfMemory>
    ensures { OnOk result (string_bytes out.new ≡ string_bytes out.old ++ spaced (decimal number ∷ [])) }
{
    write!(out, "{number} ")
}

/// A set of frames or lines, in hex.
pub(crate) fn put_set(out: &mut String, bits: u64) -> Result<(), OutOfMemory>
    ensures { OnOk result (string_bytes out.new ≡ string_bytes out.old ++ spaced (hex bits ∷ [])) }
{
    write!(out, "{bits:x} ")
}

/// The word, where it holds.
pub(crate) fn put_flag(out: &mut String, holds: bool, word: &str) -> Result<(), OutOfMemory>
    ensures { OnOk result (string_bytes out.new ≡ string_bytes out.old ++ spaced (flag_words holds word.now)) }
{
    if holds { put_word(out, word) } else { Ok(()) }
}
