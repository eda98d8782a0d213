ghost use Rattle.std.specs.Prelude.{◌≡◌, ◌∷◌, ◌++◌, OnOk, string_bytes, decimal, map};
ghost use Rattle.std.specs.List.{flat_map};
ghost use Rattle.hwp_geom.specs.Words.{line};
ghost use Rattle.hwp_script_words.specs.Printed.{line_end, word_text};

use hwp_geom::OutOfMemory;
use itoa::Buffer;

/// A word of a line.
#[derive(Clone, Copy)]
pub enum Word {
    /// A text.
    Text(&'static str),
    /// A number, in decimal.
    Number(u64),
    /// A number, in hex.
    Hex(u64),
    /// A row of the severity table.
    Row(u8),
    /// A register word: `0x` and a number in hex.
    Register(u64),
}

/// Adds a line to a text.
pub fn put_line(out: &mut String, first: Word, rest: &[Word]) -> Result<(), OutOfMemory>
    ensures { OnOk result (string_bytes out.new ≡ string_bytes out.old ++ line (word_text first ∷ map word_text rest.now)) }
{
    put_word(out, first)?;
    put_rest(out, rest)
}

/// Adds the rest of a line: words, with a space before each, and a line feed.
pub fn put_rest(out: &mut String, words: &[Word]) -> Result<(), OutOfMemory>
    ensures { OnOk result (string_bytes out.new ≡ string_bytes out.old ++ line_end (map word_text words.now)) }
{
    put_words(out, words)?;
    out.push_str("\n")?;
    Ok(())
}

/// Adds words, with a space before each.
pub fn put_words(out: &mut String, words: &[Word]) -> Result<(), OutOfMemory>
    ensures { OnOk result (string_bytes out.new ≡ string_bytes out.old ++ flat_map (λ w. 32 ∷ word_text w) words.now) }
{
    for word in words {
        out.push_str(" ")?;
        put_word(out, *word)?;
    }
    Ok(())
}

/// Adds a word.
pub fn put_word(out: &mut String, word: Word) -> Result<(), OutOfMemory>
    ensures { OnOk result (string_bytes out.new ≡ string_bytes out.old ++ word_text word) }
{
    match word {
        Word::Text(text) => {
            out.push_str(text)?;
            Ok(())
        }
        Word::Number(number) => {
            out.push_str(Buffer::new().format(number))?;
            Ok(())
        }
        Word::Hex(number) => write!(out, "{number:x}"),
        Word::Row(row) => write!(out, "S{row}"),
        Word::Register(number) => write!(out, "0x{number:x}"),
    }
}
