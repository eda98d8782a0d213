ghost use Rattle.std.specs.Prelude.{◌≡◌, ◌≢◌, ◌^◌, ◌<◌, ◌≤◌, ◌↔◌, [], ◌∷◌, false, length, slice_index, decimal, IsTrue};
ghost use Rattle.std.specs.Fmt.{digit_glyph};
ghost use Rattle.hwp_script_words.specs.hwp_geom.Limits.{line_limit};
ghost use Rattle.hwp_script_words.specs.hwp_geom.Words.{hex};
ghost use Rattle.hwp_report_words.specs.Reads.{IsReadAs, Below};
ghost use Rattle.hwp_report_words.specs.Words.{AtFits, WhoFits, at_words, who_words};

use hwp_report_text::{At, Cpu, Line, Page, Who};

/// Whether a word has this text.
pub fn is_text(word: &[u8], text: &str) -> bool
    ensures { IsTrue result ↔ (word.now ≡ text.now) }
{
    word == text.as_bytes()
}

/// The number that a word is: `0` or decimal digits without a leading zero, below 2^64.
pub fn read_number(word: &[u8]) -> Option<u64>
    ensures { IsReadAs (Below (2 ^ 64)) decimal word.now result }
{
    hwp_script_words::read_number(word)
}

/// The number that a word is, where it is below a bound.
pub(crate) fn read_below(word: &[u8], bound: u64) -> Option<u64>
    ensures { IsReadAs (Below bound) decimal word.now result }
{
    let Some(number) = read_number(word) else {
        return None;
    };
    if number < bound { Some(number) } else { None }
}

/// The number below 2^8 that a word is.
pub fn read_u8(word: &[u8]) -> Option<u8>
    ensures { IsReadAs (Below (2 ^ 8)) decimal word.now result }
{
    let Some(number) = read_below(word, 1 << 8) else {
        return None;
    };
    Some(number as u8)
}

/// The number below 2^16 that a word is.
pub fn read_u16(word: &[u8]) -> Option<u16>
    ensures { IsReadAs (Below (2 ^ 16)) decimal word.now result }
{
    let Some(number) = read_below(word, 1 << 16) else {
        return None;
    };
    Some(number as u16)
}

/// The number below 2^32 that a word is.
pub fn read_u32(word: &[u8]) -> Option<u32>
    ensures { IsReadAs (Below (2 ^ 32)) decimal word.now result }
{
    let Some(number) = read_below(word, 1 << 32) else {
        return None;
    };
    Some(number as u32)
}

/// The line of a frame or a page that a word names.
pub fn read_line_number(word: &[u8]) -> Option<Line>
    ensures { IsReadAs (Below line_limit) decimal word.now result }
{
    let Some(number) = read_u8(word) else {
        return None;
    };
    Line::new(number)
}

/// The digit that a byte is: 0 to 9, or a to f.
fn hex_digit(byte: u8) -> Option<u8>
    ensures { IsReadAs (Below 16) (digit_glyph false) byte result }
{
    match byte {
        b'0'..=b'9' => Some(byte - b'0'),
        b'a'..=b'f' => Some(byte - b'a' + 10),
        _ => None,
    }
}

/// The number that hex digits write, of which the first is not 0.
fn read_hex_digits(digits: &[u8]) -> Option<u64>
    requires some { 0 < length digits.now }
    requires short { length digits.now ≤ 16 }
    requires first { slice_index digits.now 0 ≢ 48 }
    ensures { IsReadAs (Below (2 ^ 64)) hex digits.now result }
{
    let mut number = 0;
    for byte in digits {
        let Some(digit) = hex_digit(*byte) else {
            return None;
        };
        number = number * 16 + u64::from(digit);
    }
    Some(number)
}

/// The number that a word is in hex: `0`, or lower-case digits without a leading zero, below 2^64.
pub fn read_hex(word: &[u8]) -> Option<u64>
    ensures { IsReadAs (Below (2 ^ 64)) hex word.now result }
{
    if is_text(word, "0") {
        return Some(0);
    }
    if word.len() > 16 {
        return None;
    }
    let [first, ..] = word else {
        return None;
    };
    if *first == b'0' {
        return None;
    }
    read_hex_digits(word)
}

/// The processor and the number of its command that two words are.
pub fn read_who(cpu: &[u8], seq: &[u8]) -> Option<Who>
    ensures { IsReadAs WhoFits who_words (cpu.now ∷ seq.now ∷ []) result }
{
    let Some(cpu) = read_u8(cpu) else {
        return None;
    };
    let Some(seq) = read_u32(seq) else {
        return None;
    };
    Some(Who { cpu: Cpu(cpu), seq })
}

/// The place in a history that two words are.
pub fn read_at(page: &[u8], entry: &[u8]) -> Option<At>
    ensures { IsReadAs AtFits at_words (page.now ∷ entry.now ∷ []) result }
{
    let Some(page) = read_u16(page) else {
        return None;
    };
    let Some(entry) = read_number(entry) else {
        return None;
    };
    Some(At {
        page: Page(page),
        entry,
    })
}
