ghost use Rattle.std.specs.Prelude.{◌≡◌, ◌∷◌, ◌++◌, OnOk, string_bytes, decimal, map};
ghost use Rattle.hwp_page.specs.hwp_geom.Words.{line};
ghost use Rattle.hwp_script_words.specs.Printed.{word_text};
ghost use Rattle.hwp_report_text.specs.ReportText.{verb_words};

use hwp_page::{OutOfMemory, Who};
use hwp_script_words::{Word, put_rest, put_word, put_words};

/// Adds a line that begins with a verb and a command's processor and number.
pub(crate) fn put_verb(
    out: &mut String,
    verb: &'static str,
    who: Who,
    rest: &[Word],
) -> Result<(), OutOfMemory>
    ensures { OnOk result (string_bytes out.new ≡ string_bytes out.old ++ line (verb_words verb.now who (map word_text rest.now))) }
{
    put_word(out, Word::Text(verb))?;
    put_words(
        out,
        &[Word::Number(who.cpu.0 as u64), Word::Number(who.seq as u64)],
    )?;
    put_rest(out, rest)
}
