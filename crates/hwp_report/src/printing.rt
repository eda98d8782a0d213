ghost use Rattle.std.specs.Prelude.{◌≡◌, ◌∷◌, [], ◌++◌, IfOk, OnOk, string_bytes, decimal};
ghost use Rattle.hwp_report_text.specs.hwp_geom.Words.{line};
ghost use Rattle.hwp_report.specs.SummaryText.{stop_words, summary_text};

use crate::counts::Summary;
use hwp_report_text::{OutOfMemory, Text};
use std::alloc::Global;

/// The one text of the summary of the run that a seed gives.
pub fn print_summary(alloc: Global, seed: u64, summary: &Summary) -> Result<Text, OutOfMemory>
    ensures { IfOk result (λ text. text ≡ summary_text seed summary.now) }
{
    let mut out = String::new(alloc);
    writeln!(&mut out, "hwp-sum 1")?;
    put_number(&mut out, "seed", seed)?;
    put_number(&mut out, "commands", summary.commands)?;
    put_number(&mut out, "noframe", summary.noframe)?;
    put_stop(&mut out, summary.stopped)?;
    put_number(&mut out, "count", summary.count)?;
    put_number(&mut out, "entries", summary.entries)?;
    put_number(&mut out, "signals", summary.signals)?;
    Ok(Text::from_string(out))
}

fn put_number(out: &mut String, word: &str, number: u64) -> Result<(), OutOfMemory>
    ensures { OnOk result (string_bytes out.new ≡ string_bytes out.old ++ line (word.now ∷ decimal number ∷ [])) }
{
    writeln!(out, "{word} {number}")
}

fn put_stop(out: &mut String, stopped: bool) -> Result<(), OutOfMemory>
    ensures { OnOk result (string_bytes out.new ≡ string_bytes out.old ++ line (stop_words stopped)) }
{
    if stopped {
        writeln!(out, "stop yes")
    } else {
        writeln!(out, "stop none")
    }
}
