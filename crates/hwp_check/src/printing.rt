ghost use Rattle.std.specs.Prelude.{◌≡◌, IfOk};
ghost use Rattle.hwp_check.specs.Text.{verdict_text};

use hwp_check_rules::{OutOfMemory, Text, Verdict};
use std::alloc::Global;

/// The one text of a verdict: `legal`, or `not PLACE RULE`, and a line feed.
pub fn print(alloc: Global, verdict: Verdict) -> Result<Text, OutOfMemory>
    ensures { IfOk result (λ text. text ≡ verdict_text verdict) }
{
    let mut out = String::new(alloc);
    match verdict {
        Verdict::Legal => writeln!(&mut out, "legal")?,
        Verdict::Not { line, rule } => {
            let number = rule.number();
            writeln!(&mut out, "not {line} {number}")?;
        }
    }
    Ok(Text::from_string(out))
}
