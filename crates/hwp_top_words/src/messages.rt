//! The texts on the error sink.
ghost use Rattle.std.specs.Prelude.{◌≡◌, ◌≤◌, IfOk, string_bytes};
ghost use Rattle.hwp_top_words.specs.Statuses.{Told, refusal_text, why_text};

use hwp_io::{Sink, write_all};
use hwp_script::{Refused, Why};
use std::alloc::{AllocError, Global};

/// Usage line.
pub const USAGE: &[u8] = b"usage: hwp step [tlb]|run [tlb]|check|gen N|sum N\n";
/// Printed when a read fails.
pub(crate) const READ_FAULT: &[u8] = b"read fault\n";
/// Printed when a write fails.
pub(crate) const WRITE_FAULT: &[u8] = b"write fault\n";
/// Printed when memory runs out.
pub(crate) const OUT_OF_MEMORY: &[u8] = b"out of memory\n";

/// The name of a reason.
fn name_of(why: Why) -> &'static str
    ensures { result.now ≡ why_text why }
{
    match why {
        Why::BadHeader => "BadHeader",
        Why::UnknownWord => "UnknownWord",
        Why::BadNumber => "BadNumber",
        Why::OverLimit => "OverLimit",
        Why::Undeclared => "Undeclared",
        Why::Twice => "Twice",
        Why::WrongPlace => "WrongPlace",
        Why::NoEnd => "NoEnd",
        Why::TooLong => "TooLong",
    }
}

/// `script line L: WHY`, and a line feed.
pub(crate) fn refusal(alloc: Global, refused: Refused) -> Result<String, AllocError>
    ensures { IfOk result (λ text. string_bytes text ≡ refusal_text refused) }
{
    let line = refused.line;
    let name = name_of(refused.why);
    format!(in alloc; "script line {line}: {name}\n")
}

/// Writes a text to the error sink. A fault there changes no answer.
pub fn tell<E: Sink>(err: &mut E, text: &[u8])
    ensures { Told (E.taken err.old) (E.taken err.new) (E.faults err.old) (E.faults err.new) text.now }
{
    let _ = write_all(err, text);
}
