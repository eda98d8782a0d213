//! What `check` says of an input.
ghost use Rattle.std.specs.Prelude.{◌≡◌, ◌≤◌, ◌<◌, IfOk, IsErrOf, None, length};
ghost use Rattle.std.specs.Io.KnownBytes.{Consumes, IsAtEnd};
ghost use Rattle.hwp_script.specs.hwp_script_read.declared.Refused.{Refused};
ghost use Rattle.hwp_top_words.specs.Checked.{IsChecked, RefusesChecked, check_limit, verdict_status};

use crate::inputs::{InputFault, whole};
use crate::output::Output;
use hwp_check::{Verdict, judge, print};
use hwp_io::{Bytes, ReadAll, Source, read_all};
use hwp_script::{ReadScript, Why};
use std::alloc::Global;

/// The most bytes of a script and a report: 17 MiB.
const MAX_CHECKED: usize = 17_825_792;

/// Reads a source to its end.
fn take_input<S: Source>(alloc: Global, src: &mut S) -> Result<Bytes, InputFault>
    ensures all { IfOk result (λ bytes. Consumes (S.left src.old) (S.left src.new) bytes × IsAtEnd (S.left src.new)) }
    ensures within { IfOk result (λ bytes. length bytes ≤ check_limit) }
    ensures refused { (r : Refused) → IsErrOf result (InputFault.Refused r) → RefusesChecked (S.left src.old) (S.left src.new) r }
    ensures fault { IsErrOf result InputFault.ReadFault → S.faults src.old < S.faults src.new }
{
    match read_all(alloc, src, MAX_CHECKED) {
        Ok(bytes) => Ok(bytes),
        Err(ReadAll::TooLong) => Err(whole(Why::TooLong)),
        Err(ReadAll::ReadFault) => Err(InputFault::ReadFault),
        Err(ReadAll::OutOfMemory) => Err(InputFault::OutOfMemory),
    }
}

/// The exit status of a verdict that was written.
fn status_of(verdict: Verdict) -> u8
    ensures { result ≡ verdict_status verdict }
{
    match verdict {
        Verdict::Legal => 0,
        Verdict::Not { .. } => 1,
    }
}

/// The output of `check`.
pub fn checked<S: Source>(alloc: Global, src: &mut S) -> Result<Output, InputFault>
    ensures output { IfOk result (λ o. IsChecked (S.left src.old) (S.left src.new) o.status o.text × (o.report ≡ None) × (o.ended ≡ None) × (o.tlb ≡ None)) }
    ensures refused { (r : Refused) → IsErrOf result (InputFault.Refused r) → RefusesChecked (S.left src.old) (S.left src.new) r }
    ensures fault { IsErrOf result InputFault.ReadFault → S.faults src.old < S.faults src.new }
{
    let bytes = take_input(alloc, src)?;
    let verdict = match judge(alloc, bytes) {
        Ok(verdict) => verdict,
        Err(ReadScript::Refused(refused)) => return Err(InputFault::Refused(refused)),
        Err(ReadScript::OutOfMemory) => return Err(InputFault::OutOfMemory),
    };
    let Ok(text) = print(alloc, verdict) else {
        return Err(InputFault::OutOfMemory);
    };
    Ok(Output {
        text,
        status: status_of(verdict),
        report: None,
        ended: None,
        tlb: None,
    })
}
