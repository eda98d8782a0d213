//! The script that a source gives.
ghost use Rattle.std.specs.Prelude.{◌≡◌, ◌≤◌, ◌<◌, IfOk, IsErrOf};
ghost use Rattle.hwp_script.specs.hwp_script_read.hwp_script_words.Valid.{IsValid};
ghost use Rattle.hwp_script.specs.hwp_script_read.declared.Refused.{Refused};
ghost use Rattle.hwp_top_words.specs.Inputs.{Refuses, Takes};

use hwp_io::{ReadAll, Source, read_all};
use hwp_script::{MAX_SCRIPT, ReadScript, Refused, Script, Why, read};
use std::alloc::Global;

/// Why a source gives no script.
#[derive(Clone, Copy)]
pub enum InputFault {
    /// The bytes are refused.
    Refused(Refused),
    /// The source failed.
    ReadFault,
    /// Out of memory.
    OutOfMemory,
}

/// The refusal of a whole script.
pub(crate) fn whole(why: Why) -> InputFault
    ensures { result ≡ InputFault.Refused (record { line = 0; why = why }) }
{
    InputFault::Refused(Refused { line: 0, why })
}

/// Reads a source to its end, and the script that it gives.
pub fn take_script<S: Source>(alloc: Global, src: &mut S) -> Result<Script, InputFault>
    ensures script { IfOk result (Takes (S.left src.old) (S.left src.new)) }
    ensures valid { IfOk result IsValid }
    ensures refused { (r : Refused) → IsErrOf result (InputFault.Refused r)
        → Refuses (S.left src.old) (S.left src.new) r }
    ensures later { S.faults src.old ≤ S.faults src.new }
    ensures fault { IsErrOf result InputFault.ReadFault → S.faults src.old < S.faults src.new }
{
    let bytes = match read_all(alloc, src, MAX_SCRIPT) {
        Ok(bytes) => bytes,
        Err(ReadAll::TooLong) => return Err(whole(Why::TooLong)),
        Err(ReadAll::ReadFault) => return Err(InputFault::ReadFault),
        Err(ReadAll::OutOfMemory) => return Err(InputFault::OutOfMemory),
    };
    match read(alloc, bytes.as_slice()) {
        Ok(script) => Ok(script),
        Err(ReadScript::Refused(refused)) => Err(InputFault::Refused(refused)),
        Err(ReadScript::OutOfMemory) => Err(InputFault::OutOfMemory),
    }
}
