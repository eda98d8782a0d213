ghost use Rattle.std.specs.Prelude.{◌≡◌, IfOk, IsErrOf};
ghost use Rattle.hwp_script_read.specs.Reads.{Reads, IsRefused};
ghost use Rattle.hwp_script_lines.specs.hwp_script_words.Valid.{IsValid};
ghost use Rattle.hwp_script_lines.specs.declared.Script.{Script};
ghost use Rattle.hwp_script_read.specs.declared.why.Refused.{Refused};

use crate::judging::judge;
use crate::why::{Refused, Why};
use hwp_script_lines::{MAX_SCRIPT, OutOfMemory, Script, read_lines};
use std::alloc::Global;

/// Why `read` gives no script.
#[derive(Clone, Copy, Debug, PartialEq, Eq)]
pub enum ReadScript {
    /// The bytes are no script.
    Refused(Refused),
    /// Out of memory.
    OutOfMemory,
}

/// The script that bytes are the text of. Bytes beyond `MAX_SCRIPT` are refused as `TooLong` at line 0. All others
/// that are the text of no script are refused at the first line that is at fault, with the lowest reason that applies
/// to it. No text is both, and none is the text of two scripts.
pub fn read(alloc: Global, bytes: &[u8]) -> Result<Script, ReadScript>
    ensures script { IfOk result (λ script. Reads bytes.now script) }
    ensures valid { IfOk result IsValid }
    ensures refused { (r : Refused) → IsErrOf result (ReadScript.Refused r) → IsRefused bytes.now r }
    ensures apart { (r : Refused) (script : Script) → IsRefused bytes.now r → Reads bytes.now script → ⊥ }
    ensures one { (script other : Script) → Reads bytes.now script → Reads bytes.now other → other ≡ script }
{
    if bytes.len() > MAX_SCRIPT {
        return Err(ReadScript::Refused(Refused {
            line: 0,
            why: Why::TooLong,
        }));
    }
    let Ok(lines) = read_lines(alloc, bytes) else {
        return Err(ReadScript::OutOfMemory);
    };
    match judge(alloc, lines) {
        Ok(Ok(script)) => Ok(script),
        Ok(Err(refused)) => Err(ReadScript::Refused(refused)),
        Err(_) => Err(ReadScript::OutOfMemory),
    }
}
