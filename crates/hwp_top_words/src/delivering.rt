//! An output to its sink, or a fault to the error sink, and the status of that.
ghost use Rattle.std.specs.Prelude.{◌≡◌, ◌⊎◌, ◌<◌, ℕ, List, Some};
ghost use Rattle.std.specs.Io.KnownBytes.{Appends};
ghost use Rattle.hwp_io.specs.Causes.{AppendsStrictFront};
ghost use Rattle.hwp_script.specs.hwp_script_read.declared.Refused.{Refused};
ghost use Rattle.hwp_top_words.specs.Statuses.{IsDone, Told, memory_text, refusal_text, told_text, write_fault_text};

use crate::done::Done;
use crate::inputs::InputFault;
use crate::messages::{OUT_OF_MEMORY, READ_FAULT, WRITE_FAULT, refusal, tell};
use crate::output::Output;
use hwp_io::{Sink, WriteFault, write_all};
use std::alloc::Global;

/// Writes an output, and says how that ended.
pub fn deliver<K: Sink, E: Sink>(out: &mut K, err: &mut E, output: Output) -> Done
    requires { IsDone output.status }
    ensures statuses { (result.status ≡ output.status) ⊎ (result.status ≡ 5) }
    ensures report { (result.report ≡ output.report) × (result.ended ≡ output.ended) × (result.tlb ≡ output.tlb) }
    ensures done { IsDone result.status → (result.status ≡ output.status) × Appends (K.taken out.old) (K.taken out.new) output.text }
    ensures silent { IsDone result.status → err.new ≡ err.old }
    ensures write_fault { result.status ≡ 5 → K.faults out.old < K.faults out.new }
    ensures cut { result.status ≡ 5 → AppendsStrictFront (K.taken out.old) (K.taken out.new) output.text }
    ensures told { result.status ≡ 5 → Told (E.taken err.old) (E.taken err.new) (E.faults err.old) (E.faults err.new) write_fault_text }
{
    let Output {
        text,
        status,
        report,
        ended,
        tlb,
    } = output;
    match write_all(out, text.as_slice()) {
        Ok(()) => Done {
            status,
            report,
            ended,
            tlb,
        },
        Err(WriteFault) => {
            tell(err, WRITE_FAULT);
            Done {
                status: 5,
                report,
                ended,
                tlb,
            }
        }
    }
}

/// Tells the fault of an input on `err`, and gives its exit status.
pub fn tell_fault<E: Sink>(alloc: Global, err: &mut E, fault: InputFault) -> u8
    ensures statuses { (result ≡ 3) ⊎ ((result ≡ 4) ⊎ (result ≡ 6)) }
    ensures refused { result ≡ 3 → (r : Refused) × (fault ≡ InputFault.Refused r)
        × Told (E.taken err.old) (E.taken err.new) (E.faults err.old) (E.faults err.new) (refusal_text r) }
    ensures read_fault { result ≡ 4 → fault ≡ InputFault.ReadFault }
    ensures told { (text : List ℕ) → told_text result ≡ Some text
        → Told (E.taken err.old) (E.taken err.new) (E.faults err.old) (E.faults err.new) text }
{
    match fault {
        InputFault::Refused(refused) => match refusal(alloc, refused) {
            Ok(text) => {
                tell(err, text.as_bytes());
                3
            }
            Err(_) => tell_memory(err),
        },
        InputFault::ReadFault => {
            tell(err, READ_FAULT);
            4
        }
        InputFault::OutOfMemory => tell_memory(err),
    }
}

/// Tells `err` that memory ran out, and gives the exit status for it.
fn tell_memory<E: Sink>(err: &mut E) -> u8
    ensures status { result ≡ 6 }
    ensures told { Told (E.taken err.old) (E.taken err.new) (E.faults err.old) (E.faults err.new) memory_text }
{
    tell(err, OUT_OF_MEMORY);
    6
}
