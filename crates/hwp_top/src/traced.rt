//! The trace of a script that a source gives.
ghost use Rattle.std.specs.Prelude.{◌≡◌, ◌<◌, None, IfOk, IsErrOf};
ghost use Rattle.hwp_top_words.specs.hwp_script_read.declared.Refused.{Refused};
ghost use Rattle.hwp_top_words.specs.Inputs.{Refuses};
ghost use Rattle.hwp_top_words.specs.Statuses.{done_status};
ghost use Rattle.hwp_top.specs.TraceCalls.{IsShown, IsTraceOf};

use crate::tracing::trace;
use hwp_top_report::{Report, Text, print_trace};
use hwp_top_words::{InputFault, Output, Source, status_of, take_script};
use std::alloc::Global;

/// The report of the run of the script that a source gives, and the text of its trace.
fn trace_of<S: Source>(alloc: Global, src: &mut S) -> Result<(Report, Text), InputFault>
    ensures trace { IfOk result (λ done. IsTraceOf (S.left src.old) (S.left src.new) (done_status done.0) done.1 done.0) }
    ensures refused { (r : Refused) → IsErrOf result (InputFault.Refused r) → Refuses (S.left src.old) (S.left src.new) r }
    ensures fault { IsErrOf result InputFault.ReadFault → S.faults src.old < S.faults src.new }
{
    let script = take_script(alloc, src)?;
    match trace(alloc, &script) {
        Ok(run) => {
            drop(script);
            match print_trace(alloc, run.lines.as_slice()) {
                Ok(text) => Ok((run.report, text)),
                Err(_) => {
                    drop(run);
                    Err(InputFault::OutOfMemory)
                }
            }
        }
        Err(_) => {
            drop(script);
            Err(InputFault::OutOfMemory)
        }
    }
}

/// What is written: the trace of the script that a source gives.
pub(crate) fn traced<S: Source>(alloc: Global, src: &mut S) -> Result<Output, InputFault>
    ensures output { IfOk result (λ o. IsShown (S.left src.old) (S.left src.new) o.status o.text o.report) }
    ensures no_table { IfOk result (λ o. (o.ended ≡ None) × (o.tlb ≡ None)) }
    ensures refused { (r : Refused) → IsErrOf result (InputFault.Refused r) → Refuses (S.left src.old) (S.left src.new) r }
    ensures fault { IsErrOf result InputFault.ReadFault → S.faults src.old < S.faults src.new }
{
    let (report, text) = trace_of(alloc, src)?;
    Ok(Output {
        text,
        status: status_of(&report),
        report: Some(report),
        ended: None,
        tlb: None,
    })
}
