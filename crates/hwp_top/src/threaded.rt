//! What `run` and `run tlb` write.
ghost use Rattle.std.specs.Prelude.{◌≡◌, ◌<◌, true, false, IfOk, IsErrOf};
ghost use Rattle.hwp_top_words.specs.hwp_script_read.declared.Refused.{Refused};
ghost use Rattle.hwp_top_report.specs.hwp_report_text.ReportText.{report_text};
ghost use Rattle.hwp_top_words.specs.Inputs.{Refuses};
ghost use Rattle.hwp_top_report.specs.Caches.{IsCachedEnd};
ghost use Rattle.hwp_top.specs.RunCalls.{IsThreadedOf, Reports};

use crate::outputs::printed;
use crate::threading::run_on_threads;
use hwp_threads::Gate;
use hwp_top_report::{Bare, Cached, Finished, Text, Ways};
use hwp_top_words::{InputFault, Output, Source, status_of, take_script};
use std::alloc::Global;
use std::sync::Wait;
use std::thread::Threads;

/// The run on threads of the script that a source gives, and the text of its report.
fn report_of<R: Threads + Wait + Sync, W: Ways + Send, S: Source, G: Gate + Sync>(
    rt: &R,
    alloc: Global,
    src: &mut S,
    gate: &G,
) -> Result<(Finished<W>, Text), InputFault>
    ensures report { IfOk result (λ done. Reports (S.left src.old) (S.left src.new) done.0.report done.0.ended) }
    ensures cached { IfOk result (λ done. IsCachedEnd W.ways done.0.ended) }
    ensures text { IfOk result (λ done. done.1 ≡ report_text done.0.report) }
    ensures refused { (r : Refused) → IsErrOf result (InputFault.Refused r) → Refuses (S.left src.old) (S.left src.new) r }
    ensures fault { IsErrOf result InputFault.ReadFault → S.faults src.old < S.faults src.new }
{
    let script = take_script(alloc, src)?;
    match run_on_threads::<R, W, G>(rt, alloc, &script, gate) {
        Ok(run) => {
            drop(script);
            let (run, text) = printed(alloc, run)?;
            Ok((run, text))
        }
        Err(_) => {
            drop(script);
            Err(InputFault::OutOfMemory)
        }
    }
}

/// The output of `run`.
fn threaded_bare<R: Threads + Wait + Sync, S: Source, G: Gate + Sync>(
    rt: &R,
    alloc: Global,
    src: &mut S,
    gate: &G,
) -> Result<Output, InputFault>
    ensures output { IfOk result (λ o. IsThreadedOf false (S.left src.old) (S.left src.new) o.status o.text o.report o.ended o.tlb) }
    ensures refused { (r : Refused) → IsErrOf result (InputFault.Refused r) → Refuses (S.left src.old) (S.left src.new) r }
    ensures fault { IsErrOf result InputFault.ReadFault → S.faults src.old < S.faults src.new }
{
    let (run, text) = report_of::<R, Bare, S, G>(rt, alloc, src, gate)?;
    Ok(Output {
        text,
        status: status_of(&run.report),
        report: Some(run.report),
        ended: Some(run.ended),
        tlb: None,
    })
}

/// The output of `run tlb`.
fn threaded_tlb<R: Threads + Wait + Sync, S: Source, G: Gate + Sync>(
    rt: &R,
    alloc: Global,
    src: &mut S,
    gate: &G,
) -> Result<Output, InputFault>
    ensures output { IfOk result (λ o. IsThreadedOf true (S.left src.old) (S.left src.new) o.status o.text o.report o.ended o.tlb) }
    ensures refused { (r : Refused) → IsErrOf result (InputFault.Refused r) → Refuses (S.left src.old) (S.left src.new) r }
    ensures fault { IsErrOf result InputFault.ReadFault → S.faults src.old < S.faults src.new }
{
    let (run, text) = report_of::<R, Cached, S, G>(rt, alloc, src, gate)?;
    Ok(Output {
        text,
        status: status_of(&run.report),
        report: Some(run.report),
        ended: None,
        tlb: Some(run.ended),
    })
}

/// The output of a run on threads, with translation caches or without.
pub(crate) fn threaded<R: Threads + Wait + Sync, S: Source, G: Gate + Sync>(
    rt: &R,
    alloc: Global,
    caches: bool,
    src: &mut S,
    gate: &G,
) -> Result<Output, InputFault>
    ensures output { IfOk result (λ o. IsThreadedOf caches (S.left src.old) (S.left src.new) o.status o.text o.report o.ended o.tlb) }
    ensures refused { (r : Refused) → IsErrOf result (InputFault.Refused r) → Refuses (S.left src.old) (S.left src.new) r }
    ensures fault { IsErrOf result InputFault.ReadFault → S.faults src.old < S.faults src.new }
{
    if caches {
        threaded_tlb(rt, alloc, src, gate)
    } else {
        threaded_bare(rt, alloc, src, gate)
    }
}
