//! What each call writes.
ghost use Rattle.std.specs.Prelude.{◌≡◌, ◌≢◌, ◌<◌, IfOk, IsErrOf, None};
ghost use Rattle.hwp_top_words.specs.hwp_script_read.declared.Refused.{Refused};
ghost use Rattle.hwp_top_report.specs.hwp_report_text.ReportText.{report_text};
ghost use Rattle.hwp_top.specs.Outputs.{HasRun, IsOutputOf, IsRefusedFor, IsSummed};
ghost use Rattle.hwp_top_words.specs.Inputs.{Refuses};
ghost use Rattle.hwp_top.specs.Top.{Reports};
ghost use Rattle.hwp_top_report.specs.Caches.{IsCachedEnd};

use crate::running::run_in_turns;
use hwp_top_report::{Bare, Cached, Finished, Text, Ways};
use hwp_top_words::{
    Call, InputFault, Output, Source, checked, generate, print_summary, script_text, status_of,
    summary, take_script,
};
use std::alloc::Global;

/// The run, and the text of its report.
pub(crate) fn printed<W: Ways>(
    alloc: Global,
    run: Finished<W>,
) -> Result<(Finished<W>, Text), InputFault>
    ensures run { IfOk result (λ done. done.0 ≡ run) }
    ensures text { IfOk result (λ done. done.1 ≡ report_text run.report) }
    ensures memory { (fault : InputFault) → IsErrOf result fault → fault ≡ InputFault.OutOfMemory }
{
    match hwp_top_report::print(alloc, &run.report) {
        Ok(text) => Ok((run, text)),
        Err(_) => {
            drop(run);
            Err(InputFault::OutOfMemory)
        }
    }
}

/// The run of the script that a source gives, and the text of its report.
fn report_of<S: Source, W: Ways>(
    alloc: Global,
    src: &mut S,
) -> Result<(Finished<W>, Text), InputFault>
    ensures report { IfOk result (λ done. Reports (S.left src.old) (S.left src.new) done.0.report done.0.ended) }
    ensures cached { IfOk result (λ done. IsCachedEnd W.ways done.0.ended) }
    ensures text { IfOk result (λ done. done.1 ≡ report_text done.0.report) }
    ensures refused { (r : Refused) → IsErrOf result (InputFault.Refused r) → Refuses (S.left src.old) (S.left src.new) r }
    ensures fault { IsErrOf result InputFault.ReadFault → S.faults src.old < S.faults src.new }
{
    let script = take_script(alloc, src)?;
    match run_in_turns::<W>(alloc, &script) {
        Ok(run) => {
            drop(script);
            let (run, text) = printed(alloc, run)?;
            Ok((run, text))
        }
        Err(_) => {
            drop(script);
            Err(InputFault::OutOfMemory)
        }
    }
}

/// The output of `step`.
fn stepped<S: Source>(alloc: Global, src: &mut S) -> Result<Output, InputFault>
    ensures output { IfOk result (λ o. IsOutputOf Call.Step (S.left src.old) (S.left src.new) o.status o.text o.report o.ended o.tlb) }
    ensures refused { (r : Refused) → IsErrOf result (InputFault.Refused r) → Refuses (S.left src.old) (S.left src.new) r }
    ensures fault { IsErrOf result InputFault.ReadFault → S.faults src.old < S.faults src.new }
{
    let (run, text) = report_of::<S, Bare>(alloc, src)?;
    Ok(Output {
        text,
        status: status_of(&run.report),
        report: Some(run.report),
        ended: Some(run.ended),
        tlb: None,
    })
}

/// The output of `step tlb`.
fn stepped_tlb<S: Source>(alloc: Global, src: &mut S) -> Result<Output, InputFault>
    ensures output { IfOk result (λ o. IsOutputOf Call.StepTlb (S.left src.old) (S.left src.new) o.status o.text o.report o.ended o.tlb) }
    ensures refused { (r : Refused) → IsErrOf result (InputFault.Refused r) → Refuses (S.left src.old) (S.left src.new) r }
    ensures fault { IsErrOf result InputFault.ReadFault → S.faults src.old < S.faults src.new }
{
    let (run, text) = report_of::<S, Cached>(alloc, src)?;
    Ok(Output {
        text,
        status: status_of(&run.report),
        report: Some(run.report),
        ended: None,
        tlb: Some(run.ended),
    })
}

/// The output of `sum`.
fn summed(alloc: Global, seed: u64) -> Result<Output, InputFault>
    ensures output { IfOk result (λ o. HasRun o.report o.ended (IsSummed seed o.status o.text) × (o.tlb ≡ None)) }
    ensures memory { (fault : InputFault) → IsErrOf result fault → fault ≡ InputFault.OutOfMemory }
{
    let Ok(script) = generate(alloc, seed) else {
        return Err(InputFault::OutOfMemory);
    };
    let Ok(run) = run_in_turns::<Bare>(alloc, &script) else {
        drop(script);
        return Err(InputFault::OutOfMemory);
    };
    drop(script);
    let Ok(text) = print_summary(alloc, seed, &summary(&run.report)) else {
        drop(run);
        return Err(InputFault::OutOfMemory);
    };
    Ok(Output {
        text,
        status: 0,
        report: Some(run.report),
        ended: Some(run.ended),
        tlb: None,
    })
}

/// The output of a call. `step`, `step tlb` and `check` alone read the source.
pub(crate) fn output_of<S: Source>(
    alloc: Global,
    call: Call,
    src: &mut S,
) -> Result<Output, InputFault>
    ensures output { IfOk result (λ o. IsOutputOf call (S.left src.old) (S.left src.new) o.status o.text o.report o.ended o.tlb) }
    ensures refused { (r : Refused) → IsErrOf result (InputFault.Refused r) → IsRefusedFor call (S.left src.old) (S.left src.new) r }
    ensures fault { IsErrOf result InputFault.ReadFault → S.faults src.old < S.faults src.new }
    ensures unread { call ≢ Call.Step → call ≢ Call.StepTlb → call ≢ Call.Check → src.new ≡ src.old }
{
    match call {
        Call::Step => stepped(alloc, src),
        Call::StepTlb => stepped_tlb(alloc, src),
        Call::Check => checked(alloc, src),
        Call::Gen(seed) => script_text(alloc, seed),
        Call::Sum(seed) => summed(alloc, seed),
    }
}
