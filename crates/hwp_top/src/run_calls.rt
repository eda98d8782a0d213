ghost use Rattle.std.specs.Prelude.{◌≡◌, ◌≢◌, ◌↔◌, ◌<◌, ℕ, List, [], ◌∷◌, map, string_bytes, Contains, IsSomeAnd, Some, None};
ghost use Rattle.std.specs.Io.KnownBytes.{Appends};
ghost use Rattle.hwp_top_words.specs.hwp_io.Causes.{AppendsStrictFront};
ghost use Rattle.hwp_top_words.specs.hwp_script_read.declared.Refused.{Refused};
ghost use Rattle.hwp_top_words.specs.Reported.{IsStepReport};
ghost use Rattle.hwp_top_words.specs.Statuses.{IsDone, Told, refusal_text, told_text};
ghost use Rattle.hwp_top_words.specs.Inputs.{Refuses};
ghost use Rattle.hwp_top_words.specs.Calls.{AsksRun, IsNoRun};
ghost use Rattle.hwp_top.specs.RunCalls.{IsThreadedCall};

use crate::threaded::threaded;
use hwp_threads::Gate;
use hwp_top_words::{Done, Sink, Source, USAGE, deliver, run_of, tell, tell_fault};
use std::alloc::Global;
use std::sync::Wait;
use std::thread::Threads;

/// Serves the word `run`: reads a fault script from `src`, runs it with each of its processors on a thread of its own, all at one
/// table of atomic words, and writes the report to `out`. The schedule is read and not used. A worker passes `gate` after the first
/// turn of each command and after the last. The words `run tlb` do the same with a translation cache for each processor.
///
/// The exit statuses are those of `top` for `step`: 0 done, 8 done and the machine stopped, 2 other words, 3 the script is refused,
/// 4 the source failed, 5 the sink failed, and a part of the report is written, 6 out of memory. For each but 0 and 8 a text goes to
/// `err`. A fault of `err` changes nothing. (This project's rule.)
///
/// It says nothing of progress: each clause holds if it returns.
pub fn top_run<R: Threads + Wait + Sync, S: Source, K: Sink, E: Sink, G: Gate + Sync>(
    rt: &R,
    alloc: Global,
    words: &[String],
    src: &mut S,
    out: &mut K,
    err: &mut E,
    gate: &G,
) -> Done
    ensures statuses { Contains (0 ∷ 2 ∷ 3 ∷ 4 ∷ 5 ∷ 6 ∷ 8 ∷ []) result.status }

    // Status 0, or 8 where the machine stopped: what is written is a report of the script that the source gave, and it keeps the law of
    // reports.
    ensures report { IsDone result.status → (text : List ℕ)
        × AsksRun (map string_bytes words.now)
        × IsSomeAnd result.report (IsStepReport (S.left src.old) (S.left src.new) result.status text)
        × Appends (K.taken out.old) (K.taken out.new) text }

    // The run level: that report is the one of a run of the processors on threads, with what its table was closed with. At the end of
    // `run tlb` no entry of a translation cache names a handled frame.
    ensures done { IsDone result.status → (text : List ℕ)
        × IsThreadedCall (map string_bytes words.now) (S.left src.old) (S.left src.new) result.status text result.report result.ended result.tlb
        × Appends (K.taken out.old) (K.taken out.new) text }

    // Status 2 comes if and only if the words are anything else, and statuses 3, 4 and 5 only by their cause.
    ensures usage { (result.status ≡ 2) ↔ IsNoRun (map string_bytes words.now) }
    ensures refused { result.status ≡ 3 → (r : Refused)
        × Refuses (S.left src.old) (S.left src.new) r
        × Told (E.taken err.old) (E.taken err.new) (E.faults err.old) (E.faults err.new) (refusal_text r) }
    ensures read_fault { result.status ≡ 4 → S.faults src.old < S.faults src.new }
    ensures write_fault { result.status ≡ 5 → K.faults out.old < K.faults out.new }
    ensures unread { IsNoRun (map string_bytes words.now) → src.new ≡ src.old }

    // Status 5: a part of the report is written, and the report is there.
    ensures cut { result.status ≡ 5 → (status : ℕ) × (text : List ℕ)
        × IsThreadedCall (map string_bytes words.now) (S.left src.old) (S.left src.new) status text result.report result.ended result.tlb
        × AppendsStrictFront (K.taken out.old) (K.taken out.new) text }
    ensures unwritten { (¬ IsDone result.status) → result.status ≢ 5 → out.new ≡ out.old }
    ensures no_report { (¬ IsDone result.status) → result.status ≢ 5 → (result.report ≡ None) × (result.ended ≡ None) × (result.tlb ≡ None) }

    // What is told on `err`.
    ensures silent { IsDone result.status → err.new ≡ err.old }
    ensures told { (text : List ℕ) → told_text result.status ≡ Some text
        → Told (E.taken err.old) (E.taken err.new) (E.faults err.old) (E.faults err.new) text }
{
    let Some(caches) = run_of(words) else {
        tell(err, USAGE);
        return Done {
            status: 2,
            report: None,
            ended: None,
            tlb: None,
        };
    };
    match threaded(rt, alloc, caches, src, gate) {
        Ok(output) => deliver(out, err, output),
        Err(fault) => Done {
            status: tell_fault(alloc, err, fault),
            report: None,
            ended: None,
            tlb: None,
        },
    }
}
