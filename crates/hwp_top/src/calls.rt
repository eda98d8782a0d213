ghost use Rattle.std.specs.Prelude.{◌≡◌, ◌≢◌, ◌↔◌, ◌<◌, ℕ, List, [], ◌∷◌, map, string_bytes, Contains, Some, None};
ghost use Rattle.std.specs.Io.KnownBytes.{Appends};
ghost use Rattle.hwp_top_words.specs.hwp_io.Causes.{AppendsStrictFront};
ghost use Rattle.hwp_top_words.specs.hwp_script_read.declared.Refused.{Refused};
ghost use Rattle.hwp_top_words.specs.Calls.{IsNoCall, IsReading};
ghost use Rattle.hwp_top_words.specs.Reported.{IsReported};
ghost use Rattle.hwp_top.specs.Outputs.{IsOutput, IsRefusedCall};
ghost use Rattle.hwp_top_words.specs.Statuses.{IsDone, Told, refusal_text, told_text};

use crate::outputs::output_of;
use hwp_top_words::{Done, Sink, Source, USAGE, call_of, deliver, tell, tell_fault};
use std::alloc::Global;

/// Serves the command that the words are:
///
/// - `step` reads a fault script from `src`, runs it on its schedule, and writes the report to `out`;
/// - `step tlb` does the same with a translation cache for each processor;
/// - `check` reads a fault script from `src` and, behind its line `end`, a report, and writes whether a run of the script can have
///   the report: `legal`, or `not PLACE RULE` with the lowest rule that is broken and the first line of the report that breaks it;
/// - `gen N` writes the script of seed N;
/// - `sum N` runs that script and writes the summary of its report.
///
/// The exit statuses are:
///
/// - 0: done, and the whole output is written;
/// - 1: done too, and the report that `check` read isn't legal;
/// - 8: done too, and the report of `step` or `step tlb` says that the machine stopped;
/// - 2: the words are no command that is supported;
/// - 3: the script is refused;
/// - 4: the source failed;
/// - 5: the sink failed, and a part of the output is written;
/// - 6: out of memory.
///
/// For each but 0, 1 and 8 a text goes to `err`. A fault of `err` changes nothing. (This project's rule.)
pub fn top<S: Source, K: Sink, E: Sink>(
    alloc: Global,
    words: &[String],
    src: &mut S,
    out: &mut K,
    err: &mut E,
) -> Done
    ensures statuses { Contains (0 ∷ 1 ∷ 2 ∷ 3 ∷ 4 ∷ 5 ∷ 6 ∷ 8 ∷ []) result.status }

    // Status 0, or 8 where the machine of `step` or `step tlb` stopped, or 1 where the report that `check` read isn't legal: what is
    // written is what the call that the words ask for gives, with a report that keeps the law of reports.
    ensures report { IsDone result.status → (text : List ℕ)
        × IsReported (map string_bytes words.now) (S.left src.old) (S.left src.new) result.status text result.report
        × Appends (K.taken out.old) (K.taken out.new) text }

    // The run level: that report is the one of a run of the processors on the written schedule, with what its table was closed with. At
    // the end of `step tlb` no entry of a translation cache names a handled frame.
    ensures done { IsDone result.status → (text : List ℕ)
        × IsOutput (map string_bytes words.now) (S.left src.old) (S.left src.new) result.status text result.report result.ended result.tlb
        × Appends (K.taken out.old) (K.taken out.new) text }

    // Status 2 comes if and only if the words are anything else, and statuses 3, 4 and 5 only by their cause.
    ensures usage { (result.status ≡ 2) ↔ IsNoCall (map string_bytes words.now) }
    ensures refused { result.status ≡ 3 → (r : Refused)
        × IsRefusedCall (map string_bytes words.now) (S.left src.old) (S.left src.new) r
        × Told (E.taken err.old) (E.taken err.new) (E.faults err.old) (E.faults err.new) (refusal_text r) }
    ensures read_fault { result.status ≡ 4 → S.faults src.old < S.faults src.new }
    ensures write_fault { result.status ≡ 5 → K.faults out.old < K.faults out.new }

    // `step`, `step tlb` and `check` alone read the source.
    ensures unread { (¬ IsReading (map string_bytes words.now)) → src.new ≡ src.old }

    // Status 5: a part of the output is written, and the report of `step`, `step tlb` and `sum` is there.
    ensures cut { result.status ≡ 5 → (status : ℕ) × (text : List ℕ)
        × IsOutput (map string_bytes words.now) (S.left src.old) (S.left src.new) status text result.report result.ended result.tlb
        × AppendsStrictFront (K.taken out.old) (K.taken out.new) text }
    ensures unwritten { (¬ IsDone result.status) → result.status ≢ 5 → out.new ≡ out.old }
    ensures no_report { (¬ IsDone result.status) → result.status ≢ 5 → (result.report ≡ None) × (result.ended ≡ None) × (result.tlb ≡ None) }

    // What is told on `err`.
    ensures silent { IsDone result.status → err.new ≡ err.old }
    ensures told { (text : List ℕ) → told_text result.status ≡ Some text
        → Told (E.taken err.old) (E.taken err.new) (E.faults err.old) (E.faults err.new) text }
{
    let Some(call) = call_of(words) else {
        tell(err, USAGE);
        return Done {
            status: 2,
            report: None,
            ended: None,
            tlb: None,
        };
    };
    match output_of(alloc, call, src) {
        Ok(output) => deliver(out, err, output),
        Err(fault) => Done {
            status: tell_fault(alloc, err, fault),
            report: None,
            ended: None,
            tlb: None,
        },
    }
}
