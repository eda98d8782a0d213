ghost use Rattle.std.specs.Prelude.{◌≡◌, ◌≢◌, ◌↔◌, ◌<◌, ℕ, List, [], ◌∷◌, Contains, None, Some};
ghost use Rattle.std.specs.Io.KnownBytes.{Appends};
ghost use Rattle.hwp_top_words.specs.hwp_io.Causes.{AppendsStrictFront};
ghost use Rattle.hwp_top_words.specs.hwp_script_read.declared.Refused.{Refused};
ghost use Rattle.hwp_top_words.specs.Statuses.{IsDone, Told, refusal_text};
ghost use Rattle.hwp_top_words.specs.Inputs.{Refuses};
ghost use Rattle.hwp_top.specs.TraceCalls.{IsShown, told_text};

use crate::traced::traced;
use hwp_top_words::{Done, Sink, Source, deliver, tell, tell_fault};
use std::alloc::Global;

/// The text where there are words.
const USAGE: &[u8] = b"usage: hwp-trace < SCRIPT\n";

/// Reads a fault script from `src`, runs it on its schedule, and writes the trace of the run to `out`.
///
/// The exit statuses are those of `hwp step`: 0 done, 8 done and the machine stopped, 2 there are words, 3 the script is refused,
/// 4 the source failed, 5 the sink failed, and a part of the trace is written, 6 out of memory. For each but 0 and 8 a text goes to
/// `err`. A fault of `err` changes nothing. (This project's rule.)
pub fn top_trace<S: Source, K: Sink, E: Sink>(
    alloc: Global,
    words: &[String],
    src: &mut S,
    out: &mut K,
    err: &mut E,
) -> Done
    ensures statuses { Contains (0 ∷ 2 ∷ 3 ∷ 4 ∷ 5 ∷ 6 ∷ 8 ∷ []) result.status }

    // Status 0, or 8 where the machine stopped: what is written is the trace of a run of the script that the source gave.
    ensures done { IsDone result.status → (text : List ℕ)
        × (words.now ≡ [])
        × IsShown (S.left src.old) (S.left src.new) result.status text result.report
        × Appends (K.taken out.old) (K.taken out.new) text }

    // Status 2 comes if and only if there are words, and statuses 3, 4 and 5 only by their cause.
    ensures usage { (result.status ≡ 2) ↔ (words.now ≢ []) }
    ensures refused { result.status ≡ 3 → (r : Refused)
        × Refuses (S.left src.old) (S.left src.new) r
        × Told (E.taken err.old) (E.taken err.new) (E.faults err.old) (E.faults err.new) (refusal_text r) }
    ensures read_fault { result.status ≡ 4 → S.faults src.old < S.faults src.new }
    ensures write_fault { result.status ≡ 5 → K.faults out.old < K.faults out.new }
    ensures unread { words.now ≢ [] → src.new ≡ src.old }

    // Status 5: a part of the trace is written, and the report is there.
    ensures cut { result.status ≡ 5 → (status : ℕ) × (text : List ℕ)
        × IsShown (S.left src.old) (S.left src.new) status text result.report
        × AppendsStrictFront (K.taken out.old) (K.taken out.new) text }
    ensures unwritten { (¬ IsDone result.status) → result.status ≢ 5 → out.new ≡ out.old }
    ensures no_report { (¬ IsDone result.status) → result.status ≢ 5 → result.report ≡ None }
    ensures no_table { (result.ended ≡ None) × (result.tlb ≡ None) }

    // What is told on `err`.
    ensures silent { IsDone result.status → err.new ≡ err.old }
    ensures told { (text : List ℕ) → told_text result.status ≡ Some text
        → Told (E.taken err.old) (E.taken err.new) (E.faults err.old) (E.faults err.new) text }
{
    if !words.is_empty() {
        tell(err, USAGE);
        return Done {
            status: 2,
            report: None,
            ended: None,
            tlb: None,
        };
    }
    match traced(alloc, src) {
        Ok(output) => deliver(out, err, output),
        Err(fault) => Done {
            status: tell_fault(alloc, err, fault),
            report: None,
            ended: None,
            tlb: None,
        },
    }
}
