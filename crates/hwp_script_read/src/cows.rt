ghost use Rattle.std.specs.Prelude.{◌≡◌, ◌<◌, ◌↔◌, ◌⊎◌, true, length, slice_get, Some, IsTrue, MatchOption};
ghost use Rattle.hwp_script_lines.specs.hwp_geom.Layout.{has_twin, is_twin};
ghost use Rattle.hwp_script_read.specs.Context.{names_in, slot_of};
ghost use Rattle.hwp_script_read.specs.Reasons.{IsClean, IsLowest, IsNoPair, IsNoTwin};
ghost use Rattle.hwp_script_read.specs.Sums.{Sums};

use crate::commands::is_no_anon_page;
use crate::context::{Summary, at};
use crate::faults::is_misplaced;
use crate::forks::{has_shared_page, has_twin, is_twin};
use crate::why::Why;
use hwp_script_lines::{ScriptLine, TransDecl};

/// Whether two translations are of two processes, or don't lead to two pages that have nothing behind them.
fn is_no_pair(summary: &Summary, slot: TransDecl, twin: TransDecl) -> bool
    ensures { IsTrue result ↔ IsNoPair summary.now.pages (Some slot) (Some twin) }
{
    slot.process.0 != twin.process.0
        || slot.page.0 == twin.page.0
        || is_no_anon_page(summary, slot.page)
        || is_no_anon_page(summary, twin.page)
}

/// Whether two translations are not both declared, or are none of which one may be the other's twin.
fn are_no_pair(summary: &Summary, slot: u64, twin: u64) -> bool
    ensures { IsTrue result ↔ IsNoPair summary.now.pages (slice_get summary.now.trans slot) (slice_get summary.now.trans twin) }
{
    let trans = summary.trans.as_slice();
    match (at(trans, slot as usize), at(trans, twin as usize)) {
        (Some(slot), Some(twin)) => is_no_pair(summary, slot, twin),
        _ => true,
    }
}

/// Whether the translation has a twin, or its twin is one already.
fn is_taken(summary: &Summary, above: &[ScriptLine], slot: u64, twin: u64) -> bool
    requires { Sums above.now summary.now }
    ensures { IsTrue result ↔ ((has_twin (names_in above.now) (slot_of slot) ≡ true) ⊎ (is_twin (names_in above.now) (slot_of twin) ≡ true)) }
{
    has_twin(summary, slot) || is_twin(summary, twin)
}

/// Whether a translation that is to have a twin is one, or its twin has one, or another translation leads to the twin's page.
fn is_no_twin(summary: &Summary, above: &[ScriptLine], slot: u64, twin: u64) -> bool
    requires { Sums above.now summary.now }
    ensures { IsTrue result ↔ IsNoTwin above.now slot twin }
{
    is_twin(summary, slot) || has_twin(summary, twin) || has_shared_page(summary, twin)
}

/// The lowest reason that applies to a line that gives a translation its twin, below these lines, if any does.
pub(crate) fn cow_fault(
    summary: &Summary,
    above: &[ScriptLine],
    slot: u64,
    twin: u64,
) -> Option<Why>
    requires sums { Sums above.now summary.now }
    requires some { 0 < length above.now }
    ensures { MatchOption result (IsClean above.now (ScriptLine.Cow slot twin)) (λ why. IsLowest above.now (ScriptLine.Cow slot twin) why) }
{
    if summary.is_first_version(above) {
        Some(Why::UnknownWord)
    } else if slot >= summary.max_trans(above) || twin >= summary.max_trans(above) {
        Some(Why::OverLimit)
    } else if are_no_pair(summary, slot, twin) {
        Some(Why::Undeclared)
    } else if is_taken(summary, above, slot, twin) {
        Some(Why::Twice)
    } else if is_misplaced(summary, above, 12) || is_no_twin(summary, above, slot, twin) {
        Some(Why::WrongPlace)
    } else {
        None
    }
}
