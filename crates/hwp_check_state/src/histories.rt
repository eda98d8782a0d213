ghost use Rattle.std.specs.Prelude.{◌≡◌, ℕ, ◌+◌, ◌<◌, ◌^◌, length, sum_by, Some, slice_get, MatchBool, MatchOption, MatchResult};
ghost use Rattle.hwp_check_rules.specs.hwp_geom.Layout.{IsSound};
ghost use Rattle.hwp_check_rules.specs.hwp_check_event_line.Scripts.{IsDeclared};
ghost use Rattle.hwp_check_rules.specs.hwp_law.Commands.{has_watch};
ghost use Rattle.hwp_check_state.specs.Histories.{IsRightEntry, IsWrongAt, IsWrongEntry, PageFits};
ghost use Rattle.hwp_check_rules.specs.Standing.{entry_height as height_of, last_line};
ghost use Rattle.hwp_check_rules.specs.Firsts.{IsFirstFault};
ghost use Rattle.hwp_check_rules.specs.Rules.{HistoriesFit, ShapeFits};
ghost use Rattle.hwp_check_rules.specs.Faults.{IsHistoryFault};
ghost use Rattle.hwp_check_rules.specs.hwp_check_event_line.Reading.{copies_in};

use hwp_check_rules::{
    Entry, List, Page, PageKind, PageState, Report, Script, VSlot, entry_height, first_page_line,
    has_watch, is_made_by,
};

/// The numbers that a processor can have in an entry.
const CPU_NUMBERS: usize = 256;

/// Whether the state allows the entry, its command makes it, and it is of no earlier command than number `last`.
fn is_right(
    script: &Script,
    copies: &[List<Option<VSlot>>],
    watches: bool,
    page: Page,
    state: &PageState,
    last: u32,
    entry: &Entry,
) -> bool
    requires sound { IsSound script.now.layout }
    requires watches { watches ≡ has_watch script.now }
    ensures { MatchBool result (IsRightEntry script.now (copies_in copies.now) page state.now last entry.now) (IsWrongEntry script.now (copies_in copies.now) page state.now last entry.now) }
{
    if !state.allows(&script.layout, page, &entry.what) {
        return false;
    }
    if !is_made_by(script, copies, watches, page, entry) {
        return false;
    }
    last <= entry.who.seq
}

/// The line behind a page whose heading stands at `heading`, or the line of its first wrong entry.
fn walk(
    script: &Script,
    copies: &[List<Option<VSlot>>],
    watches: bool,
    page: Page,
    kind: PageKind,
    entries: &[Entry],
    heading: u64,
) -> Result<u64, u64>
    requires sound { IsSound script.now.layout }
    requires watches { watches ≡ has_watch script.now }
    requires declared { slice_get script.now.layout.pages page.0 ≡ Some kind }
    requires room { heading + 1 + sum_by height_of entries.now < 2 ^ 64 }
    ensures { MatchResult result (λ next. PageFits script.now (copies_in copies.now) page entries.now × (next ≡ heading + 1 + sum_by height_of entries.now))
        (λ line. IsWrongAt script.now (copies_in copies.now) page entries.now heading line) }
{
    let mut state = PageState::opening(kind, script.layout.is_locked(page));
    let mut lasts = [0; CPU_NUMBERS];
    let mut line = heading + 1;
    for entry in entries {
        let cpu = usize::from(entry.who.cpu.0);
        if !is_right(script, copies, watches, page, &state, lasts[cpu], entry) {
            return Err(line);
        }
        state.step(&entry.what);
        lasts[cpu] = entry.who.seq;
        line += entry_height(entry);
    }
    Ok(line)
}

/// The line of the first entry that is not allowed, that its command does not make, or whose command's number falls.
pub fn histories_fault(
    script: &Script,
    copies: &[List<Option<VSlot>>],
    report: &Report,
) -> Option<u64>
    requires valid { IsDeclared script.now }
    requires room { last_line report.now < 2 ^ 64 }
    requires shape { ShapeFits script.now report.now }
    ensures { MatchOption result (HistoriesFit script.now (copies_in copies.now) report.now) (IsFirstFault (HistoriesFit script.now (copies_in copies.now) report.now) (IsHistoryFault script.now (copies_in copies.now) report.now)) }
{
    let kinds = script.layout.pages.as_slice();
    let watches = has_watch(script);
    let mut line = first_page_line(report);
    for (number, entries) in report.pages.as_slice().iter().enumerate() {
        let page = Page(number as u16);
        match walk(
            script,
            copies,
            watches,
            page,
            kinds[number],
            entries.as_slice(),
            line,
        ) {
            Ok(next) => line = next,
            Err(at) => return Some(at),
        }
    }
    None
}
