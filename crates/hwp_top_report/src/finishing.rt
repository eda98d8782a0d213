ghost use Rattle.std.specs.Prelude.{◌≡◌, length, map, IfOk};
ghost use Rattle.hwp_law_served.specs.hwp_law.Law.{IsLawful};
ghost use Rattle.hwp_law_served.specs.hwp_law.Runs.{IsOfRun};
ghost use Rattle.hwp_cpu_row.specs.hwp_script_words.Valid.{IsValid};
ghost use Rattle.hwp_table_words.specs.hwp_plain.Openings.{home_with};
ghost use Rattle.hwp_table_words.specs.hwp_plain.Ends.{AreHistories};
ghost use Rattle.hwp_top_report.specs.Caches.{IsCachedEnd};
ghost use Rattle.hwp_top_report.specs.Finishes.{HasEndedAt, IsFinished};

use crate::closing::report;
use hwp_cpu_row::{Entry, Layout, List, OutOfMemory, Page, Report, Row, Script, SharedWord, index};
use hwp_plain::histories;
use hwp_table_words::{Ended, Slot, Ways};
use std::alloc::Global;

/// What a run came to: its report, and what the table at which it was made was closed with.
#[derive(Drop)]
pub struct Finished<W: Ways> {
    pub report: Report,
    pub ended: Ended<W>,
}

/// The histories of the bodies of a table that was closed, in the order of the pages.
fn pages_of<W: Ways>(
    alloc: Global,
    ended: &Ended<W>,
    bodies: Vec<Slot>,
    layout: &Layout,
) -> Result<List<List<Entry>>, OutOfMemory>
    requires layout { ended.now.layout ≡ layout.now }
    requires bodies { ended.now.slots ≡ bodies.items }
    ensures count { IfOk result (λ pages. length pages ≡ length layout.now.pages) }
    ensures pages { IfOk result (λ pages. AreHistories (map home_with ended.now.slots) pages) }
{
    ended.reached();
    let words = ended.words();
    let from = index(layout, SharedWord::Cache(Page(0)));
    let caches = &words[from..from + layout.pages.len()];
    histories(alloc, bodies, usize::from(layout.frames), caches)
}

/// What a run came to, in whatever order its processors made their turns: the report, which is of the words and the bodies with
/// which the table was closed and of the processors' rows, and what the table was closed with.
pub fn finish_run<W: Ways>(
    alloc: Global,
    script: &Script,
    ended: Ended<W>,
    bodies: Vec<Slot>,
    rows: &List<List<Row>>,
) -> Result<Finished<W>, OutOfMemory>
    requires valid { IsValid script.now }
    requires run { HasEndedAt script.now ended rows.now }
    requires bodies { ended.slots ≡ bodies.items }
    ensures of_run { IfOk result (λ run. IsOfRun script.now run.report) }
    ensures lawful { IfOk result (λ run. IsLawful script.now run.report) }
    ensures closing { IfOk result (λ run. IsFinished script.now ended rows.now run.report run.ended) }
    ensures caches { IfOk result (λ run. IsCachedEnd W.ways run.ended) }
{
    ended.reached();
    let pages = pages_of(alloc, &ended, bodies, &script.layout)?;
    let lists = script.lists.as_slice();
    let report = report(
        alloc,
        &script.layout,
        ended.words(),
        pages,
        lists,
        rows.as_slice(),
    )?;
    Ok(Finished { report, ended })
}
