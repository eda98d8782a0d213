ghost use Rattle.std.specs.Prelude.{◌≡◌, IfOk};
ghost use Rattle.hwp_top_report.specs.hwp_law.Law.{IsLawful};
ghost use Rattle.hwp_top_report.specs.hwp_law.Runs.{IsOfRun};
ghost use Rattle.hwp_top_words.specs.hwp_script_read.hwp_script_words.Valid.{IsValid};
ghost use Rattle.hwp_top.specs.Runs.{IsCoreRun, IsPlayed, IsReportOf};

use crate::playing::play;
use hwp_cpu::Rows;
use hwp_top_report::{OutOfMemory, PlainBoard, Report, Script, report};
use std::alloc::Global;

/// The report of a run in turns that was made on a plain board.
pub(crate) fn report_of(
    alloc: Global,
    script: &Script,
    board: PlainBoard,
    rows: &Rows,
) -> Result<Report, OutOfMemory>
    requires valid { IsValid script.now }
    requires layout { board.layout ≡ script.now.layout }
    requires played { IsPlayed script.now board.log board.state rows.now }
    ensures { IfOk result (IsReportOf script.now board.log) }
{
    let words = Vec::from_slice(alloc, board.words())?;
    let pages = board.histories(alloc)?;
    let lists = script.lists.as_slice();
    report(
        alloc,
        &script.layout,
        words.as_slice(),
        pages,
        lists,
        rows.as_slice(),
    )
}

/// The run of a script on one plain board: the reference for `run_in_turns`, whose processors make the same turns at a table.
pub fn run_plain(alloc: Global, script: &Script) -> Result<Report, OutOfMemory>
    requires valid { IsValid script.now }
    ensures of_run { IfOk result (IsOfRun script.now) }
    ensures lawful { IfOk result (IsLawful script.now) }
    ensures core { IfOk result (IsCoreRun script.now) }
{
    let mut board = PlainBoard::new(alloc, &script.layout)?;
    let rows = play(alloc, script, &mut board)?;
    report_of(alloc, script, board, &rows)
}
