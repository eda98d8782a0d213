ghost use Rattle.std.specs.Prelude.{◌≡◌, [], IfOk};
ghost use Rattle.hwp_top_report.specs.hwp_law.Law.{IsLawful};
ghost use Rattle.hwp_top_report.specs.hwp_law.Runs.{IsOfRun};
ghost use Rattle.hwp_top_words.specs.hwp_script_read.hwp_script_words.Valid.{IsValid};
ghost use Rattle.hwp_top_report.specs.hwp_table_words.Known.{first_knowing};
ghost use Rattle.hwp_top_report.specs.hwp_table_words.Seats.{IsTableOf};
ghost use Rattle.hwp_top_report.specs.Caches.{IsCachedEnd};
ghost use Rattle.hwp_top.specs.Runs.{IsCoreRun, IsTablePlayed, IsTableRun, KnowsRun};

use crate::playing::play;
use hwp_cpu::Rows;
use hwp_table::{OfTable, SeatBoard};
use hwp_top_report::{
    Ended, Finished, OutOfMemory, Pass, Script, Sheet, Slot, Ways, begin, close, finish_run,
};
use std::alloc::{AllocError, Global};
use std::marker::Brand;
use std::sync::Arc;

/// All turns of a script's processors at a table whose one seat has all there is: that seat again, with what they led to, and the
/// rows of each processor.
fn seat_all<N: OfTable, W: Ways>(
    alloc: Global,
    sheet: &Sheet<W>,
    script: &Script,
    pass: Pass,
) -> Result<(Pass, Rows), OutOfMemory>
    requires valid { IsValid script.now }
    requires named { N.table ≡ sheet.now.table_id }
    requires table { IsTableOf W.ways script.now.layout sheet.now.table_id × (sheet.now.key ≡ script.now.layout) }
    requires seat { (pass.table_id ≡ sheet.now.table_id) × (pass.me ≡ (first_knowing script.now.layout, [])) }
    ensures same { IfOk result (λ end. end.0.table_id ≡ sheet.now.table_id) }
    ensures knows { IfOk result (λ end. KnowsRun script.now end.0.me.0.known end.1) }
{
    let mut board = SeatBoard::<N, W>::new(alloc, sheet, &script.layout, pass)?;
    let rows = play(alloc, script, &mut board)?;
    Ok((board.into_pass(), rows))
}

/// The turns of a script's processors at a table of their own: what the table was closed with, the bodies that were in its
/// slots, and the rows of each processor.
fn play_at_table<W: Ways>(
    alloc: Global,
    script: &Script,
) -> Result<(Ended<W>, Vec<Slot>, Rows), OutOfMemory>
    requires valid { IsValid script.now }
    ensures played { IfOk result (λ end. IsTablePlayed script.now end.0 end.2) }
    ensures bodies { IfOk result (λ end. end.0.slots ≡ end.1.items) }
{
    let layout = Arc::new(alloc, script.layout.copy(alloc)?)?;
    let (table, pass) = begin::<W>(alloc, &layout)?;
    let (pass, rows) = seat_all::<Brand, W>(alloc, &table.shared, script, pass)?;
    let Ok((ended, slots)) = close(alloc, &script.layout, table, pass) else {
        return Err(AllocError);
    };
    ended.reached();
    Ok((ended, slots, rows))
}

/// The run of a script in turns: its processors make them in the order of the schedule, and then in the finishing order, until each
/// of their commands is answered. They make them at one table of atomic words, and the report is of what it is closed with.
pub fn run_in_turns<W: Ways>(alloc: Global, script: &Script) -> Result<Finished<W>, OutOfMemory>
    requires valid { IsValid script.now }
    ensures of_run { IfOk result (λ run. IsOfRun script.now run.report) }
    ensures lawful { IfOk result (λ run. IsLawful script.now run.report) }
    ensures core { IfOk result (λ run. IsCoreRun script.now run.report) }
    ensures ended { IfOk result (λ run. IsTableRun script.now run.report run.ended) }
    ensures caches { IfOk result (λ run. IsCachedEnd W.ways run.ended) }
{
    let (ended, bodies, rows) = play_at_table::<W>(alloc, script)?;
    finish_run(alloc, script, ended, bodies, &rows)
}
