ghost use Rattle.std.specs.Prelude.{◌≡◌, [], IfOk};
ghost use Rattle.hwp_top_report.specs.hwp_law.Law.{IsLawful};
ghost use Rattle.hwp_top_report.specs.hwp_law.Runs.{IsOfRun};
ghost use Rattle.hwp_top_words.specs.hwp_script_read.hwp_script_words.Valid.{IsValid};
ghost use Rattle.hwp_threads.specs.hwp_table_words.Known.{first_knowing};
ghost use Rattle.hwp_threads.specs.hwp_table_words.Seats.{IsTableOf};
ghost use Rattle.hwp_top_report.specs.Caches.{IsCachedEnd};
ghost use Rattle.hwp_top.specs.ThreadRuns.{IsThreadPlayed, IsThreadRun, KnowsOwnRuns};

use crate::crew::crew_of;
use hwp_cpu::{Rows, rows_of};
use hwp_threads::{Gate, deal, gather, run_all};
use hwp_top_report::{
    Ended, Finished, OutOfMemory, Pass, Script, Sheet, Slot, Ways, begin, close, finish_run,
};
use std::alloc::{AllocError, Global};
use std::sync::{Arc, Wait};
use std::thread::Threads;

/// All turns of a script's processors, each on a thread of its own: the one seat that has all views again, and the rows of each
/// processor.
fn run_crew<R: Threads + Wait + Sync, W: Ways + Send, G: Gate + Sync>(
    rt: &R,
    alloc: Global,
    sheet: &Sheet<W>,
    script: &Script,
    pass: Pass,
    gate: &G,
) -> Result<(Pass, Rows), OutOfMemory>
    requires valid { IsValid script.now }
    requires table { IsTableOf W.ways script.now.layout sheet.now.table_id × (sheet.now.key ≡ script.now.layout) }
    requires seat { (pass.table_id ≡ sheet.now.table_id) × (pass.me ≡ (first_knowing script.now.layout, [])) }
    ensures same { IfOk result (λ r. r.0.table_id ≡ sheet.now.table_id) }
    ensures knows { IfOk result (λ r. KnowsOwnRuns script.now r.0.me.0.known r.1) }
{
    let crew = crew_of(alloc, script)?;
    let (pass, mut workers) = deal(alloc, sheet, &script.layout, pass, crew)?;
    run_all(rt, &mut workers, gate);
    let (seat, tasks) = gather(alloc, sheet, pass, workers)?;
    let rows = rows_of(alloc, tasks)?;
    Ok((seat, rows))
}

/// The turns of a script's processors at a table of their own: what the table was closed with, the bodies that were in its
/// slots, and the rows of each processor.
fn play_on_threads<R: Threads + Wait + Sync, W: Ways + Send, G: Gate + Sync>(
    rt: &R,
    alloc: Global,
    script: &Script,
    gate: &G,
) -> Result<(Ended<W>, Vec<Slot>, Rows), OutOfMemory>
    requires valid { IsValid script.now }
    ensures played { IfOk result (λ end. IsThreadPlayed script.now end.0 end.2) }
    ensures bodies { IfOk result (λ end. end.0.slots ≡ end.1.items) }
{
    let layout = Arc::new(alloc, script.layout.copy(alloc)?)?;
    let (table, pass) = begin::<W>(alloc, &layout)?;
    let (pass, rows) = run_crew(rt, alloc, &table.shared, script, pass, gate)?;
    let Ok((ended, slots)) = close(alloc, &script.layout, table, pass) else {
        return Err(AllocError);
    };
    ended.reached();
    Ok((ended, slots, rows))
}

/// The run of a script on threads: its processors make their turns, each on a thread of its own, in whatever order, until each of
/// their commands is answered. The schedule isn't used. The report is of what the table is closed with.
///
/// # Errors
/// `OutOfMemory` where memory was refused, also to a turn of a processor.
pub fn run_on_threads<R: Threads + Wait + Sync, W: Ways + Send, G: Gate + Sync>(
    rt: &R,
    alloc: Global,
    script: &Script,
    gate: &G,
) -> Result<Finished<W>, OutOfMemory>
    requires valid { IsValid script.now }
    ensures of_run { IfOk result (λ run. IsOfRun script.now run.report) }
    ensures lawful { IfOk result (λ run. IsLawful script.now run.report) }
    ensures ended { IfOk result (λ run. IsThreadRun script.now run.report run.ended) }
    ensures caches { IfOk result (λ run. IsCachedEnd W.ways run.ended) }
{
    let (ended, bodies, rows) = play_on_threads::<R, W, G>(rt, alloc, script, gate)?;
    finish_run(alloc, script, ended, bodies, &rows)
}
