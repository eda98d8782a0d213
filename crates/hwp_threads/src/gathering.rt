ghost use Rattle.std.specs.Prelude.{◌≡◌, ◌++◌, ◌∷◌, [], ◌<◌, false, map, IfOk, OnOk};
ghost use Rattle.crossbeam_utils.specs.Padded.{padded_value};
ghost use Rattle.hwp_threads.specs.Gathering.{AreBare, AreGathered, IsBare, IsBrought};

use crate::dealing::SeatWorker;
use crate::worker::Worker;
use hwp_core_rule::OutOfMemory;
use hwp_table_words::{Pass, Sheet, Ways, join};
use std::alloc::{AllocError, Global};

/// The one seat that has what all workers' seats have, none of which lists a lock, and the workers' tasks in their order.
///
/// # Errors
/// `OutOfMemory` where a turn of a worker was refused memory, and where there is none for the tasks.
pub fn gather<'a, W: Ways, T: Drop>(
    alloc: Global,
    sheet: &Sheet<W>,
    pass: Pass,
    workers: Vec<SeatWorker<'a, W, T>>,
) -> Result<(Pass, Vec<T>), OutOfMemory>
    requires fits { (pass.table_id ≡ sheet.now.table_id) × (0 < sheet.now.table_id.words) × (pass.me.1 ≡ []) }
    requires bare { AreBare sheet.now.table_id workers.items }
    ensures { IfOk result (λ r. AreGathered sheet.now.table_id pass.me.0.known workers.entry.items r.0.table_id r.0.me r.1.items) }
{
    let mut pass = pass;
    let mut workers = workers;
    let mut tasks = Vec::new(alloc);
    while !workers.is_empty() {
        let worker = workers.remove(0);
        tasks.push(bring(sheet, &mut pass, worker)?)?;
    }
    Ok((pass, tasks))
}

/// The seat takes what a worker's seat has; its task comes back.
fn bring<'a, W: Ways, T: Drop>(
    sheet: &Sheet<W>,
    pass: &mut Pass,
    worker: SeatWorker<'a, W, T>,
) -> Result<T, OutOfMemory>
    requires fits { (pass.old.table_id ≡ sheet.now.table_id) × (0 < sheet.now.table_id.words) }
    requires bare { IsBare sheet.now.table_id (padded_value worker).seat }
    ensures { IfOk result (λ task. IsBrought pass.old.table_id pass.old.me (padded_value worker.entry) pass.new.table_id pass.new.me task) }
{
    let Worker {
        seat,
        task,
        refused,
    } = worker.into_inner();
    if refused {
        return Err(AllocError);
    }
    join(sheet, pass, seat.pass());
    Ok(task)
}
