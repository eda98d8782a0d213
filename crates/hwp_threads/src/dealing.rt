ghost use Rattle.std.specs.Prelude.{◌≡◌, ◌<◌, [], length, map, IfOk};
ghost use Rattle.crossbeam_utils.specs.Padded.{padded_value};
ghost use Rattle.hwp_table_words.specs.Seats.{IsTableOf};
ghost use Rattle.hwp_threads.specs.Dealing.{CanDeal, IsLeft, workers_at};

use crate::worker::Worker;
use crossbeam_utils::CachePadded;
use hwp_core_rule::{Cpu, Layout, OutOfMemory, Scheduled};
use hwp_table_words::{Pass, SeatOps, Sheet, Ways, split};
use std::alloc::Global;

/// A worker whose seat is at a table.
pub type SeatWorker<'a, W, T> = CachePadded<Worker<SeatOps<'a, W>, T>>;

/// A worker for each task, in their order: the first has the seat of processor 0. What the seat that had all views has left
/// comes back beside them.
pub fn deal<'a, W: Ways, T: Scheduled + Drop>(
    alloc: Global,
    sheet: &'a Sheet<W>,
    layout: &'a Layout,
    pass: Pass,
    tasks: Vec<T>,
) -> Result<(Pass, Vec<SeatWorker<'a, W, T>>), OutOfMemory>
    requires table { IsTableOf W.ways layout.now sheet.now.table_id × (sheet.now.key ≡ layout.now) }
    requires seat { (pass.table_id ≡ sheet.now.table_id) × (pass.me.1 ≡ []) × CanDeal 0 layout.now.cpus pass.me.0.known }
    requires one_each { length tasks.items ≡ layout.now.cpus }
    ensures left { IfOk result (λ r. IsLeft sheet.now.table_id r.0.table_id r.0.me) }
    ensures workers { IfOk result (λ r. map padded_value r.1.items ≡ workers_at sheet.now.table_id layout.now 0 tasks.items) }
{
    let mut pass = pass;
    let mut tasks = tasks;
    let mut workers = Vec::new(alloc);
    for cpu in 0..layout.cpus {
        let own = split(sheet, &mut pass, Cpu(cpu));
        let seat = SeatOps::new(sheet, layout, own);
        let task = tasks.remove(0);
        workers.push(CachePadded::new(Worker::new(seat, task)))?;
    }
    Ok((pass, workers))
}
