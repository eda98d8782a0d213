ghost use Rattle.std.specs.Prelude.{◌≡◌, All, length};
ghost use Rattle.crossbeam_utils.specs.Padded.{padded_value};
ghost use Rattle.hwp_threads.specs.Workers.{AllRan, CanRun, RanToEnd, StaysReady};

use crate::gate::{Gate, Point};
use crate::worker::Worker;
use crossbeam_utils::{Backoff, CachePadded};
use hwp_core_rule::{Ops, Scheduled, Turn, Who, is_over};
use std::sync::Wait;
use std::thread;
use std::thread::Threads;

/// Each worker makes its turns until its task is over, on a thread of its own where one can be made. It passes the gate after
/// the first turn of each command and after the last. The padding keeps workers off one another's cache lines.
///
/// It comes back when all workers have ended. It takes no memory.
pub fn run_all<R: Threads + Wait + Sync, O: Ops + Send, T: Scheduled + Send, G: Gate + Sync>(
    rt: &R,
    workers: &mut [CachePadded<Worker<O, T>>],
    gate: &G,
)
    requires law { StaysReady O.ready O.moves }
    requires can { All (λ w. CanRun O.layout O.view O.ready T.task.fits (padded_value w)) workers.old }
    ensures count { length workers.new ≡ length workers.old }
    ensures ran { AllRan T.task O.layout O.view O.moves workers.old workers.new }
{
    let threads = workers.len().max(1);
    let work = |_: usize, worker: &mut CachePadded<Worker<O, T>>|
        requires { StaysReady O.ready O.moves × CanRun O.layout O.view O.ready T.task.fits (padded_value worker.old) }
        ensures { RanToEnd T.task O.layout O.view O.moves (padded_value worker.old) (padded_value worker.new) }
    { run(rt, worker, gate) };
    thread::for_each_mut(rt, workers, threads, &work);
}

/// All turns of a worker, until its task is over. While it waits for what another holds, it leaves its processor to others.
fn run<R: Wait, O: Ops, T: Scheduled, G: Gate>(rt: &R, worker: &mut Worker<O, T>, gate: &G)
    requires law { StaysReady O.ready O.moves }
    requires can { CanRun O.layout O.view O.ready T.task.fits worker.old }
    ensures { RanToEnd T.task O.layout O.view O.moves worker.old worker.new }
{
    let backoff = Backoff::new();
    let mut begun = None;
    for _ in rt.forever() {
        if is_over(&worker.task) {
            return;
        }
        let who = worker.task.who();
        let turn = worker.turn();
        tell(gate, who, begun, turn);
        begun = Some(who.seq);
        rest(&backoff, turn);
    }
    unreachable!()
}

/// Passes the gate where this turn was the first of its command, or the last.
fn tell<G: Gate>(gate: &G, who: Who, begun: Option<u32>, turn: Turn) {
    if begun != Some(who.seq) {
        gate.pass(who.cpu, who.seq, Point::Begun);
    }
    if turn == Turn::Answered {
        gate.pass(who.cpu, who.seq, Point::Answered);
    }
}

/// Waits a little longer each time that the task waits.
fn rest(backoff: &Backoff, turn: Turn) {
    match turn {
        Turn::Waits(_) => backoff.snooze(),
        _ => backoff.reset(),
    }
}
