ghost use Rattle.std.specs.Prelude.{◌≡◌, ◌≢◌, None, cond, false, true};
ghost use Rattle.hwp_core_rule.specs.Ranks.{is_refused};
ghost use Rattle.hwp_threads.specs.Workers.{CanRun, StaysReady, TookTurn};

use hwp_core_rule::{Ops, Scheduled, Turn, advance};

/// A processor's seat with the task that makes its turns there, and whether a turn of it was refused memory.
#[derive(Drop)]
pub struct Worker<O, T> {
    pub seat: O,
    pub task: T,
    pub refused: bool,
}

impl<O: Ops, T: Scheduled> Worker<O, T> {
    /// A worker that has made no turn.
    pub fn new(seat: O, task: T) -> Worker<O, T>
        ensures { (result.seat ≡ seat) × (result.task ≡ task) × (result.refused ≡ false) }
    {
        Worker {
            seat,
            task,
            refused: false,
        }
    }

    /// The next turn of its task.
    pub(crate) fn turn(&mut self) -> Turn
        requires law { StaysReady O.ready O.moves }
        requires can { CanRun O.layout O.view O.ready T.task.fits self.old }
        requires going { T.task.plan self.old.task ≢ None }
        ensures can { CanRun O.layout O.view O.ready T.task.fits self.new }
        ensures turn { TookTurn T.task O.layout O.view O.moves self.old self.new }
    {
        let turn = advance(&mut self.task, &mut self.seat);
        self.refused = refused_by(self.refused, turn);
        turn
    }
}

/// Whether memory was refused before, or in this turn.
fn refused_by(before: bool, turn: Turn) -> bool
    ensures { result ≡ cond before true (is_refused turn) }
{
    before || matches!(turn, Turn::NoMemory)
}
