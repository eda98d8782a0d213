ghost use Rattle.std.specs.Prelude.{◌≡◌, ◌≢◌, ℕ, ◌<◌, List};
ghost use Rattle.hwp_page.specs.hwp_geom.declared.Cpu.{Cpu as CpuOf};
ghost use Rattle.hwp_page.specs.hwp_geom.declared.Layout.{Layout};
ghost use Rattle.hwp_core_rule.specs.declared.record.State.{State};
ghost use Rattle.hwp_core_rule.specs.Rule.{Holds};
ghost use Rattle.hwp_core_rule.specs.Boards.{Played, view_of, AreSeated, TakesTurn};

use crate::task::Task;
use crate::turn::Turn;
use hwp_page::{Cpu, Kind};

/// A machine on which the tasks of its processors advance, turn by turn.
pub trait Board {
    /// The layout of the machine.
    ghost layout: { Self → Layout };

    /// All words, slots and views, as plain data.
    ghost state: { Self → State };

    /// The seat of each processor.
    ghost seat: { Self → CpuOf → ℕ };

    /// The moves so far, the newest first, each with the turn that it was.
    ghost log: { Self → List Played };

    /// Between turns the board keeps the frame rule, and each processor has a seat of its own. Proof only: a call tells its clauses.
    fn keeps(&self)
        ensures rule { Holds (layout self.now) (state self.now) }
        ensures seats { AreSeated (layout self.now) (state self.now) (seat self.now) };

    /// The next turn of a task of the processor: one step of it, whose kind is told; or none where the task is over, and
    /// then nothing changes.
    fn advance<M: Task>(&mut self, cpu: Cpu, task: &mut M) -> (Turn, Option<Kind>)
        requires cpu { cpu.0 < (layout self.old).cpus }
        requires own { (M.task.who task.old).cpu ≡ cpu }
        requires fits { M.task.fits (layout self.old) (view_of (state self.old) (seat self.old cpu)) task.old }
        ensures fits { M.task.fits (layout self.new) (view_of (state self.new) (seat self.new cpu)) task.new }
        ensures own { (M.task.who task.new).cpu ≡ cpu }
        ensures same { (layout self.new ≡ layout self.old) × (seat self.new ≡ seat self.old) }
        ensures others { (s : ℕ) → s ≢ seat self.old cpu → view_of (state self.new) s ≡ view_of (state self.old) s }
        ensures rule { Holds (layout self.new) (state self.new) }
        ensures turn { TakesTurn M.task (layout self.old) (seat self.old cpu) (state self.old) (state self.new) (log self.old) (log self.new) task.old task.new result };
}
