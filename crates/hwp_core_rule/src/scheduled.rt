ghost use Rattle.hwp_core_rule.specs.Ranks.{PaysRevival};
ghost use Rattle.hwp_core_rule.specs.Classes.{TellsClass};

use crate::ranked::Ranked;

/// A task that a scheduler may run: its class tells what it holds, and where it takes poison back its cost pays for that.
pub trait Scheduled: Ranked {
    /// Its clauses are of all tasks of this type: the class tells what a task holds, and each turn pays for the frames that
    /// may fail again after it. Proof only: a call tells its clauses.
    fn tells()
        ensures class { TellsClass Self.task }
        ensures pays { PaysRevival Self.task };
}
