ghost use Rattle.std.specs.Prelude.{◌≡◌};
ghost use Rattle.hwp_core_rule.specs.Ranks.{IsRanked};

use crate::task::Task;

/// A task that comes to an end: its cost falls with each turn that does not wait.
pub trait Ranked: Task {
    /// The class.
    fn class(&self) -> u8
        ensures { result ≡ Self.task.class self.now };

    /// Its clause is the law of the rank for all tasks of this type. Proof only: a call tells its clauses.
    fn ranked()
        ensures { IsRanked Self.task };
}
