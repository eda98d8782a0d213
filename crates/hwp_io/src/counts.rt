ghost use Rattle.std.specs.Prelude.{◌≡◌, ◌+◌};
ghost use Rattle.hwp_io.specs.Counts.{count};

use std::snapshot::Snapshot;

/// How many calls failed, as clauses count them: without a bound. At run time it tells only whether
/// one did.
#[derive(Drop)]
pub(crate) enum FaultCount {
    Zero,
    /// One more than there were before.
    OneMore { before: Snapshot<FaultCount> },
}

impl FaultCount {
    /// Counts one more failed call.
    pub(crate) fn add(&mut self)
        ensures { count self.new ≡ count self.old + 1 }
    {
        let before = Snapshot::of(self);
        *self = FaultCount::OneMore { before };
    }
}
