use hwp_core_rule::{Kind, SharedWord, Turn, Who};

/// A turn that made a step, as a trace tells it.
#[derive(Clone, Copy)]
pub struct TraceLine {
    /// The command that the step is of.
    pub who: Who,
    /// The kind of the step.
    pub kind: Kind,
    /// The word that the step touched.
    pub place: SharedWord,
    /// What stood there before the step.
    pub before: u64,
    /// What stood there after it.
    pub after: u64,
    /// What the turn came to.
    pub turn: Turn,
}
