ghost use Rattle.std.specs.Prelude.{◌≡◌};
ghost use Rattle.hwp_plain.specs.Trails.{played, told, views_of};

use hwp_core_rule::{Body, Cpu, Step, Turn, Who};
use std::snapshot::Snapshot;

/// The moves of a board since its opening: at run time the last one alone, and the rest for clauses.
#[derive(Drop)]
pub enum Trail {
    Opening,
    /// After the moves before, a step of this seat's.
    Made {
        before: Snapshot<Trail>,
        seat: Cpu,
        who: Who,
        step: Snapshot<Step>,
        found: u64,
        content: Snapshot<Option<Body>>,
        turn: Turn,
    },
}

/// The newest move was this turn.
pub fn tell(trail: &mut Trail, turn: Turn)
    ensures { trail.new ≡ told turn trail.old }
{
    match trail {
        Trail::Opening => {}
        Trail::Made { turn: newest, .. } => *newest = turn,
    }
}
