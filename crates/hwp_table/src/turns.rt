ghost use Rattle.std.specs.Prelude.{◌≡◌, cond};
ghost use Rattle.hwp_table.specs.Turns.{turns_of, with_newest};

use hwp_core_rule::Turn;
use std::snapshot::Snapshot;

/// The turns of a board since its opening: at run time the last one alone, and the rest for clauses.
#[derive(Drop)]
pub enum Turns {
    Opening,
    Made { before: Snapshot<Turns>, turn: Turn },
}

/// Where this turn made a step, the newest move was this turn.
pub fn tell(turns: &mut Turns, made_none: bool, turn: Turn)
    ensures { turns_of turns.new ≡ cond made_none (turns_of turns.old) (with_newest turn (turns_of turns.old)) }
{
    if made_none {
        return;
    }
    match turns {
        Turns::Opening => {}
        Turns::Made { turn: newest, .. } => *newest = turn,
    }
}
