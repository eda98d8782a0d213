ghost use Rattle.std.specs.Prelude.{◌≡◌, true};

use crate::board::PlainBoard;
use hwp_core_rule::{Body, Layout, Met, Ops, Step, Who};

impl Ops for PlainBoard {
    ghost use Rattle.hwp_plain.specs.Boards.{own_view, Moves};

    ghost layout = { λ b. b.layout };

    ghost view = { λ b. own_view b };

    ghost ready = { λ b. b.ready ≡ true };

    ghost moves = { λ a r b. Moves a r b };

    fn layout(&self) -> &Layout {
        self.machine()
    }

    fn step(&mut self, who: Who, step: &Step, body: Option<Body>) -> Met {
        self.make(who, step, body)
    }
}
