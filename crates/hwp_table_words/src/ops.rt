use crate::seat::SeatOps;
use crate::ways::Ways;
use hwp_core_rule::{Body, Layout, Met, Ops, Step, Who};

impl<'a, W: Ways> Ops for SeatOps<'a, W> {
    ghost use Rattle.hwp_table_words.specs.Seats.{HasRight, Moves, mine};

    ghost layout = { λ s. s.layout };

    ghost view = { λ s. mine s };

    ghost ready = { λ s. HasRight s.known };

    ghost moves = { λ a r b. Moves a r b };

    fn layout(&self) -> &Layout {
        self.machine()
    }

    #[inline(always)]
    fn step(&mut self, who: Who, step: &Step, body: Option<Body>) -> Met {
        self.make(who, step, body)
    }
}
