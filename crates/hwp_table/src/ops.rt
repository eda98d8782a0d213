ghost use Rattle.std.specs.Prelude.{◌≡◌, true};

use crate::board::{OfTable, SeatBoard};
use hwp_core_rule::{Board, Body, Cpu, Kind, Layout, Met, Ops, Step, Task, Turn, Who, advance};
use hwp_table_words::Ways;

impl<'a, N: OfTable, W: Ways> Ops for SeatBoard<'a, N, W> {
    ghost use Rattle.hwp_plain.specs.Boards.{own_view, Moves};

    ghost layout = { λ b. b.layout };

    ghost view = { λ b. own_view b };

    ghost ready = { λ b. b.ready ≡ true };

    ghost moves = { λ a r b. Moves a r b };

    fn layout(&self) -> &Layout {
        self.machine()
    }

    #[inline(always)]
    fn step(&mut self, who: Who, step: &Step, body: Option<Body>) -> Met {
        match step {
            Step::Load { place } => self.make(who, &Step::Load { place: *place }, body),
            _ => self.make_of_kind(who, step, body),
        }
    }
}

impl<'a, N: OfTable, W: Ways> Board for SeatBoard<'a, N, W> {
    ghost layout = { λ b. b.layout };

    ghost state = { λ b. b.state };

    ghost seat = { λ b cpu. cpu.0 };

    ghost log = { λ b. b.log };

    fn keeps(&self) {
        self.reached();
    }

    fn advance<M: Task>(&mut self, cpu: Cpu, task: &mut M) -> (Turn, Option<Kind>) {
        self.begin(cpu);
        let turn = advance(task, self);
        self.end(turn);
        self.keeps();
        (turn, self.made())
    }
}
