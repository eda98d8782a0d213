use crate::board::PlainBoard;
use hwp_core_rule::{Board, Cpu, Kind, Task, Turn, advance};

impl Board for PlainBoard {
    ghost layout = { λ b. b.layout };

    ghost state = { λ b. b.state };

    ghost seat = { λ b cpu. cpu.0 };

    ghost log = { λ b. b.log };

    fn keeps(&self) {
        self.reached();
    }

    fn advance<M: Task>(&mut self, cpu: Cpu, task: &mut M) -> (Turn, Option<Kind>) {
        self.begin(cpu);
        let turn = advance(task, self);
        self.end(turn);
        self.keeps();
        (turn, self.made())
    }
}
