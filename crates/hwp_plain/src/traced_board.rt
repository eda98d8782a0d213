ghost use Rattle.std.specs.Prelude.{◌≡◌, [], IfOk};
ghost use Rattle.hwp_core_rule.specs.hwp_geom.Layout.{IsSound};
ghost use Rattle.hwp_core_rule.specs.Opening.{opening};
ghost use Rattle.hwp_plain.specs.Traced.{AreTold};

use crate::board::PlainBoard;
use crate::notes::{line_of, look, noted};
use crate::trace_line::TraceLine;
use hwp_core_rule::{Board, Cpu, Kind, Layout, List, OutOfMemory, Task, Turn};
use std::alloc::{AllocError, Global};
use std::marker::Model;
use std::mem;

/// A plain board with a line for each of its moves, in their order, unless memory for one was refused.
#[derive(Drop)]
pub struct TracedBoard {
    board: PlainBoard,
    lines: Option<List<TraceLine>>,
}

impl Model for TracedBoard {
    ghost use Rattle.hwp_plain.specs.Traced.{IsTraced, Traced};
    ghost use Rattle.hwp_core_rule.specs.hwp_kill.contracts.Slots as sets;
    ghost use Rattle.std.specs.Coded.{codes};

    ghost Value = { Traced };

    ghost coded = { Prim.hlevel (codes, sets.the_row.coded) };

    ghost view = { λ b. record { board = b.board; lines = b.lines } };

    ghost invariant = { λ b. IsTraced b.board.log b.lines };
}

impl TracedBoard {
    /// The board of a sound layout at opening, with no lines.
    pub fn new(alloc: Global, layout: &Layout) -> Result<TracedBoard, OutOfMemory>
        requires sound { IsSound layout.now }
        ensures layout { IfOk result (λ b. b.board.layout ≡ layout.now) }
        ensures state { IfOk result (λ b. b.board.state ≡ opening layout.now) }
        ensures log { IfOk result (λ b. b.board.log ≡ []) }
    {
        let board = PlainBoard::new(alloc, layout)?;
        Ok(TracedBoard {
            board,
            lines: Some(List::new(alloc)),
        })
    }

    /// The plain board, and the lines of its moves, in their order.
    ///
    /// # Errors
    /// `OutOfMemory` where memory for a line was refused.
    pub fn into_parts(self) -> Result<(PlainBoard, List<TraceLine>), OutOfMemory>
        ensures board { IfOk result (λ parts. parts.0 ≡ self.board) }
        ensures lines { IfOk result (λ parts. AreTold self.board.log parts.1) }
    {
        let TracedBoard { board, lines } = self;
        match lines {
            Some(lines) => Ok((board, lines)),
            None => Err(AllocError),
        }
    }
}

impl Board for TracedBoard {
    ghost layout = { λ b. b.board.layout };

    ghost state = { λ b. b.board.state };

    ghost seat = { λ b cpu. cpu.0 };

    ghost log = { λ b. b.board.log };

    fn keeps(&self) {
        self.board.keeps();
    }

    fn advance<M: Task>(&mut self, cpu: Cpu, task: &mut M) -> (Turn, Option<Kind>) {
        self.board.keeps();
        let seen = look(&self.board, task);
        let (turn, kind) = self.board.advance(cpu, task);
        let line = line_of(&self.board, seen, turn, kind);
        let lines = mem::replace(&mut self.lines, None);
        self.lines = noted(lines, line);
        (turn, kind)
    }
}
