ghost use Rattle.std.specs.Prelude.{◌≡◌, IfOk};
ghost use Rattle.hwp_top_words.specs.hwp_script_read.hwp_script_words.Valid.{IsValid};
ghost use Rattle.hwp_top.specs.Runs.{IsOpened, IsPlayed};

use crate::crew::crew_of;
use hwp_cpu::{Rows, rows_of};
use hwp_top_report::{Board, OutOfMemory, Script, step_all};
use std::alloc::Global;

/// All turns of a script's processors on a board at opening, in the order of its schedule: the rows of each processor.
pub fn play<B: Board>(alloc: Global, script: &Script, board: &mut B) -> Result<Rows, OutOfMemory>
    requires valid { IsValid script.now }
    requires opened { IsOpened script.now (B.layout board.old) (B.seat board.old) (B.state board.old) (B.log board.old) }
    ensures layout { IfOk result (λ _. B.layout board.new ≡ script.now.layout) }
    ensures played { IfOk result (λ rows. IsPlayed script.now (B.log board.new) (B.state board.new) rows) }
{
    board.keeps();
    let mut crew = crew_of(alloc, script)?;
    match step_all(board, &mut crew, script.go.as_slice()) {
        Ok(()) => {}
        Err(refused) => {
            drop(crew);
            return Err(refused);
        }
    }
    board.keeps();
    rows_of(alloc, crew)
}
