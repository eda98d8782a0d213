ghost use Rattle.std.specs.Prelude.{IfOk};
ghost use Rattle.hwp_top_words.specs.hwp_script_read.hwp_script_words.Valid.{IsValid};
ghost use Rattle.hwp_top.specs.Traces.{IsTrace};

use crate::plain::report_of;
use crate::playing::play;
use hwp_top_report::{List, OutOfMemory, Report, Script, TraceLine, TracedBoard};
use std::alloc::Global;

/// A run that was watched: its report, and a line for each turn.
#[derive(Drop)]
pub struct Watched {
    pub report: Report,
    pub lines: List<TraceLine>,
}

/// The run of a script, watched: its processors make their turns in the order of the schedule, and then in the finishing order,
/// until each of their commands is answered. There is a line for each turn, in their order.
///
/// # Errors
/// `OutOfMemory` also where memory for a line was refused: there is no trace then, not a part of one.
pub fn trace(alloc: Global, script: &Script) -> Result<Watched, OutOfMemory>
    requires valid { IsValid script.now }
    ensures { IfOk result (λ run. IsTrace script.now run.report run.lines) }
{
    let mut board = TracedBoard::new(alloc, &script.layout)?;
    let rows = play(alloc, script, &mut board)?;
    let (board, lines) = board.into_parts()?;
    let report = report_of(alloc, script, board, &rows)?;
    Ok(Watched { report, lines })
}
