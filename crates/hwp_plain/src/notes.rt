ghost use Rattle.std.specs.Prelude.{◌≡◌, IfSome, length};
ghost use Rattle.hwp_core_rule.specs.hwp_geom.Layout.{IsSound};
ghost use Rattle.hwp_core_rule.specs.Boards.{view_of};
ghost use Rattle.hwp_plain.specs.Notes.{Notes, Sees, line_seen};
ghost use Rattle.hwp_core_rule.specs.Words.{IsPlace, read, size, words_of};

use crate::board::PlainBoard;
use crate::trace_line::TraceLine;
use hwp_core_rule::{Kind, Layout, List, Ops, SharedWord, Task, Turn, Who, index};

/// What a task is about to touch, and the word that stands there.
#[derive(Clone, Copy)]
pub(crate) struct Sight {
    /// The command whose turn it is.
    pub who: Who,
    /// The word that its step is about to touch.
    pub place: SharedWord,
    /// What stands there.
    pub before: u64,
}

/// The word of a place, among the words in the frame rule's order.
fn word(layout: &Layout, words: &[u64], place: SharedWord) -> u64
    requires sound { IsSound layout.now }
    requires count { length words.now ≡ size layout.now }
    requires inside { IsPlace layout.now place }
    ensures { result ≡ read place (words_of layout.now words.now) }
{
    words[index(layout, place)]
}

/// The word that stands at a place of the board.
fn word_at(board: &PlainBoard, place: SharedWord) -> u64
    requires inside { IsPlace board.now.layout place }
    ensures { result ≡ read place (words_of board.now.layout board.now.state.words) }
{
    board.reached();
    word(board.layout(), board.words(), place)
}

/// What the task's next step will touch; `None` where the task is over.
pub(crate) fn look<M: Task>(board: &PlainBoard, task: &M) -> Option<Sight>
    requires fits { M.task.fits board.now.layout (view_of board.now.state (M.task.who task.now).cpu.0) task.now }
    ensures { Sees board.now.layout board.now.state (M.task.who task.now) (M.task.plan task.now) result }
{
    let who = task.who();
    let Some(step) = task.plan() else {
        return None;
    };
    let place = step.place();
    Some(Sight {
        who,
        place,
        before: word_at(board, place),
    })
}

/// The line of the turn that followed; `None` where it made no step.
pub(crate) fn line_of(
    board: &PlainBoard,
    seen: Option<Sight>,
    turn: Turn,
    kind: Option<Kind>,
) -> Option<TraceLine>
    requires place { IfSome seen (λ s. IsPlace board.now.layout s.place) }
    ensures { result ≡ line_seen board.now.layout board.now.state seen turn kind }
{
    let Some(seen) = seen else {
        return None;
    };
    let Some(kind) = kind else {
        return None;
    };
    let after = word_at(board, seen.place);
    Some(TraceLine {
        who: seen.who,
        kind,
        place: seen.place,
        before: seen.before,
        after,
        turn,
    })
}

/// The lines, and the line of a turn behind them, where it has one; `None` where there were none, or memory for it is refused.
pub(crate) fn noted(
    lines: Option<List<TraceLine>>,
    line: Option<TraceLine>,
) -> Option<List<TraceLine>>
    ensures { Notes lines line result }
{
    let Some(line) = line else {
        return lines;
    };
    let Some(mut lines) = lines else {
        return None;
    };
    match lines.push(line) {
        Ok(()) => Some(lines),
        Err(_) => None,
    }
}
