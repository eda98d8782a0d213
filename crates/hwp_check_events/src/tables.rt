ghost use Rattle.std.specs.Prelude.{◌≡◌, ◌*◌, ◌<◌, ◌^◌};
ghost use Rattle.hwp_check_events.specs.Walked.{noted, with_mark};

use hwp_law::{Command, Frame};

/// Notes a line at a place, where it is lower than that before.
fn note(table: &mut Vec<u8>, place: usize, line: u8)
    ensures { table.new.items ≡ noted place line table.old.items }
{
    if place < table.len() {
        table[place] = table[place].min(line);
    }
}

/// The place of a frame's bad line, behind which its weak line has its place.
fn bad_place(frame: Frame) -> usize
    ensures place { result ≡ 2 * frame.0 }
    ensures room { result < 2 ^ 20 }
{
    2 * usize::from(frame.0)
}

/// Notes the line that a command marks.
pub(crate) fn mark(table: &mut Vec<u8>, command: &Command)
    ensures { table.new.items ≡ with_mark command.now table.old.items }
{
    match *command {
        Command::Bad { frame, line } => note(table, bad_place(frame), line.get()),
        Command::Weak { frame, line } => note(table, bad_place(frame) + 1, line.get()),
        _ => {}
    }
}
