ghost use Rattle.std.specs.Prelude.{◌≡◌, ◌<◌, ◌+◌, ◌++◌, IfOk, OnOk, filter_map, length};
ghost use Rattle.std.specs.List.{list_any};
ghost use Rattle.std.specs.Option.{option_to_list};
ghost use Rattle.hwp_check_rules.specs.hwp_check_event_line.Firsts.{shown_lines};
ghost use Rattle.hwp_check_rules.specs.hwp_law.Notes.{is_corrected, noted_frame, notes, notes_of_check};
ghost use Rattle.hwp_check_frames.specs.Noting.{AreNoted, ends, is_last_of_check};

use hwp_banks::{Flags, Status};
use hwp_check_rules::{EventLine, Frame, Layout, OutOfMemory, Shown};
use std::alloc::Global;

/// The bytes of a frame.
const FRAME_BYTES: u64 = 4096;

/// Whether the line is of a corrected error with a valid address.
fn is_corrected(line: &EventLine) -> bool
    ensures { result ≡ is_corrected line.now }
{
    line.row == 4 && Status(line.status).contains(Status::ADDRV)
}

/// The frame that the line notes, if it notes one.
fn noted_frame(layout: &Layout, line: &EventLine) -> Option<Frame>
    ensures { result ≡ noted_frame layout.now line.now }
{
    let frame = line.addr / FRAME_BYTES;
    if !is_corrected(line) || frame >= u64::from(layout.frames) {
        return None;
    }
    let kernel = match layout.kernel.as_slice().get(frame as usize) {
        Some(kernel) => *kernel,
        None => false,
    };
    if kernel {
        None
    } else {
        Some(Frame(frame as u16))
    }
}

/// Whether the event stopped the machine, or was a panic.
fn ends(shown: &Shown) -> bool
    ensures { result ≡ ends shown.now }
{
    shown.line.acted.is_stopping() || shown.line.acted.is_panic()
}

/// Whether one of the lines tells such an event.
fn has_end(lines: &[Shown]) -> bool
    ensures { result ≡ list_any ends lines.now }
{
    lines.iter().any(ends)
}

/// Adds the frame, if there is one.
fn add_frame(frames: &mut Vec<Frame>, frame: Option<Frame>) -> Result<(), OutOfMemory>
    ensures { OnOk result (frames.new.items ≡ frames.old.items ++ option_to_list frame) }
{
    if let Some(frame) = frame {
        frames.push(frame)?;
    }
    Ok(())
}

/// Adds the frames that the lines note, one by one.
fn add_noted(frames: &mut Vec<Frame>, layout: &Layout, lines: &[Shown]) -> Result<(), OutOfMemory>
    ensures { OnOk result (frames.new.items ≡ frames.old.items ++ filter_map (noted_frame layout.now) (shown_lines lines.now)) }
{
    for shown in lines {
        add_frame(frames, noted_frame(layout, &shown.line))?;
    }
    Ok(())
}

/// Adds the frames that the lines of one machine check note.
#[tactic(auto, using(crate::proofs::NoteLoop::check_ended, crate::proofs::NoteLoop::check_noted))]
fn add_check(frames: &mut Vec<Frame>, layout: &Layout, lines: &[Shown]) -> Result<(), OutOfMemory>
    ensures { OnOk result (frames.new.items ≡ frames.old.items ++ notes_of_check layout.now (shown_lines lines.now)) }
{
    if has_end(lines) {
        return Ok(());
    }
    add_noted(frames, layout, lines)
}

/// Whether the line with the number is the last of its machine check.
fn is_last(lines: &[Shown], number: usize) -> bool
    requires { number < length lines.now }
    ensures { result ≡ is_last_of_check (shown_lines lines.now) number }
{
    match lines.get(number + 1) {
        Some(next) => next.line.bank <= lines[number].line.bank,
        None => true,
    }
}

/// Adds what the machine check notes whose lines go from `start` to this one, if it is the last of them: where the next check begins.
fn close(
    frames: &mut Vec<Frame>,
    layout: &Layout,
    lines: &[Shown],
    start: usize,
    number: usize,
) -> Result<usize, OutOfMemory>
    requires within { number < length lines.now }
    requires noted { AreNoted layout.now (shown_lines lines.now) start number frames.old.items }
    ensures { IfOk result (λ next. AreNoted layout.now (shown_lines lines.now) next (number + 1) frames.new.items) }
{
    if is_last(lines, number) {
        add_check(frames, layout, &lines[start..number + 1])?;
        return Ok(number + 1);
    }
    Ok(start)
}

/// The frames that the event lines of a command note, in order.
#[tactic(auto, using(crate::proofs::NoteLoop::begins))]
pub(crate) fn notes(
    alloc: Global,
    layout: &Layout,
    lines: &[Shown],
) -> Result<Vec<Frame>, OutOfMemory>
    ensures { IfOk result (λ frames. frames.items ≡ notes layout.now (shown_lines lines.now)) }
{
    let mut frames = Vec::new(alloc);
    let mut start = 0;
    for number in 0..lines.len() {
        start = close(&mut frames, layout, lines, start, number)?;
    }
    Ok(frames)
}
