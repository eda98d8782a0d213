ghost use Rattle.std.specs.Prelude.{◌≡◌, ◌↔◌, ◌<◌, ◌≤◌, IsBitSet, IsTrue};
ghost use Rattle.hwp_law.specs.Lines.{bad_lines_of, weak_lines_of};
ghost use Rattle.hwp_check_event_line.specs.Lines.{has_line};
ghost use Rattle.hwp_check_event_line.specs.Scrubs.{damaged_lines, has_line_below, line_at};

use crate::traced::Traced;
use hwp_banks::Origin;
use hwp_law::Line;

/// The bad lines of a frame.
pub(crate) fn bad_lines_of(report: &Traced<'_>, frame: u64) -> u64
    ensures { result ≡ bad_lines_of report.now frame }
{
    match report.get().frames.as_slice().get(frame as usize) {
        Some(line) => line.bad.0,
        None => 0,
    }
}

/// Whether a line is one of these.
pub(crate) fn has_line(mask: u64, line: u8) -> bool
    requires { line < 64 }
    ensures { result ≡ has_line mask line }
{
    mask >> line & 1 == 1
}

/// Whether a frame is bad at a line.
#[tactic(auto, using(crate::proofs::LineLaws::has_line_is))]
pub fn is_bad_at(report: &Traced<'_>, frame: u64, at: Line) -> bool
    ensures { IsTrue result ↔ IsBitSet (bad_lines_of report.now frame) at }
{
    has_line(bad_lines_of(report, frame), at.get())
}

/// The weak lines of a frame.
fn weak_lines_of(report: &Traced<'_>, frame: u64) -> u64
    ensures { result ≡ weak_lines_of report.now frame }
{
    match report.get().frames.as_slice().get(frame as usize) {
        Some(line) => line.weak.0,
        None => 0,
    }
}

/// The lines of a frame that are damaged so.
pub(crate) fn damaged_lines(report: &Traced<'_>, origin: Origin, frame: u64) -> u64
    ensures { result ≡ damaged_lines report.now origin frame }
{
    match origin {
        Origin::WeakLine => weak_lines_of(report, frame),
        _ => bad_lines_of(report, frame),
    }
}

/// The line of an address in its frame.
pub(crate) fn line_at(addr: u64) -> u8
    ensures line { result ≡ line_at addr }
    ensures below { result < 64 }
{
    (addr / 64 % 64) as u8
}

/// Whether a line below this one is one of these.
pub(crate) fn has_line_below(mask: u64, end: u8) -> bool
    requires { end ≤ 64 }
    ensures { result ≡ has_line_below mask end }
{
    let mut found = false;
    for line in 0..end {
        found = has_line(mask, line) || found;
    }
    found
}
