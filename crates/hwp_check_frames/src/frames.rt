ghost use Rattle.std.specs.Prelude.{◌<◌, ◌+◌, ◌^◌, length, IfOk, MatchBool, MatchOption};
ghost use Rattle.hwp_check_rules.specs.hwp_check_event_line.Scripts.{IsDeclared};
ghost use Rattle.hwp_check_rules.specs.hwp_law.Lines.{marks_of};
ghost use Rattle.hwp_check_frames.specs.Index.{IsIndex};
ghost use Rattle.hwp_check_frames.specs.MarkScans.{AreRightMarks, FrameFits, IsFirstWrongMark, IsFrameFaultAt, IsRecordFault, NoneBeyond, RecordsFit, SomeBeyond};
ghost use Rattle.hwp_check_rules.specs.Standing.{last_line};
ghost use Rattle.hwp_check_rules.specs.Firsts.{IsFirstFault, IsClear};
ghost use Rattle.hwp_check_rules.specs.Rules.{ShapeFits};

use crate::index::Index;
use crate::own::add_own;
use crate::records::is_right;
use crate::softs::add_soft;
use hwp_check_rules::{Frame, MarkLine, OutOfMemory, Report, Script};
use std::alloc::Global;
use std::collections::HashMap;

/// Whether the frame has event lines of a command beyond its marks.
fn some_beyond(report: &Report, index: &Index, frame: u16) -> bool
    requires index { IsIndex report.now index.now }
    requires within { frame < length report.now.frames }
    ensures { MatchBool result (SomeBeyond report.now (marks_of report.now frame) frame) (NoneBeyond report.now (marks_of report.now frame) frame (length report.now.cpus)) }
{
    let _report = report;
    index.beyond[usize::from(frame)]
}

/// The place of the first mark of a record that is wrong.
fn first_wrong(
    alloc: Global,
    script: &Script,
    report: &Report,
    index: &Index,
    kernel: bool,
    frame: Frame,
    marks: &[MarkLine],
) -> Result<Option<usize>, OutOfMemory>
    requires index { IsIndex report.now index.now }
    requires small { length marks.now + 1 < 2 ^ 64 }
    ensures { IfOk result (λ found. MatchOption found (AreRightMarks script.now report.now kernel frame marks.now (length marks.now)) (λ place. IsFirstWrongMark script.now report.now kernel frame marks.now place)) }
{
    let mut had = HashMap::new(alloc);
    let mut softs = HashMap::new(alloc);
    for (place, mark) in marks.iter().enumerate() {
        if !is_right(
            script, report, index, &had, &softs, kernel, frame, marks, place, mark,
        ) {
            return Ok(Some(place));
        }
        add_own(&mut had, frame.0, mark)?;
        add_soft(&mut softs, mark)?;
    }
    Ok(None)
}

/// The first line of a frame's record that is wrong, where its heading stands at `heading`.
fn frame_fault(
    alloc: Global,
    script: &Script,
    report: &Report,
    index: &Index,
    kernel: bool,
    frame: Frame,
    heading: u64,
) -> Result<Option<u64>, OutOfMemory>
    requires index { IsIndex report.now index.now }
    requires within { frame.0 < length report.now.frames }
    requires room { heading + 1 + length (marks_of report.now frame.0) < 2 ^ 64 }
    ensures { IfOk result (λ found. MatchOption found (FrameFits script.now report.now kernel frame (marks_of report.now frame.0)) (λ line. IsFrameFaultAt script.now report.now kernel frame (marks_of report.now frame.0) heading line)) }
{
    if some_beyond(report, index, frame.0) {
        return Ok(Some(heading));
    }
    let marks = report.frames.as_slice()[usize::from(frame.0)]
        .marks
        .as_slice();
    match first_wrong(alloc, script, report, index, kernel, frame, marks)? {
        Some(place) => Ok(Some(heading + 1 + place as u64)),
        None => Ok(None),
    }
}

/// The first line of the frames' records that is wrong in its record, or by the lines of commands beside it.
pub fn kept(
    alloc: Global,
    script: &Script,
    report: &Report,
    index: &Index,
) -> Result<Option<u64>, OutOfMemory>
    requires valid { IsDeclared script.now }
    requires room { last_line report.now < 2 ^ 64 }
    requires shape { ShapeFits script.now report.now }
    requires index { IsIndex report.now index.now }
    ensures { IfOk result (λ found. MatchOption found (IsClear (RecordsFit script.now report.now) (IsRecordFault script.now report.now)) (λ line. IsFirstFault (RecordsFit script.now report.now) (IsRecordFault script.now report.now) line)) }
{
    let frames = report.frames.as_slice();
    let kernels = script.layout.kernel.as_slice();
    let mut heading = 4 + report.files.len() as u64;
    for frame in 0..script.layout.frames {
        let shown = &frames[usize::from(frame)];
        let kernel = kernels[usize::from(frame)];
        match frame_fault(alloc, script, report, index, kernel, Frame(frame), heading)? {
            Some(line) => return Ok(Some(line)),
            None => heading += 1 + shown.marks.len() as u64,
        }
    }
    Ok(None)
}
