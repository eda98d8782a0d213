ghost use Rattle.std.specs.Prelude.{◌≡◌, ◌<◌, ◌≤◌, IfOk};
ghost use Rattle.std.specs.List.{sum_by};
ghost use Rattle.hwp_plain.specs.hwp_words.Frames.{poison_of};
ghost use Rattle.hwp_plain.specs.hwp_core_rule.Words.{words_of};
ghost use Rattle.hwp_law_served.specs.Ends.{place_in};
ghost use Rattle.hwp_top_report.specs.Closing.{AreLinesBy, AreWordsOf, line_with};

use crate::records::{gather, ordered};
use crate::words::word;
use hwp_cpu_row::{
    Frame, FrameLine, FrameWord, Layout, List, MarkLine, Mask, OutOfMemory, SharedWord, Whereabouts,
};
use std::alloc::Global;

/// The lines of all frames, each with what processors noted of it.
pub(crate) fn frame_lines(
    alloc: Global,
    layout: &Layout,
    words: &[u64],
    notes: &[List<(Frame, MarkLine)>],
) -> Result<List<FrameLine>, OutOfMemory>
    requires whole { AreWordsOf layout.now words.now }
    ensures { IfOk result (λ lines. AreLinesBy (words_of layout.now words.now) notes.now layout.now.frames lines) }
{
    let records = gather(alloc, usize::from(layout.frames), notes)?;
    let mut lines = Vec::new(alloc);
    for frame in 0..layout.frames {
        let marks = ordered(alloc, &records[usize::from(frame)])?;
        lines.push(frame_line(layout, words, Frame(frame), marks))?;
    }
    Ok(List::from_vec(lines))
}

/// The line of a frame, with its record.
fn frame_line(layout: &Layout, words: &[u64], frame: Frame, marks: List<MarkLine>) -> FrameLine
    requires whole { AreWordsOf layout.now words.now }
    requires inside { frame.0 < layout.now.frames }
    ensures { result ≡ line_with (words_of layout.now words.now) frame.0 marks }
{
    FrameLine {
        place: place_in(word(layout, words, SharedWord::Frame(frame))),
        bad: Mask(word(layout, words, SharedWord::Bad(frame))),
        weak: Mask(word(layout, words, SharedWord::Weak(frame))),
        marks,
    }
}

/// Where a frame is, by its word.
fn place_in(word: u64) -> Whereabouts
    ensures { result ≡ place_in word }
{
    let frame = FrameWord::unpack(word);
    if frame.kernel {
        Whereabouts::Kernel
    } else if frame.handled {
        Whereabouts::Handled
    } else {
        match frame.owner {
            None => Whereabouts::Free,
            Some(page) => Whereabouts::Of(page),
        }
    }
}

/// The number of poisoned frames.
pub(crate) fn poisoned_frames(layout: &Layout, words: &[u64]) -> u64
    requires whole { AreWordsOf layout.now words.now }
    ensures { result ≡ sum_by poison_of (words_of layout.now words.now).frames }
{
    let mut count = 0;
    for frame in 0..layout.frames {
        count += u64::from(
            FrameWord::unpack(word(layout, words, SharedWord::Frame(Frame(frame)))).poisoned,
        );
    }
    count
}
