ghost use Rattle.std.specs.Prelude.{◌∷◌, codes, map};
ghost use Rattle.hwp_report_text.specs.Offlines.{offline_answer};
ghost use Rattle.hwp_report_words.specs.Reads.{Any, IsReadAs};
ghost use Rattle.hwp_report_words.specs.LineWords.{IsLineOf};

use crate::answers::read_answer;
use crate::numbers::read_u16;
use hwp_report_text::{Answer, CpuLine, Frame, OfflineResult, OfflinedLine};

/// What came of taking a frame out of use, if this answer of `soft` says it.
fn offline_result(answer: Answer) -> Option<OfflineResult>
    ensures { IsReadAs Any offline_answer answer result }
{
    match answer {
        Answer::Moved(frame, at) => Some(OfflineResult::Moved(frame, at)),
        Answer::TakenFree => Some(OfflineResult::TakenFree),
        Answer::Already => Some(OfflineResult::Already),
        Answer::HasBad(mask) => Some(OfflineResult::HasBad(mask)),
        Answer::NoFrame => Some(OfflineResult::NoFrame),
        Answer::Stopped => Some(OfflineResult::Stopped),
        _ => None,
    }
}

/// A frame that this command takes out of use, by the words behind `offlined`.
pub(crate) fn read_offlined(seq: u32, words: &[&[u8]]) -> Option<CpuLine>
    ensures { IsLineOf seq (codes "offlined" ∷ map (λ w. w.now) words.now) result }
{
    let [frame, rest @ ..] = words else {
        return None;
    };
    let Some(frame) = read_u16(frame) else {
        return None;
    };
    let Some(answer) = read_answer(rest) else {
        return None;
    };
    let Some(result) = offline_result(answer) else {
        return None;
    };
    Some(CpuLine::Offlined(OfflinedLine {
        seq,
        frame: Frame(frame),
        result,
    }))
}
