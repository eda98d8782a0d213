ghost use Rattle.std.specs.Prelude.{map};
ghost use Rattle.hwp_report.specs.Forms.{IsMarkRead, IsRestRead};

use crate::heads::Head;
use crate::report_line::ReportLine;
use crate::standing::{read_how, read_standing};
use hwp_report_text::MarkLine;
use hwp_report_words::{read_number, read_u32, read_who};

/// A frame, by the words behind `frame`.
pub(crate) fn read_frame(words: &[&[u8]]) -> Option<ReportLine>
    ensures { IsRestRead Head.Frame (map (λ w. w.now) words.now) result }
{
    let [number, rest @ ..] = words else {
        return None;
    };
    let Some(number) = read_number(number) else {
        return None;
    };
    let Some((place, bad, weak)) = read_standing(rest) else {
        return None;
    };
    Some(ReportLine::Frame {
        number,
        place,
        bad,
        weak,
    })
}

/// A poisoning of a frame, by the words behind `poisoned`.
pub(crate) fn read_poisoned(words: &[&[u8]]) -> Option<MarkLine>
    ensures { IsMarkRead Head.Poisoned (map (λ w. w.now) words.now) result }
{
    let [cycle, cpu, seq, how @ ..] = words else {
        return None;
    };
    let Some(cycle) = read_u32(cycle) else {
        return None;
    };
    let Some(who) = read_who(cpu, seq) else {
        return None;
    };
    let Some(how) = read_how(how) else {
        return None;
    };
    Some(MarkLine::Poisoned { cycle, who, how })
}

/// An unpoisoning of a frame, by the words behind `unpoisoned`.
pub(crate) fn read_unpoisoned(words: &[&[u8]]) -> Option<MarkLine>
    ensures { IsMarkRead Head.Unpoisoned (map (λ w. w.now) words.now) result }
{
    let [cycle, cpu, seq] = words else {
        return None;
    };
    let Some(cycle) = read_u32(cycle) else {
        return None;
    };
    let Some(who) = read_who(cpu, seq) else {
        return None;
    };
    Some(MarkLine::Unpoisoned { cycle, who })
}
