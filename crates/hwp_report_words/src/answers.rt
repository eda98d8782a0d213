ghost use Rattle.std.specs.Prelude.{◌≡◌, ◌≢◌, [], ◌∷◌, codes, get_or, map};
ghost use Rattle.hwp_report_text.specs.ReportText.{answer_words, cpu_line_words, placed};
ghost use Rattle.hwp_report_words.specs.Reads.{IsReadAs};
ghost use Rattle.hwp_report_words.specs.Words.{AtFits};
ghost use Rattle.hwp_report_words.specs.Answers.{placed_text, short_text};
ghost use Rattle.hwp_report_words.specs.Fits.{AnswerFits, CpuLineFits};
ghost use Rattle.hwp_report_words.specs.LineWords.{EndFits, end_words, IsLineOf};

use crate::guests::read_guest;
use crate::numbers::{is_text, read_at, read_hex, read_number, read_u8, read_u16, read_u32};
use crate::offlines::read_offlined;
use crate::replies::{
    Counted, Placed, Short, Valued, read_counted, read_placed, read_short, read_valued,
};
use crate::stops::read_row;
use crate::terms::read_acted;
use hwp_report_text::{Acted, Answer, At, CpuLine, EventLine, Frame, Mask, Page};

/// The answer that this word is.
fn short_answer(kind: Short) -> Answer
    ensures words { answer_words result ≡ short_text kind ∷ [] }
    ensures fits { AnswerFits result }
{
    match kind {
        Short::NoFrame => Answer::NoFrame,
        Short::Stopped => Answer::Stopped,
        Short::Done => Answer::Done,
        Short::Einval => Answer::Einval,
        Short::Recovered => Answer::Recovered,
        Short::Delayed => Answer::Delayed,
        Short::Ignored => Answer::Ignored,
        Short::Already => Answer::Already,
        Short::TakenFree => Answer::TakenFree,
        Short::Kernel => Answer::Kernel,
        Short::NotPoisoned => Answer::NotPoisoned,
        Short::HardwareSeen => Answer::HardwareSeen,
        Short::GuestStopped => Answer::GuestStopped,
        Short::GuestBad => Answer::GuestBad,
    }
}

/// An answer of one word.
fn read_short_answer(word: &[u8]) -> Option<Answer>
    ensures { IsReadAs AnswerFits answer_words (word.now ∷ []) result }
{
    let Some(kind) = read_short(word) else {
        return None;
    };
    Some(short_answer(kind))
}

/// An answer with a number.
fn read_counted_answer(word: &[u8], value: &[u8]) -> Option<Answer>
    ensures { IsReadAs AnswerFits answer_words (word.now ∷ value.now ∷ []) result }
{
    let Some(kind) = read_counted(word) else {
        return None;
    };
    match kind {
        Counted::Gone => Some(Answer::Gone(Page(read_u16(value)?))),
        Counted::Eio => Some(Answer::Eio(read_number(value)?)),
        Counted::Opened => Some(Answer::Opened(read_number(value)?)),
        Counted::Is => Some(Answer::Is(read_number(value)?)),
        Counted::HasBad => Some(Answer::HasBad(Mask(read_hex(value)?))),
        Counted::InUse => Some(Answer::InUse(read_number(value)?)),
        Counted::Scrubbed => Some(Answer::Scrubbed(read_number(value)?)),
        Counted::Raised => Some(Answer::Raised(read_number(value)?)),
    }
}

/// The answer of this word and this place.
fn placed_answer(kind: Placed, at: At) -> Answer
    ensures words { answer_words result ≡ placed (placed_text kind) at }
    ensures fits { AtFits at → AnswerFits result }
{
    match kind {
        Placed::Stored => Answer::Stored(at),
        Placed::Sigbus => Answer::Sigbus(at),
        Placed::Done => Answer::DoneAt(at),
        Placed::NotResident => Answer::NotResident(at),
        Placed::NotMapped => Answer::NotMapped(at),
        Placed::Dirty => Answer::Dirty(at),
        Placed::Mapped => Answer::Mapped(at),
        Placed::Locked => Answer::Locked(at),
    }
}

/// An answer with a place.
fn read_placed_answer(word: &[u8], page: &[u8], entry: &[u8]) -> Option<Answer>
    ensures { IsReadAs AnswerFits answer_words (word.now ∷ page.now ∷ entry.now ∷ []) result }
{
    let Some(kind) = read_placed(word) else {
        return None;
    };
    let Some(at) = read_at(page, entry) else {
        return None;
    };
    Some(placed_answer(kind, at))
}

/// An answer with a value and a place.
fn read_valued_answer(word: &[u8], value: &[u8], page: &[u8], entry: &[u8]) -> Option<Answer>
    ensures { IsReadAs AnswerFits answer_words (word.now ∷ value.now ∷ page.now ∷ entry.now ∷ []) result }
{
    let Some(kind) = read_valued(word) else {
        return None;
    };
    let Some(at) = read_at(page, entry) else {
        return None;
    };
    match kind {
        Valued::Value => Some(Answer::Value {
            word: read_number(value)?,
            at,
        }),
        Valued::BadLines => Some(Answer::BadLines(Mask(read_hex(value)?), at)),
        Valued::Moved => Some(Answer::Moved(Frame(read_u16(value)?), at)),
    }
}

/// An answer.
pub(crate) fn read_answer(words: &[&[u8]]) -> Option<Answer>
    ensures { IsReadAs AnswerFits answer_words (map (λ w. w.now) words.now) result }
{
    match words {
        [word] => read_short_answer(word),
        [word, value] => read_counted_answer(word, value),
        [word, page, entry] => read_placed_answer(word, page, entry),
        [word, value, page, entry] => read_valued_answer(word, value, page, entry),
        _ => None,
    }
}

/// The misc word, the row of the severity table and what was done, of an event.
fn read_event_end(words: &[&[u8]]) -> Option<(u64, u8, Acted)>
    ensures { IsReadAs EndFits end_words (map (λ w. w.now) words.now) result }
{
    let [misc, row, acted] = words else {
        return None;
    };
    let Some(misc) = read_hex(misc) else {
        return None;
    };
    let Some(row) = read_row(row) else {
        return None;
    };
    let Some(acted) = read_acted(acted) else {
        return None;
    };
    Some((misc, row, acted))
}

/// The event of a bank in a machine check of this command, by the words behind `event`.
fn read_event(seq: u32, words: &[&[u8]]) -> Option<CpuLine>
    ensures { IsLineOf seq (codes "event" ∷ map (λ w. w.now) words.now) result }
{
    let [bank, status, addr, rest @ ..] = words else {
        return None;
    };
    let Some(bank) = read_u8(bank) else {
        return None;
    };
    let Some(status) = read_hex(status) else {
        return None;
    };
    let Some(addr) = read_hex(addr) else {
        return None;
    };
    let Some((misc, row, acted)) = read_event_end(rest) else {
        return None;
    };
    Some(CpuLine::Event(EventLine {
        seq,
        bank,
        status,
        addr,
        misc,
        row,
        acted,
    }))
}

/// The answer of this command, by the words behind its number.
fn read_answer_line(seq: u32, words: &[&[u8]]) -> Option<CpuLine>
    requires no_event { get_or (map (λ w. w.now) words.now) 0 [] ≢ codes "event" }
    requires no_offlined { get_or (map (λ w. w.now) words.now) 0 [] ≢ codes "offlined" }
    requires no_guest { get_or (map (λ w. w.now) words.now) 0 [] ≢ codes "guest" }
    ensures { IsLineOf seq (map (λ w. w.now) words.now) result }
{
    let Some(answer) = read_answer(words) else {
        return None;
    };
    Some(CpuLine::Answer { seq, answer })
}

/// The line of this command, by the words behind its number.
fn read_line_of(seq: u32, words: &[&[u8]]) -> Option<CpuLine>
    ensures { IsLineOf seq (map (λ w. w.now) words.now) result }
{
    let [first, rest @ ..] = words else {
        return None;
    };
    if is_text(first, "event") {
        return read_event(seq, rest);
    }
    if is_text(first, "offlined") {
        return read_offlined(seq, rest);
    }
    if is_text(first, "guest") {
        return read_guest(seq, rest);
    }
    read_answer_line(seq, words)
}

/// A line of a processor.
pub fn read_cpu_line(words: &[&[u8]]) -> Option<CpuLine>
    ensures { IsReadAs CpuLineFits cpu_line_words (map (λ w. w.now) words.now) result }
{
    let [seq, rest @ ..] = words else {
        return None;
    };
    let Some(seq) = read_u32(seq) else {
        return None;
    };
    read_line_of(seq, rest)
}
