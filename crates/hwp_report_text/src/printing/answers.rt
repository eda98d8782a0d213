ghost use Rattle.std.specs.Prelude.{◌≡◌, ◌∷◌, ◌++◌, OnOk, string_bytes, decimal, map};
ghost use Rattle.std.specs.List.{flat_map};
ghost use Rattle.hwp_page.specs.hwp_geom.Words.{line};
ghost use Rattle.hwp_report_text.specs.ReportText.{answer_words, cpu_line_words, event_words, guest_words, offlined_words};
ghost use Rattle.hwp_script_words.specs.Printed.{line_end};
ghost use Rattle.hwp_report_text.specs.Sayings.{said_words};

use crate::lines::{Answer, CpuLine, EventLine, GuestLine, OfflinedLine};
use crate::terms::{acted_word, guest_word};
use hwp_page::{At, Mask, OutOfMemory};
use hwp_script_words::{Word, put_line, put_rest, put_word, put_words};

/// The lines below a processor.
pub(crate) fn put_cpu_lines(out: &mut String, lines: &[CpuLine]) -> Result<(), OutOfMemory>
    ensures { OnOk result (string_bytes out.new ≡ string_bytes out.old ++ flat_map line (map cpu_line_words lines.now)) }
{
    for item in lines {
        put_cpu_line(out, *item)?;
    }
    Ok(())
}

fn put_cpu_line(out: &mut String, item: CpuLine) -> Result<(), OutOfMemory>
    ensures { OnOk result (string_bytes out.new ≡ string_bytes out.old ++ line (cpu_line_words item)) }
{
    match item {
        CpuLine::Event(event) => put_event(out, event),
        CpuLine::Offlined(offlined) => put_offlined(out, offlined),
        CpuLine::Guest(guest) => put_guest(out, guest),
        CpuLine::Answer { seq, answer } => put_answer(out, seq, answer),
    }
}

fn put_event(out: &mut String, event: EventLine) -> Result<(), OutOfMemory>
    ensures { OnOk result (string_bytes out.new ≡ string_bytes out.old ++ line (event_words event)) }
{
    let acted = acted_word(event.acted);
    put_line(
        out,
        Word::Number(event.seq as u64),
        &[
            Word::Text("event"),
            Word::Number(event.bank as u64),
            Word::Hex(event.status),
            Word::Hex(event.addr),
            Word::Hex(event.misc),
            Word::Row(event.row),
            Word::Text(acted),
        ],
    )
}

fn put_guest(out: &mut String, guest: GuestLine) -> Result<(), OutOfMemory>
    ensures { OnOk result (string_bytes out.new ≡ string_bytes out.old ++ line (guest_words guest)) }
{
    let outcome = guest_word(guest.stops);
    put_line(
        out,
        Word::Number(guest.seq as u64),
        &[
            Word::Text("guest"),
            Word::Number(guest.bank as u64),
            Word::Hex(guest.status),
            Word::Hex(guest.addr),
            Word::Hex(guest.misc),
            Word::Row(guest.row),
            Word::Text(outcome),
        ],
    )
}

fn put_offlined(out: &mut String, offlined: OfflinedLine) -> Result<(), OutOfMemory>
    ensures { OnOk result (string_bytes out.new ≡ string_bytes out.old ++ line (offlined_words offlined)) }
{
    put_word(out, Word::Number(offlined.seq as u64))?;
    put_words(
        out,
        &[
            Word::Text("offlined"),
            Word::Number(offlined.frame.0 as u64),
        ],
    )?;
    put_said(out, said_of(offlined.result.answer()))
}

/// The word of an answer, with what stands behind it.
#[derive(Clone, Copy)]
pub(crate) enum Said {
    Word(&'static str),
    Number(&'static str, u64),
    Hex(&'static str, Mask),
    Place(&'static str, At),
    NumberPlace(&'static str, u64, At),
    HexPlace(&'static str, Mask, At),
}

fn said_of(answer: Answer) -> Said
    ensures { said_words result ≡ answer_words answer }
{
    match answer {
        Answer::Value { word, at } => Said::NumberPlace("value", word, at),
        Answer::Stored(at) => Said::Place("stored", at),
        Answer::Sigbus(at) => Said::Place("sigbus", at),
        Answer::Gone(page) => Said::Number("gone", page.0 as u64),
        Answer::NoFrame => Said::Word("noframe"),
        Answer::Stopped => Said::Word("stopped"),
        Answer::Done => Said::Word("done"),
        Answer::DoneAt(at) => Said::Place("done", at),
        Answer::NotResident(at) => Said::Place("notresident", at),
        Answer::NotMapped(at) => Said::Place("notmapped", at),
        Answer::Dirty(at) => Said::Place("dirty", at),
        Answer::Mapped(at) => Said::Place("mapped", at),
        Answer::Locked(at) => Said::Place("locked", at),
        Answer::BadLines(mask, at) => Said::HexPlace("badlines", mask, at),
        Answer::Eio(lost) => Said::Number("eio", lost),
        Answer::Opened(lost) => Said::Number("opened", lost),
        Answer::Is(policy) => Said::Number("is", policy),
        Answer::Einval => Said::Word("einval"),
        Answer::Recovered => Said::Word("recovered"),
        Answer::Delayed => Said::Word("delayed"),
        Answer::Ignored => Said::Word("ignored"),
        Answer::Already => Said::Word("already"),
        Answer::Moved(frame, at) => Said::NumberPlace("moved", frame.0 as u64, at),
        Answer::TakenFree => Said::Word("takenfree"),
        Answer::Kernel => Said::Word("kernel"),
        Answer::HasBad(mask) => Said::Hex("hasbad", mask),
        Answer::NotPoisoned => Said::Word("notpoisoned"),
        Answer::HardwareSeen => Said::Word("hardwareseen"),
        Answer::InUse(count) => Said::Number("inuse", count),
        Answer::Scrubbed(events) => Said::Number("scrubbed", events),
        Answer::Raised(events) => Said::Number("raised", events),
        Answer::GuestStopped => Said::Word("gueststopped"),
        Answer::GuestBad => Said::Word("guestbad"),
    }
}

fn put_answer(out: &mut String, seq: u32, answer: Answer) -> Result<(), OutOfMemory>
    ensures { OnOk result (string_bytes out.new ≡ string_bytes out.old ++ line (decimal seq ∷ answer_words answer)) }
{
    put_word(out, Word::Number(seq as u64))?;
    put_said(out, said_of(answer))
}

fn put_said(out: &mut String, said: Said) -> Result<(), OutOfMemory>
    ensures { OnOk result (string_bytes out.new ≡ string_bytes out.old ++ line_end (said_words said)) }
{
    match said {
        Said::Word(word) => put_rest(out, &[Word::Text(word)]),
        Said::Number(word, number) => put_rest(out, &[Word::Text(word), Word::Number(number)]),
        Said::Hex(word, mask) => put_rest(out, &[Word::Text(word), Word::Hex(mask.0)]),
        Said::Place(word, at) => put_rest(
            out,
            &[
                Word::Text(word),
                Word::Number(at.page.0 as u64),
                Word::Number(at.entry),
            ],
        ),
        Said::NumberPlace(word, number, at) => put_rest(
            out,
            &[
                Word::Text(word),
                Word::Number(number),
                Word::Number(at.page.0 as u64),
                Word::Number(at.entry),
            ],
        ),
        Said::HexPlace(word, mask, at) => put_rest(
            out,
            &[
                Word::Text(word),
                Word::Hex(mask.0),
                Word::Number(at.page.0 as u64),
                Word::Number(at.entry),
            ],
        ),
    }
}
