ghost use Rattle.std.specs.Prelude.{◌^◌, ◌∷◌, codes, map, IfSome};
ghost use Rattle.hwp_report_text.specs.ReportText.{cause_words, row_word, stop_words};
ghost use Rattle.hwp_report_words.specs.Reads.{Any, Below, IsReadAs};
ghost use Rattle.hwp_report_words.specs.Fits.{CauseFits, StopFits};
ghost use Rattle.hwp_report_words.specs.LineWords.{bits_words};

use crate::numbers::{is_text, read_hex, read_u8, read_u16, read_who};
use crate::terms::{read_flag, read_mode};
use hwp_report_text::{Frame, McgBits, Mode, Stop, StopCause};

/// The row of the severity table that a word names.
pub(crate) fn read_row(word: &[u8]) -> Option<u8>
    ensures { IsReadAs (Below (2 ^ 8)) row_word word.now result }
{
    match word {
        [b'S', digits @ ..] => read_u8(digits),
        _ => None,
    }
}

/// The bits of the machine check and the mode, of a bank's event.
fn read_bits(words: &[&[u8]]) -> Option<(McgBits, Mode)>
    ensures { IsReadAs Any bits_words (map (λ w. w.now) words.now) result }
{
    let [ripv, eipv, mode] = words else {
        return None;
    };
    let Some(ripv) = read_flag(ripv) else {
        return None;
    };
    let Some(eipv) = read_flag(eipv) else {
        return None;
    };
    let Some(mode) = read_mode(mode) else {
        return None;
    };
    Some((McgBits { ripv, eipv }, mode))
}

/// What stopped the machine, where it was a bank's event, by the words behind `severity`.
fn read_graded(words: &[&[u8]]) -> Option<StopCause>
    ensures { IsReadAs CauseFits cause_words (codes "severity" ∷ map (λ w. w.now) words.now) result }
{
    let [row, bank, status, bits @ ..] = words else {
        return None;
    };
    let Some(row) = read_row(row) else {
        return None;
    };
    let Some(bank) = read_u8(bank) else {
        return None;
    };
    let Some(status) = read_hex(status) else {
        return None;
    };
    let Some((mcg, mode)) = read_bits(bits) else {
        return None;
    };
    Some(StopCause::Severity {
        row,
        bank,
        status,
        mcg,
        mode,
    })
}

/// The panic of a frame, by the words behind `panic`.
fn read_panic(words: &[&[u8]]) -> Option<StopCause>
    ensures { IsReadAs CauseFits cause_words (codes "panic" ∷ map (λ w. w.now) words.now) result }
{
    let [frame] = words else {
        return None;
    };
    let Some(frame) = read_u16(frame) else {
        return None;
    };
    Some(StopCause::Panic(Frame(frame)))
}

/// What stopped the machine.
fn read_stop_cause(words: &[&[u8]]) -> Option<StopCause>
    ensures { IsReadAs CauseFits cause_words (map (λ w. w.now) words.now) result }
{
    let [first, rest @ ..] = words else {
        return None;
    };
    if is_text(first, "severity") {
        return read_graded(rest);
    }
    if is_text(first, "panic") {
        return read_panic(rest);
    }
    if is_text(first, "shutdown") && rest.is_empty() {
        return Some(StopCause::Shutdown);
    }
    None
}

/// What stopped the machine, and the command that met it, by the words behind `stop`.
pub fn read_stop(words: &[&[u8]]) -> Option<Option<Stop>>
    ensures { IsReadAs (λ stop. IfSome stop StopFits) stop_words (codes "stop" ∷ map (λ w. w.now) words.now) result }
{
    match words {
        [word] => {
            if is_text(word, "none") {
                Some(None)
            } else {
                None
            }
        }
        [cpu, seq, cause @ ..] => {
            let Some(who) = read_who(cpu, seq) else {
                return None;
            };
            let Some(cause) = read_stop_cause(cause) else {
                return None;
            };
            Some(Some(Stop { who, cause }))
        }
        [] => None,
    }
}
