ghost use Rattle.std.specs.Prelude.{◌∷◌, codes, map};
ghost use Rattle.hwp_report_words.specs.Reads.{IsReadAs};
ghost use Rattle.hwp_report_words.specs.LineWords.{GuestEndFits, guest_end_words, IsLineOf};

use crate::numbers::{read_hex, read_u8};
use crate::stops::read_row;
use crate::terms::read_guest_outcome;
use hwp_report_text::{CpuLine, GuestLine};

/// The misc word, the row of the severity table and what was done, of a guest's machine check.
fn read_guest_end(words: &[&[u8]]) -> Option<(u64, u8, bool)>
    ensures { IsReadAs GuestEndFits guest_end_words (map (λ w. w.now) words.now) result }
{
    let [misc, row, outcome] = words else {
        return None;
    };
    let Some(misc) = read_hex(misc) else {
        return None;
    };
    let Some(row) = read_row(row) else {
        return None;
    };
    let Some(stops) = read_guest_outcome(outcome) else {
        return None;
    };
    Some((misc, row, stops))
}

/// The machine check of a guest in this command, by the words behind `guest`.
pub(crate) fn read_guest(seq: u32, words: &[&[u8]]) -> Option<CpuLine>
    ensures { IsLineOf seq (codes "guest" ∷ map (λ w. w.now) words.now) result }
{
    let [bank, status, addr, rest @ ..] = words else {
        return None;
    };
    let Some(bank) = read_u8(bank) else {
        return None;
    };
    let Some(status) = read_hex(status) else {
        return None;
    };
    let Some(addr) = read_hex(addr) else {
        return None;
    };
    let Some((misc, row, stops)) = read_guest_end(rest) else {
        return None;
    };
    Some(CpuLine::Guest(GuestLine {
        seq,
        bank,
        status,
        addr,
        misc,
        row,
        stops,
    }))
}
