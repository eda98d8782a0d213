ghost use Rattle.std.specs.Prelude.{◌≢◌, [], ◌∷◌, codes, get_or, map};
ghost use Rattle.hwp_report_text.specs.ReportText.{how_words, place_words};
ghost use Rattle.hwp_report_words.specs.Reads.{Any, IsReadAs};
ghost use Rattle.hwp_report.specs.Standing.{IsPageless, MasksFit, masks_words, StandingFits, standing_words};

use hwp_report_text::{How, Mask, Page, Whereabouts};
use hwp_report_words::{is_text, read_hex, read_origin, read_outcome, read_situation, read_u16};

/// Where a frame is that holds no page.
fn read_state(word: &[u8]) -> Option<Whereabouts>
    ensures { IsReadAs IsPageless (λ place. get_or (place_words place) 0 []) word.now result }
{
    if is_text(word, "free") {
        return Some(Whereabouts::Free);
    }
    if is_text(word, "kernel") {
        return Some(Whereabouts::Kernel);
    }
    if is_text(word, "handled") {
        return Some(Whereabouts::Handled);
    }
    None
}

/// The bad and the weak lines of a frame.
fn read_masks(words: &[&[u8]]) -> Option<(Mask, Mask)>
    ensures { IsReadAs MasksFit masks_words (map (λ w. w.now) words.now) result }
{
    let [first, bad, second, weak] = words else {
        return None;
    };
    if !is_text(first, "bad") || !is_text(second, "weak") {
        return None;
    }
    let Some(bad) = read_hex(bad) else {
        return None;
    };
    let Some(weak) = read_hex(weak) else {
        return None;
    };
    Some((Mask(bad), Mask(weak)))
}

/// Where a frame is that holds a page, and its bad and its weak lines, by the words behind `page`.
fn read_holding(words: &[&[u8]]) -> Option<(Whereabouts, Mask, Mask)>
    ensures { IsReadAs StandingFits standing_words (codes "page" ∷ map (λ w. w.now) words.now) result }
{
    let [page, masks @ ..] = words else {
        return None;
    };
    let Some(page) = read_u16(page) else {
        return None;
    };
    let Some((bad, weak)) = read_masks(masks) else {
        return None;
    };
    Some((Whereabouts::Of(Page(page)), bad, weak))
}

/// Where a frame is that holds no page, and its bad and its weak lines.
fn read_pageless(first: &[u8], masks: &[&[u8]]) -> Option<(Whereabouts, Mask, Mask)>
    requires { first.now ≢ codes "page" }
    ensures { IsReadAs StandingFits standing_words (first.now ∷ map (λ w. w.now) masks.now) result }
{
    let Some(place) = read_state(first) else {
        return None;
    };
    let Some((bad, weak)) = read_masks(masks) else {
        return None;
    };
    Some((place, bad, weak))
}

/// Where a frame is, and its bad and its weak lines.
pub(crate) fn read_standing(words: &[&[u8]]) -> Option<(Whereabouts, Mask, Mask)>
    ensures { IsReadAs StandingFits standing_words (map (λ w. w.now) words.now) result }
{
    let [first, rest @ ..] = words else {
        return None;
    };
    if is_text(first, "page") {
        return read_holding(rest);
    }
    read_pageless(first, rest)
}

/// How soft offline poisoned a frame.
fn read_soft(situation: &[u8], outcome: &[u8]) -> Option<How>
    ensures { IsReadAs Any how_words (codes "soft" ∷ situation.now ∷ outcome.now ∷ []) result }
{
    if !is_text(outcome, "recovered") {
        return None;
    }
    if is_text(situation, "moved") {
        return Some(How::Moved);
    }
    if is_text(situation, "free") {
        return Some(How::TakenFree);
    }
    None
}

/// How a memory failure poisoned a frame.
fn read_failed(origin: &[u8], situation: &[u8], outcome: &[u8]) -> Option<How>
    requires { origin.now ≢ codes "soft" }
    ensures { IsReadAs Any how_words (origin.now ∷ situation.now ∷ outcome.now ∷ []) result }
{
    let Some(hardware) = read_origin(origin) else {
        return None;
    };
    let Some(situation) = read_situation(situation) else {
        return None;
    };
    let Some(outcome) = read_outcome(outcome) else {
        return None;
    };
    Some(How::Failure {
        hardware,
        situation,
        outcome,
    })
}

/// How a frame came to be poisoned.
pub(crate) fn read_how(words: &[&[u8]]) -> Option<How>
    ensures { IsReadAs Any how_words (map (λ w. w.now) words.now) result }
{
    let [origin, situation, outcome] = words else {
        return None;
    };
    if is_text(origin, "soft") {
        read_soft(situation, outcome)
    } else {
        read_failed(origin, situation, outcome)
    }
}
