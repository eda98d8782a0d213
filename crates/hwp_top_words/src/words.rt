//! The words of a command.
ghost use Rattle.std.specs.Prelude.{◌↔◌, [], ◌∷◌, true, map, string_bytes, IfSome, IfNone, IsTrue};
ghost use Rattle.hwp_top_words.specs.Calls.{IsCall, IsNoCall, IsStep};

use crate::served::Call;
use hwp_script::{is_text, read_number};

/// The call that one word is.
fn call_alone(word: &[u8]) -> Option<Call>
    ensures some { IfSome result (IsCall (word.now ∷ [])) }
    ensures none { IfNone result (IsNoCall (word.now ∷ [])) }
{
    if is_text(word, "step") {
        return Some(Call::Step);
    }
    if is_text(word, "check") {
        return Some(Call::Check);
    }
    None
}

/// Whether the words are `step tlb`.
fn is_step_tlb(word: &[u8], second: &[u8]) -> bool
    ensures { IsTrue result ↔ IsStep (word.now ∷ second.now ∷ []) true }
{
    is_text(word, "step") && is_text(second, "tlb")
}

/// The call that two words are.
fn call_with(word: &[u8], second: &[u8]) -> Option<Call>
    ensures some { IfSome result (IsCall (word.now ∷ second.now ∷ [])) }
    ensures none { IfNone result (IsNoCall (word.now ∷ second.now ∷ [])) }
{
    if is_step_tlb(word, second) {
        return Some(Call::StepTlb);
    }
    let Some(seed) = read_number(second) else {
        return None;
    };
    if is_text(word, "gen") {
        return Some(Call::Gen(seed));
    }
    if is_text(word, "sum") {
        return Some(Call::Sum(seed));
    }
    None
}

/// The call that the words are, if they are one.
pub fn call_of(words: &[String]) -> Option<Call>
    ensures some { IfSome result (IsCall (map string_bytes words.now)) }
    ensures none { IfNone result (IsNoCall (map string_bytes words.now)) }
{
    match words {
        [word] => call_alone(word.as_bytes()),
        [word, second] => call_with(word.as_bytes(), second.as_bytes()),
        _ => None,
    }
}
