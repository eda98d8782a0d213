//! The words of a command that asks for a run on threads.
ghost use Rattle.std.specs.Prelude.{◌↔◌, [], ◌∷◌, true, map, string_bytes, IfSome, IfNone, IsTrue};
ghost use Rattle.hwp_top_words.specs.Calls.{IsNoRun, IsRun};

use hwp_script::is_text;

/// Whether one word asks for a run on threads. It has no translation caches.
fn run_alone(word: &[u8]) -> Option<bool>
    ensures some { IfSome result (IsRun (word.now ∷ [])) }
    ensures none { IfNone result (IsNoRun (word.now ∷ [])) }
{
    if is_text(word, "run") {
        return Some(false);
    }
    None
}

/// Whether the words are `run tlb`.
fn is_run_tlb(word: &[u8], second: &[u8]) -> bool
    ensures { IsTrue result ↔ IsRun (word.now ∷ second.now ∷ []) true }
{
    is_text(word, "run") && is_text(second, "tlb")
}

/// Whether two words ask for a run on threads. It has translation caches.
fn run_with(word: &[u8], second: &[u8]) -> Option<bool>
    ensures some { IfSome result (IsRun (word.now ∷ second.now ∷ [])) }
    ensures none { IfNone result (IsNoRun (word.now ∷ second.now ∷ [])) }
{
    if is_run_tlb(word, second) {
        return Some(true);
    }
    None
}

/// Whether the words ask for a run on threads, and then whether it has translation caches.
pub fn run_of(words: &[String]) -> Option<bool>
    ensures some { IfSome result (IsRun (map string_bytes words.now)) }
    ensures none { IfNone result (IsNoRun (map string_bytes words.now)) }
{
    match words {
        [word] => run_alone(word.as_bytes()),
        [word, second] => run_with(word.as_bytes(), second.as_bytes()),
        _ => None,
    }
}
