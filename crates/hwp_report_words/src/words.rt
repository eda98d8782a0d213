ghost use Rattle.std.specs.Prelude.{◌≡◌, ℕ, List};
ghost use Rattle.hwp_report_words.specs.Reads.{IsAmong};

use crate::numbers::is_text;

/// A value that one word names.
pub trait HasWord: Copy {
    ghost text: { Self → List ℕ };

    /// The word.
    fn word(self) -> &'static str
        ensures { result.now ≡ text self };
}

/// That of these values which a word names.
pub fn named<T: HasWord>(word: &[u8], all: &[T]) -> Option<T>
    ensures { IsAmong T.text all.now word.now result }
{
    for one in all {
        if is_text(word, one.word()) {
            return Some(*one);
        }
    }
    None
}
