ghost use Rattle.std.specs.Prelude.{◌≡◌};
ghost use Rattle.hwp_plain.specs.hwp_core_rule.Words.{IsPlace, read, words_of};
ghost use Rattle.hwp_top_report.specs.Closing.{AreWordsOf};

use hwp_cpu_row::{Layout, SharedWord, index};

/// The word of a place, among the words in the frame rule's order.
pub(crate) fn word(layout: &Layout, words: &[u64], place: SharedWord) -> u64
    requires whole { AreWordsOf layout.now words.now }
    requires inside { IsPlace layout.now place }
    ensures { result ≡ read place (words_of layout.now words.now) }
{
    words[index(layout, place)]
}
