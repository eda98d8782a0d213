ghost use Rattle.std.specs.Prelude.{◌≡◌, ◌<◌};
ghost use Rattle.hwp_core_rule.specs.hwp_geom.Layout.{IsSound};
ghost use Rattle.hwp_core_rule.specs.Words.{IsPlace, index, size};
ghost use Rattle.hwp_table_words.specs.Order.{in_table};

use hwp_core_rule::{Layout, SharedWord, index};

/// Where the table has the word of a place: the stop word first, and then the others in their order.
#[tactic(auto, using(crate::proofs::WordOrder::before_stop))]
#[inline(always)]
pub fn word_of(layout: &Layout, place: SharedWord) -> usize
    requires sound { IsSound layout.now }
    requires inside { IsPlace layout.now place }
    ensures value { result ≡ in_table (size layout.now) (index layout.now place) }
    ensures within { result < size layout.now }
{
    match place {
        SharedWord::Stop => 0,
        SharedWord::Frame(_)
        | SharedWord::Trans(_)
        | SharedWord::Cache(_)
        | SharedWord::Page(_)
        | SharedWord::Free(_)
        | SharedWord::Available
        | SharedWord::Bad(_)
        | SharedWord::Weak(_)
        | SharedWord::Counter
        | SharedWord::Process(_)
        | SharedWord::Policy(_)
        | SharedWord::Loss(_) => index(layout, place) + 1,
    }
}
