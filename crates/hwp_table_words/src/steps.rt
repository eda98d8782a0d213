ghost use Rattle.std.specs.Prelude.{◌≡◌};
ghost use Rattle.hwp_table_words.specs.Plays.{IsMade};
ghost use Rattle.hwp_table_words.specs.Seats.{CanPlay};

use crate::operation::{Operation, operation_of};
use crate::plays::{Makes, Named, Pass, Sheet};
use crate::ways::Ways;
use hwp_core_rule::{Step, Who};

/// A step of any kind, as one atomic operation on the table: it answers the word that it met.
#[inline(always)]
pub(crate) fn step_as<W: Ways, N: Named>(
    sheet: &Sheet<W>,
    seat: &mut Pass,
    word: usize,
    who: Who,
    step: &Step,
) -> u64
    requires named { (N.call.who ≡ who) × (N.call.step ≡ step.now) }
    requires can { CanPlay W.ways sheet.now.table_id sheet.now.key N.call seat.old.table_id seat.old.me word }
    ensures same { seat.new.table_id ≡ seat.old.table_id }
    ensures made { IsMade N.call seat.old.me result seat.new.me }
{
    match operation_of(step) {
        Operation::Load => sheet.load::<Makes<N>>(seat, word),
        Operation::Swap(new) => sheet.swap::<Makes<N>>(seat, word, new),
        Operation::Add(k) => sheet.fetch_add::<Makes<N>>(seat, word, k),
        Operation::Subtract(k) => sheet.fetch_sub::<Makes<N>>(seat, word, k),
        Operation::And(k) => sheet.fetch_and::<Makes<N>>(seat, word, k),
        Operation::Or(k) => sheet.fetch_or::<Makes<N>>(seat, word, k),
        Operation::Xor(k) => sheet.fetch_xor::<Makes<N>>(seat, word, k),
        Operation::Exchange(seen, new) => {
            sheet.compare_exchange::<Makes<N>>(seat, word, seen, new)
        }
    }
}
