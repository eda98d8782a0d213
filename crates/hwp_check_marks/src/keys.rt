ghost use Rattle.std.specs.Prelude.{◌≡◌};
ghost use Rattle.hwp_check_rules.specs.hwp_law.Pairings.{has_page, situation_number};
ghost use Rattle.hwp_check_marks.specs.Tallies.{key_of, kind_number};

use crate::kinds::Kind;
use hwp_check_frames::Key;
use hwp_check_rules::{Situation, Who};

/// The number of a situation.
fn situation_number(situation: Situation) -> u8
    ensures { result ≡ situation_number situation }
{
    match situation {
        Situation::Free => 0,
        Situation::Kernel => 1,
        Situation::FileClean => 2,
        Situation::FileDirty => 3,
        Situation::AnonOnly => 4,
        Situation::SwapClean => 5,
        Situation::SwapDirty => 6,
        Situation::LockedClean => 7,
        Situation::LockedFile => 8,
        Situation::LockedAnon => 9,
    }
}

/// Whether a page is in the frame.
pub(crate) fn has_page(situation: Situation) -> bool
    ensures { result ≡ has_page situation }
{
    !matches!(situation, Situation::Free | Situation::Kernel)
}

/// The number of a kind.
fn kind_number(kind: Kind) -> u8
    ensures { result ≡ kind_number kind }
{
    match kind {
        Kind::Failure(situation) => situation_number(situation),
        Kind::Moved => 10,
        Kind::Commanded => 11,
    }
}

/// What counts a command's marks of the kind.
pub(crate) fn key_of(who: Who, kind: Kind) -> Key
    ensures { result ≡ key_of who kind }
{
    ((who.cpu.0, who.seq), u64::from(kind_number(kind)))
}
