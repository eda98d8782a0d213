ghost use Rattle.std.specs.Prelude.{◌≡◌, ◌/◌, ◌^◌, ◌<◌, ◌↔◌, IsNone, MatchOption};
ghost use Rattle.hwp_geom.specs.Bits.{HasNoBitFrom, IsLowestBit};

/// The lowest bit of the word that is set, from bit `from` on.
pub fn lowest_bit(word: u64, from: u32) -> Option<u32>
    requires { from < 64 }
    ensures none { IsNone result ↔ (word / 2 ^ from ≡ 0) }
    ensures lowest { MatchOption result (HasNoBitFrom word from) (IsLowestBit word from) }
{
    let rest = word >> from;
    if rest == 0 {
        None
    } else {
        Some(from + rest.trailing_zeros())
    }
}
