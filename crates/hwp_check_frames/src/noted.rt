ghost use Rattle.std.specs.Prelude.{◌≡◌, is_some};
ghost use Rattle.hwp_check_rules.specs.hwp_law.Records.{result_of};

use hwp_check_rules::Acted;

/// What an event line with a result says: its row of the severity table, and the result.
#[derive(Clone, Copy)]
pub struct Noted {
    /// The row.
    pub row: u8,
    /// What was done about the event.
    pub acted: Acted,
}

/// Whether an event line says a result.
pub fn is_result(acted: Acted) -> bool
    ensures { result ≡ is_some (result_of acted) }
{
    matches!(acted, Acted::Recovered | Acted::Delayed | Acted::Ignored)
}
