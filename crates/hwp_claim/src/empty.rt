ghost use Rattle.std.specs.Prelude.{◌≡◌};
ghost use Rattle.hwp_banks.specs.Banks.{empty_banks};

use hwp_banks::{BANKS, Bank};

/// Banks that hold nothing.
pub fn no_events() -> [Bank; BANKS]
    ensures { result ≡ empty_banks }
{
    [Bank::new(), Bank::new(), Bank::new()]
}
