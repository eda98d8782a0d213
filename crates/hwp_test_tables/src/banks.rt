//! The two codes of a status, and a machine check inside a machine check.

use crate::checking::check;
use hwp_banks::{Mcg, Status};

#[test]
fn a_status_has_two_codes(rt: HostRuntime) {
    let status = Status(0xbd80ffff12340150);
    check(
        &rt,
        (status.error_code() == 0x0150) & (status.model_code() == 0x1234),
    );
}

#[test]
fn a_nested_machine_check_shuts_down(rt: HostRuntime) {
    let mut mcg = Mcg::new();
    let first = mcg.enter().is_ok();
    let nested = mcg.enter().is_err() & mcg.enter().is_err();
    mcg.leave();
    check(&rt, first & nested & mcg.enter().is_ok());
}
