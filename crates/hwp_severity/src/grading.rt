ghost use Rattle.std.specs.Prelude.{◌≡◌, ◌≤◌, true, false};
ghost use Rattle.hwp_banks.specs.Status.{is_signaled, is_action_required};
ghost use Rattle.hwp_severity.specs.Graded.{graded, IsRecoverable, is_access, is_background, is_placed};

use crate::types::{Grade, McgBits, Severity};
use hwp_banks::{Flags, Status};
use hwp_geom::Mode;

/// A data load (Intel SDM vol. 3, compound error codes).
const DATA_LOAD: u16 = 0x134;
/// An instruction fetch.
const INSTRUCTION_FETCH: u16 = 0x150;
/// The lowest code of memory scrubbing, that of channel 0.
const SCRUBBING_FIRST: u16 = 0xc0;
/// The highest code of memory scrubbing, that of a channel that is not known.
const SCRUBBING_LAST: u16 = 0xcf;
/// An explicit writeback of the last-level cache.
const EXPLICIT_WRITEBACK: u16 = 0x17a;

/// The grade of a status at a machine check with these bits, in this mode, by the severity table (this project's
/// rule). The first row that matches gives the grade.
///
/// | row | condition | severity |
/// |---|---|---|
/// | 1 | VAL=0 | None |
/// | 2 | EN=0 | None |
/// | 3 | PCC=1 | Stop |
/// | 4 | UC=0 | Keep |
/// | 5 | RIPV=0 and EIPV=0 | Stop |
/// | 6 | S=0, AR=0 | Deferred |
/// | 7 | S=0, AR=1 | Stop |
/// | 8 | AR=1, OVER=1 | Stop |
/// | 9 | AR=1, code 0x134 or 0x150, ADDRV=MISCV=1, user mode, RIPV=1 | Required |
/// | 10 | AR=1, code 0x134 or 0x150, ADDRV=MISCV=1, kernel mode, RIPV=1 | Stop |
/// | 11 | any other AR=1 | Stop |
/// | 12 | AR=0, OVER=0, code 0xc0 to 0xcf or 0x17a, ADDRV=MISCV=1 | Optional |
/// | 13 | any other S=1, AR=0 | Logged |
/// | 14 | anything else, of which there is nothing | Logged |
pub fn grade(status: Status, mcg: McgBits, mode: Mode) -> Grade
    ensures table { result ≡ graded status mcg mode }
    ensures no_row_14 { result.row ≤ 13 }
{
    if !status.contains(Status::VAL) {
        given(1, Severity::None)
    } else if !status.contains(Status::EN) {
        given(2, Severity::None)
    } else if status.contains(Status::PCC) {
        given(3, Severity::Stop)
    } else if !status.contains(Status::UC) {
        given(4, Severity::Keep)
    } else if !mcg.ripv && !mcg.eipv {
        given(5, Severity::Stop)
    } else {
        grade_recoverable(status, mcg, mode)
    }
}

/// The grade of an uncorrected error from which software may recover: row S6 or a later one.
fn grade_recoverable(status: Status, mcg: McgBits, mode: Mode) -> Grade
    requires { IsRecoverable status mcg }
    ensures table { result ≡ graded status mcg mode }
    ensures no_row_14 { result.row ≤ 13 }
{
    match (status.contains(Status::S), status.contains(Status::AR)) {
        (false, false) => given(6, Severity::Deferred),
        (false, true) => given(7, Severity::Stop),
        (true, true) => grade_required(status, mcg, mode),
        (true, false) => grade_optional(status, mcg, mode),
    }
}

/// The grade of an uncorrected error for which action is required.
fn grade_required(status: Status, mcg: McgBits, mode: Mode) -> Grade
    requires recoverable { IsRecoverable status mcg }
    requires signaled { is_signaled status ≡ true }
    requires required { is_action_required status ≡ true }
    ensures table { result ≡ graded status mcg mode }
    ensures no_row_14 { result.row ≤ 13 }
{
    if status.contains(Status::OVER) {
        return given(8, Severity::Stop);
    }
    if !(is_access_code(status) && has_place(status) && mcg.ripv) {
        return given(11, Severity::Stop);
    }
    match mode {
        Mode::User => given(9, Severity::Required),
        Mode::Kernel => given(10, Severity::Stop),
    }
}

/// The grade of a signaled uncorrected error for which no action is required.
fn grade_optional(status: Status, mcg: McgBits, mode: Mode) -> Grade
    requires recoverable { IsRecoverable status mcg }
    requires signaled { is_signaled status ≡ true }
    requires required { is_action_required status ≡ false }
    ensures table { result ≡ graded status mcg mode }
    ensures no_row_14 { result.row ≤ 13 }
{
    if !status.contains(Status::OVER) && is_background_code(status) && has_place(status) {
        given(12, Severity::Optional)
    } else {
        given(13, Severity::Logged)
    }
}

fn given(row: u8, severity: Severity) -> Grade
    ensures severity { result.severity ≡ severity }
    ensures row { result.row ≡ row }
{
    Grade { severity, row }
}

fn is_access_code(status: Status) -> bool
    ensures { result ≡ is_access status }
{
    matches!(status.error_code(), DATA_LOAD | INSTRUCTION_FETCH)
}

fn is_background_code(status: Status) -> bool
    ensures { result ≡ is_background status }
{
    matches!(
        status.error_code(),
        SCRUBBING_FIRST..=SCRUBBING_LAST | EXPLICIT_WRITEBACK
    )
}

fn has_place(status: Status) -> bool
    ensures { result ≡ is_placed status }
{
    status.contains(Status::ADDRV) && status.contains(Status::MISCV)
}
