ghost use Rattle.std.specs.Prelude.{◌≡◌, ◌<◌, IfSome, map};
ghost use Rattle.hwp_banks.specs.Events.{bank_count};
ghost use Rattle.hwp_severity.specs.Handling.{grade_of, is_stop, lowest_stop};

use crate::{Grade, McgBits, Severity, grade};
use hwp_banks::{BANKS, Bank, Status};
use hwp_geom::Mode;

/// What a machine check decides: the grade of each bank, and the lowest bank that is graded `Stop`, if there is one.
/// Where there is one the machine stops, and no bank is acted on (this project's rule).
#[derive(Clone, Copy)]
pub struct Decision {
    pub stop: Option<u8>,
    pub acts: [Grade; BANKS],
}

/// What a machine check with these bits, in this mode, decides from the three banks of a processor. An empty bank is
/// graded as a status without VAL.
pub fn handle(banks: &[Bank; BANKS], mcg: McgBits, mode: Mode) -> Decision
    ensures acts { result.acts ≡ map (grade_of mcg mode) banks.now }
    ensures stop { result.stop ≡ lowest_stop result.acts }
    ensures within { IfSome result.stop (λ bank. bank < bank_count) }
{
    let acts = [
        grade_bank(&banks[0], mcg, mode),
        grade_bank(&banks[1], mcg, mode),
        grade_bank(&banks[2], mcg, mode),
    ];
    Decision {
        stop: stopping_bank(&acts).map(|bank| bank as u8),
        acts,
    }
}

/// The grade of what a bank holds.
fn grade_bank(bank: &Bank, mcg: McgBits, mode: Mode) -> Grade
    ensures { result ≡ grade_of mcg mode bank.now }
{
    let status = match bank.get() {
        Some(event) => event.status,
        None => Status(0),
    };
    grade(status, mcg, mode)
}

/// The lowest bank that is graded `Stop`.
fn stopping_bank(grades: &[Grade; BANKS]) -> Option<usize>
    ensures lowest { result ≡ lowest_stop grades.now }
    ensures below { IfSome result (λ bank. bank < bank_count) }
{
    grades.iter().position(|grade| is_stop(*grade))
}

fn is_stop(grade: Grade) -> bool
    ensures { result ≡ is_stop grade.severity }
{
    matches!(grade.severity, Severity::Stop)
}
