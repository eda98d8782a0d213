ghost use Rattle.std.specs.Prelude.{◌≡◌, ◌+◌, ◌<◌, ◌^◌, ℕ, OnOk};
ghost use Rattle.hwp_check_frames.specs.Counts.{at_key};
ghost use Rattle.hwp_check_frames.specs.Softs.{how_soft, soft_key, soft_raise};

use crate::counts::{Counts, Key, add};
use hwp_check_rules::{How, MarkLine, OutOfMemory, Who};

/// What counts a command's marks of soft offlines with this result.
pub(crate) fn soft_key(who: Who, moved: bool) -> Key
    ensures { result ≡ soft_key who moved }
{
    ((who.cpu.0, who.seq), u64::from(moved))
}

/// Counts a poisoning, where it is a soft offline.
fn add_how(softs: &mut Counts, who: Who, how: How) -> Result<(), OutOfMemory>
    requires room { (q : (ℕ × ℕ) × ℕ) → at_key softs.old q + 1 < 2 ^ 64 }
    ensures { OnOk result ((q : (ℕ × ℕ) × ℕ) → at_key softs.new q ≡ at_key softs.old q + how_soft q who how) }
{
    match how {
        How::Failure { .. } => Ok(()),
        How::Moved => add(softs, soft_key(who, true)),
        How::TakenFree => add(softs, soft_key(who, false)),
    }
}

/// Counts a mark so.
pub(crate) fn add_soft(softs: &mut Counts, mark: &MarkLine) -> Result<(), OutOfMemory>
    requires room { (q : (ℕ × ℕ) × ℕ) → at_key softs.old q + 1 < 2 ^ 64 }
    ensures { OnOk result ((q : (ℕ × ℕ) × ℕ) → at_key softs.new q ≡ at_key softs.old q + soft_raise q mark.now) }
{
    match *mark {
        MarkLine::Poisoned { who, how, .. } => add_how(softs, who, how),
        MarkLine::Unpoisoned { .. } => Ok(()),
    }
}
