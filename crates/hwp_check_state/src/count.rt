ghost use Rattle.std.specs.Prelude.{◌≡◌, MatchOption, IsTrue};
ghost use Rattle.hwp_check_rules.specs.hwp_law.Frames.{poisoned_count};
ghost use Rattle.hwp_check_rules.specs.hwp_law.Records.{ends_poisoned, is_poisoning};
ghost use Rattle.hwp_check_rules.specs.Firsts.{IsFirstFault};
ghost use Rattle.hwp_check_rules.specs.Rules.{CountFits};
ghost use Rattle.hwp_check_rules.specs.Faults.{IsCountFault};

use hwp_check_rules::{FrameLine, MarkLine, Report, Script};

/// Whether the mark is of a poisoning.
pub(crate) fn is_poisoning(mark: &MarkLine) -> bool
    ensures { result ≡ is_poisoning mark.now }
{
    matches!(mark, MarkLine::Poisoned { .. })
}

/// Whether the frame is poisoned after these marks.
pub(crate) fn ends_poisoned(marks: &[MarkLine]) -> bool
    ensures { result ≡ ends_poisoned marks.now }
{
    let mut poisoned = false;
    for mark in marks {
        poisoned = is_poisoning(mark);
    }
    poisoned
}

/// The frames whose record ends in a poisoning.
fn poisoned_count(frames: &[FrameLine]) -> u64
    ensures { result ≡ poisoned_count frames.now }
{
    let mut count = 0;
    for frame in frames {
        count += u64::from(ends_poisoned(frame.marks.as_slice()));
    }
    count
}

/// Whether the count is the number of poisoned frames; else its line.
pub fn count_fault(script: &Script, report: &Report) -> Option<u64>
    ensures { MatchOption result (CountFits report.now) (IsFirstFault (CountFits report.now) (IsCountFault report.now)) }
{
    if poisoned_count(report.frames.as_slice()) == report.count {
        None
    } else {
        Some(3)
    }
}
