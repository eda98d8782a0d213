ghost use Rattle.std.specs.Prelude.{◌≡◌, ◌↔◌, IsTrue, false, true};
ghost use Rattle.hwp_check_evidence.specs.hwp_law.Answers.{is_ample};
ghost use Rattle.hwp_check_evidence.specs.hwp_law.Causes.{AreBadLines, IsCaused};
ghost use Rattle.hwp_check_evidence.specs.hwp_law.Commands.{is_kernels};
ghost use Rattle.hwp_check_evidence.specs.hwp_law.Lines.{bad_lines_of};
ghost use Rattle.hwp_check_causes.specs.Plain.{AreRaised, AreScrubbed, HasTheseBad, IsAccess, IsDone, IsLossTold, IsOfKernel, IsOpening, IsPlain, IsShort, IsUsed, is_plain};

use crate::case::Case;
use hwp_check_rules::{Answer, Command, Frame, Layout, Mask, Report};

/// Whether the frame is the kernel's own.
pub(crate) fn is_kernels(layout: &Layout, frame: Frame) -> bool
    ensures { result ≡ is_kernels layout.now frame }
{
    match layout.kernel.as_slice().get(usize::from(frame.0)) {
        Some(kernel) => *kernel,
        None => false,
    }
}

/// The bad lines of a frame.
pub(crate) fn bad_lines_of(report: &Report, frame: Frame) -> u64
    ensures { result ≡ bad_lines_of report.now frame.0 }
{
    match report.frames.as_slice().get(usize::from(frame.0)) {
        Some(line) => line.bad.0,
        None => 0,
    }
}

/// Whether the lines are some, and all of them bad.
pub(crate) fn are_bad_lines(bad: u64, mask: Mask) -> bool
    ensures { IsTrue result ↔ AreBadLines bad mask.0 }
{
    mask.0 != 0 && mask.0 & bad == mask.0
}

/// Whether there can have been no free frame.
fn can_lack(case: &Case<'_>) -> bool
    ensures { IsTrue result ↔ is_ample case.now.script ≡ false }
{
    !case.known.ample
}

/// Whether the command can have found no free frame.
fn is_short(case: &Case<'_>) -> bool
    ensures { IsTrue result ↔ IsShort case.now.script case.now.command }
{
    match *case.command {
        Command::Load { .. }
        | Command::Fetch { .. }
        | Command::KLoad { .. }
        | Command::Store { .. } => can_lack(case),
        Command::Soft { frame } => !is_kernels(&case.script.layout, frame) && can_lack(case),
        _ => false,
    }
}

/// Whether the command is done in any case.
fn is_done(command: &Command) -> bool
    ensures { IsTrue result ↔ IsDone command.now }
{
    matches!(
        command,
        Command::Fsync { .. }
            | Command::Log { .. }
            | Command::Bad { .. }
            | Command::Weak { .. }
            | Command::Watch { .. }
            | Command::Fork { .. }
    )
}

/// Whether the command tells of losses, and they are some.
fn is_loss_told(command: &Command, lost: u64) -> bool
    ensures { IsTrue result ↔ IsLossTold command.now lost }
{
    match command {
        Command::Fsync { .. } => lost > 0,
        _ => false,
    }
}

/// Whether the command opens a file.
fn is_opening(command: &Command) -> bool
    ensures { IsTrue result ↔ IsOpening command.now }
{
    matches!(command, Command::Open { .. })
}

/// Whether the command takes a frame of the kernel out of use.
fn is_of_kernel(case: &Case<'_>) -> bool
    ensures { IsTrue result ↔ IsOfKernel case.now.script case.now.command }
{
    match *case.command {
        Command::Soft { frame } => is_kernels(&case.script.layout, frame),
        _ => false,
    }
}

/// Whether the command's frame has these bad lines.
fn has_these_bad(case: &Case<'_>, mask: Mask) -> bool
    ensures { IsTrue result ↔ HasTheseBad case.now.script case.now.report case.now.command mask.0 }
{
    match *case.command {
        Command::Soft { frame } => {
            !is_kernels(&case.script.layout, frame)
                && are_bad_lines(bad_lines_of(case.report, frame), mask)
        }
        Command::Unpoison { frame } => are_bad_lines(bad_lines_of(case.report, frame), mask),
        _ => false,
    }
}

/// Whether the command takes a failure back.
fn is_used(command: &Command) -> bool
    ensures { IsTrue result ↔ IsUsed command.now }
{
    matches!(command, Command::Unpoison { .. })
}

/// Whether the command is a scrub, and this the number of its event lines.
fn are_scrubbed(case: &Case<'_>, n: u64) -> bool
    ensures { IsTrue result ↔ AreScrubbed case.now.report case.now.who case.now.command n }
{
    match case.command {
        Command::Scrub { .. } => n == case.told.events,
        _ => false,
    }
}

/// The same of a machine check.
fn are_raised(case: &Case<'_>, n: u64) -> bool
    ensures { IsTrue result ↔ AreRaised case.now.report case.now.who case.now.command n }
{
    match case.command {
        Command::RaiseUser { .. } => n == case.told.events,
        Command::RaiseKernel { .. } => n == case.told.events,
        _ => false,
    }
}

/// Whether the command is an access.
fn is_access(command: &Command) -> bool
    ensures { IsTrue result ↔ IsAccess command.now }
{
    matches!(
        command,
        Command::Load { .. } | Command::Fetch { .. } | Command::KLoad { .. } | Command::Store { .. }
    )
}

/// Whether an answer is right by itself.
fn is_plain_right(case: &Case<'_>, answer: &Answer) -> bool
    ensures { IsTrue result ↔ IsPlain case.now.script case.now.report case.now.who case.now.command answer.now }
{
    match *answer {
        Answer::NoFrame => is_short(case),
        Answer::Done => is_done(case.command),
        Answer::Eio(lost) => is_loss_told(case.command, lost),
        Answer::Opened(_) => is_opening(case.command),
        Answer::Kernel => is_of_kernel(case),
        Answer::HasBad(mask) => has_these_bad(case, mask),
        Answer::InUse(_) => is_used(case.command),
        Answer::Scrubbed(n) => are_scrubbed(case, n),
        Answer::Raised(n) => are_raised(case, n),
        Answer::GuestBad | Answer::GuestStopped => is_access(case.command),
        _ => false,
    }
}

/// Whether an answer of a plain kind has its cause.
pub(crate) fn is_plain(case: &Case<'_>, answer: &Answer) -> bool
    requires { is_plain case.now.command answer.now ≡ true }
    ensures { IsTrue result ↔ IsCaused case.now.script case.now.report case.now.who case.now.command answer.now }
{
    is_plain_right(case, answer)
}
