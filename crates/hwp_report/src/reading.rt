ghost use Rattle.std.specs.Prelude.{◌≡◌, IfErr, IfOk, MatchOption};
ghost use Rattle.hwp_report.specs.Follows.{IsNext, IsRefused};
ghost use Rattle.hwp_report.specs.declared.reading.BadReport.TheVariants.{OutOfMemory};
ghost use Rattle.hwp_report.specs.Texts.{IsFaultOf, IsReportOf};

use crate::cuts::first_line;
use crate::lines::read_line;
use crate::partial::{Partial, let_go_of};
use hwp_report_text::{OutOfMemory, Report};
use std::alloc::{AllocError, Global};

/// Why no report was read.
#[derive(Clone, Copy, Debug, PartialEq, Eq)]
pub enum BadReport {
    /// The bytes are no text of a report, and this line, from 1, is the first that doesn't follow those before it: they
    /// begin the text of a report, and with it they don't.
    Line(u64),
    OutOfMemory,
}

impl From<AllocError> for BadReport {
    ghost from_gives = { λ _ e. e ≡ OutOfMemory };

    fn from(_refused: AllocError) -> BadReport {
        BadReport::OutOfMemory
    }
}

/// What was read with this line more, without its line feed, where it may follow.
fn with_line(alloc: Global, partial: Partial, line: &[u8]) -> Result<Option<Partial>, OutOfMemory>
    ensures { IfOk result (λ next. MatchOption next (IsRefused partial line.now) (IsNext partial line.now)) }
{
    match read_line(alloc, line) {
        Ok(Some(form)) => partial.with(alloc, form),
        Ok(None) => {
            let_go_of(partial);
            Ok(None)
        }
        Err(refused) => {
            let_go_of(partial);
            Err(refused)
        }
    }
}

/// The report of which the bytes are the text, in one pass.
pub fn read(alloc: Global, bytes: &[u8]) -> Result<Report, BadReport>
    ensures report { IfOk result (IsReportOf bytes.now) }
    ensures fault { IfErr result (IsFaultOf bytes.now) }
{
    let mut rest = bytes;
    let mut partial = Partial::Nothing;
    let mut number = 1;
    while let Some((line, behind)) = first_line(rest) {
        match with_line(alloc, partial, line)? {
            Some(next) => partial = next,
            None => return Err(BadReport::Line(number)),
        }
        rest = behind;
        number += 1;
    }
    if !rest.is_empty() {
        let_go_of(partial);
        return Err(BadReport::Line(number));
    }
    match partial {
        Partial::Whole(report) => Ok(report),
        other => {
            let_go_of(other);
            Err(BadReport::Line(number))
        }
    }
}
