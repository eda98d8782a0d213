ghost use Rattle.std.specs.Prelude.{◌<◌, ◌^◌, IfOk, MatchOption};
ghost use Rattle.hwp_check_rules.specs.hwp_check_event_line.Scripts.{IsDeclared};
ghost use Rattle.hwp_check_rules.specs.Standing.{last_line};
ghost use Rattle.hwp_check_rules.specs.Firsts.{IsFirstFault};
ghost use Rattle.hwp_check_rules.specs.Rules.{MarksFit, ShapeFits, AreAllAnswered};
ghost use Rattle.hwp_check_rules.specs.MarkFaults.{IsMarkFault};

use crate::lacking::lacking;
use crate::misrequired::misrequired;
use crate::unmarked::unmarked;
use crate::unpaired::unpaired;
use hwp_check_frames::{index_of, kept};
use hwp_check_rules::{OutOfMemory, Report, Script, soonest};
use std::alloc::Global;

/// Whether the records of frames fit the entries, the answers and the events; else the first line that doesn't.
pub fn marks_fault(
    alloc: Global,
    script: &Script,
    report: &Report,
) -> Result<Option<u64>, OutOfMemory>
    requires valid { IsDeclared script.now }
    requires room { last_line report.now < 2 ^ 64 }
    requires shape { ShapeFits script.now report.now }
    requires answered { AreAllAnswered script.now report.now }
    ensures { IfOk result (λ found. MatchOption found (MarksFit script.now report.now) (IsFirstFault (MarksFit script.now report.now) (IsMarkFault script.now report.now))) }
{
    let extra = unpaired(alloc, report)?;
    let lacks = lacking(alloc, script, report)?;
    let wrong = misrequired(alloc, script, report)?;
    let index = index_of(alloc, script, report)?;
    let record = kept(alloc, script, report, &index)?;
    let short = unmarked(alloc, script, report, &index)?;
    let records = soonest(soonest(record, short), extra);
    Ok(soonest(records, soonest(lacks, wrong)))
}
