ghost use Rattle.std.specs.Prelude.{◌≡◌, ◌↔◌, [], Bool, IsTrue, true, IfOk, IfErr, MatchOption};
ghost use Rattle.hwp_script_read.specs.Reasons.{IsClean};
ghost use Rattle.hwp_script_read.specs.Sums.{Sums};
ghost use Rattle.hwp_script_read.specs.Refusals.{AreGathered, AreScript, AreRefused, IsLowestFault, IsTooNew};

use crate::context::Summary;
use crate::faults::fault;
use crate::why::{Refused, Why};
use hwp_script_lines::{LineRead, Numbered, OutOfMemory, Script, ScriptLine};
use std::alloc::Global;

/// Whether a line is `end`.
fn is_end(form: &ScriptLine) -> bool
    ensures { IsTrue result ↔ (form.now ≡ ScriptLine.End) }
{
    matches!(form, ScriptLine::End)
}

/// The fault of a line of no known form.
fn unknown_fault(above: &[ScriptLine]) -> Why
    ensures { (last : Bool) → IsLowestFault last above.now LineRead.Unknown result }
{
    if above.is_empty() {
        Why::BadHeader
    } else {
        Why::UnknownWord
    }
}

/// Whether a line has a form that the version of the lines above it has not.
fn is_too_new(newer: bool, summary: &Summary, above: &[ScriptLine]) -> bool
    requires { Sums above.now summary.now }
    ensures { IsTrue result ↔ IsTooNew newer above.now }
{
    newer && summary.is_first_version(above)
}

/// The fault of a line with a word in a number's place that is none.
fn number_fault(newer: bool, summary: &Summary, above: &[ScriptLine]) -> Why
    requires { Sums above.now summary.now }
    ensures { (last : Bool) → IsLowestFault last above.now (LineRead.BadNumber newer) result }
{
    if above.is_empty() {
        Why::BadHeader
    } else if is_too_new(newer, summary, above) {
        Why::UnknownWord
    } else {
        Why::BadNumber
    }
}

/// The fault of a line with a number outside its range.
fn range_fault(newer: bool, summary: &Summary, above: &[ScriptLine]) -> Why
    requires { Sums above.now summary.now }
    ensures { (last : Bool) → IsLowestFault last above.now (LineRead.OverLimit newer) result }
{
    if above.is_empty() {
        Why::BadHeader
    } else if is_too_new(newer, summary, above) {
        Why::UnknownWord
    } else {
        Why::OverLimit
    }
}

/// The form of a line, or the lowest reason that applies to it. `last` says that no line follows.
fn judge_line(
    last: bool,
    summary: &Summary,
    above: &[ScriptLine],
    read: LineRead,
) -> Result<ScriptLine, Why>
    requires { Sums above.now summary.now }
    ensures ok { IfOk result (λ form. read ≡ LineRead.ScriptLine form) }
    ensures clean { IfOk result (λ form. IsClean above.now form) }
    ensures ended { IfOk result (λ form. last ≡ true → form ≡ ScriptLine.End) }
    ensures err { IfErr result (λ why. IsLowestFault last above.now read why) }
{
    let form = match read {
        LineRead::ScriptLine(form) => form,
        LineRead::Unknown => return Err(unknown_fault(above)),
        LineRead::BadNumber { newer } => return Err(number_fault(newer, summary, above)),
        LineRead::OverLimit { newer } => return Err(range_fault(newer, summary, above)),
    };
    if let Some(why) = fault(summary, above, &form) {
        return Err(why);
    }
    if last && !is_end(&form) {
        return Err(Why::NoEnd);
    }
    Ok(form)
}

/// The first line at fault, in one walk that gathers the forms of the lines and their summary, where there is none.
fn judge_lines(
    alloc: Global,
    lines: Vec<Numbered>,
    forms: &mut Vec<ScriptLine>,
    summary: &mut Summary,
) -> Result<Option<Refused>, OutOfMemory>
    requires empty { forms.old.items ≡ [] }
    requires sums { Sums [] summary.old }
    ensures { IfOk result (λ refused. MatchOption refused (AreGathered lines.items forms.new.items summary.new) (AreRefused lines.items)) }
{
    let count = lines.len();
    for Numbered { line, read } in lines {
        let last = forms.len() + 1 == count;
        let form = match judge_line(last, summary, forms.as_slice(), read) {
            Ok(form) => form,
            Err(why) => return Ok(Some(Refused { line, why })),
        };
        summary.add(alloc, forms.as_slice(), &form)?;
        forms.push(form)?;
    }
    if forms.is_empty() {
        return Ok(Some(Refused {
            line: 1,
            why: Why::BadHeader,
        }));
    }
    Ok(None)
}

/// The script that lines give, or their first line at fault. What a summary holds is let go at one place an exit.
pub(crate) fn judge(
    alloc: Global,
    lines: Vec<Numbered>,
) -> Result<Result<Script, Refused>, OutOfMemory>
    ensures script { IfOk result (λ read. IfOk read (AreScript lines.items)) }
    ensures refused { IfOk result (λ read. IfErr read (AreRefused lines.items)) }
{
    let mut forms = Vec::new(alloc);
    let mut summary = Summary::new(alloc);
    match judge_lines(alloc, lines, &mut forms, &mut summary) {
        Ok(None) => Ok(Ok(summary.into_script(forms.as_slice()))),
        Ok(Some(refused)) => {
            drop(summary);
            Ok(Err(refused))
        }
        Err(error) => {
            drop(summary);
            Err(error)
        }
    }
}
