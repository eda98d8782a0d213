ghost use Rattle.std.specs.Prelude.{◌≡◌, ◌<◌, ◌^◌, Ok, IfOk, IsErrOf};
ghost use Rattle.hwp_check_rules.specs.hwp_script_words.Valid.{IsValid};
ghost use Rattle.hwp_script_read.specs.declared.Refused.{Refused};
ghost use Rattle.hwp_check_rules.specs.Standing.{last_line};
ghost use Rattle.hwp_check.specs.Judging.{IsJudgedInput, IsRefusedInput, IsSaid};

use crate::check;
use crate::parting::parted;
use hwp_check_rules::{OutOfMemory, Rule, Script, Verdict};
use hwp_io::Bytes;
use hwp_report::{BadReport, Report, read as read_report};
use hwp_script_read::{ReadScript, read};
use std::alloc::{AllocError, Global};

/// The verdict on what was read of a text: whether it is that of a report which a run of the script can have. A text that is no
/// report breaks the first rule, at the first line that doesn't follow those before it.
fn judge_text(
    alloc: Global,
    script: &Script,
    text: Result<Report, BadReport>,
) -> Result<Verdict, OutOfMemory>
    requires valid { IsValid script.now }
    requires room { IfOk text (λ report. last_line report < 2 ^ 64) }
    ensures { IfOk result (IsSaid script.now text) }
{
    match text {
        Ok(report) => check(alloc, script, &report),
        Err(BadReport::Line(line)) => Ok(Verdict::Not {
            line,
            rule: Rule::Shape,
        }),
        Err(BadReport::OutOfMemory) => Err(AllocError),
    }
}

/// A verdict, or that memory ran out.
fn told(judged: Result<Verdict, OutOfMemory>) -> Result<Verdict, ReadScript>
    ensures verdict { IfOk result (λ verdict. judged ≡ Ok verdict) }
    ensures refused { (r : Refused) → ¬ IsErrOf result (ReadScript.Refused r) }
{
    match judged {
        Ok(verdict) => Ok(verdict),
        Err(_) => Err(ReadScript::OutOfMemory),
    }
}

/// The verdict on an input: a script, up to the first line whose only word is `end`, and the text that is to be judged behind it.
/// The input is let go once it is read, before it is judged.
pub fn judge(alloc: Global, input: Bytes) -> Result<Verdict, ReadScript>
    ensures verdict { IfOk result (IsJudgedInput input) }
    ensures refused { (r : Refused) → IsErrOf result (ReadScript.Refused r) → IsRefusedInput input r }
{
    let Ok((first, behind)) = parted(alloc, input.as_slice()) else {
        return Err(ReadScript::OutOfMemory);
    };
    let script = match read(alloc, first) {
        Ok(script) => script,
        Err(refused) => return Err(refused),
    };
    let text = read_report(alloc, behind);
    drop(input);
    told(judge_text(alloc, &script, text))
}
