ghost use Rattle.std.specs.Prelude.{◌≡◌, ◌≤◌, false, replicate, IfOk, length};
ghost use Rattle.hwp_check_evidence.specs.hwp_geom.Limits.{page_limit};
ghost use Rattle.hwp_check_evidence.specs.Glances.{AreLegalSteps};
ghost use Rattle.hwp_check_evidence.specs.Firsts.{is_named};
ghost use Rattle.hwp_check_evidence.specs.Named.{flagged_pages};
ghost use Rattle.hwp_check_causes.specs.Knowing.{IsKnown, IsOwn};
ghost use Rattle.hwp_check_rules.specs.hwp_check_event_line.Scripts.{IsDeclared};
ghost use Rattle.hwp_check_rules.specs.Rules.{ShapeFits, AreLegal};
ghost use Rattle.hwp_check_rules.specs.hwp_check_event_line.Reading.{copies_in};

use crate::facts::{ProcessorFacts, ReportFacts};
use hwp_check_event_line::{past_of, results_of};
use hwp_check_evidence::{Findings, Names, findings_of, glances_of, is_ample, reported};
use hwp_check_rules::{Cpu, List, OutOfMemory, Report, Script, VSlot};
use std::alloc::Global;

/// What is known of a report whose histories are legal.
#[tactic(auto, using(crate::proofs::Legal::legal_steps, crate::proofs::Legal::pages_fit))]
pub fn known_of(alloc: Global, script: &Script, report: &Report) -> Result<ReportFacts, OutOfMemory>
    requires valid { IsDeclared script.now }
    requires shape { ShapeFits script.now report.now }
    requires histories { AreLegal script.now report.now }
    ensures { IfOk result (λ known. IsKnown script.now report.now known) }
{
    let ample = is_ample(alloc, script)?;
    let glances = glances_of(alloc, &script.layout, report.pages.as_slice())?;
    Ok(ReportFacts { ample, glances })
}

/// What is known of it for the answers of so many commands of one processor, whose lines name these places; and which of the
/// commands have an entry that one of their lines has to name, and none does.
pub fn own_of(
    alloc: Global,
    script: &Script,
    report: &Report,
    cpu: Cpu,
    commands: usize,
    names: &Names,
    copies: &[List<Option<VSlot>>],
) -> Result<(ProcessorFacts, Vec<bool>), OutOfMemory>
    requires { length report.now.pages ≤ page_limit }
    ensures own { IfOk result (λ known. IsOwn script.now report.now cpu known.0) }
    ensures others { IfOk result (λ known. known.1.items ≡ flagged_pages (is_named names.now) (copies_in copies.now) cpu (replicate commands false) 0 report.now.pages) }
    ensures many { IfOk result (λ known. length known.1.items ≡ commands) }
{
    let pages = report.pages.as_slice();
    let reported = reported(cpu, report.frames.as_slice());
    let past = past_of(alloc, cpu, report.frames.as_slice())?;
    let results = results_of(alloc, cpu, report.frames.as_slice())?;
    let found = findings_of(alloc, &script.layout, cpu, commands, names, copies, pages)?;
    let Findings {
        ends,
        ended,
        spans,
        others,
    } = found;
    let own = ProcessorFacts {
        ends,
        ended,
        spans,
        reported,
        past,
        results,
    };
    Ok((own, others))
}
