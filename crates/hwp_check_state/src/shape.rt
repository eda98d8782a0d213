ghost use Rattle.std.specs.Prelude.{◌<◌, ◌^◌, MatchOption};
ghost use Rattle.hwp_check_rules.specs.Standing.{last_line};
ghost use Rattle.hwp_check_rules.specs.Firsts.{IsFirstFault};
ghost use Rattle.hwp_check_rules.specs.Rules.{ShapeFits};
ghost use Rattle.hwp_check_rules.specs.Faults.{IsShapeFault};

use hwp_check_rules::{Report, Script, cpu_at, file_at, frame_at, page_at};

/// The line that names a report's version.
const HEADER_LINE: u64 = 1;

/// Whether the report has the script's version and its numbers of files, frames, pages and processors; else the first line that
/// doesn't fit.
#[tactic(auto, using(crate::proofs::Shapes::shape_fits, crate::proofs::Shapes::version_first, crate::proofs::Shapes::files_first, crate::proofs::Shapes::frames_first, crate::proofs::Shapes::pages_first, crate::proofs::Shapes::cpus_first))]
pub fn shape_fault(script: &Script, report: &Report) -> Option<u64>
    requires room { last_line report.now < 2 ^ 64 }
    ensures { MatchOption result (ShapeFits script.now report.now) (IsFirstFault (ShapeFits script.now report.now) (IsShapeFault script.now report.now)) }
{
    if report.version != script.layout.version {
        return Some(HEADER_LINE);
    }
    let (files, frames) = (
        usize::from(script.layout.files),
        usize::from(script.layout.frames),
    );
    let (pages, cpus) = (script.layout.pages.len(), usize::from(script.layout.cpus));
    if report.files.len() != files {
        return Some(file_at(report, files.min(report.files.len())));
    }
    if report.frames.len() != frames {
        return Some(frame_at(report, frames.min(report.frames.len())));
    }
    if report.pages.len() != pages {
        return Some(page_at(report, pages.min(report.pages.len())));
    }
    if report.cpus.len() != cpus {
        return Some(cpu_at(report, cpus.min(report.cpus.len())));
    }
    None
}
