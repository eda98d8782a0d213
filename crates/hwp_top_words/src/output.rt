//! What a call writes: of any call, and of `gen`.
ghost use Rattle.std.specs.Prelude.{◌≡◌, IfOk, IsErrOf, None};
ghost use Rattle.hwp_top_words.specs.Reported.{IsGenerated};
ghost use Rattle.hwp_top_words.specs.Statuses.{done_status};

use crate::inputs::InputFault;
use hwp_report::{Report, Text};
use hwp_script::generate;
use hwp_table_words::{Bare, Cached, Ended};
use std::alloc::Global;

/// What a call writes, the status where all of it is written, and, where it made a run, the report, and what the run's table was
/// closed with: `tlb` has it of a table with translation caches, `ended` of any other.
#[derive(Drop)]
pub struct Output {
    pub text: Text,
    pub status: u8,
    pub report: Option<Report>,
    pub ended: Option<Ended<Bare>>,
    pub tlb: Option<Ended<Cached>>,
}

/// The status of a report that is written: 8 where the machine stopped.
pub fn status_of(report: &Report) -> u8
    ensures { result ≡ done_status report.now }
{
    if report.stop.is_some() { 8 } else { 0 }
}

/// The output of `gen`.
pub fn script_text(alloc: Global, seed: u64) -> Result<Output, InputFault>
    ensures output { IfOk result (λ o. IsGenerated seed o.text × (o.status ≡ 0) × (o.report ≡ None) × (o.ended ≡ None) × (o.tlb ≡ None)) }
    ensures memory { (fault : InputFault) → IsErrOf result fault → fault ≡ InputFault.OutOfMemory }
{
    let Ok(script) = generate(alloc, seed) else {
        return Err(InputFault::OutOfMemory);
    };
    let Ok(text) = hwp_script::print(alloc, &script) else {
        drop(script);
        return Err(InputFault::OutOfMemory);
    };
    drop(script);
    Ok(Output {
        text,
        status: 0,
        report: None,
        ended: None,
        tlb: None,
    })
}
