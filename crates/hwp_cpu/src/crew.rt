ghost use Rattle.std.specs.Prelude.{IfOk};
ghost use Rattle.hwp_cpu.specs.Processors.{AreFinished};

use crate::processor::Processor;
use hwp_cpu_row::{List, OutOfMemory, Row};
use std::alloc::Global;

/// The rows of each processor.
pub type Rows = List<List<Row>>;

/// The rows of each processor.
///
/// # Errors
/// `OutOfMemory` where a command was not answered, because memory ran out.
pub fn rows_of(alloc: Global, crew: Vec<Processor>) -> Result<Rows, OutOfMemory>
    ensures { IfOk result (λ rows. AreFinished crew.items rows) }
{
    let mut rows = Vec::with_capacity(alloc, crew.len())?;
    for processor in crew {
        rows.push(processor.finish()?)?;
    }
    Ok(List::from_vec(rows))
}
