ghost use Rattle.std.specs.Prelude.{IfOk};
ghost use Rattle.hwp_top_words.specs.hwp_script_read.hwp_script_words.Valid.{IsValid};
ghost use Rattle.hwp_top.specs.Runs.{AreAtBeginning};

use hwp_cpu::Processor;
use hwp_top_report::{Cpu, OutOfMemory, Script};
use std::alloc::Global;
use std::sync::Arc;

/// A processor for each list of the script, at the beginning of its first command.
pub(crate) fn crew_of(alloc: Global, script: &Script) -> Result<Vec<Processor>, OutOfMemory>
    requires valid { IsValid script.now }
    ensures { IfOk result (λ crew. AreAtBeginning script.now crew.items) }
{
    let layout = Arc::new(alloc, script.layout.copy(alloc)?)?;
    let lists = script.lists.as_slice();
    let mut crew = Vec::with_capacity(alloc, lists.len())?;
    for cpu in 0..lists.len() {
        let commands = lists[cpu].as_slice();
        match Processor::new(alloc, &layout, Cpu(cpu as u8), commands) {
            Ok(processor) => crew.push_reserved(processor),
            Err(refused) => {
                drop(crew);
                return Err(refused);
            }
        }
    }
    Ok(crew)
}
