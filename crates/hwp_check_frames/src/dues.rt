ghost use Rattle.std.specs.Prelude.{◌≡◌, ◌≤◌, IfOk, Some, length, slice_get};
ghost use Rattle.hwp_check_rules.specs.hwp_check_event_line.Scripts.{IsDeclared};
ghost use Rattle.hwp_check_rules.specs.hwp_check_event_line.OfCommands.{AreShown};
ghost use Rattle.hwp_check_rules.specs.hwp_law.Lines.{answers_to};
ghost use Rattle.hwp_check_frames.specs.Dues.{AreDues};

use crate::collecting::{due_by, go_on};
use hwp_cec::Collector;
use hwp_check_rules::{Answer, Command, Cpu, CpuLine, Frame, List, OutOfMemory, Script, Shown};
use std::alloc::Global;

/// For each command of a processor the frames that its notes take out of use, by the event lines of each and its answer.
pub fn dues_of(
    alloc: Global,
    script: &Script,
    cpu: Cpu,
    commands: &[Command],
    rows: &[CpuLine],
    events: &[List<Shown>],
    answers: &[Answer],
) -> Result<Vec<List<Frame>>, OutOfMemory>
    requires valid { IsDeclared script.now }
    requires of_script { slice_get script.now.lists cpu.0 ≡ Some commands.now }
    requires events { AreShown rows.now (length commands.now) events.now }
    requires answers { answers.now ≡ answers_to commands.now rows.now }
    requires enough { length commands.now ≤ length answers.now }
    ensures { IfOk result (λ dues. AreDues script.now.layout commands.now rows.now (length commands.now) dues.items) }
{
    let _cpu = cpu;
    let _rows = rows;
    let mut collector = Collector::new(alloc, 1, 1, script.layout.frames)?;
    let mut on = false;
    let mut dues = Vec::new(alloc);
    for number in 0..commands.len() {
        let lines = events[number].as_slice();
        let frames = due_by(alloc, &script.layout, &mut collector, on, lines)?;
        dues.push(frames)?;
        on = go_on(&mut collector, on, &commands[number], answers[number]);
    }
    Ok(dues)
}
