ghost use Rattle.std.specs.Prelude.{◌≡◌, ◌<◌, ◌||◌, ◌&&◌, ℕ, Bool, is_some, length, slice_index_or, IfOk};
ghost use Rattle.hwp_check_rules.specs.hwp_law.Records.{result_of};
ghost use Rattle.hwp_check_frames.specs.Flags.{AreFlags, row_flag, rows_flag};

use crate::counts::{Counts, count};
use crate::noted::is_result;
use hwp_check_rules::{Acted, Cpu, CpuLine, OutOfMemory, Report, rows_on};
use std::alloc::Global;

/// Whether a line with this result, whose command has more such lines than marks or hasn't, flags its frame.
fn flags_it(acted: Acted, beyond: bool) -> bool
    ensures { result ≡ (is_some (result_of acted) && beyond) }
{
    is_result(acted) && beyond
}

/// Flags the frame of a line of the processor, if its command has more such lines than marks.
fn flag_row(flags: &mut Vec<bool>, own: &Counts, many: &Counts, cpu: u8, row: &CpuLine)
    ensures each { length flags.new.items ≡ length flags.old.items }
    ensures is { (frame : ℕ) (d : Bool) → frame < length flags.old.items → slice_index_or flags.new.items frame d ≡ (slice_index_or flags.old.items frame d || row_flag own.now many.now cpu frame row.now) }
{
    if let CpuLine::Event(event) = *row {
        let frame = event.addr / 4096;
        let key = ((cpu, event.seq), frame);
        let beyond = count(own, key) < count(many, key);
        if frame < flags.len() as u64 {
            let before = flags[frame as usize];
            flags[frame as usize] = before || flags_it(event.acted, beyond);
        }
    }
}

/// Flags the frames of the processor's lines so.
fn flag_rows(flags: &mut Vec<bool>, own: &Counts, many: &Counts, cpu: u8, rows: &[CpuLine])
    ensures each { length flags.new.items ≡ length flags.old.items }
    ensures is { (frame : ℕ) (d : Bool) → frame < length flags.old.items → slice_index_or flags.new.items frame d ≡ (slice_index_or flags.old.items frame d || rows_flag own.now many.now cpu frame rows.now) }
{
    for row in rows {
        flag_row(flags, own, many, cpu, row);
    }
}

/// Which of so many frames have event lines of a command beyond its marks.
pub(crate) fn flags_of(
    alloc: Global,
    cpus: u8,
    frames: u16,
    report: &Report,
    own: &Counts,
    many: &Counts,
) -> Result<Vec<bool>, OutOfMemory>
    requires each { length report.now.cpus ≡ cpus }
    ensures long { IfOk result (λ flags. length flags.items ≡ frames) }
    ensures are { IfOk result (λ flags. AreFlags report.now own.now many.now cpus flags.items) }
{
    let mut flags = Vec::new(alloc);
    flags.resize(usize::from(frames), false)?;
    for cpu in 0..cpus {
        flag_rows(&mut flags, own, many, cpu, rows_on(report, Cpu(cpu)));
    }
    Ok(flags)
}
