ghost use Rattle.std.specs.Prelude.{◌≡◌, ◌+◌, ◌*◌, nat_lt, false, IfOk, slice_index_or};
ghost use Rattle.hwp_law.specs.Commands.{has_watch};
ghost use Rattle.hwp_law.specs.Answers.{frame_named, is_ample};
ghost use Rattle.hwp_check_evidence.specs.Ample.{flags_of, noted, noted_in, noted_list, usable_by};

use hwp_check_event_line::has_watch;
use hwp_law::{Command, List, OutOfMemory, Script};
use std::alloc::Global;

/// The bytes of a frame.
const FRAME_BYTES: u64 = 4096;

/// The frame that a command names to go bad, to fail or to go out of use; where the script has a `watch`, also one that it makes weak.
fn frame_named(watches: bool, command: &Command) -> Option<u64>
    ensures { result ≡ frame_named watches command.now }
{
    match *command {
        Command::Weak { frame, .. } if watches => Some(u64::from(frame.0)),
        Command::Bad { frame, .. } => Some(u64::from(frame.0)),
        Command::Inject { frame } => Some(u64::from(frame.0)),
        Command::Soft { frame } => Some(u64::from(frame.0)),
        Command::Log { addr, .. } => Some(addr / FRAME_BYTES),
        _ => None,
    }
}

/// Flags a frame that is named.
fn note(flags: &mut Vec<bool>, frame: Option<u64>)
    ensures { flags.new.items ≡ noted flags.old.items frame }
{
    if let Some(frame) = frame {
        if frame < flags.len() as u64 {
            flags[frame as usize] = true;
        }
    }
}

/// Flags the frames that the commands name.
fn note_list(flags: &mut Vec<bool>, watches: bool, list: &[Command])
    ensures { flags.new.items ≡ noted_list watches flags.old.items list.now }
{
    for command in list {
        note(flags, frame_named(watches, command));
    }
}

/// Which frames the commands of the script name.
fn flags_of(alloc: Global, script: &Script) -> Result<Vec<bool>, OutOfMemory>
    ensures { IfOk result (λ flags. flags.items ≡ flags_of script.now) }
{
    let watches = has_watch(script);
    let mut flags = vec![in alloc; false; script.layout.kernel.len()]?;
    for list in script.lists.as_slice() {
        note_list(&mut flags, watches, list.as_slice());
    }
    Ok(flags)
}

/// Whether the frame with the number is flagged.
fn is_flagged(flags: &[bool], number: usize) -> bool
    ensures { result ≡ slice_index_or flags.now number false }
{
    match flags.get(number) {
        Some(flag) => *flag,
        None => false,
    }
}

/// How many frames are neither the kernel's nor flagged.
fn usable_by(flags: &[bool], kernels: &[bool]) -> u64
    ensures { result ≡ usable_by flags.now 0 kernels.now }
{
    let mut count = 0;
    for number in 0..kernels.len() {
        if !kernels[number] && !is_flagged(flags, number) {
            count += 1;
        }
    }
    count
}

/// Whether so many frames are more than the pages with two more for each processor.
fn is_above(pages: usize, cpus: u8, usable: u64) -> bool
    ensures { result ≡ nat_lt (pages + 2 * cpus) usable }
{
    let spare = 2 * u64::from(cpus);
    usable > spare && usable - spare > pages as u64
}

/// Whether the script has usable frames enough for every page at once, with two more for each processor.
pub fn is_ample(alloc: Global, script: &Script) -> Result<bool, OutOfMemory>
    ensures { IfOk result (λ ample. ample ≡ is_ample script.now) }
{
    let flags = flags_of(alloc, script)?;
    let usable = usable_by(flags.as_slice(), script.layout.kernel.as_slice());
    Ok(is_above(script.layout.pages.len(), script.layout.cpus, usable))
}
