ghost use Rattle.std.specs.Prelude.{◌≡◌, ◌<◌, IfOk};
ghost use Rattle.hwp_script_read.specs.hwp_script_words.Valid.{IsValid};
ghost use Rattle.hwp_script.specs.Commands.{command};
ghost use Rattle.hwp_script.specs.Generated.{commands_of, generated, go, lists, many};

use crate::commands::draw_command;
use crate::draws::draw;
use crate::machine::machine;
use hwp_script_read::{Command, Cpu, Go, List, OutOfMemory, Script, Until};
use rand_pcg::Lcg64Xsh32;
use std::alloc::Global;

/// The script that a seed gives: on a machine of four processors and 256 frames, 1,000 commands for each processor, and
/// then a schedule of 20,000 single turns. Equal seeds give equal scripts.
///
/// # Errors
/// `OutOfMemory` where memory for the script is refused.
pub fn generate(alloc: Global, seed: u64) -> Result<Script, OutOfMemory>
    ensures script { IfOk result (λ script. script ≡ generated seed) }
    ensures valid { IfOk result (λ script. IsValid script) }
{
    let mut rng = Lcg64Xsh32::new(seed, 11);
    let layout = machine(alloc)?;
    let lists = draw_lists(alloc, 4, &mut rng)?;
    let go = draw_schedule(alloc, 20_000, &mut rng)?;
    Ok(Script { layout, lists, go })
}

/// The lists of the first processors.
fn draw_lists(
    alloc: Global,
    cpus: u8,
    rng: &mut Lcg64Xsh32,
) -> Result<List<List<Command>>, OutOfMemory>
    requires cpus { cpus < 5 }
    ensures { IfOk result (λ drawn. (drawn, rng.new) ≡ lists cpus rng.old) }
{
    let mut lists = List::new(alloc);
    for cpu in 0..cpus {
        lists.push(draw_list(alloc, cpu, 1000, rng)?)?;
    }
    Ok(lists)
}

/// So many commands of a processor.
fn draw_list(
    alloc: Global,
    cpu: u8,
    count: u16,
    rng: &mut Lcg64Xsh32,
) -> Result<List<Command>, OutOfMemory>
    requires cpu { cpu < 4 }
    ensures { IfOk result (λ drawn. (drawn, rng.new) ≡ many (command cpu) count rng.old) }
{
    let mut list = Vec::with_capacity(alloc, usize::from(count))?;
    for _number in 0..count {
        list.push_reserved(draw_command(cpu, rng));
    }
    Ok(List::from_vec(list))
}

/// So many words of schedule.
fn draw_schedule(alloc: Global, count: u16, rng: &mut Lcg64Xsh32) -> Result<List<Go>, OutOfMemory>
    ensures { IfOk result (λ drawn. (drawn, rng.new) ≡ many go count rng.old) }
{
    let mut words = Vec::with_capacity(alloc, usize::from(count))?;
    for _number in 0..count {
        words.push_reserved(draw_go(rng));
    }
    Ok(List::from_vec(words))
}

/// A word of schedule: one turn of a processor.
fn draw_go(rng: &mut Lcg64Xsh32) -> Go
    ensures { (result, rng.new) ≡ go rng.old }
{
    Go {
        cpu: Cpu(draw(rng, 4)),
        until: Until::One,
    }
}
