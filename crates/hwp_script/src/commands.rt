ghost use Rattle.std.specs.Prelude.{◌≡◌, ◌<◌, ◌≤◌, IfOk};
ghost use Rattle.hwp_script.specs.Commands.{accessed, called, chosen, chosen_access, chosen_change, chosen_failure, command, frame_at, marred, numbered, page_at, scrub_of, slot_at, stored, thread_at};
ghost use Rattle.hwp_script.specs.Draws.{after, drawn};

use crate::draws::{draw, draw_word};
use hwp_script_read::{Command, FileNo, Frame, Line, Page, PrctlArgs, Thread, VSlot};
use rand_pcg::Lcg64Xsh32;

/// A command of a processor, whose kind is drawn first.
pub(crate) fn draw_command(cpu: u8, rng: &mut Lcg64Xsh32) -> Command
    requires cpu { cpu < 4 }
    ensures { (result, rng.new) ≡ command cpu rng.old }
{
    let kind = draw(rng, 100);
    draw_chosen(cpu, kind, rng)
}

/// A command of the kind that a number below 100 chooses.
fn draw_chosen(cpu: u8, kind: u8, rng: &mut Lcg64Xsh32) -> Command
    requires cpu { cpu < 4 }
    ensures { (result, rng.new) ≡ chosen cpu kind rng.old }
{
    if kind < 74 {
        draw_access(cpu, kind, rng)
    } else if kind < 91 {
        draw_change(cpu, kind, rng)
    } else {
        draw_failure(kind, rng)
    }
}

/// A load, a store or a fetch.
fn draw_access(cpu: u8, kind: u8, rng: &mut Lcg64Xsh32) -> Command
    requires cpu { cpu < 4 }
    ensures { (result, rng.new) ≡ chosen_access cpu kind rng.old }
{
    if kind < 45 {
        draw_load(cpu, rng)
    } else if kind < 70 {
        draw_store(cpu, rng)
    } else {
        draw_fetch(cpu, rng)
    }
}

fn draw_load(cpu: u8, rng: &mut Lcg64Xsh32) -> Command
    requires cpu { cpu < 4 }
    ensures { (result, rng.new) ≡ accessed Command.Load cpu rng.old }
{
    let thread = draw_thread(cpu, rng);
    let slot = draw_slot(cpu, rng);
    let line = draw_line(rng);
    Command::Load { thread, slot, line }
}

fn draw_fetch(cpu: u8, rng: &mut Lcg64Xsh32) -> Command
    requires cpu { cpu < 4 }
    ensures { (result, rng.new) ≡ accessed Command.Fetch cpu rng.old }
{
    let thread = draw_thread(cpu, rng);
    let slot = draw_slot(cpu, rng);
    let line = draw_line(rng);
    Command::Fetch { thread, slot, line }
}

fn draw_store(cpu: u8, rng: &mut Lcg64Xsh32) -> Command
    requires cpu { cpu < 4 }
    ensures { (result, rng.new) ≡ stored cpu rng.old }
{
    let thread = draw_thread(cpu, rng);
    let slot = draw_slot(cpu, rng);
    let line = draw_line(rng);
    let word = u64::from(draw_word(rng));
    Command::Store {
        thread,
        slot,
        line,
        word,
    }
}

/// A command by which pages, files or policies change.
fn draw_change(cpu: u8, kind: u8, rng: &mut Lcg64Xsh32) -> Command
    requires cpu { cpu < 4 }
    ensures { (result, rng.new) ≡ chosen_change cpu kind rng.old }
{
    if kind < 78 {
        let slot = VSlot(u16::from(draw(rng, 80)));
        Command::Free { slot }
    } else if kind < 81 {
        let page = Page(u16::from(draw(rng, 40)));
        Command::Drop { page }
    } else if kind < 84 {
        let page = Page(u16::from(draw(rng, 20)) * 2 + 1);
        Command::Sync { page }
    } else if kind < 87 {
        let page = Page(u16::from(draw(rng, 20)) * 2);
        Command::Out { page }
    } else if kind < 89 {
        let file = FileNo(draw(rng, 2));
        Command::Fsync { file }
    } else {
        draw_call(cpu, rng)
    }
}

/// A call of prctl(2) that sets the policy of a thread: PR_MCE_KILL, PR_MCE_KILL_SET, and late, early or default.
fn draw_call(cpu: u8, rng: &mut Lcg64Xsh32) -> Command
    requires cpu { cpu < 4 }
    ensures { (result, rng.new) ≡ called cpu rng.old }
{
    let thread = draw_thread(cpu, rng);
    let args = PrctlArgs {
        operation: 33,
        arg2: 1,
        arg3: u64::from(draw(rng, 3)),
        arg4: 0,
        arg5: 0,
    };
    Command::Prctl { thread, args }
}

/// A command by which memory fails, or is tested or taken back.
fn draw_failure(kind: u8, rng: &mut Lcg64Xsh32) -> Command
    ensures { (result, rng.new) ≡ chosen_failure kind rng.old }
{
    if kind < 94 {
        draw_damage(kind, rng)
    } else if kind < 95 {
        let first = u16::from(draw(rng, 4)) * 16;
        Command::Scrub {
            first: Frame(first),
            last: Frame(first + 15),
        }
    } else if kind < 97 {
        let frame = draw_frame(rng);
        Command::Inject { frame }
    } else if kind < 99 {
        let frame = draw_frame(rng);
        Command::Soft { frame }
    } else {
        let frame = draw_frame(rng);
        Command::Unpoison { frame }
    }
}

/// A line that goes bad, or gets weak.
fn draw_damage(kind: u8, rng: &mut Lcg64Xsh32) -> Command
    requires kind { kind < 94 }
    ensures { (result, rng.new) ≡ chosen_failure kind rng.old }
{
    let frame = draw_frame(rng);
    let line = draw_line(rng);
    if kind < 93 {
        Command::Bad { frame, line }
    } else {
        Command::Weak { frame, line }
    }
}

/// One of the two threads of a processor.
fn draw_thread(cpu: u8, rng: &mut Lcg64Xsh32) -> Thread
    requires cpu { cpu < 4 }
    ensures thread { result ≡ thread_at cpu (drawn 2 rng.old) }
    ensures after { rng.new ≡ after rng.old }
{
    Thread(cpu + draw(rng, 2) * 4)
}

/// One of the twenty translations of the process of the processor's number.
fn draw_slot(cpu: u8, rng: &mut Lcg64Xsh32) -> VSlot
    requires cpu { cpu < 4 }
    ensures slot { result ≡ slot_at cpu (drawn 20 rng.old) }
    ensures after { rng.new ≡ after rng.old }
{
    let place = draw(rng, 20);
    let slot = if place < 10 {
        cpu + place * 4
    } else {
        40 + (cpu + 3) % 4 + (place - 10) * 4
    };
    VSlot(u16::from(slot))
}

/// One of the first 64 frames.
fn draw_frame(rng: &mut Lcg64Xsh32) -> Frame
    ensures frame { result ≡ frame_at (drawn 64 rng.old) }
    ensures after { rng.new ≡ after rng.old }
{
    Frame(u16::from(draw(rng, 64)))
}

fn draw_line(rng: &mut Lcg64Xsh32) -> Line
    ensures line { result ≡ drawn 64 rng.old }
    ensures after { rng.new ≡ after rng.old }
{
    let Some(line) = Line::new(draw(rng, 64)) else {
        unreachable!()
    };
    line
}
