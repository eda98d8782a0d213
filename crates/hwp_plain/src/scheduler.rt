ghost use Rattle.std.specs.Prelude.{◌≡◌, ◌≢◌, Some, None, ℕ, ◌<◌, ◌≤◌, ◌↔◌, List, length, map, take, All, IfOk, OnOk, OnErr, IsTrue};
ghost use Rattle.hwp_script_words.specs.hwp_geom.Limits.{cpu_limit};
ghost use Rattle.hwp_script_words.specs.declared.Go.{Go as GoOf};
ghost use Rattle.hwp_core_rule.specs.Classes.{IsScheduled};
ghost use Rattle.hwp_plain.specs.Order.{running, IsNoMemory, EndsCommand, EndsWord, Word, Finishing, InOrder, Grows, IsRefused, AreOver};
ghost use Rattle.hwp_plain.specs.Ready.{IsCrew, InPlay, Ready, TurnOrNone, TurnOrOver, IsFinished, IsNext};

use hwp_core_rule::{Board, Scheduled, Turn, is_over};
use hwp_script_words::{Cpu, Go, Kind, MAX_CPUS, OutOfMemory, Until};
use std::alloc::AllocError;

/// The level of a task that was found to be over, above all classes.
const OVER: u8 = 5;

/// A place for each processor of the largest machine.
const PLACES: usize = MAX_CPUS as usize;

/// The classes of the tasks, and `OVER` in the places that are left.
fn levels_of<T: Scheduled>(tasks: &[T]) -> [u8; PLACES]
    requires few { length tasks.now ≤ cpu_limit }
    ensures { (length result ≡ cpu_limit) × (take (length tasks.now) result ≡ map T.task.class tasks.now) }
{
    let mut levels = [OVER; PLACES];
    for (i, task) in tasks.iter().enumerate() {
        levels[i] = task.class();
    }
    levels
}

/// The lowest-numbered of the lowest level, where one isn't over.
fn choose(levels: &[u8]) -> Option<usize>
    ensures { IsNext levels.now result }
{
    let mut least = OVER;
    let mut chosen = None;
    for (i, level) in levels.iter().enumerate() {
        if *level < least {
            least = *level;
            chosen = Some(i);
        }
    }
    chosen
}

/// Whether the turn ends a command, or waits.
#[inline(always)]
fn ends(turn: Turn) -> bool
    ensures { IsTrue result ↔ EndsCommand turn }
{
    matches!(turn, Turn::Answered | Turn::Waits(_))
}

/// Whether the step was of this kind.
#[inline(always)]
fn is_of(kind: Option<Kind>, wanted: Kind) -> bool
    ensures { IsTrue result ↔ (kind ≡ Some wanted) }
{
    kind == Some(wanted)
}

/// Whether a word of the schedule ends with this turn.
fn is_end(until: Until, turn: Turn, kind: Option<Kind>) -> bool
    ensures { IsTrue result ↔ EndsWord until (turn, kind) }
{
    match until {
        Until::One => true,
        Until::Command => ends(turn),
        Until::After(wanted) => ends(turn) || is_of(kind, wanted),
    }
}

/// Whether the turn tells that there was none.
fn is_finished(turn: Turn) -> bool
    ensures { IsTrue result ↔ IsFinished turn }
{
    matches!(turn, Turn::Finished)
}

/// Whether there was no turn, because the task is over.
#[inline(always)]
fn is_none<T: Scheduled>(turn: Turn, task: &T) -> bool
    ensures over { IsTrue result → T.task.plan task.now ≡ None }
    ensures on { IsFinished turn → T.task.plan task.now ≡ None → IsTrue result }
{
    is_finished(turn) && is_over(task)
}

/// The level of a task after its turn: its class, or `OVER` where there was no turn. A task that came to its end by the turn
/// keeps a class until it is chosen once more.
#[inline(always)]
fn level_after<T: Scheduled>(turn: Turn, task: &T) -> u8
    ensures over { IsFinished turn → T.task.plan task.now ≡ None → result ≡ 5 }
    ensures on { T.task.plan task.now ≢ None → result ≡ T.task.class task.now }
{
    if is_none(turn, task) {
        OVER
    } else {
        task.class()
    }
}

/// Whether the task gave up because memory ran out.
fn is_refused(turn: Turn) -> bool
    ensures { IsTrue result ↔ IsNoMemory turn }
{
    matches!(turn, Turn::NoMemory)
}

/// A turn of a processor, or none where it is over.
#[inline(always)]
fn take_turn<B: Board, T: Scheduled>(
    board: &mut B,
    tasks: &mut [T],
    cpu: Cpu,
) -> Result<(Turn, Option<Kind>), OutOfMemory>
    requires ready { Ready T.task (running (B.layout board.old) (B.seat board.old) tasks.old (B.state board.old)) }
    requires cpu { cpu.0 < length tasks.old }
    ensures ready { OnOk result (Ready T.task (running (B.layout board.new) (B.seat board.new) tasks.new (B.state board.new))) }
    ensures count { length tasks.new ≡ length tasks.old }
    ensures turn { IfOk result (λ told. TurnOrNone T.task (running (B.layout board.old) (B.seat board.old) tasks.old (B.state board.old)) cpu.0 (B.log board.old) (B.log board.new) told (running (B.layout board.new) (B.seat board.new) tasks.new (B.state board.new))) }
    ensures refused { OnErr result (IsRefused (B.log board.new)) }
{
    let (turn, kind) = board.advance(cpu, &mut tasks[cpu.0 as usize]);
    board.keeps();
    if is_refused(turn) {
        return Err(AllocError);
    }
    Ok((turn, kind))
}

/// A turn of a processor, or none where it is over, and the array of levels as it is after it.
fn make_turn<B: Board, T: Scheduled>(
    board: &mut B,
    tasks: &mut [T],
    levels: &mut [u8; PLACES],
    cpu: usize,
) -> Result<(Turn, Option<Kind>), OutOfMemory>
    requires play { InPlay T.task levels.old (running (B.layout board.old) (B.seat board.old) tasks.old (B.state board.old)) }
    requires cpu { cpu < length tasks.old }
    ensures play { OnOk result (InPlay T.task levels.new (running (B.layout board.new) (B.seat board.new) tasks.new (B.state board.new))) }
    ensures count { length tasks.new ≡ length tasks.old }
    ensures turn { IfOk result (λ told. TurnOrOver T.task (running (B.layout board.old) (B.seat board.old) tasks.old (B.state board.old)) cpu (B.log board.old) (B.log board.new) levels.old levels.new told (running (B.layout board.new) (B.seat board.new) tasks.new (B.state board.new))) }
    ensures refused { OnErr result (IsRefused (B.log board.new)) }
{
    let told = take_turn(board, tasks, Cpu(cpu as u8))?;
    levels[cpu] = level_after(told.0, &tasks[cpu]);
    Ok(told)
}

/// The turns of a word of the schedule.
fn play_word<B: Board, T: Scheduled>(
    board: &mut B,
    tasks: &mut [T],
    go: &Go,
) -> Result<(), OutOfMemory>
    requires ready { Ready T.task (running (B.layout board.old) (B.seat board.old) tasks.old (B.state board.old)) }
    requires cpu { go.now.cpu.0 < length tasks.old }
    ensures ready { OnOk result (Ready T.task (running (B.layout board.new) (B.seat board.new) tasks.new (B.state board.new))) }
    ensures count { length tasks.new ≡ length tasks.old }
    ensures word { OnOk result (Grows (B.log board.old) (B.log board.new) (λ ps. Word T.task go.now (running (B.layout board.old) (B.seat board.old) tasks.old (B.state board.old)) ps (running (B.layout board.new) (B.seat board.new) tasks.new (B.state board.new)))) }
    ensures refused { OnErr result (IsRefused (B.log board.new)) }
{
    let cpu = usize::from(go.cpu.0);
    loop {
        let (turn, kind) = take_turn(board, tasks, go.cpu)?;
        if is_end(go.until, turn, kind) {
            return Ok(());
        }
        if is_none(turn, &tasks[cpu]) {
            return Ok(());
        }
    }
}

/// The turns of the finishing order: each goes to the lowest-numbered processor of the lowest class. A task that is over is
/// chosen once more, and is found out by its turn.
fn finish<B: Board, T: Scheduled>(
    board: &mut B,
    tasks: &mut [T],
    levels: &mut [u8; PLACES],
) -> Result<(), OutOfMemory>
    requires play { InPlay T.task levels.old (running (B.layout board.old) (B.seat board.old) tasks.old (B.state board.old)) }
    ensures play { OnOk result (InPlay T.task levels.new (running (B.layout board.new) (B.seat board.new) tasks.new (B.state board.new))) }
    ensures over { OnOk result (AreOver T.task tasks.new) }
    ensures order { OnOk result (Grows (B.log board.old) (B.log board.new) (λ ps. Finishing T.task (running (B.layout board.old) (B.seat board.old) tasks.old (B.state board.old)) ps (running (B.layout board.new) (B.seat board.new) tasks.new (B.state board.new)))) }
    ensures refused { OnErr result (IsRefused (B.log board.new)) }
{
    let mut next = choose(&levels[..tasks.len()]);
    while let Some(cpu) = next {
        make_turn(board, tasks, levels, cpu)?;
        next = choose(&levels[..tasks.len()]);
    }
    Ok(())
}

/// All turns of the tasks: those of the schedule, word by word, and then those of the finishing order, until all tasks are
/// over. The log of the board lists them.
///
/// # Errors
/// `OutOfMemory` at the first turn in which a task gives up because memory ran out.
pub fn step_all<B: Board, T: Scheduled>(
    board: &mut B,
    tasks: &mut [T],
    go: &[Go],
) -> Result<(), OutOfMemory>
    requires crew { IsCrew T.task (running (B.layout board.old) (B.seat board.old) tasks.old (B.state board.old)) }
    requires words { All (λ (g : GoOf). g.cpu.0 < length tasks.old) go.now }
    ensures crew { OnOk result (IsCrew T.task (running (B.layout board.new) (B.seat board.new) tasks.new (B.state board.new))) }
    ensures over { OnOk result (AreOver T.task tasks.new) }
    ensures order { OnOk result (Grows (B.log board.old) (B.log board.new) (λ ps. InOrder T.task go.now (running (B.layout board.old) (B.seat board.old) tasks.old (B.state board.old)) ps (running (B.layout board.new) (B.seat board.new) tasks.new (B.state board.new)))) }
    ensures refused { OnErr result (IsRefused (B.log board.new)) }
{
    board.keeps();
    T::ranked();
    T::tells();
    for word in go {
        play_word(board, tasks, word)?;
    }
    let mut levels = levels_of(tasks);
    finish(board, tasks, &mut levels)?;
    Ok(())
}
