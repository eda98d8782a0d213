ghost use Rattle.std.specs.Prelude.{◌≡◌, ◌<◌, ◌≤◌, ◌^◌, ◌++◌, ◌∷◌, [], cond, false, IfOk, OnOk, get_or, length, map};
ghost use Rattle.hwp_law.specs.Copies.{checks_by, copy_checks, lines_at};
ghost use Rattle.hwp_law.specs.Lines.{is_same_command};
ghost use Rattle.hwp_check_event_line.specs.Reading.{copies_in};
ghost use Rattle.hwp_check_events.specs.Copied.{AreCopied, checks_in, copied_by, is_counted, own_whats, pair_of, test_of};

use hwp_check_event_line::{copy_of, entries_through, is_same_command};
use hwp_law::{Command, Cpu, Entry, Layout, Line, List, OutOfMemory, Report, VSlot, What, Who};
use std::alloc::Global;

/// A machine check of a copy: how many loads, or stores, stand before it in its page, and its line.
#[derive(Clone, Copy)]
pub struct CopyCheck {
    pub before: u64,
    pub line: Line,
}

/// Which entries are counted before a machine check.
#[derive(Clone, Copy)]
pub enum Counted {
    Loads,
    Stores,
}

/// Whether the entry is one of those that are counted.
fn counts(counted: Counted, what: &What) -> bool
    ensures { result ≡ test_of counted what.now }
{
    match counted {
        Counted::Loads => matches!(what, What::Load { .. }),
        Counted::Stores => matches!(what, What::Store { .. }),
    }
}

/// Notes an entry of the command, with so many counted entries before it: its line, where it is a machine check. The result is whether it is
/// counted itself.
#[tactic(auto, using(crate::proofs::CopyLaws::one_more))]
fn note_own(
    checks: &mut Vec<CopyCheck>,
    counted: Counted,
    before: u64,
    what: &What,
) -> Result<bool, OutOfMemory>
    ensures checks { OnOk result (map pair_of checks.new.items ≡ map pair_of checks.old.items ++ checks_in before what.now) }
    ensures counted { IfOk result (λ is. is ≡ is_counted (test_of counted) what.now) }
{
    match what {
        What::Mce { line, .. } => {
            checks.push(CopyCheck {
                before,
                line: *line,
            })?;
            Ok(false)
        }
        _ => Ok(counts(counted, what)),
    }
}

/// The same of any entry: one of another command is neither noted nor counted.
fn note(
    checks: &mut Vec<CopyCheck>,
    counted: Counted,
    who: Who,
    before: u64,
    entry: &Entry,
) -> Result<bool, OutOfMemory>
    ensures checks { OnOk result (map pair_of checks.new.items ≡ map pair_of checks.old.items ++ cond (is_same_command who entry.now.who) (checks_in before entry.now.what) []) }
    ensures counted { IfOk result (λ is. is ≡ cond (is_same_command who entry.now.who) (is_counted (test_of counted) entry.now.what) false) }
{
    if is_same_command(who, entry.who) {
        note_own(checks, counted, before, &entry.what)
    } else {
        Ok(false)
    }
}

/// The machine checks of the command among the entries of a page, with how many are counted before each.
fn gather(
    alloc: Global,
    counted: Counted,
    who: Who,
    entries: &[Entry],
) -> Result<Vec<CopyCheck>, OutOfMemory>
    ensures { IfOk result (λ checks. map pair_of checks.items ≡ checks_by (test_of counted) 0 (own_whats who entries.now)) }
{
    let mut checks = Vec::new(alloc);
    let mut before = 0;
    for entry in entries {
        let more = note(&mut checks, counted, who, before, entry)?;
        before += u64::from(more);
    }
    Ok(checks)
}

/// How many of the entries are the command's.
fn own_count(who: Who, entries: &[Entry]) -> u64
    ensures own { result ≡ length (own_whats who entries.now) }
    ensures few { result ≤ length entries.now }
{
    let mut own = 0;
    for entry in entries {
        own += u64::from(is_same_command(who, entry.who));
    }
    own
}

/// Adds the line of the machine check, if it has so many entries before it.
fn add_one(out: &mut Vec<Line>, n: u64, check: CopyCheck) -> Result<(), OutOfMemory>
    ensures { OnOk result (out.new.items ≡ out.old.items ++ lines_at n (pair_of check ∷ [])) }
{
    if check.before == n {
        out.push(check.line)?;
    }
    Ok(())
}

/// Adds the lines of those machine checks that have so many entries before them.
fn add_at(out: &mut Vec<Line>, n: u64, checks: &[CopyCheck]) -> Result<(), OutOfMemory>
    ensures { OnOk result (out.new.items ≡ out.old.items ++ lines_at n (map pair_of checks.now)) }
{
    for check in checks {
        add_one(out, n, *check)?;
    }
    Ok(())
}

/// The lines of the machine checks of a copy, in order.
fn copy_checks(
    alloc: Global,
    layout: &Layout,
    report: &Report,
    who: Who,
    from: VSlot,
    to: VSlot,
) -> Result<List<Line>, OutOfMemory>
    ensures { IfOk result (λ lines. lines ≡ copy_checks layout.now report.now who from to) }
{
    let copied = entries_through(layout, report, from);
    let own = entries_through(layout, report, to);
    let loads = gather(alloc, Counted::Loads, who, copied)?;
    let stores = gather(alloc, Counted::Stores, who, own)?;
    let mut lines = Vec::new(alloc);
    for n in 0..own_count(who, copied) + own_count(who, own) + 1 {
        add_at(&mut lines, n, loads.as_slice())?;
        add_at(&mut lines, n, stores.as_slice())?;
    }
    Ok(List::from_vec(lines))
}

/// The lines of the machine checks of a command's copy; none where it doesn't copy.
fn copied_by(
    alloc: Global,
    layout: &Layout,
    copies: &[List<Option<VSlot>>],
    report: &Report,
    who: Who,
    command: &Command,
) -> Result<List<Line>, OutOfMemory>
    ensures { IfOk result (λ lines. lines ≡ copied_by layout.now (copies_in copies.now) report.now who command.now) }
{
    let Command::Store { slot, .. } = *command else {
        return Ok(List::new(alloc));
    };
    match copy_of(copies, who) {
        Some(from) => copy_checks(alloc, layout, report, who, from, slot),
        None => Ok(List::new(alloc)),
    }
}

/// The same for each command of a processor, or no lists where no processor copied.
#[tactic(auto, using(crate::proofs::CopyLaws::none_yet, crate::proofs::CopyLaws::none_copied))]
pub(crate) fn copied_of(
    alloc: Global,
    layout: &Layout,
    copies: &[List<Option<VSlot>>],
    report: &Report,
    cpu: Cpu,
    commands: &[Command],
) -> Result<List<List<Line>>, OutOfMemory>
    requires few { length commands.now < 2 ^ 32 }
    ensures { IfOk result (AreCopied layout.now (copies_in copies.now) report.now cpu commands.now (length commands.now)) }
{
    if copies.is_empty() {
        return Ok(List::new(alloc));
    }
    let mut lists = Vec::new(alloc);
    for number in 0..commands.len() {
        let seq = number as u32;
        let who = Who { cpu, seq };
        lists.push(copied_by(alloc, layout, copies, report, who, &commands[number])?)?;
    }
    Ok(List::from_vec(lists))
}

/// The list with the number, or an empty one.
pub(crate) fn list_at(lists: &[List<Line>], number: usize) -> &[Line]
    ensures { result.now ≡ get_or lists.now number [] }
{
    match lists.get(number) {
        Some(list) => list.as_slice(),
        None => &[],
    }
}
