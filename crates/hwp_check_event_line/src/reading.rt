ghost use Rattle.std.specs.Prelude.{◌≡◌, [], slice_get, unwrap_or};
ghost use Rattle.std.specs.List.{list_any};
ghost use Rattle.hwp_law.specs.Commands.{has_watch, is_watch};
ghost use Rattle.hwp_check_event_line.specs.Reading.{copies_in, entries_through};

use hwp_law::{Command, Cpu, CpuLine, Entry, Layout, List, Page, Report, Script, VSlot, Who};

/// The translation that the command copied from, if it copied.
pub fn copy_of(copies: &[List<Option<VSlot>>], who: Who) -> Option<VSlot>
    ensures { result ≡ copies_in copies.now who }
{
    match copies.get(usize::from(who.cpu.0)) {
        Some(list) => match list.as_slice().get(who.seq as usize) {
            Some(from) => *from,
            None => None,
        },
        None => None,
    }
}

/// Whether the command gives its processor a collector of corrected errors.
fn is_watch(command: &Command) -> bool
    ensures { result ≡ is_watch command.now }
{
    matches!(*command, Command::Watch { .. })
}

/// Whether one of the commands is a `watch`.
pub fn watches(commands: &[Command]) -> bool
    ensures { result ≡ list_any is_watch commands.now }
{
    commands.iter().any(is_watch)
}

/// Whether a command of the script is a `watch`.
pub fn has_watch(script: &Script) -> bool
    ensures { result ≡ has_watch script.now }
{
    script
        .lists
        .as_slice()
        .iter()
        .any(|list| watches(list.as_slice()))
}

/// The lines of a processor with the number.
pub fn rows_at(report: &Report, number: usize) -> &[CpuLine]
    ensures { result.now ≡ unwrap_or (slice_get report.now.cpus number) [] }
{
    match report.cpus.as_slice().get(number) {
        Some(rows) => rows.as_slice(),
        None => &[],
    }
}

/// The lines of a processor.
pub fn rows_on(report: &Report, cpu: Cpu) -> &[CpuLine]
    ensures { result.now ≡ unwrap_or (slice_get report.now.cpus cpu.0) [] }
{
    rows_at(report, usize::from(cpu.0))
}

/// The entries of a page; none where the report has no such page.
pub fn entries_on(report: &Report, page: Page) -> &[Entry]
    ensures { result.now ≡ unwrap_or (slice_get report.now.pages page.0) [] }
{
    match report.pages.as_slice().get(usize::from(page.0)) {
        Some(entries) => entries.as_slice(),
        None => &[],
    }
}

/// The entries of the page of a translation.
pub fn entries_through<'a>(layout: &Layout, report: &'a Report, slot: VSlot) -> &'a [Entry]
    ensures { result.now ≡ entries_through layout.now report.now slot }
{
    match layout.trans.as_slice().get(usize::from(slot.0)) {
        Some(translation) => entries_on(report, translation.page),
        None => &[],
    }
}
