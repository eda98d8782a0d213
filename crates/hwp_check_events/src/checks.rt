ghost use Rattle.std.specs.Prelude.{◌≡◌, ◌<◌, ◌^◌, ◌++◌, ◌∷◌, [], cond, length, sum_by, IfOk, OnOk};
ghost use Rattle.hwp_law.specs.Commands.{is_check};
ghost use Rattle.hwp_check_events.specs.Indexed.{AreAdded, AreChecks, AreFew, all_checkers, checker, checks_by, page_checkers, with_check};

use hwp_law::{Cpu, Entry, List, OutOfMemory, Report, What, Who};
use std::alloc::Global;

/// Whether the entry is a machine check of an access.
fn is_check(what: &What) -> bool
    ensures { result ≡ is_check what.now }
{
    matches!(what, What::Mce { .. })
}

/// Adds a command that is flagged.
fn add_if(out: &mut Vec<Who>, flag: bool, who: Who) -> Result<(), OutOfMemory>
    ensures { OnOk result (out.new.items ≡ out.old.items ++ cond flag (who ∷ []) []) }
{
    if flag {
        out.push(who)?;
    }
    Ok(())
}

/// Adds the command of an entry, where it is a machine check of an access.
fn add_checker(out: &mut Vec<Who>, entry: &Entry) -> Result<(), OutOfMemory>
    ensures { OnOk result (out.new.items ≡ out.old.items ++ checker entry.now) }
{
    add_if(out, is_check(&entry.what), entry.who)
}

/// Adds those of a page's entries.
fn add_page(out: &mut Vec<Who>, entries: &[Entry]) -> Result<(), OutOfMemory>
    ensures { OnOk result (out.new.items ≡ out.old.items ++ page_checkers entries.now) }
{
    for entry in entries {
        add_checker(out, entry)?;
    }
    Ok(())
}

/// Adds those of all histories.
fn add_pages(out: &mut Vec<Who>, pages: &[List<Entry>]) -> Result<(), OutOfMemory>
    ensures { OnOk result (out.new.items ≡ out.old.items ++ all_checkers pages.now) }
{
    for entries in pages {
        add_page(out, entries.as_slice())?;
    }
    Ok(())
}

/// The commands of the machine checks of an access that the histories show, one for each. A processor's are counted from these, since
/// the entries of a long report are far more than a processor's cache holds.
pub fn checkers_of(alloc: Global, report: &Report) -> Result<Vec<Who>, OutOfMemory>
    ensures { IfOk result (λ list. list.items ≡ all_checkers report.now.pages) }
{
    let mut list = Vec::new(alloc);
    add_pages(&mut list, report.pages.as_slice())?;
    Ok(list)
}

/// Counts a machine check for its command, where it is one of the processor's.
fn add_check(counts: &mut Vec<u64>, cpu: Cpu, who: &Who)
    requires room { AreFew counts.old.items 1 }
    ensures { counts.new.items ≡ with_check cpu who.now counts.old.items }
{
    if cpu.0 == who.cpu.0 {
        let at = who.seq as usize;
        if at < counts.len() {
            counts[at] += 1;
        }
    }
}

/// Counts machine checks so.
fn add_checks(counts: &mut Vec<u64>, cpu: Cpu, checkers: &[Who])
    requires room { AreFew counts.old.items (length checkers.now) }
    ensures { AreAdded (λ seq. checks_by cpu seq checkers.now) counts.old.items counts.new.items }
{
    for number in 0..checkers.len() {
        add_check(counts, cpu, &checkers[number]);
    }
}

/// For each of so many commands of a processor how many machine checks of an access the histories show.
pub(crate) fn checks_by_command(
    alloc: Global,
    count: usize,
    cpu: Cpu,
    pages: &[List<Entry>],
    checkers: &[Who],
) -> Result<Vec<u64>, OutOfMemory>
    requires room { sum_by length pages.now < 2 ^ 64 }
    requires checkers { checkers.now ≡ all_checkers pages.now }
    ensures { IfOk result (λ counts. AreChecks cpu count pages.now counts.items) }
{
    let _pages = pages;
    let mut counts = Vec::new(alloc);
    counts.resize(count, 0)?;
    add_checks(&mut counts, cpu, checkers);
    Ok(counts)
}
