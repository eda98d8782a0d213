ghost use Rattle.std.specs.Prelude.{◌≡◌, ◌+◌, ◌<◌, ◌^◌, ◌++◌, length, IfOk, OnOk};
ghost use Rattle.std.specs.List.{sum_by};
ghost use Rattle.hwp_check_state.specs.Sights.{entry_sights, listed_sights, page_sights, pages_sights};
ghost use Rattle.hwp_check_rules.specs.Standing.{entry_height, page_height};

use hwp_check_rules::{Entry, List, OutOfMemory, Seen, What, Who, entry_height};

/// A policy that a failure's entry lists as seen: the command of the entry, what was seen, and the line of the report.
#[derive(Clone, Copy)]
pub struct Sight {
    pub who: Who,
    pub seen: Seen,
    pub line: u64,
}

/// Adds the policies seen of an entry of a command; the first of them is on the line.
fn add_listed(out: &mut Vec<Sight>, who: Who, list: &[Seen], first: u64) -> Result<(), OutOfMemory>
    requires room { first + length list.now < 2 ^ 64 }
    ensures { OnOk result (out.new.items ≡ out.old.items ++ listed_sights who first list.now) }
{
    let mut line = first;
    for seen in list {
        out.push(Sight {
            who,
            seen: *seen,
            line,
        })?;
        line += 1;
    }
    Ok(())
}

/// Adds those of the entry on the line.
fn add_entry(out: &mut Vec<Sight>, entry: &Entry, line: u64) -> Result<(), OutOfMemory>
    requires room { line + entry_height entry.now < 2 ^ 64 }
    ensures { OnOk result (out.new.items ≡ out.old.items ++ entry_sights line entry.now) }
{
    match &entry.what {
        What::Fail { seen, .. } => add_listed(out, entry.who, seen.as_slice(), line + 1),
        _ => Ok(()),
    }
}

/// Adds those of a page's entries, the first of which is on the line. It answers the line behind them.
fn add_page(out: &mut Vec<Sight>, entries: &[Entry], first: u64) -> Result<u64, OutOfMemory>
    requires room { first + sum_by entry_height entries.now < 2 ^ 64 }
    ensures line { IfOk result (λ line. line ≡ first + sum_by entry_height entries.now) }
    ensures sights { OnOk result (out.new.items ≡ out.old.items ++ page_sights first entries.now) }
{
    let mut line = first;
    for entry in entries {
        add_entry(out, entry, line)?;
        line += entry_height(entry);
    }
    Ok(line)
}

/// Adds those of pages, the first of which has its heading on the line.
pub(crate) fn add_pages(
    out: &mut Vec<Sight>,
    pages: &[List<Entry>],
    first: u64,
) -> Result<(), OutOfMemory>
    requires room { first + sum_by page_height pages.now < 2 ^ 64 }
    ensures { OnOk result (out.new.items ≡ out.old.items ++ pages_sights first pages.now) }
{
    let mut line = first;
    for entries in pages {
        line = add_page(out, entries.as_slice(), line + 1)?;
    }
    Ok(())
}
