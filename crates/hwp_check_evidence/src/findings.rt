ghost use Rattle.std.specs.Prelude.{◌≡◌, ◌≤◌, [], false, fold, replicate, IfOk, OnOk, length};
ghost use Rattle.hwp_law.specs.hwp_geom.Limits.{page_limit};
ghost use Rattle.hwp_check_evidence.specs.Ends.{any_ended, never, own_page_ends, process_numbers};
ghost use Rattle.hwp_check_evidence.specs.Firsts.{is_named};
ghost use Rattle.hwp_check_evidence.specs.Findings.{AreFound, IsAdded};
ghost use Rattle.hwp_check_evidence.specs.Named.{flagged_page};
ghost use Rattle.hwp_check_event_line.specs.Reading.{copies_in};

use crate::ends::{end_any, end_own, no_ends, process_numbers};
use crate::named::flag;
use crate::names::Names;
use crate::windows::{Span, page_span};
use hwp_law::{At, Cpu, Entry, Layout, List, OutOfMemory, Page, VSlot};
use std::alloc::Global;

/// What the histories tell of the commands of one processor.
#[derive(Drop)]
pub struct Findings {
    /// The commands by which processes had ended in each page.
    pub ends: Vec<List<u64>>,
    /// The processor's own commands by which they had ended.
    pub ended: Vec<u64>,
    /// Where its commands stand in each page.
    pub spans: Vec<Span>,
    /// Which of its commands have an entry that one of their lines has to name, and none does.
    pub others: Vec<bool>,
}

/// Notes what the entries of a page end, and which of them no line of their command names, in one pass over the entries.
fn note_page(
    ends: &mut Vec<u64>,
    ended: &mut Vec<u64>,
    others: &mut Vec<bool>,
    layout: &Layout,
    names: &Names,
    copies: &[List<Option<VSlot>>],
    cpu: Cpu,
    page: Page,
    entries: &[Entry],
)
    ensures any { ends.new.items ≡ fold (any_ended layout.now cpu) ends.old.items entries.now }
    ensures own { ended.new.items ≡ own_page_ends layout.now cpu ended.old.items entries.now }
    ensures others { others.new.items ≡ flagged_page (is_named names.now) (copies_in copies.now) cpu page others.old.items 0 entries.now }
{
    let mut number = 0;
    for entry in entries {
        end_any(ends, layout, cpu, entry);
        end_own(ended, layout, cpu, entry);
        flag(
            others,
            names,
            copies,
            cpu,
            At {
                page,
                entry: number,
            },
            entry,
        );
        number += 1;
    }
}

/// Adds what a page's history tells.
fn add_page(
    alloc: Global,
    found: &mut Findings,
    layout: &Layout,
    names: &Names,
    copies: &[List<Option<VSlot>>],
    cpu: Cpu,
    processes: usize,
    page: Page,
    entries: &[Entry],
) -> Result<(), OutOfMemory>
    requires { processes ≡ process_numbers layout.now }
    ensures { OnOk result (IsAdded layout.now (is_named names.now) (copies_in copies.now) cpu page entries.now found.old found.new) }
{
    let mut ends = no_ends(alloc, processes)?;
    note_page(
        &mut ends,
        &mut found.ended,
        &mut found.others,
        layout,
        names,
        copies,
        cpu,
        page,
        entries,
    );
    found.ends.push(List::from_vec(ends))?;
    found.spans.push(page_span(alloc, cpu, entries)?)?;
    Ok(())
}

/// How many numbers of processes there are to keep.
fn processes_of(layout: &Layout) -> usize
    ensures { result ≡ process_numbers layout.now }
{
    process_numbers(layout.threads.as_slice())
}

/// What no histories tell of so many commands and processes.
fn nothing(alloc: Global, commands: usize, processes: usize) -> Result<Findings, OutOfMemory>
    ensures ends { IfOk result (λ found. found.ends.items ≡ []) }
    ensures ended { IfOk result (λ found. found.ended.items ≡ replicate processes never) }
    ensures spans { IfOk result (λ found. found.spans.items ≡ []) }
    ensures others { IfOk result (λ found. found.others.items ≡ replicate commands false) }
{
    let ended = no_ends(alloc, processes)?;
    let others = vec![in alloc; false; commands]?;
    Ok(Findings {
        ends: Vec::new(alloc),
        ended,
        spans: Vec::new(alloc),
        others,
    })
}

/// What the histories tell of so many commands of a processor, whose lines name these places. Each page is read once while it
/// is at hand, since the entries of a long report are far more than a processor's cache holds.
pub fn findings_of(
    alloc: Global,
    layout: &Layout,
    cpu: Cpu,
    commands: usize,
    names: &Names,
    copies: &[List<Option<VSlot>>],
    pages: &[List<Entry>],
) -> Result<Findings, OutOfMemory>
    requires { length pages.now ≤ page_limit }
    ensures { IfOk result (λ found. AreFound layout.now (is_named names.now) (copies_in copies.now) cpu commands pages.now found) }
{
    let processes = processes_of(layout);
    let mut found = nothing(alloc, commands, processes)?;
    let mut number = 0;
    for entries in pages {
        add_page(
            alloc,
            &mut found,
            layout,
            names,
            copies,
            cpu,
            processes,
            Page(number),
            entries.as_slice(),
        )?;
        number += 1;
    }
    Ok(found)
}
