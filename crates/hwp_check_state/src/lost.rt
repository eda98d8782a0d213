ghost use Rattle.std.specs.Prelude.{◌≡◌, ◌+◌, ◌<◌, ◌≤◌, ◌^◌, ◌++◌, length, IfOk, OnOk};
ghost use Rattle.std.specs.List.{All, zip};
ghost use Rattle.std.specs.List.Sorted.{IsNonDecreasingBy};
ghost use Rattle.hwp_check_rules.specs.hwp_page.Losses.{is_loss};
ghost use Rattle.hwp_check_rules.specs.hwp_law.Losses.{is_lost, is_lost_before, losses_such};
ghost use Rattle.hwp_check_state.specs.Lost.{AreLosses, IsSmall, below, entry_losses, key, key_of, kind_losses, list_losses, page_losses};

use hwp_check_rules::{
    Entry, FileNo, List, OutOfMemory, PageKind, Report, Script, Situation, What, Who,
};
use std::alloc::Global;

/// A loss that a history lists: the file, and the command of the entry.
#[derive(Clone, Copy)]
pub struct Loss {
    pub file: FileNo,
    pub who: Who,
}

/// Whether the entry is a failure that lost dirty content of a file.
fn is_loss(what: &What) -> bool
    ensures { result ≡ is_loss what.now }
{
    match what {
        What::Fail { situation, .. } => {
            matches!(situation, Situation::FileDirty | Situation::LockedFile)
        }
        _ => false,
    }
}

/// Adds the loss of an entry, if it is one.
fn add_entry(out: &mut Vec<Loss>, file: FileNo, entry: &Entry) -> Result<(), OutOfMemory>
    ensures { OnOk result (out.new.items ≡ out.old.items ++ entry_losses file entry.now) }
{
    if is_loss(&entry.what) {
        out.push(Loss {
            file,
            who: entry.who,
        })?;
    }
    Ok(())
}

/// Adds those of a page of the file.
fn add_list(out: &mut Vec<Loss>, file: FileNo, entries: &[Entry]) -> Result<(), OutOfMemory>
    ensures { OnOk result (out.new.items ≡ out.old.items ++ list_losses file entries.now) }
{
    for entry in entries {
        add_entry(out, file, entry)?;
    }
    Ok(())
}

/// Adds those of a page of this kind.
fn add_kind(out: &mut Vec<Loss>, kind: PageKind, entries: &[Entry]) -> Result<(), OutOfMemory>
    ensures { OnOk result (out.new.items ≡ out.old.items ++ kind_losses kind entries.now) }
{
    match kind {
        PageKind::Anon => Ok(()),
        PageKind::File { file, .. } => add_list(out, file, entries),
    }
}

/// The losses of these pages.
fn losses_of(
    alloc: Global,
    kinds: &[PageKind],
    pages: &[List<Entry>],
) -> Result<Vec<Loss>, OutOfMemory>
    ensures { IfOk result (λ list. list.items ≡ page_losses (zip kinds.now pages.now)) }
{
    let mut out = Vec::new(alloc);
    for page in 0..kinds.len().min(pages.len()) {
        add_kind(&mut out, kinds[page], pages[page].as_slice())?;
    }
    Ok(out)
}

/// The numbers of a loss are of their widths.
fn small(loss: Loss)
    ensures { IsSmall loss }
{
    let _loss = loss;
}

/// Each loss has numbers of their widths (proof only: it costs a look at each).
fn all_small(list: &[Loss])
    ensures { All IsSmall list.now }
{
    for loss in list {
        small(*loss);
    }
}

/// A file, a processor and the number of one of its commands as one number.
fn key(file: u64, cpu: u8, seq: u32) -> u64
    requires { file ≤ 256 }
    ensures { result ≡ key file cpu seq }
{
    (file * 256 + u64::from(cpu)) * 4_294_967_296 + u64::from(seq)
}

/// That of a loss.
fn key_of(loss: &Loss) -> u64
    ensures { result ≡ key_of loss.now }
{
    key(u64::from(loss.file.0), loss.who.cpu.0, loss.who.seq)
}

/// The losses of a report, in the order of their keys.
pub(crate) fn sorted_losses(
    alloc: Global,
    script: &Script,
    report: &Report,
) -> Result<Vec<Loss>, OutOfMemory>
    ensures { IfOk result (λ list. AreLosses script.now report.now list.items) }
{
    let mut list = losses_of(
        alloc,
        script.layout.pages.as_slice(),
        report.pages.as_slice(),
    )?;
    all_small(list.as_slice());
    list.sort_by_key(|loss| key_of(loss))?;
    Ok(list)
}

/// How many losses of a list in the order of keys have a lower key.
fn below(list: &[Loss], bound: u64) -> usize
    requires { IsNonDecreasingBy key_of list.now }
    ensures { result ≡ below bound list.now }
{
    list.partition_point(|loss| key_of(loss) < bound)
}

/// The losses of the file.
pub(crate) fn lost(script: &Script, report: &Report, list: &[Loss], file: FileNo) -> u64
    requires { AreLosses script.now report.now list.now }
    ensures lost { result ≡ losses_such is_lost script.now report.now file }
    ensures room { result + 1 < 2 ^ 64 }
{
    let _script = script;
    let _report = report;
    let first = below(list, key(u64::from(file.0), 0, 0));
    let end = below(list, key(u64::from(file.0) + 1, 0, 0));
    (end - first) as u64
}

/// The losses of the file by earlier commands of the processor.
pub(crate) fn lost_before(
    script: &Script,
    report: &Report,
    list: &[Loss],
    file: FileNo,
    who: Who,
) -> u64
    requires { AreLosses script.now report.now list.now }
    ensures lost { result ≡ losses_such (is_lost_before who) script.now report.now file }
    ensures room { result + 1 < 2 ^ 64 }
{
    let _script = script;
    let _report = report;
    let first = below(list, key(u64::from(file.0), who.cpu.0, 0));
    let end = below(list, key(u64::from(file.0), who.cpu.0, who.seq));
    (end - first) as u64
}
