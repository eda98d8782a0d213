ghost use Rattle.std.specs.Prelude.{◌≡◌, ◌<◌, IfOk};
ghost use Rattle.hwp_script.specs.Machine.{first, is_guest, is_kernel, is_locked, machine, page_kind, thread_decl, trans_decl, twin_decl};

use hwp_script_read::{
    Cpu, FileNo, Layout, List, OutOfMemory, Page, PageKind, Proc, ThreadDecl, TransDecl, VSlot,
    Version,
};
use std::alloc::Global;

/// The machine of all generated scripts.
pub(crate) fn machine(alloc: Global) -> Result<Layout, OutOfMemory>
    ensures { IfOk result (λ layout. layout ≡ machine) }
{
    Ok(Layout {
        version: Version::One,
        cpus: 4,
        frames: 256,
        kernel: kernel(alloc)?,
        recovery: true,
        early: false,
        files: 2,
        procs: 4,
        threads: threads(alloc)?,
        pages: pages(alloc)?,
        trans: translations(alloc)?,
        locked: locked(alloc)?,
        twins: twins(alloc)?,
        guests: guests(alloc)?,
    })
}

/// Frame 0 alone is the kernel's.
fn kernel(alloc: Global) -> Result<List<bool>, OutOfMemory>
    ensures { IfOk result (λ kernel. kernel ≡ first is_kernel 256) }
{
    let mut kernel = List::new(alloc);
    for frame in 0..256u16 {
        kernel.push(frame == 0)?;
    }
    Ok(kernel)
}

fn threads(alloc: Global) -> Result<List<ThreadDecl>, OutOfMemory>
    ensures { IfOk result (λ threads. threads ≡ first thread_decl 8) }
{
    let mut threads = List::new(alloc);
    for thread in 0..8u8 {
        threads.push(ThreadDecl {
            process: Proc(thread % 4),
            cpu: Cpu(thread % 4),
            handler: true,
        })?;
    }
    Ok(threads)
}

fn pages(alloc: Global) -> Result<List<PageKind>, OutOfMemory>
    ensures { IfOk result (λ pages. pages ≡ first page_kind 40) }
{
    let mut pages = List::new(alloc);
    for page in 0..40u8 {
        pages.push(kind_of(page))?;
    }
    Ok(pages)
}

/// What stands behind a page.
fn kind_of(page: u8) -> PageKind
    ensures { result ≡ page_kind page }
{
    if page % 2 == 0 {
        PageKind::Anon
    } else {
        PageKind::File {
            file: FileNo(page / 2 % 2),
            fill: u64::from(page),
        }
    }
}

/// No page is locked.
fn locked(alloc: Global) -> Result<List<bool>, OutOfMemory>
    ensures { IfOk result (λ locked. locked ≡ first is_locked 40) }
{
    let mut locked = List::new(alloc);
    for _page in 0..40u8 {
        locked.push(false)?;
    }
    Ok(locked)
}

/// No translation has a twin.
fn twins(alloc: Global) -> Result<List<Option<VSlot>>, OutOfMemory>
    ensures { IfOk result (λ twins. twins ≡ first twin_decl 80) }
{
    let mut twins = List::new(alloc);
    for _slot in 0..80u8 {
        twins.push(None)?;
    }
    Ok(twins)
}

/// No process is a guest.
fn guests(alloc: Global) -> Result<List<bool>, OutOfMemory>
    ensures { IfOk result (λ guests. guests ≡ first is_guest 4) }
{
    let mut guests = List::new(alloc);
    for _process in 0..4u8 {
        guests.push(false)?;
    }
    Ok(guests)
}

fn translations(alloc: Global) -> Result<List<TransDecl>, OutOfMemory>
    ensures { IfOk result (λ trans. trans ≡ first trans_decl 80) }
{
    let mut trans = List::new(alloc);
    for slot in 0..80u8 {
        trans.push(translation_of(slot))?;
    }
    Ok(trans)
}

/// A translation: its process, and the page that it leads to.
fn translation_of(slot: u8) -> TransDecl
    requires inside { slot < 80 }
    ensures { result ≡ trans_decl slot }
{
    TransDecl {
        process: Proc((slot + slot / 40) % 4),
        page: Page(u16::from(slot % 40)),
    }
}
