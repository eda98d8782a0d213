ghost use Rattle.std.specs.Prelude.{◌≡◌, ◌↔◌, ◌≤◌, ◌&&◌, ◌-◌, ◌++◌, ◌∷◌, [], not, IsTrue, IfOk, OnOk, Some, length, slice_get, get_or, false, true};
ghost use Rattle.std.specs.List.{All};
ghost use Rattle.std.specs.Option.{option_copied};
ghost use Rattle.hwp_law.specs.hwp_page.Refusals.{IsAway, IsDirty, IsLockedIn, IsMapped, IsUnused};
ghost use Rattle.hwp_law.specs.hwp_page.Step.{MapsWithin, after, opening_of};
ghost use Rattle.hwp_law.specs.hwp_page.declared.PageState.{PageState as State};
ghost use Rattle.hwp_law.specs.States.{HadState};
ghost use Rattle.hwp_check_evidence.specs.Glances.{AreGlances, AreLegalSteps, IsPage, glance_at, glance_of, is_held, is_left, kept_with, used_at, used_behind, used_by, was_kept};

use crate::repeats::Repeats;
use hwp_law::{
    At, Entry, Layout, List, OutOfMemory, Page, PageKind, PageState, Situation, Slots, VSlot, What,
};
use std::alloc::Global;

/// The translations in use are kept behind each so many entries.
const STRIDE: usize = 64;

/// What answers tell of a page's state.
#[derive(Drop)]
pub struct Glance {
    pub cached: bool,
    /// Whether the content doesn't stand behind the page.
    pub unsaved: bool,
    /// Whether translations lead to the page.
    pub mapped: bool,
}

/// A page's states at all places of its history, as far as answers tell of them.
pub struct PageGlances {
    pub glances: Repeats<Glance>,
    /// The translations in use behind each so many entries.
    pub maps: Vec<Slots>,
}

// Proved here once: crates above that let one go cite it.
impl Drop for PageGlances {
    fn drop(self) {
        let PageGlances {
            glances: _glances,
            maps: _maps,
        } = self;
    }
}

/// Whether a translation is in the set.
fn is_used(slots: &Slots) -> bool
    ensures { result ≡ is_held slots.now }
{
    slots.lowest_from(VSlot(0)).is_some()
}

/// What answers tell of the state.
fn look(state: &PageState) -> Glance
    ensures { result ≡ glance_of state.now }
{
    Glance {
        cached: state.cached,
        unsaved: state.dirty || state.back.is_none(),
        mapped: is_used(&state.maps),
    }
}

/// Whether what happened leaves the page's state as it was; it may say no of what does.
fn leaves(what: &What) -> bool
    ensures { IsTrue result → (s : State) → after s what.now ≡ s }
{
    matches!(what, What::Load { .. } | What::Mce { .. } | What::Soft)
}

/// Goes on to the state behind what happened, and adds what answers tell of it; the last one was of the state before.
fn go_on(list: &mut Repeats<Glance>, state: &mut PageState, what: &What) -> Result<(), OutOfMemory>
    requires within { MapsWithin what.now }
    requires last { slice_get list.old (length list.old - 1) ≡ Some (glance_of state.old) }
    ensures state { state.new ≡ after state.old what.now }
    ensures list { OnOk result (list.new ≡ list.old ++ glance_of (after state.old what.now) ∷ []) }
{
    if leaves(what) {
        list.again()
    } else {
        state.step(what);
        list.push(look(state))
    }
}

/// Keeps the translations in use behind so many entries, where they are to be kept.
fn keep(kept: &mut Vec<Slots>, slots: &Slots, entries: usize) -> Result<(), OutOfMemory>
    ensures { OnOk result (kept.new.items ≡ kept_with kept.old.items slots.now entries) }
{
    if entries % STRIDE == 0 {
        kept.push(slots.copy())?;
    }
    Ok(())
}

/// The states of a page of this kind before each of its entries, and behind the last.
fn page_glances(
    alloc: Global,
    kind: PageKind,
    locked: bool,
    entries: &[Entry],
) -> Result<PageGlances, OutOfMemory>
    requires { All (λ (e : Entry). MapsWithin e.what) entries.now }
    ensures { IfOk result (λ page. IsPage kind locked entries.now page) }
{
    let mut glances = Repeats::new(alloc, entries.len() + 1)?;
    let mut maps = Vec::new(alloc);
    let mut state = PageState::opening(kind, locked);
    glances.push(look(&state))?;
    for at in 0..entries.len() {
        go_on(&mut glances, &mut state, &entries[at].what)?;
        keep(&mut maps, &state.maps, at + 1)?;
    }
    Ok(PageGlances { glances, maps })
}

/// Whether the page with this number is locked.
fn is_locked_at(locked: &[bool], page: usize) -> bool
    ensures { result ≡ get_or locked.now page false }
{
    match locked.get(page) {
        Some(is) => *is,
        None => false,
    }
}

/// The same of each page.
pub fn glances_of(
    alloc: Global,
    layout: &Layout,
    pages: &[List<Entry>],
) -> Result<Vec<PageGlances>, OutOfMemory>
    requires many { length layout.now.pages ≡ length pages.now }
    requires legal { AreLegalSteps pages.now }
    ensures { IfOk result (λ all. AreGlances layout.now pages.now all.items) }
{
    let mut all = Vec::new(alloc);
    let kinds = layout.pages.as_slice();
    let flags = layout.locked.as_slice();
    for number in 0..pages.len() {
        let locked = is_locked_at(flags, number);
        all.push(page_glances(alloc, kinds[number], locked, pages[number].as_slice())?)?;
    }
    Ok(all)
}

/// What is known of a page's states.
fn page_of(all: &[PageGlances], page: Page) -> Option<&PageGlances>
    ensures { option_copied result ≡ slice_get all.now page.0 }
{
    all.get(usize::from(page.0))
}

/// A page's history.
fn list_of(pages: &[List<Entry>], page: Page) -> Option<&List<Entry>>
    ensures { option_copied result ≡ slice_get pages.now page.0 }
{
    pages.get(usize::from(page.0))
}

/// What was to be seen of a page at a place of its history, if there is such a place.
fn glance_at(all: &[PageGlances], at: At) -> Option<&Glance>
    ensures { option_copied result ≡ glance_at all.now at }
{
    let page = page_of(all, at.page)?;
    page.glances.get(at.entry)
}

/// Whether the page was in no frame there.
pub fn was_away(layout: &Layout, pages: &[List<Entry>], all: &[PageGlances], at: At) -> bool
    requires { AreGlances layout.now pages.now all.now }
    ensures { IsTrue result ↔ HadState layout.now pages.now at IsAway }
{
    match glance_at(all, at) {
        Some(glance) => !glance.cached,
        None => false,
    }
}

/// Whether it was in one.
pub fn was_cached(layout: &Layout, pages: &[List<Entry>], all: &[PageGlances], at: At) -> bool
    requires { AreGlances layout.now pages.now all.now }
    ensures { IsTrue result ↔ HadState layout.now pages.now at (λ s. s.cached ≡ true) }
{
    match glance_at(all, at) {
        Some(glance) => glance.cached,
        None => false,
    }
}

/// Whether it is in one then, and locked.
fn is_locked_in(glance: &Glance, locked: bool) -> bool
    ensures { result ≡ (glance.now.cached && locked) }
{
    glance.cached && locked
}

/// Whether it was in one, and is locked.
pub fn was_locked(layout: &Layout, pages: &[List<Entry>], all: &[PageGlances], at: At) -> bool
    requires { AreGlances layout.now pages.now all.now }
    ensures { IsTrue result ↔ HadState layout.now pages.now at IsLockedIn }
{
    match glance_at(all, at) {
        Some(glance) => is_locked_in(glance, layout.is_locked(at.page)),
        None => false,
    }
}

/// Whether it is in one then and isn't locked, and its content doesn't stand behind it.
fn is_dirty(glance: &Glance, locked: bool) -> bool
    ensures { result ≡ ((glance.now.cached && glance.now.unsaved) && not locked) }
{
    glance.cached && glance.unsaved && !locked
}

/// Whether it was in one and isn't locked, and its content didn't stand behind it.
pub fn was_dirty(layout: &Layout, pages: &[List<Entry>], all: &[PageGlances], at: At) -> bool
    requires { AreGlances layout.now pages.now all.now }
    ensures { IsTrue result ↔ HadState layout.now pages.now at IsDirty }
{
    match glance_at(all, at) {
        Some(glance) => is_dirty(glance, layout.is_locked(at.page)),
        None => false,
    }
}

/// Whether it is in one then and isn't locked, its content stands behind it, and translations lead to it.
fn is_mapped(glance: &Glance, locked: bool) -> bool
    ensures { result ≡ ((glance.now.cached && (not glance.now.unsaved && glance.now.mapped)) && not locked) }
{
    glance.cached && !glance.unsaved && glance.mapped && !locked
}

/// Whether it was in one and isn't locked, its content stood behind it, and translations led to it.
pub fn was_mapped(layout: &Layout, pages: &[List<Entry>], all: &[PageGlances], at: At) -> bool
    requires { AreGlances layout.now pages.now all.now }
    ensures { IsTrue result ↔ HadState layout.now pages.now at IsMapped }
{
    match glance_at(all, at) {
        Some(glance) => is_mapped(glance, layout.is_locked(at.page)),
        None => false,
    }
}

/// Whether a failure in this situation leaves the translations in use.
fn is_left(situation: Situation) -> bool
    ensures { result ≡ is_left situation }
{
    matches!(situation, Situation::Free | Situation::Kernel)
}

/// Whether the translation is in use behind what happened, where it was or wasn't before.
fn used_by(slot: VSlot, used: bool, what: &What) -> bool
    ensures { result ≡ used_by slot used what.now }
{
    match what {
        What::Map { slot: other } => slot.0 == other.0 || used,
        What::Free { slot: other } => slot.0 != other.0 && used,
        What::Out => false,
        What::Fail { situation, .. } => is_left(*situation) && used,
        _ => used,
    }
}

/// The same behind some entries.
fn used_behind(slot: VSlot, first: bool, entries: &[Entry]) -> bool
    ensures { result ≡ used_behind slot first entries.now }
{
    let mut used = first;
    for entry in entries {
        used = used_by(slot, used, &entry.what);
    }
    used
}

/// Whether the translation is in the set of this number, from 1; set 0 is empty.
fn was_kept(kept: &[Slots], number: usize, slot: VSlot) -> bool
    ensures { result ≡ was_kept kept.now number slot }
{
    if number == 0 {
        return false;
    }
    match kept.get(number - 1) {
        Some(slots) => slots.has(slot),
        None => false,
    }
}

/// Whether the translation was in use behind so many entries.
fn was_used(kept: &[Slots], entries: &[Entry], slot: VSlot, place: usize) -> bool
    requires { place ≤ length entries.now }
    ensures { result ≡ used_at kept.now entries.now slot place }
{
    let number = place / STRIDE;
    let rest = &entries[number * STRIDE..place];
    used_behind(slot, was_kept(kept, number, slot), rest)
}

/// Whether the translation wasn't in use.
pub fn was_unused(
    layout: &Layout,
    pages: &[List<Entry>],
    all: &[PageGlances],
    at: At,
    slot: VSlot,
) -> bool
    requires { AreGlances layout.now pages.now all.now }
    ensures { IsTrue result ↔ HadState layout.now pages.now at (IsUnused slot) }
{
    let _layout = layout;
    let Some(entries) = list_of(pages, at.page) else {
        return false;
    };
    if (entries.len() as u64) < at.entry {
        return false;
    }
    match page_of(all, at.page) {
        Some(page) => {
            !was_used(
                page.maps.as_slice(),
                entries.as_slice(),
                slot,
                at.entry as usize,
            )
        }
        None => false,
    }
}
