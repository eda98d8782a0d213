ghost use Rattle.std.specs.Prelude.{◌≡◌, ◌+◌, ◌*◌, ◌<◌, ◌≤◌, ◌↔◌, ℕ, Any, IfNone, IfSome, IsTrue, List, Option};
ghost use Rattle.hwp_core_rule.specs.hwp_page.History.{BodyValue};
ghost use Rattle.hwp_core_rule.specs.hwp_geom.declared.VSlot.{VSlot};
ghost use Rattle.hwp_core_rule.specs.Calls.{CanMake};
ghost use Rattle.hwp_table_words.specs.CacheCounts.{told_counts};
ghost use Rattle.hwp_table_words.specs.CachePlays.{CanFill, CanFlush, CanSearch, with_caching};
ghost use Rattle.hwp_table_words.specs.Caches.{AreLocked, AreSwept, HasLooked, IsAlmostGuarded, IsAtTable, IsListed, IsSweptOn, follow_of, load_of, sweep_of, word_to};
ghost use Rattle.hwp_table_words.specs.Known.{times};
ghost use Rattle.hwp_table_words.specs.Seats.{Carries, HasRight, IsSeat, mine_of};
ghost use Rattle.hwp_table_words.specs.Stands.{first_me};
ghost use Rattle.hwp_table_words.specs.tlb.Caching.{upto_of};
ghost use Rattle.hwp_table_words.specs.tlb.Rule.{frames_of, locks_in};
ghost use Rattle.hwp_table_words.specs.tlb.Steps.{IsGuarded, flushed, looked, shown_after};
ghost use Rattle.hwp_table_words.specs.tlb.Words.{hit_of};

use crate::counts::TlbCounts;
use crate::entries::{entry_at, fill_as, flush_as, look_as, own_place, search_as};
use crate::entry::EntryWord;
use crate::follow::Follow;
use crate::plays::{Pass, Sheet};
use crate::ways::Ways;
use hwp_core_rule::{Frame, Layout, SharedWord, Step, VSlot, Who};
use std::marker::Brand;

/// What each place of a processor's cache was filled with last. It says where to look, and nothing rests on it.
pub(crate) type Filled = [Option<VSlot>; 16];

/// A load of a translation that its processor's cache has: the word, if the entry still is there.
pub(crate) fn look<W: Ways>(
    sheet: &Sheet<W>,
    layout: &Layout,
    seat: &mut Pass,
    filled: &Filled,
    who: Who,
    step: &Step,
) -> Option<u64>
    requires seat { (order : List ℕ) × IsSeat W.ways layout.now sheet.now.key sheet.now.table_id seat.old.table_id (first_me seat.old.me) order }
    requires guarded { IsGuarded (W.ways * layout.now.cpus) (mine_of seat.old.me.0.known.mines) seat.old.me.0.caching }
    requires right { HasRight seat.old.me.0.known }
    requires can { (body : Option BodyValue) × CanMake layout.now who step.now body (mine_of seat.old.me.0.known.mines) }
    ensures same { seat.new.table_id ≡ seat.old.table_id }
    ensures looked { HasLooked (W.ways * layout.now.cpus) layout.now who step.now seat.old.me result seat.new.me }
    ensures load { IfSome result (λ found. (slot : VSlot) × (step.now ≡ load_of slot)) }
{
    let ways = W::ways();
    if ways == 0 {
        return None;
    }
    let Follow::Fill(slot) = follow_of(step, 0) else {
        return None;
    };
    if filled[usize::from(slot.0) % ways] != Some(slot) {
        return None;
    }
    let Some(place) = own_place::<W>(layout, who.cpu, slot) else {
        return None;
    };
    let word = entry_at::<W>(layout, place);
    let entry = look_as::<W, Brand>(sheet, seat, who, slot, place, word);
    answer_of(slot, entry)
}

/// The translation's word, where the entry is of the translation.
fn answer_of(slot: VSlot, entry: u64) -> Option<u64>
    ensures { result ≡ word_to (hit_of slot entry) }
{
    match EntryWord::unpack(entry).to {
        Some((of, frame)) if of == slot => Some(u64::from(frame.0) + 1),
        _ => None,
    }
}

/// After a step: an entry is filled with the translation that it loaded, or the frames are swept that it leaves unguarded.
pub(crate) fn follow<W: Ways>(
    sheet: &Sheet<W>,
    layout: &Layout,
    seat: &mut Pass,
    order: &[usize],
    filled: &mut Filled,
    counts: &mut TlbCounts,
    who: Who,
    step: &Step,
    found: u64,
)
    requires seat { IsSeat W.ways layout.now sheet.now.key sheet.now.table_id seat.old.table_id (first_me seat.old.me) order.now }
    requires shown { seat.old.me.0.caching.shown ≡ shown_after step.now found (frames_of (mine_of seat.old.me.0.known.mines).locks) }
    requires listed { IsListed (follow_of step.now found) (mine_of seat.old.me.0.known.mines) }
    requires guarded { IsAlmostGuarded (W.ways * layout.now.cpus) layout.now.frames (follow_of step.now found) (mine_of seat.old.me.0.known.mines) seat.old.me.0.caching }
    requires counts { counts.old ≡ told_counts seat.old.me.0.caching.counts }
    ensures same { seat.new.table_id ≡ seat.old.table_id }
    ensures rest { seat.new.me ≡ with_caching seat.new.me.0.caching seat.old.me }
    ensures guarded { IsGuarded (W.ways * layout.now.cpus) (mine_of seat.new.me.0.known.mines) seat.new.me.0.caching }
    ensures counts { counts.new ≡ told_counts seat.new.me.0.caching.counts }
{
    if W::ways() == 0 {
        return;
    }
    match follow_of(step, found) {
        Follow::Nothing => {}
        Follow::Fill(slot) => {
            fill_loaded(sheet, layout, seat, order, filled, counts, who, slot, found);
        }
        Follow::Sweep(frame) => sweep_locked(sheet, layout, seat, order, counts, frame),
        Follow::SweepAll => sweep_all(sheet, layout, seat, order, counts),
    }
}

/// What follows the step, at the word that it found.
fn follow_of(step: &Step, found: u64) -> Follow
    ensures { result ≡ follow_of step.now found }
{
    match step {
        Step::Load {
            place: SharedWord::Trans(slot),
        } => Follow::Fill(*slot),
        Step::LockFrame { frame } if step.goes(found) => Follow::Sweep(*frame),
        Step::LockPage { .. } if step.goes(found) => Follow::SweepAll,
        _ => Follow::Nothing,
    }
}

/// After a load of a translation: an entry is filled with it, where the frame to which it leads is locked and no page is.
fn fill_loaded<W: Ways>(
    sheet: &Sheet<W>,
    layout: &Layout,
    seat: &mut Pass,
    order: &[usize],
    filled: &mut Filled,
    counts: &mut TlbCounts,
    who: Who,
    slot: VSlot,
    found: u64,
)
    requires at { IsAtTable W.ways layout.now sheet.now.key sheet.now.table_id seat.old.table_id }
    requires carries { Carries layout.now (mine_of seat.old.me.0.known.mines) seat.old.me.1 order.now }
    requires shown { seat.old.me.0.caching.shown ≡ shown_after (load_of slot) found (frames_of (mine_of seat.old.me.0.known.mines).locks) }
    requires guarded { IsGuarded (W.ways * layout.now.cpus) (mine_of seat.old.me.0.known.mines) seat.old.me.0.caching }
    requires counts { counts.old ≡ told_counts seat.old.me.0.caching.counts }
    ensures same { seat.new.table_id ≡ seat.old.table_id }
    ensures rest { seat.new.me ≡ with_caching seat.new.me.0.caching seat.old.me }
    ensures guarded { IsGuarded (W.ways * layout.now.cpus) (mine_of seat.new.me.0.known.mines) seat.new.me.0.caching }
    ensures counts { counts.new ≡ told_counts seat.new.me.0.caching.counts }
{
    if carries_page(layout, order) {
        return;
    }
    let Some(frame) = locked_frame(layout, order, found) else {
        return;
    };
    fill(sheet, layout, seat, filled, counts, who, slot, frame);
}

/// The frame that a translation's word names, if the seat carries the frame's slot.
fn locked_frame(layout: &Layout, order: &[usize], found: u64) -> Option<Frame>
    ensures { IfSome result (λ f. (found ≡ f.0 + 1) × (f.0 < layout.now.frames) × (0 < times f.0 order.now)) }
{
    for slot in order {
        if let Some(frame) = frame_of(layout, *slot) {
            if u64::from(frame.0) + 1 == found {
                return Some(frame);
            }
        }
    }
    None
}

/// The frame whose slot it is; none where it is a page's.
fn frame_of(layout: &Layout, slot: usize) -> Option<Frame>
    ensures some { IfSome result (λ f. (f.0 ≡ slot) × (slot < layout.now.frames)) }
    ensures none { IfNone result (layout.now.frames ≤ slot) }
{
    if slot < usize::from(layout.frames) {
        Some(Frame(slot as u16))
    } else {
        None
    }
}

/// Whether one of the slots is a page's.
fn carries_page(layout: &Layout, order: &[usize]) -> bool
    ensures { IsTrue result ↔ Any (λ (slot : ℕ). layout.now.frames ≤ slot) order.now }
{
    order.iter().any(|slot| *slot >= usize::from(layout.frames))
}

/// Fills the translation's place in its processor's cache.
fn fill<W: Ways>(
    sheet: &Sheet<W>,
    layout: &Layout,
    seat: &mut Pass,
    filled: &mut Filled,
    counts: &mut TlbCounts,
    who: Who,
    slot: VSlot,
    frame: Frame,
)
    requires at { IsAtTable W.ways layout.now sheet.now.key sheet.now.table_id seat.old.table_id }
    requires can { CanFill slot.0 frame.0 seat.old.me }
    requires counts { counts.old ≡ told_counts seat.old.me.0.caching.counts }
    ensures same { seat.new.table_id ≡ seat.old.table_id }
    ensures rest { seat.new.me ≡ with_caching seat.new.me.0.caching seat.old.me }
    ensures counts { counts.new ≡ told_counts seat.new.me.0.caching.counts }
{
    let Some(place) = own_place::<W>(layout, who.cpu, slot) else {
        return;
    };
    let word = entry_at::<W>(layout, place);
    let to = Some((slot, frame));
    let entry = EntryWord { to }.pack();
    fill_as::<W, Brand>(sheet, seat, frame, place, word, who.cpu, slot, entry);
    filled[usize::from(slot.0) % W::ways()] = Some(slot);
    counts.fills = counts.fills.saturating_add(1);
}

/// Sweeps a frame that was locked, if a page is.
fn sweep_locked<W: Ways>(
    sheet: &Sheet<W>,
    layout: &Layout,
    seat: &mut Pass,
    order: &[usize],
    counts: &mut TlbCounts,
    frame: Frame,
)
    requires at { IsAtTable W.ways layout.now sheet.now.key sheet.now.table_id seat.old.table_id }
    requires carries { Carries layout.now (mine_of seat.old.me.0.known.mines) seat.old.me.1 order.now }
    requires locked { 0 < times frame.0 (locks_in seat.old.me.0.known.mines) }
    requires guarded { IsAlmostGuarded (W.ways * layout.now.cpus) layout.now.frames (sweep_of frame) (mine_of seat.old.me.0.known.mines) seat.old.me.0.caching }
    requires counts { counts.old ≡ told_counts seat.old.me.0.caching.counts }
    ensures same { seat.new.table_id ≡ seat.old.table_id }
    ensures rest { seat.new.me ≡ with_caching seat.new.me.0.caching seat.old.me }
    ensures guarded { IsGuarded (W.ways * layout.now.cpus) (mine_of seat.new.me.0.known.mines) seat.new.me.0.caching }
    ensures counts { counts.new ≡ told_counts seat.new.me.0.caching.counts }
{
    if !carries_page(layout, order) {
        return;
    }
    sweep(sheet, layout, seat, counts, frame);
}

/// Sweeps each frame whose slot the seat carries.
fn sweep_all<W: Ways>(
    sheet: &Sheet<W>,
    layout: &Layout,
    seat: &mut Pass,
    order: &[usize],
    counts: &mut TlbCounts,
)
    requires at { IsAtTable W.ways layout.now sheet.now.key sheet.now.table_id seat.old.table_id }
    requires locked { AreLocked layout.now.frames order.now seat.old.me }
    requires counts { counts.old ≡ told_counts seat.old.me.0.caching.counts }
    ensures same { seat.new.table_id ≡ seat.old.table_id }
    ensures rest { IsSweptOn seat.old.me seat.new.me }
    ensures swept { AreSwept (W.ways * layout.now.cpus) layout.now.frames order.now seat.new.me.0.caching }
    ensures counts { counts.new ≡ told_counts seat.new.me.0.caching.counts }
{
    for slot in order {
        sweep_slot(sheet, layout, seat, counts, *slot);
    }
}

/// Sweeps the frame whose slot it is.
fn sweep_slot<W: Ways>(
    sheet: &Sheet<W>,
    layout: &Layout,
    seat: &mut Pass,
    counts: &mut TlbCounts,
    slot: usize,
)
    requires at { IsAtTable W.ways layout.now sheet.now.key sheet.now.table_id seat.old.table_id }
    requires locked { slot < layout.now.frames → 0 < times slot (locks_in seat.old.me.0.known.mines) }
    requires counts { counts.old ≡ told_counts seat.old.me.0.caching.counts }
    ensures same { seat.new.table_id ≡ seat.old.table_id }
    ensures rest { IsSweptOn seat.old.me seat.new.me }
    ensures swept { slot < layout.now.frames → W.ways * layout.now.cpus ≤ upto_of slot seat.new.me.0.caching.cleared }
    ensures counts { counts.new ≡ told_counts seat.new.me.0.caching.counts }
{
    let Some(frame) = frame_of(layout, slot) else {
        return;
    };
    sweep(sheet, layout, seat, counts, frame);
}

/// Takes away each entry that names a frame whose lock the seat has, of all processors.
fn sweep<W: Ways>(
    sheet: &Sheet<W>,
    layout: &Layout,
    seat: &mut Pass,
    counts: &mut TlbCounts,
    frame: Frame,
)
    requires at { IsAtTable W.ways layout.now sheet.now.key sheet.now.table_id seat.old.table_id }
    requires locked { 0 < times frame.0 (locks_in seat.old.me.0.known.mines) }
    requires counts { counts.old ≡ told_counts seat.old.me.0.caching.counts }
    ensures same { seat.new.table_id ≡ seat.old.table_id }
    ensures rest { IsSweptOn seat.old.me seat.new.me }
    ensures swept { W.ways * layout.now.cpus ≤ upto_of frame.0 seat.new.me.0.caching.cleared }
    ensures counts { counts.new ≡ told_counts seat.new.me.0.caching.counts }
{
    for place in 0..W::ways() * usize::from(layout.cpus) {
        clear(sheet, layout, seat, counts, frame, place);
    }
}

/// Takes an entry away if it names the frame.
fn clear<W: Ways>(
    sheet: &Sheet<W>,
    layout: &Layout,
    seat: &mut Pass,
    counts: &mut TlbCounts,
    frame: Frame,
    place: usize,
)
    requires at { IsAtTable W.ways layout.now sheet.now.key sheet.now.table_id seat.old.table_id }
    requires inside { place < W.ways * layout.now.cpus }
    requires can { CanSearch frame.0 place seat.old.me }
    requires counts { counts.old ≡ told_counts seat.old.me.0.caching.counts }
    ensures same { seat.new.table_id ≡ seat.old.table_id }
    ensures rest { IsSweptOn seat.old.me seat.new.me }
    ensures cleared { place < upto_of frame.0 seat.new.me.0.caching.cleared }
    ensures counts { counts.new ≡ told_counts seat.new.me.0.caching.counts }
{
    let seen = search(sheet, layout, seat, frame, place);
    if EntryWord::names(seen, frame) {
        flush(sheet, layout, seat, counts, frame, place, seen);
    }
}

/// Looks whether an entry names the frame.
fn search<W: Ways>(
    sheet: &Sheet<W>,
    layout: &Layout,
    seat: &mut Pass,
    frame: Frame,
    place: usize,
) -> u64
    requires at { IsAtTable W.ways layout.now sheet.now.key sheet.now.table_id seat.old.table_id }
    requires inside { place < W.ways * layout.now.cpus }
    requires can { CanSearch frame.0 place seat.old.me }
    ensures same { seat.new.table_id ≡ seat.old.table_id }
    ensures looked { seat.new.me ≡ with_caching (looked frame.0 place result seat.old.me.0.caching) seat.old.me }
{
    let word = entry_at::<W>(layout, place);
    search_as::<W, Brand>(sheet, seat, frame, place, word)
}

/// Takes an entry away that named the frame, if it still is what was seen.
fn flush<W: Ways>(
    sheet: &Sheet<W>,
    layout: &Layout,
    seat: &mut Pass,
    counts: &mut TlbCounts,
    frame: Frame,
    place: usize,
    seen: u64,
)
    requires at { IsAtTable W.ways layout.now sheet.now.key sheet.now.table_id seat.old.table_id }
    requires inside { place < W.ways * layout.now.cpus }
    requires can { CanFlush frame.0 place seen seat.old.me }
    requires counts { counts.old ≡ told_counts seat.old.me.0.caching.counts }
    ensures same { seat.new.table_id ≡ seat.old.table_id }
    ensures flushed { (found : ℕ) × (seat.new.me ≡ with_caching (flushed frame.0 place seen found seat.old.me.0.caching) seat.old.me) }
    ensures counts { counts.new ≡ told_counts seat.new.me.0.caching.counts }
{
    let word = entry_at::<W>(layout, place);
    let found = flush_as::<W, Brand>(sheet, seat, frame, place, word, seen);
    counts.flushes = counts.flushes.saturating_add(u64::from(found == seen));
}
