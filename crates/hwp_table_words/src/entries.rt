ghost use Rattle.std.specs.Prelude.{◌≡◌, ◌+◌, ◌*◌, ◌<◌, ◌≤◌, IfSome};
ghost use Rattle.hwp_core_rule.specs.hwp_geom.Layout.{IsSound};
ghost use Rattle.hwp_core_rule.specs.Words.{size};
ghost use Rattle.hwp_table_words.specs.CachePlays.{CanFill, CanFlush, CanLook, CanSearch, IsEntry, IsFilled, IsFlushed, IsLooked, IsSearched, own_place};
ghost use Rattle.hwp_table_words.specs.tlb.Words.{entry_word};

use crate::cache_plays::{Aimed, Fills, Flushes, Looking, Looks, Searches};
use crate::plays::{Pass, Sheet};
use crate::ways::Ways;
use hwp_core_rule::{Cpu, Frame, Layout, SharedWord, VSlot, Who, index};

/// Where the table has an entry: behind the words of the frame rule.
pub(crate) fn entry_at<W: Ways>(layout: &Layout, place: usize) -> usize
    requires sound { IsSound layout.now }
    requires few { W.ways ≤ 16 }
    requires inside { place < W.ways * layout.now.cpus }
    ensures { result ≡ size layout.now + place }
{
    index(layout, SharedWord::Stop) + 1 + place
}

/// The place of a translation in its processor's cache; none where the machine hasn't the processor.
pub(crate) fn own_place<W: Ways>(layout: &Layout, cpu: Cpu, slot: VSlot) -> Option<usize>
    ensures { IfSome result (λ place. (place ≡ own_place W.ways cpu.0 slot.0) × (place < W.ways * layout.now.cpus)) }
{
    let ways = W::ways();
    if ways == 0 || cpu.0 >= layout.cpus {
        return None;
    }
    Some(ways * usize::from(cpu.0) + usize::from(slot.0) % ways)
}

/// Loads an entry that may answer a load of a translation.
pub(crate) fn look_as<W: Ways, N: Looking>(
    sheet: &Sheet<W>,
    seat: &mut Pass,
    who: Who,
    slot: VSlot,
    place: usize,
    word: usize,
) -> u64
    requires entry { IsEntry W.ways sheet.now.table_id sheet.now.key seat.old.table_id N.look.place word }
    requires can { CanLook W.ways sheet.now.key N.look seat.old.me }
    ensures same { seat.new.table_id ≡ seat.old.table_id }
    ensures looked { IsLooked N.look word seat.old.me result seat.new.me }
{
    sheet.load::<Looks<N>>(seat, word)
}

/// Loads an entry to see whether it names a frame.
pub(crate) fn search_as<W: Ways, N: Aimed>(
    sheet: &Sheet<W>,
    seat: &mut Pass,
    frame: Frame,
    place: usize,
    word: usize,
) -> u64
    requires entry { IsEntry W.ways sheet.now.table_id sheet.now.key seat.old.table_id N.aim.place word × (N.aim.layout ≡ sheet.now.key) }
    requires can { CanSearch N.aim.frame N.aim.place seat.old.me }
    ensures same { seat.new.table_id ≡ seat.old.table_id }
    ensures searched { IsSearched N.aim word seat.old.me result seat.new.me }
{
    sheet.load::<Searches<N>>(seat, word)
}

/// Takes an entry away, if it still is what was seen.
pub(crate) fn flush_as<W: Ways, N: Aimed>(
    sheet: &Sheet<W>,
    seat: &mut Pass,
    frame: Frame,
    place: usize,
    word: usize,
    seen: u64,
) -> u64
    requires entry { IsEntry W.ways sheet.now.table_id sheet.now.key seat.old.table_id N.aim.place word × (N.aim.layout ≡ sheet.now.key) }
    requires seen { N.aim.seen ≡ seen }
    requires can { CanFlush N.aim.frame N.aim.place N.aim.seen seat.old.me }
    ensures same { seat.new.table_id ≡ seat.old.table_id }
    ensures flushed { IsFlushed N.aim word seat.old.me result seat.new.me }
{
    sheet.compare_exchange::<Flushes<N>>(seat, word, seen, 0)
}

/// Writes an entry.
pub(crate) fn fill_as<W: Ways, N: Aimed>(
    sheet: &Sheet<W>,
    seat: &mut Pass,
    frame: Frame,
    place: usize,
    word: usize,
    cpu: Cpu,
    slot: VSlot,
    entry: u64,
) -> u64
    requires entry { IsEntry W.ways sheet.now.table_id sheet.now.key seat.old.table_id N.aim.place word × (N.aim.layout ≡ sheet.now.key) }
    requires own { N.aim.place ≡ own_place W.ways cpu.0 slot.0 }
    requires word { entry ≡ entry_word slot.0 N.aim.frame }
    requires can { CanFill slot.0 N.aim.frame seat.old.me }
    ensures same { seat.new.table_id ≡ seat.old.table_id }
    ensures filled { IsFilled N.aim word seat.old.me result seat.new.me }
{
    sheet.swap::<Fills<N>>(seat, word, entry)
}
