//! Worked scripts on the seats of a board, each with a translation cache: how often they hit, fill and flush. The numbers were worked out
//! by hand, from the rules of docs/FORMATS.md.

ghost use Rattle.std.specs.Prelude.{◌≡◌, []};
ghost use Rattle.hwp_script.specs.hwp_script_read.hwp_script_words.Valid.{IsValid};
ghost use Rattle.hwp_tlb.specs.hwp_table_words.Known.{first_knowing};
ghost use Rattle.hwp_tlb.specs.hwp_table_words.Seats.{IsTableOf};

use crate::checking::check;
use hwp_script::{Script, read};
use hwp_tlb::{List, OfTable, TlbBoard, TlbCounts, TlbPass, TlbSeat, TlbShared, begin};
use hwp_top::play;
use std::alloc::Global;
use std::marker::Brand;
use std::process::Abort;
use std::sync::Arc;

/// A store through an empty translation and a load through the same one, on one processor.
const STORE_AND_LOAD: &[u8] =
    b"hwp 1\ncpus 1\nframes 2\nproc 0\nthread 0 0 0 handler\npage 0 anon\ntrans 0 0 0\ncpu 0\nstore 0 0 5 77\nload 0 0 5\nend\n";

/// Between a store and a load another processor moves the page.
const MOVED: &[u8] =
    b"hwp 1\ncpus 2\nframes 4\nproc 0\nthread 0 0 0 handler\npage 0 anon\ntrans 0 0 0\ncpu 0\nstore 0 0 0 5\nload 0 0 0\ncpu 1\nsoft 0\nschedule 0. 1. 0.\nend\n";

/// Translations 0 and 16 have one place in the cache, and lead to one page.
const ONE_PLACE: &[u8] =
    b"hwp 1\ncpus 1\nframes 2\nproc 0\nthread 0 0 0 handler\npage 0 anon\ntrans 0 0 0\ntrans 1 0 0\ntrans 2 0 0\ntrans 3 0 0\ntrans 4 0 0\ntrans 5 0 0\ntrans 6 0 0\ntrans 7 0 0\ntrans 8 0 0\ntrans 9 0 0\ntrans 10 0 0\ntrans 11 0 0\ntrans 12 0 0\ntrans 13 0 0\ntrans 14 0 0\ntrans 15 0 0\ntrans 16 0 0\ncpu 0\nstore 0 0 5 77\nload 0 16 5\nload 0 0 5\nload 0 0 5\nload 0 16 5\nload 0 16 5\nend\n";

/// Two processors have the translation in their caches when the frame fails.
const FAILED: &[u8] =
    b"hwp 1\ncpus 2\nframes 2\nproc 0\nthread 0 0 0 handler\nthread 1 0 1 handler\npage 0 anon\ntrans 0 0 0\ncpu 0\nstore 0 0 5 77\ninject 0\nload 0 0 5\ncpu 1\nload 1 0 5\nload 1 0 5\nload 1 0 5\nschedule 0. 1. 1. 0. 1. 0.\nend\n";

/// A script, and what the seat of each of its processors counts: hits, fills and flushes.
type Worked<'a> = (&'a [u8], &'a [[u64; 3]]);

#[rattlefmt::skip]
const WORKED: &[Worked<'static>] = &[
    // the store fills the place behind its lock; the load hits twice, before the lock and behind it
    (STORE_AND_LOAD, &[[2, 1, 0]]),
    // processor 1 flushes processor 0's entry, which is filled anew, with the new frame
    (MOVED, &[[0, 2, 0], [0, 0, 1]]),
    // fills by the store (0), by the load that maps 16 and flushes what 0 left, and by the third (0) and fifth (16) command; the
    // fourth and the sixth hit twice each
    (ONE_PLACE, &[[4, 4, 1]]),
    // the failure flushes both processors' entries; processor 1 hit twice before it, and nobody does after it
    (FAILED, &[[0, 1, 2], [2, 1, 0]]),
];

/// The script that these bytes are.
fn script(rt: &impl Abort, alloc: Global, bytes: &[u8]) -> Script
    ensures { IsValid result }
{
    read(alloc, bytes).ok().expect(rt, "a script")
}

/// The seats of the script's processors, behind all their turns.
fn played<'a, N: OfTable>(
    rt: &impl Abort,
    alloc: Global,
    sheet: &'a TlbShared,
    script: &'a Script,
    pass: TlbPass,
) -> List<TlbSeat<'a>>
    requires valid { IsValid script.now }
    requires named { N.table ≡ sheet.now.table_id }
    requires table { IsTableOf 16 script.now.layout sheet.now.table_id × (sheet.now.key ≡ script.now.layout) }
    requires seat { (pass.table_id ≡ sheet.now.table_id) × (pass.me ≡ (first_knowing script.now.layout, [])) }
{
    let mut board = TlbBoard::<N>::new(alloc, sheet, &script.layout, pass).expect(rt, "memory");
    play(alloc, script, &mut board).expect(rt, "memory");
    board.seats()
}

/// Each seat counts what is due.
fn count(rt: &impl Abort, seats: &[TlbSeat<'_>], due: &[[u64; 3]]) {
    check(rt, seats.len() == due.len());
    for (seat, due) in seats.iter().zip(due) {
        let TlbCounts {
            hits,
            fills,
            flushes,
        } = seat.counts();
        check(
            rt,
            (hits == due[0]) & (fills == due[1]) & (flushes == due[2]),
        );
    }
}

/// The seats of this script count what is due.
fn counts_are(rt: &impl Abort, alloc: Global, bytes: &[u8], due: &[[u64; 3]]) {
    let script = script(rt, alloc, bytes);
    let layout = script.layout.copy(alloc).expect(rt, "memory");
    let layout = Arc::new(alloc, layout).expect(rt, "memory");
    let (table, pass) = begin(alloc, &layout).expect(rt, "memory");
    let seats = played::<Brand>(rt, alloc, &table.shared, &script, pass);
    count(rt, seats.as_slice(), due);
}

#[test]
fn seats_count_hits_fills_and_flushes(rt: HostRuntime) {
    for (script, due) in WORKED {
        counts_are(&rt, rt.alloc(), script, due);
    }
}
