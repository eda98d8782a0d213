ghost use Rattle.std.specs.Prelude.{◌≡◌, ◌<◌};
ghost use Rattle.hwp_page.specs.hwp_geom.Layout.{IsSound};
ghost use Rattle.hwp_core_rule.specs.Views.{frame_in};
ghost use Rattle.hwp_core_rule.specs.Words.{IsPlace, available_at, caches_from, counter_at, frees_from, index, losses_from, pages_from, policies_from, size};

use crate::shared_word::SharedWord;
use hwp_page::{Frame, Layout};
use hwp_words::CacheWord;

/// The place of a word in the list of all words.
#[inline(always)]
pub fn index(layout: &Layout, place: SharedWord) -> usize
    requires sound { IsSound layout.now }
    ensures value { result ≡ index layout.now place }
    ensures within { IsPlace layout.now place → result < size layout.now }
{
    let frames = usize::from(layout.frames);
    match place {
        SharedWord::Frame(frame) => usize::from(frame.0),
        SharedWord::Trans(slot) => frames + usize::from(slot.0),
        SharedWord::Cache(page) => caches_from(layout) + usize::from(page.0),
        SharedWord::Page(page) => pages_from(layout) + usize::from(page.0),
        SharedWord::Free(number) => frees_from(layout) + number as usize,
        SharedWord::Available => available_at(layout),
        SharedWord::Bad(frame) => available_at(layout) + 1 + usize::from(frame.0),
        SharedWord::Weak(frame) => available_at(layout) + 1 + frames + usize::from(frame.0),
        SharedWord::Counter => counter_at(layout),
        SharedWord::Process(process) => counter_at(layout) + 1 + usize::from(process.0),
        SharedWord::Policy(thread) => policies_from(layout) + usize::from(thread.0),
        SharedWord::Loss(file) => losses_from(layout) + usize::from(file.0),
        SharedWord::Stop => losses_from(layout) + usize::from(layout.files),
    }
}

/// The first word of the pages' frames.
fn caches_from(layout: &Layout) -> usize
    requires sound { IsSound layout.now }
    ensures { result ≡ caches_from layout.now }
{
    usize::from(layout.frames) + layout.trans.len()
}

/// The first word of the pages' locks.
fn pages_from(layout: &Layout) -> usize
    requires sound { IsSound layout.now }
    ensures { result ≡ pages_from layout.now }
{
    caches_from(layout) + layout.pages.len()
}

/// The first word of the free frames' bits.
fn frees_from(layout: &Layout) -> usize
    requires sound { IsSound layout.now }
    ensures { result ≡ frees_from layout.now }
{
    pages_from(layout) + layout.pages.len()
}

/// The word of the frames that are available.
fn available_at(layout: &Layout) -> usize
    requires sound { IsSound layout.now }
    ensures { result ≡ available_at layout.now }
{
    frees_from(layout) + (usize::from(layout.frames) + 63) / 64
}

/// The word of the poisoned frames' count.
fn counter_at(layout: &Layout) -> usize
    requires sound { IsSound layout.now }
    ensures { result ≡ counter_at layout.now }
{
    let frames = usize::from(layout.frames);
    available_at(layout) + 1 + frames + frames
}

/// The first word of the threads' policies.
fn policies_from(layout: &Layout) -> usize
    requires sound { IsSound layout.now }
    ensures { result ≡ policies_from layout.now }
{
    counter_at(layout) + 1 + usize::from(layout.procs)
}

/// The first word of the files' losses.
fn losses_from(layout: &Layout) -> usize
    requires sound { IsSound layout.now }
    ensures { result ≡ losses_from layout.now }
{
    policies_from(layout) + layout.threads.len()
}

/// The frame that a translation word or a cache word names.
pub fn frame_in(word: u64) -> Option<Frame>
    ensures { result ≡ frame_in word }
{
    CacheWord::unpack(word % (1 << 20)).frame
}
