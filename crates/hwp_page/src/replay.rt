ghost use Rattle.std.specs.Prelude.{◌≡◌, ◌+◌, ◌-◌, ◌<◌, ◌≤◌, ◌↔◌, ◌∷◌, [], ◌++◌, length, slice_get, IsTrue, IfOk, OnOk, OnErr};
ghost use Rattle.std.specs.Arc.{arc_value};
ghost use Rattle.std.specs.Option.{option_copied};
ghost use Rattle.std.specs.Slice.{IsItemAt};
ghost use Rattle.hwp_kill.specs.hwp_geom.Layout.{IsSound};
ghost use Rattle.hwp_page.specs.Step.{Allowed, after};
ghost use Rattle.hwp_page.specs.History.{IsFresh, IsReplay};

use crate::entry::Entry;
use crate::state::PageState;
use hwp_kill::{Layout, List, OutOfMemory, Page};
use std::alloc::Global;
use std::marker::Model;
use std::sync::Arc;

/// What a body has in its box.
#[derive(Drop)]
pub(crate) struct Replay {
    page: Page,
    layout: Arc<Layout, Global>,
    state: PageState,
    log: Vec<Entry>,
}

impl Model for Replay {
    ghost use Rattle.std.specs.Prelude.{◌-◌, vec_len, vec_capacity};
    ghost use Rattle.std.specs.Arc.{arc_value};
    ghost use Rattle.hwp_page.specs.History.{BodyValue, IsKept};
    ghost use Rattle.hwp_kill.specs.contracts.Slots as slots;
    ghost use Rattle.std.specs.Coded.{codes};

    ghost Value = { BodyValue };

    ghost coded = { Prim.hlevel (codes, slots.the_row.coded) };

    ghost view = { λ b. record {
      page = b.page;
      layout = arc_value b.layout;
      state = b.state;
      log = b.log.items;
      spare = vec_capacity b.log - vec_len b.log;
    } };

    ghost invariant = { λ b. IsKept (arc_value b.layout) b.page b.log.items b.state };
}

impl Replay {
    pub(crate) fn new(
        alloc: Global,
        layout: &Arc<Layout, Global>,
        page: Page,
    ) -> Result<Replay, OutOfMemory>
        requires sound { IsSound (arc_value layout.now) }
        requires inside { page.0 < length (arc_value layout.now).pages }
        ensures { IfOk result (λ body. IsFresh (arc_value layout.now) page body) }
    {
        let declared: &Layout = layout;
        let kind = declared.pages.as_slice()[usize::from(page.0)];
        Ok(Replay {
            page,
            layout: layout.clone()?,
            state: PageState::opening(kind, declared.is_locked(page)),
            log: Vec::new(alloc),
        })
    }

    pub(crate) fn room(&mut self) -> Result<(), OutOfMemory>
        ensures ok { OnOk result ((self.new ≡ record self.old { spare = self.new.spare }) × (1 ≤ self.new.spare)) }
        ensures err { OnErr result (self.new ≡ self.old) }
    {
        self.log.reserve(1)
    }

    pub(crate) fn alloc(&self) -> Global {
        *self.log.allocator()
    }

    pub(crate) fn append(&mut self, entry: Entry)
        requires allowed { Allowed self.old.layout self.old.page self.old.state entry.what }
        requires room { 0 < self.old.spare }
        ensures { self.new ≡ record self.old { state = after self.old.state entry.what; log = self.old.log ++ entry ∷ []; spare = self.old.spare - 1 } }
    {
        self.state.step(&entry.what);
        self.log.push_reserved(entry);
    }

    pub(crate) fn allowed(&self, entry: &Entry) -> bool
        ensures { IsTrue result ↔ Allowed self.now.layout self.now.page self.now.state entry.now.what }
    {
        self.state.allows(&self.layout, self.page, &entry.what)
    }

    pub(crate) fn len(&self) -> u64
        ensures { result ≡ length self.now.log }
    {
        self.log.len() as u64
    }

    pub(crate) fn state(&self) -> &PageState
        ensures value { result.now ≡ self.now.state }
        ensures replay { IsReplay self.now.layout self.now.page self.now.log self.now.state }
        ensures sound { IsSound self.now.layout }
    {
        &self.state
    }

    pub(crate) fn layout(&self) -> &Layout
        ensures { result.now ≡ self.now.layout }
    {
        &self.layout
    }

    pub(crate) fn page(&self) -> Page
        ensures { result ≡ self.now.page }
    {
        self.page
    }

    pub(crate) fn entries(&self) -> &[Entry]
        ensures { result.now ≡ self.now.log }
    {
        self.log.as_slice()
    }

    pub(crate) fn into_entries(self) -> List<Entry>
        ensures { result ≡ self.log }
    {
        List::from_vec(self.log)
    }

    pub(crate) fn entry(&self, number: u64) -> Option<&Entry>
        ensures value { option_copied result ≡ slice_get self.now.log number }
        ensures item { IsItemAt self.now.log number result }
    {
        self.log.get(number as usize)
    }
}
