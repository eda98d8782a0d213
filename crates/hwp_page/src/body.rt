ghost use Rattle.std.specs.Prelude.{◌≡◌, ◌+◌, ◌-◌, ◌<◌, ◌≤◌, ◌↔◌, ◌∷◌, [], ◌++◌, length, slice_get, IsTrue, IfOk, OnOk, OnErr};
ghost use Rattle.std.specs.Arc.{arc_value};
ghost use Rattle.std.specs.Option.{option_copied};
ghost use Rattle.std.specs.Slice.{IsItemAt};
ghost use Rattle.hwp_kill.specs.hwp_geom.Layout.{IsSound};
ghost use Rattle.hwp_page.specs.Step.{Allowed, after};
ghost use Rattle.hwp_page.specs.History.{IsFresh, IsReplay};

use crate::entry::Entry;
use crate::replay::Replay;
use crate::state::PageState;
use hwp_kill::{Layout, List, OutOfMemory, Page};
use std::alloc::Global;
use std::marker::Model;
use std::sync::Arc;

/// A page's state and history together: the state is always the replay of the history from the page's opening.
pub struct Body {
    /// In a box, so that a body moves as a pointer.
    replay: Box<Replay, Global>,
}

// Written out, so that it is proved here once: a crate that lets one go cites it.
impl Drop for Body {
    fn drop(self) {
        let Body { replay: _ } = self;
    }
}

impl Model for Body {
    ghost use Rattle.hwp_page.specs.History.{BodyValue, IsKept};
    ghost use Rattle.hwp_kill.specs.contracts.Slots as slots;
    ghost use Rattle.std.specs.Coded.{codes};

    ghost Value = { BodyValue };

    ghost coded = { Prim.hlevel (codes, slots.the_row.coded) };

    ghost view = { λ b. b.replay.value };
}

impl Body {
    /// A body at opening. The layout is sound, and the page is one of it.
    pub fn new(alloc: Global, layout: &Arc<Layout, Global>, page: Page) -> Result<Body, OutOfMemory>
        requires sound { IsSound (arc_value layout.now) }
        requires inside { page.0 < length (arc_value layout.now).pages }
        ensures { IfOk result (λ body. IsFresh (arc_value layout.now) page body) }
    {
        Ok(Body {
            replay: Box::new(alloc, Replay::new(alloc, layout, page)?)?,
        })
    }

    /// Makes room for one entry more. A refusal changes nothing.
    pub fn room(&mut self) -> Result<(), OutOfMemory>
        ensures ok { OnOk result ((self.new ≡ record self.old { spare = self.new.spare }) × (1 ≤ self.new.spare)) }
        ensures err { OnErr result (self.new ≡ self.old) }
    {
        self.replay.room()
    }

    /// The allocator of its entries.
    pub fn alloc(&self) -> Global {
        self.replay.alloc()
    }

    /// Adds an entry that the state allows, and goes on to the state after it. It takes no memory.
    pub fn append(&mut self, entry: Entry)
        requires allowed { Allowed self.old.layout self.old.page self.old.state entry.what }
        requires room { 0 < self.old.spare }
        ensures { self.new ≡ record self.old { state = after self.old.state entry.what; log = self.old.log ++ entry ∷ []; spare = self.old.spare - 1 } }
    {
        self.replay.append(entry);
    }

    /// Whether the state allows the entry.
    pub fn allowed(&self, entry: &Entry) -> bool
        ensures { IsTrue result ↔ Allowed self.now.layout self.now.page self.now.state entry.now.what }
    {
        self.replay.allowed(entry)
    }

    /// How many entries the history has.
    pub fn len(&self) -> u64
        ensures { result ≡ length self.now.log }
    {
        self.replay.len()
    }

    /// The state now: the replay of the history from the page's opening.
    pub fn state(&self) -> &PageState
        ensures value { result.now ≡ self.now.state }
        ensures replay { IsReplay self.now.layout self.now.page self.now.log self.now.state }
        ensures sound { IsSound self.now.layout }
    {
        self.replay.state()
    }

    /// The layout of the page's machine.
    pub fn layout(&self) -> &Layout
        ensures { result.now ≡ self.now.layout }
    {
        self.replay.layout()
    }

    /// The page.
    pub fn page(&self) -> Page
        ensures { result ≡ self.now.page }
    {
        self.replay.page()
    }

    /// The entries, the oldest first.
    pub fn entries(&self) -> &[Entry]
        ensures { result.now ≡ self.now.log }
    {
        self.replay.entries()
    }

    /// The entries, the oldest first, when the body is done with. It takes no memory.
    pub fn into_entries(self) -> List<Entry>
        ensures { result ≡ self.log }
    {
        let Body { replay } = self;
        Box::into_inner(replay).into_entries()
    }

    /// The entry of this number. It is `None` exactly where the history ends before it.
    pub fn entry(&self, number: u64) -> Option<&Entry>
        ensures value { option_copied result ≡ slice_get self.now.log number }
        ensures item { IsItemAt self.now.log number result }
    {
        self.replay.entry(number)
    }
}
