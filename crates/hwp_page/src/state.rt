ghost use Rattle.std.specs.Prelude.{◌≡◌, ◌↔◌, IsTrue, IsBitSet, true, false};
ghost use Rattle.std.specs.FinSet as set;

use crate::belonging::{is_of, is_thread_of};
use crate::entry::{Met, What};
use crate::failing::{are_signals, is_seen_list};
use crate::sets::{is_empty, put_all};
use crate::situation::Situation;
use hwp_kill::{
    Layout, Line, Lines, List, Mask, Page, PageKind, Seen, Signal, Slots, Thread, VSlot,
};

/// The state of a page (Linux hwpoison.rst for what it stands for; its exact form is this project's rule).
#[derive(Drop)]
pub struct PageState {
    pub kind: PageKind,
    /// The content.
    pub val: Lines,
    /// The content on the backing store, if there is one: the file's, or what was swapped out.
    pub back: Option<Lines>,
    /// Whether the content was stored to since it was last equal to `back`.
    pub dirty: bool,
    /// Whether a frame holds the page.
    pub cached: bool,
    /// The translations in use.
    pub maps: Slots,
    /// The translations with a poison entry.
    pub bar: Slots,
    /// Whether the content is gone for good.
    pub lost: bool,
    /// Whether the page is declared as locked. No entry changes it.
    pub locked: bool,
}

impl PageState {
    ghost use Rattle.hwp_kill.specs.hwp_geom.Layout.{IsSound};
    ghost use Rattle.hwp_page.specs.Actions.{acted, barred, situation_of, unmapped};
    ghost use Rattle.hwp_page.specs.Step.{Allowed, MapsWithin, CanMap, IsDroppable, IsFailure, IsRefused, after, is_file, opening_of};

    /// The state at opening: nothing is cached, mapped or lost, and every word is the kind's own.
    pub fn opening(kind: PageKind, locked: bool) -> PageState
        ensures { result ≡ opening_of kind locked }
    {
        let (word, back) = match kind {
            PageKind::Anon => (0, None),
            PageKind::File { fill, .. } => (fill, Some(Lines::filled(fill))),
        };
        PageState {
            kind,
            val: Lines::filled(word),
            back,
            dirty: false,
            cached: false,
            maps: Slots::new(),
            bar: Slots::new(),
            lost: false,
            locked,
        }
    }

    /// What a memory failure of the page's frame finds.
    pub fn situation(&self) -> Situation
        ensures { result ≡ situation_of self.now }
    {
        if self.locked {
            self.locked_situation()
        } else {
            self.unlocked_situation()
        }
    }

    /// What a memory failure finds of a page that is locked.
    fn locked_situation(&self) -> Situation
        requires { self.now.locked ≡ true }
        ensures { result ≡ situation_of self.now }
    {
        match (self.kind, self.dirty) {
            (PageKind::File { .. }, false) => Situation::LockedClean,
            (PageKind::File { .. }, true) => Situation::LockedFile,
            (PageKind::Anon, _) => Situation::LockedAnon,
        }
    }

    /// What a memory failure finds of a page that isn't locked.
    fn unlocked_situation(&self) -> Situation
        requires { self.now.locked ≡ false }
        ensures { result ≡ situation_of self.now }
    {
        match (self.kind, self.dirty, &self.back) {
            (PageKind::File { .. }, false, _) => Situation::FileClean,
            (PageKind::File { .. }, true, _) => Situation::FileDirty,
            (PageKind::Anon, _, None) => Situation::AnonOnly,
            (PageKind::Anon, false, Some(_)) => Situation::SwapClean,
            (PageKind::Anon, true, Some(_)) => Situation::SwapDirty,
        }
    }

    /// Whether a file stands behind the page.
    fn is_of_file(&self) -> bool
        ensures { result ≡ is_file self.now.kind }
    {
        match self.kind {
            PageKind::Anon => false,
            PageKind::File { .. } => true,
        }
    }

    /// Whether the state allows the entry. The layout is sound.
    pub fn allows(&self, layout: &Layout, page: Page, what: &What) -> bool
        requires { IsSound layout.now }
        ensures { IsTrue result ↔ Allowed layout.now page self.now what.now }
    {
        match what {
            What::Load {
                slot,
                line,
                met: Met::Word { mask, word },
            } => { self.reaches(*slot, *line, *mask) && self.val.get(*line) == *word }
            What::Store {
                slot,
                line,
                met: Met::Word { mask, .. },
            } => self.reaches(*slot, *line, *mask),
            What::Load {
                slot,
                met: Met::Sigbus { thread },
                ..
            }
            | What::Store {
                slot,
                met: Met::Sigbus { thread },
                ..
            } => self.refuses(layout, page, *thread, *slot),
            What::FaultIn => !self.cached && !self.lost,
            What::Map { slot } => self.can_map(layout, page, *slot),
            What::Free { slot } => self.maps.has(*slot),
            What::Drop => self.can_drop(),
            What::Sync => self.is_of_file() && self.cached,
            What::Out => !self.is_of_file() && self.cached && !self.locked,
            What::Mce { slot, line, mask } => self.maps.has(*slot) && mask.has(*line),
            What::Fail {
                situation,
                required,
                seen,
                signals,
            } => self.can_fail(layout, *situation, *required, seen, signals),
            What::Soft => self.cached,
        }
    }

    /// Whether an access through the translation reaches the line, which is not among the bad ones.
    fn reaches(&self, slot: VSlot, line: Line, bad: Mask) -> bool
        ensures { IsTrue result ↔ (IsTrue (set.contains self.now.maps slot.0) × (¬ IsBitSet bad.0 line)) }
    {
        self.maps.has(slot) && !bad.has(line)
    }

    /// Whether an access through the translation is answered by SIGBUS to the thread.
    fn refuses(&self, layout: &Layout, page: Page, thread: Thread, slot: VSlot) -> bool
        ensures { IsTrue result ↔ IsRefused layout.now page self.now thread slot }
    {
        is_of(layout, page, slot)
            && is_thread_of(layout, thread, slot)
            && (self.bar.has(slot) || self.lost)
    }

    /// Whether the translation can come into use.
    fn can_map(&self, layout: &Layout, page: Page, slot: VSlot) -> bool
        ensures { IsTrue result ↔ CanMap layout.now page self.now slot }
    {
        self.cached && is_of(layout, page, slot) && !self.maps.has(slot) && !self.bar.has(slot)
    }

    /// Whether the page can leave its frame at once.
    fn can_drop(&self) -> bool
        ensures { IsTrue result ↔ IsDroppable self.now }
    {
        !self.locked && self.cached && is_empty(&self.maps) && !self.dirty && self.back.is_some()
    }

    /// Whether a memory failure is as the situation and the kill table say.
    fn can_fail(
        &self,
        layout: &Layout,
        situation: Situation,
        required: Option<Thread>,
        seen: &List<Seen>,
        signals: &List<Signal>,
    ) -> bool
        requires { IsSound layout.now }
        ensures { IsTrue result ↔ IsFailure layout.now self.now situation required seen.now signals.now }
    {
        self.cached
            && situation == self.situation()
            && is_seen_list(layout, &self.maps, situation.signals(), required, seen)
            && are_signals(
                layout,
                &self.maps,
                situation.signals(),
                situation.always_signals(),
                required,
                seen,
                signals,
            )
    }

    /// Goes on to the state after the entry.
    pub fn step(&mut self, what: &What)
        requires { MapsWithin what.now }
        ensures { self.new ≡ after self.old what.now }
    {
        match what {
            What::Load { .. }
            | What::Store {
                met: Met::Sigbus { .. },
                ..
            }
            | What::Mce { .. }
            | What::Soft => {}
            What::Store {
                line,
                met: Met::Word { word, .. },
                ..
            } => {
                self.val.set(*line, *word);
                self.dirty = true;
            }
            What::FaultIn => self.cached = true,
            What::Map { slot } => self.maps.insert(*slot),
            What::Free { slot } => self.maps.remove(*slot),
            What::Drop => self.cached = false,
            What::Sync => self.save(),
            What::Out => {
                self.save();
                self.leave_frame();
            }
            What::Fail { situation, .. } => self.act(*situation),
        }
    }

    /// Puts the content behind the page.
    fn save(&mut self)
        ensures { self.new ≡ record self.old { back = Some self.old.val; dirty = false } }
    {
        self.back = Some(self.val.copy());
        self.dirty = false;
    }

    /// The page leaves its frame, and no translation is in use.
    fn leave_frame(&mut self)
        ensures { self.new ≡ unmapped self.old }
    {
        self.maps.clear();
        self.cached = false;
    }

    /// The page leaves its frame, and the translations that were in use get a poison entry.
    fn bar_all(&mut self)
        ensures { self.new ≡ barred self.old }
    {
        put_all(&mut self.bar, &self.maps);
        self.leave_frame();
    }

    /// The page leaves its frame, and its content is gone.
    fn lose(&mut self)
        ensures { self.new ≡ record (unmapped self.old) { lost = true } }
    {
        self.leave_frame();
        self.lost = true;
    }

    /// Does what a memory failure in this situation does.
    fn act(&mut self, situation: Situation)
        ensures { self.new ≡ acted self.old situation }
    {
        match situation {
            Situation::Free | Situation::Kernel => {}
            Situation::FileClean | Situation::SwapClean | Situation::LockedClean => {
                self.leave_frame()
            }
            Situation::FileDirty | Situation::LockedFile => {
                if let Some(words) = &self.back {
                    self.val = words.copy();
                }
                self.dirty = false;
                self.bar_all();
            }
            Situation::AnonOnly | Situation::LockedAnon => {
                self.bar_all();
                self.lost = true;
            }
            Situation::SwapDirty => self.lose(),
        }
    }
}
