ghost use Rattle.std.specs.Prelude.{ℕ};
ghost use Rattle.hwp_table_words.specs.Known.{first_knowing, forgetting, idle, idling, joining, dealt, kept, let_go, note};
ghost use Rattle.hwp_table_words.specs.Plays.{Call, IsMade, no_call};
ghost use Rattle.hwp_table_words.specs.Rules.{Kept};

use crate::knowledge::Knowledge;
use crate::ways::Ways;
use atomic_table::{Join, Play, Seat, Shared, Split, Table, TableRule};
use hwp_core_rule::{Body, Layout};
use std::alloc::Global;
use std::marker::{Brand, PhantomData};

/// The slot of a frame, or the shelf of a page: a body, or none.
pub type Slot = Option<Body>;

/// The words and slots, as threads share them.
pub type Sheet<W> = Shared<Slot, Knowledge, Layout, Rule<W>>;

/// The table itself.
pub type WordTable<W> = Table<Slot, Knowledge, Layout, Rule<W>, Global>;

/// A seat at the table.
pub type Pass = Seat<Slot, Knowledge>;

/// The frame rule, who may make steps, and what the translation caches may hold.
pub struct Rule<W> {
    of: PhantomData<W>,
}

impl<W: Ways> TableRule<Slot, Knowledge, Layout> for Rule<W> {
    ghost holds = { λ layout table. Kept W.ways layout table };

    ghost first = { λ layout. first_knowing layout };
}

/// Which step it is.
pub trait Named {
    ghost call: { Call };
}

impl Named for Brand {
    ghost call = { no_call };
}

/// A step of any kind.
pub struct Makes<N: Named> {
    of: PhantomData<N>,
}

impl<N: Named> Play<Slot, Knowledge> for Makes<N> {
    ghost then = { λ step m found n. IsMade N.call m found n };
}

/// The rights go off on a note, and with them what is known of the whole.
pub struct Lets;

impl Split<Knowledge> for Lets {
    ghost left = { λ v. record v { known = let_go v.known } };

    ghost right = { λ v. idling (note v.known) };
}

/// Which processor a new seat is for.
pub trait Given {
    ghost cpu: { ℕ };
}

impl Given for Brand {
    ghost cpu = { 0 };
}

/// A new seat has what there is of a processor, its view and its right. Both forget what they listed of the caches.
pub struct Deals<G: Given> {
    of: PhantomData<G>,
}

impl<G: Given> Split<Knowledge> for Deals<G> {
    ghost left = { λ v. forgetting (kept G.cpu v.known) v.caching };

    ghost right = { λ v. idling (dealt G.cpu v.known) };
}

/// A seat takes all that another has.
pub struct Joins;

impl Join<Knowledge> for Joins {
    ghost both = { λ v w. joining v w };

    ghost spent = { idling idle };
}
