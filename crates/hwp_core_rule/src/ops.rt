ghost use Rattle.std.specs.Prelude.{◌≡◌};
ghost use Rattle.hwp_page.specs.hwp_geom.declared.Layout.{Layout as LayoutOf};
ghost use Rattle.hwp_core_rule.specs.declared.record.Rec.{Rec};
ghost use Rattle.hwp_core_rule.specs.declared.view.View.{View};
ghost use Rattle.hwp_core_rule.specs.Calls.{CanMake, Steps, logs, rec_of};

use crate::step::Step;
use hwp_page::{Body, Layout, Who};

/// What a step met: the word that it found, and the body of the slot whose lock it took.
#[derive(Drop)]
pub struct Met {
    pub found: u64,
    pub body: Option<Body>,
}

/// The steps of one processor on the shared words.
///
/// Bodies go with locks: a step that takes a lock answers the body of its slot, and a step that frees it takes the body
/// that is to be there.
pub trait Ops {
    /// The layout of the machine.
    ghost layout: { Self → LayoutOf };

    /// What the processor knows.
    ghost view: { Self → View };

    /// A step can be made.
    ghost ready: { Self → Type 0 };

    /// A step with this record leads from one board to another.
    ghost moves: { Self → Rec → Self → Type 0 };

    /// The layout of the machine.
    fn layout(&self) -> &Layout
        ensures { result.now ≡ layout self.now };

    /// One atomic step on one word, of this command.
    fn step(&mut self, who: Who, step: &Step, body: Option<Body>) -> Met
        requires ready { ready self.old }
        requires can { CanMake (layout self.old) who step.now body (view self.old) }
        ensures same { layout self.new ≡ layout self.old }
        ensures told { Steps (layout self.old) who step.now (logs body) (view self.old) (view self.new) result.found result.body }
        ensures moved { moves self.old (rec_of (layout self.old) who step.now (logs body) result.found result.body) self.new };
}
