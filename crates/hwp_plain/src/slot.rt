ghost use Rattle.std.specs.Prelude.{◌≡◌, false, Some, None, cond, map, length, option_map};
ghost use Rattle.hwp_core_rule.specs.hwp_geom.declared.Layout.{Layout};
ghost use Rattle.hwp_core_rule.specs.hwp_page.History.{BodyValue, IsReplay};
ghost use Rattle.hwp_core_rule.specs.Logs.{log_of};
ghost use Rattle.hwp_core_rule.specs.SlotMoves.{IsWithin, LeavesHome, MeetsSlot, homes_moved, is_out};
ghost use Rattle.hwp_core_rule.specs.Calls.{FitsLayout};
ghost use Rattle.hwp_plain.specs.Slots.{home_of, AreOfLayout};

use hwp_core_rule::{Body, SlotMove};
use std::mem;
use std::snapshot::Snapshot;

/// The slot of a frame, or the shelf of a page.
#[derive(Drop)]
pub enum Slot {
    /// It is at home, with this body or empty.
    Home(Option<Body>),
    /// The holder of its lock has it.
    Out,
}

/// What a step's slot move came to: the body that went out with the lock, and what was in the slot, or came into it.
#[derive(Drop)]
pub struct Carried {
    pub body: Option<Body>,
    pub content: Snapshot<Option<Body>>,
}

/// Moves a slot: it goes out with what is in it, or it comes home with the body.
pub fn carry(slots: &mut Vec<Slot>, to: SlotMove, body: Option<Body>) -> Carried
    requires within { IsWithin (length slots.old.items) to }
    requires home { LeavesHome to (map home_of slots.old.items) }
    ensures homes { map home_of slots.new.items ≡ homes_moved to (option_map log_of result.content.value) (map home_of slots.old.items) }
    ensures met { MeetsSlot to (map home_of slots.old.items) (option_map log_of result.content.value) }
    ensures flow { result.content.value ≡ cond (is_out to) result.body body }
    ensures none { is_out to ≡ false → result.body ≡ None }
    ensures layouts { (layout : Layout) → AreOfLayout layout slots.old.items → FitsLayout layout body → AreOfLayout layout slots.new.items × FitsLayout layout result.body }
    ensures kept { (b : BodyValue) → result.body ≡ Some b → IsReplay b.layout b.page b.log b.state }
{
    match to {
        SlotMove::Stays => Carried {
            content: Snapshot::of(&body),
            body: None,
        },
        SlotMove::Out(slot) => {
            let Slot::Home(body) = mem::replace(&mut slots[slot], Slot::Out) else {
                unreachable!()
            };
            kept(&body);
            Carried {
                content: Snapshot::of(&body),
                body,
            }
        }
        SlotMove::Home(slot) => {
            let content = Snapshot::of(&body);
            slots[slot] = Slot::Home(body);
            Carried {
                content,
                body: None,
            }
        }
    }
}

/// A body has the state of its history. Proof only: a call tells its clauses.
fn kept(body: &Option<Body>)
    ensures { (b : BodyValue) → body.now ≡ Some b → IsReplay b.layout b.page b.log b.state }
{
    if let Some(body) = body {
        body.state();
    }
}
