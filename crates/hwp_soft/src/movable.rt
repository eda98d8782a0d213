ghost use Rattle.std.specs.Prelude.{◌≡◌};

use hwp_claim_frame::{Body, HeldSlots, SlotRoom};
use std::marker::Model;

/// The body of a page that is to move, with room for its translations in use. Clauses see it as the body.
#[derive(Drop)]
pub(crate) struct Movable {
    body: Body,
    room: SlotRoom,
}

impl Model for Movable {
    ghost use Rattle.hwp_claim_frame.specs.hwp_page.History.{BodyValue};
    ghost use Rattle.hwp_claim_frame.specs.hwp_kill.contracts.Slots as slots;
    ghost use Rattle.std.specs.Coded.{codes};

    ghost Value = { BodyValue };

    ghost coded = { Prim.hlevel (codes, slots.the_row.coded) };

    ghost view = { λ m. m.body };
}

impl Movable {
    pub(crate) fn new(body: Body, room: SlotRoom) -> Movable
        ensures { result ≡ body }
    {
        Movable { body, room }
    }

    /// The body alone, where the page stays.
    pub(crate) fn into_body(self) -> Body
        ensures { result ≡ self }
    {
        self.body
    }

    /// The body, and its translations in use.
    pub(crate) fn into_parts(self) -> (Body, HeldSlots)
        ensures { (result.0 ≡ self) × (result.1 ≡ self.state.maps) }
    {
        let Movable { body, room } = self;
        let maps = room.hold(&body.state().maps);
        (body, maps)
    }
}
