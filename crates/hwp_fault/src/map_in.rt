ghost use Rattle.std.specs.Prelude.{◌≡◌};
ghost use Rattle.hwp_fault.specs.MapIns.{HasRoomFor, mapped};

use crate::access::moved;
use hwp_core::{Pte, Ranked, Refer, Step, Task, Turn};
use hwp_page::{Body, Entry, Frame, Layout, Page, VSlot, What, Who};

/// Brings a translation of a page into use, when the page is held with its frame (Linux set_pte_at).
#[derive(Drop)]
pub struct MapIn {
    who: Who,
    page: Page,
    slot: VSlot,
    frame: Frame,
    body: Body,
    at: MapInAt,
}

#[derive(Clone, Copy)]
enum MapInAt {
    Refer { refer: Refer },
    SetPte,
    Over,
}

impl MapIn {
    ghost use Rattle.hwp_fault.specs.MapIns.{begin, is_over};

    /// The command brings the translation into use: it is to lead to the frame that the page is in. The body has room for
    /// one entry more.
    pub fn new(who: Who, page: Page, slot: VSlot, frame: Frame, body: Body) -> MapIn
        ensures { result ≡ begin who page slot frame body }
    {
        MapIn {
            who,
            page,
            slot,
            frame,
            body,
            at: MapInAt::Refer {
                refer: Refer::new(who, frame, 1),
            },
        }
    }

    /// Whether the translation is in use.
    pub fn is_over(&self) -> bool
        ensures { result ≡ is_over self.now }
    {
        matches!(self.at, MapInAt::Over)
    }

    /// The frame that the page is in.
    pub(crate) fn frame(&self) -> Frame
        ensures { result ≡ self.now.frame }
    {
        self.frame
    }

    /// The page's body.
    pub fn body(self) -> Body
        ensures { result ≡ self.body }
    {
        self.body
    }
}

/// Appends the entry that the translation came into use.
fn map(who: Who, slot: VSlot, body: &mut Body)
    requires { HasRoomFor slot body.old }
    ensures { body.new ≡ mapped who slot body.old }
{
    body.append(Entry {
        who,
        what: What::Map { slot },
    });
}

impl Task for MapIn {
    ghost use Rattle.hwp_fault.specs.MapIns as map_ins;

    ghost task = { map_ins.task };

    fn who(&self) -> Who {
        self.who
    }

    fn plan(&self) -> Option<Step> {
        match &self.at {
            MapInAt::Refer { refer } => refer.plan(),
            MapInAt::SetPte => Some(Step::SetPte {
                slot: self.slot,
                pte: Pte::At(self.frame),
            }),
            MapInAt::Over => None,
        }
    }

    fn give(&mut self) -> Option<Body> {
        None
    }

    fn settle(&mut self, layout: &Layout, found: u64, body: Option<Body>) -> Turn {
        match &mut self.at {
            MapInAt::Refer { refer } => {
                let turn = refer.settle(layout, found, body);
                if refer.is_over() {
                    self.at = MapInAt::SetPte;
                }
                turn
            }
            MapInAt::SetPte => {
                map(self.who, self.slot, &mut self.body);
                self.at = MapInAt::Over;
                moved(body)
            }
            MapInAt::Over => moved(body),
        }
    }
}

impl Ranked for MapIn {
    fn class(&self) -> u8 {
        1
    }

    fn ranked() {}
}
