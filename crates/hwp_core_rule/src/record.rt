use crate::log::Log;
use crate::step::Step;
use crate::view::View;
use hwp_page::{List, Who};

/// A step that was made: by which command, which step, the word that it found, and the content of the slot that it took,
/// or what it put there.
#[derive(Drop)]
pub struct Rec {
    pub who: Who,
    pub step: Step,
    pub found: u64,
    pub content: Option<Log>,
}

/// A board as plain data: all words, the contents of all slots, and the views of all seats. The slots are those of the
/// frames and then the pages' shelves; a slot that is out with a seat is `None`, an empty slot is `Some(None)`.
#[derive(Drop)]
pub struct State {
    pub words: List<u64>,
    pub homes: List<Option<Option<Log>>>,
    pub views: List<View>,
}
