ghost use Rattle.std.specs.Prelude.{◌≡◌, ◌+◌, map, length, IfOk};
ghost use Rattle.hwp_plain.specs.Openings.{home_with};
ghost use Rattle.hwp_plain.specs.Ends.{IsMachineOf};

use hwp_core_rule::{Body, Layout, OutOfMemory};

/// What a run leaves: the shared words, and what is in each slot.
#[derive(Drop)]
pub struct Machine {
    /// The words, in the order of the frame rule.
    pub words: Vec<u64>,
    /// What is in the slot of each frame.
    pub frames: Vec<Option<Body>>,
    /// What is on the shelf of each page.
    pub shelves: Vec<Option<Body>>,
}

/// The machine with these words, and with what is in its slots, those of the frames first.
pub fn machine_of(
    layout: &Layout,
    words: Vec<u64>,
    slots: Vec<Option<Body>>,
) -> Result<Machine, OutOfMemory>
    requires count { length slots.items ≡ layout.now.frames + length layout.now.pages }
    ensures { IfOk result (IsMachineOf layout.now words.items (map home_with slots.items)) }
{
    let mut frames = slots;
    let shelves = frames.split_off(usize::from(layout.frames))?;
    Ok(Machine {
        words,
        frames,
        shelves,
    })
}
