ghost use Rattle.std.specs.Prelude.{◌≡◌, ◌&&◌, Some, None, not, if◌then◌else◌};
ghost use Rattle.hwp_law.specs.Cows.{acting, copied_from, cow_of, through, twin_or, written_through};

use crate::cows::cow_of;
use hwp_law::{Answer, Command, Layout, VSlot};

/// The twin of the translation, or itself where it has none.
fn twin_or(layout: &Layout, slot: VSlot) -> VSlot
    ensures { result ≡ twin_or layout.now slot }
{
    match layout.twin_of(slot) {
        Some(twin) => twin,
        None => slot,
    }
}

/// The translation that stands for this one.
fn through(layout: &Layout, earlier: &[(Command, Answer)], slot: VSlot) -> VSlot
    ensures { result ≡ through layout.now earlier.now slot }
{
    if cow_of(layout, earlier, slot).switched {
        twin_or(layout, slot)
    } else {
        slot
    }
}

/// The translation that a store through this one writes through.
fn written_through(layout: &Layout, earlier: &[(Command, Answer)], slot: VSlot) -> VSlot
    ensures { result ≡ written_through layout.now earlier.now slot }
{
    if cow_of(layout, earlier, slot).frozen {
        twin_or(layout, slot)
    } else {
        slot
    }
}

/// The command that a processor acts on, behind these commands of its own with their answers.
pub(crate) fn acting(layout: &Layout, earlier: &[(Command, Answer)], command: &Command) -> Command
    ensures { result ≡ acting layout.now earlier.now command.now }
{
    match *command {
        Command::Load { thread, slot, line } => Command::Load {
            thread,
            slot: through(layout, earlier, slot),
            line,
        },
        Command::Fetch { thread, slot, line } => Command::Fetch {
            thread,
            slot: through(layout, earlier, slot),
            line,
        },
        Command::KLoad { thread, slot, line } => Command::KLoad {
            thread,
            slot: through(layout, earlier, slot),
            line,
        },
        Command::Store {
            thread,
            slot,
            line,
            word,
        } => Command::Store {
            thread,
            slot: written_through(layout, earlier, slot),
            line,
            word,
        },
        Command::Free { slot } => Command::Free {
            slot: through(layout, earlier, slot),
        },
        other => other,
    }
}

/// The translation if it is frozen and hasn't gone over.
fn frozen_own(layout: &Layout, earlier: &[(Command, Answer)], slot: VSlot) -> Option<VSlot>
    ensures { result ≡ (if (cow_of layout.now earlier.now slot).frozen && not (cow_of layout.now earlier.now slot).switched then Some slot else None) }
{
    let cow = cow_of(layout, earlier, slot);
    if cow.frozen && !cow.switched {
        Some(slot)
    } else {
        None
    }
}

/// The translation whose page the command copies before it writes.
pub(crate) fn copied_from(
    layout: &Layout,
    earlier: &[(Command, Answer)],
    command: &Command,
) -> Option<VSlot>
    ensures { result ≡ copied_from layout.now earlier.now command.now }
{
    match *command {
        Command::Store { slot, .. } => frozen_own(layout, earlier, slot),
        _ => None,
    }
}
