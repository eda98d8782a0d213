ghost use Rattle.std.specs.Prelude.{◌≡◌};
ghost use Rattle.hwp_law.specs.Cows.{cow_after, cow_of, froze_slot, own_page};
ghost use Rattle.hwp_law.specs.hwp_script_words.Forks.{freezes, froze};
ghost use Rattle.hwp_law.specs.hwp_script_words.declared.Command.TheVariants as commands;
ghost use Rattle.hwp_check_rules.specs.ActedOn.{cow_in, stored_after};

use hwp_law::{Answer, Command, Layout, Page, Proc, Thread, VSlot};

/// Whether a fork froze a translation, and whether it has gone over to its twin since.
#[derive(Clone, Copy)]
pub struct CowFlags {
    pub frozen: bool,
    pub switched: bool,
}

/// Whether a fork of the process freezes the page.
fn freezes(layout: &Layout, process: Proc, page: Page) -> bool
    ensures { result ≡ freezes layout.now process.0 page.0 }
{
    let trans = layout.trans.as_slice();
    trans.iter().zip(layout.twins.as_slice()).any(|(slot, twin)| slot.process.0 == process.0
        && twin.is_some()
        && slot.page.0 == page.0)
}

/// Whether a fork by the thread freezes the page.
fn froze_by(layout: &Layout, page: Page, thread: Thread, process: Proc) -> bool
    ensures { result ≡ froze layout.now page.0 (commands.Fork thread process) }
{
    let _process = process;
    match layout.threads.as_slice().get(usize::from(thread.0)) {
        Some(declared) => freezes(layout, declared.process, page),
        None => false,
    }
}

/// Whether a fork by the thread freezes the page of the translation.
pub(crate) fn froze_slot(layout: &Layout, slot: VSlot, thread: Thread, process: Proc) -> bool
    ensures { result ≡ froze_slot layout.now slot (commands.Fork thread process) }
{
    match layout.trans.as_slice().get(usize::from(slot.0)) {
        Some(translation) => froze_by(layout, translation.page, thread, process),
        None => false,
    }
}

/// What is so of the translation after a fork with this answer.
fn cow_forked(
    layout: &Layout,
    slot: VSlot,
    thread: Thread,
    process: Proc,
    answer: Answer,
    cow: CowFlags,
) -> CowFlags
    ensures { cow_in result ≡ cow_after layout.now slot (commands.Fork thread process) answer (cow_in cow) }
{
    match answer {
        Answer::Done => CowFlags {
            frozen: cow.frozen || froze_slot(layout, slot, thread, process),
            switched: cow.switched,
        },
        _ => cow,
    }
}

/// What is so of the translation after a store through one with this answer.
fn cow_stored(slot: VSlot, other: VSlot, answer: Answer, cow: CowFlags) -> CowFlags
    ensures { cow_in result ≡ stored_after slot other answer (cow_in cow) }
{
    match answer {
        Answer::Stored(_) => CowFlags {
            frozen: cow.frozen,
            switched: cow.switched || (cow.frozen && other.0 == slot.0),
        },
        _ => cow,
    }
}

/// What is so of the translation after a command with this answer.
#[tactic(auto, using(crate::proofs::CowSteps::stored_is))]
fn cow_after(
    layout: &Layout,
    slot: VSlot,
    command: Command,
    answer: Answer,
    cow: CowFlags,
) -> CowFlags
    ensures { cow_in result ≡ cow_after layout.now slot command answer (cow_in cow) }
{
    match command {
        Command::Fork { thread, process } => {
            cow_forked(layout, slot, thread, process, answer, cow)
        }
        Command::Store { slot: other, .. } => cow_stored(slot, other, answer, cow),
        _ => cow,
    }
}

/// Whether a command with this answer freezes the translation.
pub fn freezes_slot(layout: &Layout, slot: VSlot, command: Command, answer: Answer) -> bool
    ensures { result ≡ (cow_after layout.now slot command answer own_page).frozen }
{
    let own = CowFlags {
        frozen: false,
        switched: false,
    };
    cow_after(layout, slot, command, answer, own).frozen
}

/// What is so of the translation after some commands of a processor with their answers.
pub(crate) fn cow_of(layout: &Layout, earlier: &[(Command, Answer)], slot: VSlot) -> CowFlags
    ensures { cow_in result ≡ cow_of layout.now earlier.now slot }
{
    let mut cow = CowFlags {
        frozen: false,
        switched: false,
    };
    for pair in earlier {
        cow = cow_after(layout, slot, pair.0, pair.1, cow);
    }
    cow
}
