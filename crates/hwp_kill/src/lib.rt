//! Sets of translations, the policies of prctl(2), and the kill table: whom a memory failure signals, and whose policies
//! it reads for that.
#![tactic(auto)]

mod kill;
mod next;
mod policies;
mod reading;
mod signal_list;
mod slots;
mod types;

pub use hwp_geom::{
    Cpu, Damage, FileNo, Frame, Kind, Layout, Line, Lines, List, Mask, Mode, OutOfMemory, Page,
    PageKind, Proc, Text, Thread, VSlot, Version, Who, lowest_bit,
};
pub use kill::signals;
pub use next::next_to_read;
pub use policies::{
    PR_MCE_KILL, PR_MCE_KILL_CLEAR, PR_MCE_KILL_DEFAULT, PR_MCE_KILL_EARLY, PR_MCE_KILL_GET,
    PR_MCE_KILL_LATE, PR_MCE_KILL_SET, policy_word, prctl,
};
pub use reading::are_policies_read;
pub use signal_list::{MAX_SIGNALS, SignalList, SignalRoom};
pub use slots::{HeldSlots, SLOTS, SlotRoom, Slots};
pub use types::{Code, Policy, Reply, Seen, Signal};
