//! The words of the machine's shared memory: what the 64 bits of each kind of word say. The machine's processors share
//! these words and nothing else, and change each by single atomic steps.
#![tactic(auto)]

mod counter;
mod field;
mod frame;
mod names;
mod policy;
mod single;
mod stop;
mod translation;

pub use counter::CounterWord;
pub use frame::{FrameWord, HANDLED, KERNEL, LOCK, POISON, REFERENCE};
pub use policy::PolicyWord;
pub use single::{AvailableWord, CacheWord, DamageWord, FreeWord, LossWord, PageWord, ProcessWord};
pub use stop::{StopWord, is_stopped};
pub use translation::Pte;
