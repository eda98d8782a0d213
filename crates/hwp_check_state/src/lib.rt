//! Of the rules by which a report is judged, those of its shape, of the pages' histories, of the policies seen, of the count of
//! poisoned frames, of losses, of the stop and of the frames.
#![tactic(auto)]

mod count;
mod dones;
mod frames;
mod histories;
mod losses;
mod lost;
mod seen;
mod shape;
mod sights;
mod stop;
mod stopping;
mod told;

pub use count::count_fault;
pub use frames::frames_fault;
pub use histories::histories_fault;
pub use losses::losses_fault;
pub use seen::seen_fault;
pub use shape::shape_fault;
pub use stop::stop_fault;
