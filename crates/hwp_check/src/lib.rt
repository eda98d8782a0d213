//! Whether a report is one that a run of its script can have, by its rules in their order; if not, the lowest rule that is broken,
//! and the first line of the report that breaks it. The same for one input: where its script ends and its report begins.
#![tactic(auto)]

mod deciding;
mod early;
mod judging;
mod late;
mod parting;
mod printing;

pub use deciding::check;
pub use hwp_check_rules::Verdict;
pub use judging::judge;
pub use printing::print;
