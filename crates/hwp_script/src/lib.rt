//! Scripts made and printed: the one text of a fault script, line by line, with the law that it is read as that script; and scripts
//! made from a seed, of 4,000 commands of all kinds on a fixed machine and 20,000 words of schedule.
#![tactic(auto)]

mod commands;
mod draws;
mod forms;
mod machine;
mod printing;
mod seeding;

pub use forms::put_form;
pub use hwp_script_read::{
    Command, Go, MAX_SCRIPT, PrctlArgs, ReadScript, Refused, Script, Until, Why, is_text, read,
    read_number,
};
pub use printing::print;
pub use seeding::generate;
