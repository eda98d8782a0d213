use crate::command::{Command, Go};
use hwp_geom::{Layout, List};

/// The most words of a schedule (this project's rule).
pub const MAX_SCHEDULE: u32 = 100_000;

/// The most bytes of a script: 1 MiB (this project's rule).
pub const MAX_SCRIPT: usize = 1_048_576;

/// A fault script: the machine that it declares, for each processor its list of commands, and the schedule.
#[derive(Drop)]
pub struct Script {
    pub layout: Layout,
    pub lists: List<List<Command>>,
    pub go: List<Go>,
}
