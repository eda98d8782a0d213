use hwp_banks::Event;

/// How far a scrub has come: the place that comes next, what bank 1 holds, whether its line was told of a machine check at a bad
/// line that lacks yet, and was a panic; how many marked places were passed over, and how many lines were passed by.
#[derive(Clone, Copy)]
pub struct Reach {
    pub next: u64,
    pub raw: Option<Event>,
    pub begun: Option<bool>,
    pub passed: u64,
    pub strays: u64,
}

/// What a line is to a scrub.
#[derive(Clone, Copy)]
pub enum Turn {
    /// The line of bank 1 in a machine check at a bad line.
    Beside,
    /// The line of a bad line that the scrub meets.
    Bad,
    /// The line of a weak line that the scrub meets.
    Weak,
    /// The line of a weak line that the scrub meets where the line of a bad line is due.
    Instead,
    /// A line that it passes by.
    Stray,
}

/// Up to which frame a scrub goes, whether it went to its end, and behind which place it can meet no bad line.
#[derive(Clone, Copy)]
pub(crate) struct Range {
    pub last: u16,
    pub whole: bool,
    pub bound: u64,
}
