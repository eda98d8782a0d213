use hwp_law::EventLine;

/// An event line of a report, and its place among the lines of its processor.
#[derive(Clone, Copy)]
pub struct Shown {
    pub place: usize,
    pub line: EventLine,
}
