/// What a turn of a task came to.
#[derive(Clone, Copy, PartialEq, Eq)]
pub enum Turn {
    /// A step was made.
    Moved,
    /// A step was made, and its word showed what the task waits for.
    Waits(u64),
    /// A step was made, and its word differed from what the task expected.
    Changed(u64),
    /// A step was made that ended a command.
    Answered,
    /// The task is over; no step was made.
    Finished,
    /// Memory ran out, and the task gives up; that was its step.
    NoMemory,
}
