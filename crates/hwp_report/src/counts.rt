/// The counts of a report. A count that no `u64` holds, which no memory has, is the greatest `u64`.
#[derive(Clone, Copy)]
pub struct Summary {
    /// The commands: each has one answer.
    pub commands: u64,
    /// The accesses and soft offlinings for which no frame was free.
    pub noframe: u64,
    /// Whether the machine stopped.
    pub stopped: bool,
    /// The poisoned frames.
    pub count: u64,
    /// The entries in the histories of all pages.
    pub entries: u64,
    /// The signals of all memory failures.
    pub signals: u64,
}
