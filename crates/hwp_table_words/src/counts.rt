/// How often a seat's loads of translations hit its processor's cache, and how many entries it filled and flushed. The
/// numbers stop at the highest.
#[derive(Clone, Copy)]
pub struct TlbCounts {
    /// Loads of a translation that an entry answered.
    pub hits: u64,
    /// Entries written.
    pub fills: u64,
    /// Entries taken away.
    pub flushes: u64,
}
