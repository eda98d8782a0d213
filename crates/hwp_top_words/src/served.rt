/// What the words of a command ask for.
#[derive(Clone, Copy)]
pub enum Call {
    /// `step`: the report of the script that the source gives.
    Step,
    /// `step tlb`: the same, of a run with a translation cache for each processor.
    StepTlb,
    /// `check`: whether what stands behind the script that the source gives is a report that a run of it can have.
    Check,
    /// `gen N`: the script of seed N.
    Gen(u64),
    /// `sum N`: the summary of the report of that script.
    Sum(u64),
}
