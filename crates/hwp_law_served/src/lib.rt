//! What a run is, as a list of turns; what a processor has served: why each command was answered so, by what the processor knows at the
//! end of a run; and what the last board of the run shows of that. This crate has definitions and lemmas alone; the crates above cite them.
#![tactic(auto)]
