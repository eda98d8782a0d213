//! Tests of the small crates: numbers and lists, sources and sinks, packed words, the grading of a machine check, the collector
//! of corrected errors, and copy on write.
#![tactic(auto)]

#[cfg(test)]
mod banks;
#[cfg(test)]
mod checking;
#[cfg(test)]
mod collecting;
#[cfg(test)]
mod forking;
#[cfg(test)]
mod handling;
#[cfg(test)]
mod numbers;
#[cfg(test)]
mod sets;
#[cfg(test)]
mod severity;
#[cfg(test)]
mod streams;
#[cfg(test)]
mod words;
