//! Tests of the parts of a run that stand below processors: the lines of a script, scripts read, printed and made from a seed, reports
//! printed and read; a page that fails, tasks on a board in plain vectors, turn by turn, what tasks answer that give references back or
//! let a page go, and what that board and the table are closed with.
#![tactic(auto)]

#[cfg(test)]
mod checking;
#[cfg(test)]
mod ends;
#[cfg(test)]
mod generated;
#[cfg(test)]
mod lines;
#[cfg(test)]
mod machine;
#[cfg(test)]
mod pages;
#[cfg(test)]
mod printed;
#[cfg(test)]
mod readings;
#[cfg(test)]
mod releasing;
#[cfg(test)]
mod scripts;
#[cfg(test)]
mod turns;
#[cfg(test)]
mod words;
