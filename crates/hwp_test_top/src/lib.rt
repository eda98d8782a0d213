//! Tests of the top calls: faults of the source and the sink, scripts made from a seed, races, which are two processors under every order
//! of their first turns, processors on threads that meet inside their commands, and how often translation caches hit, fill and flush. Each
//! report of a race is judged, and those of some meetings are compared with what they may come to.
#![tactic(auto)]

#[cfg(test)]
mod at_once;
#[cfg(test)]
mod caches;
#[cfg(test)]
mod checking;
#[cfg(test)]
mod copying;
#[cfg(test)]
mod faults;
#[cfg(test)]
mod gates;
#[cfg(test)]
mod helpers;
#[cfg(test)]
mod judging;
#[cfg(test)]
mod meetings;
#[cfg(test)]
mod offlinings;
#[cfg(test)]
mod runs;
#[cfg(test)]
mod seeds;
