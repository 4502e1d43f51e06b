//! Tests of what no contract says: that calls spin for a while, rest and are woken as said, that wakers go out with the mutex free, and that nothing is
//! lost where threads and tasks race.
//!
//! Every test joins its threads, ends by itself, and rests nothing on timing.
#![tactic(auto)]

#[cfg(test)]
mod chaos;
#[cfg(test)]
mod newcomers;
#[cfg(test)]
mod orderings;
#[cfg(test)]
mod parkers;
#[cfg(test)]
mod prints;
#[cfg(test)]
mod rooms;
#[cfg(test)]
mod spins;
#[cfg(test)]
mod tasks;
#[cfg(test)]
mod wakers;
