//! Tests of the pool of values, which a program takes out and gives back without a lock.
#![tactic(auto)]

#[cfg(test)]
mod held;
#[cfg(test)]
mod lending;
