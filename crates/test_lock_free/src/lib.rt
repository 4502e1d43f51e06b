//! Tests of what no contract says of the lock-free forms: receipts with which they are closed, and callbacks there; and of permits as values at both
//! semaphores.
//!
//! Their stories, which are those of the threaded forms, and their lists of moves beside the cores are in `test_stories`, their guards in `test_guards`.
#![tactic(auto)]

#[cfg(test)]
mod closes;
#[cfg(test)]
mod looking;
#[cfg(test)]
mod permit_values;
