//! Runs of commands over any core: benches, whose tickets have numbers, and journals, which are benches that keep their history.
//!
//! A program that calls cores alone may name this crate alone: it passes on the cores, their tickets and what contracts name. The
//! threaded forms need none of it. No thread, mutex or handle occurs in this crate; every call returns.
#![tactic(auto)]

pub mod bench;
pub mod journal;

pub use saa_core::{barrier, future, gate, line, lock, primitive, semaphore, ticket, words};
