//! The workers of `saa-run threads N`: threads that meet at a gate, a barrier and a semaphore, and write one journal.
#![tactic(auto)]

pub mod workers;
