//! The cores: each primitive for one task at a time, proved to be the sequential specification of `saa_core_spec`.
//!
//! `line` is the queue of waiters with its answers and pending wakes, `ticket` what a task holds of it, and `primitive` what generic
//! code knows of any core. `granting` is what the semaphore and the lock share. `future` is the pure future of any core, polled with
//! the core lent to it. No thread, mutex or handle occurs in this crate; every call returns.
#![tactic(auto)]

pub mod barrier;
pub mod equality;
pub mod future;
pub mod gate;
pub mod granting;
pub mod line;
pub mod lock;
pub mod primitive;
pub mod semaphore;
pub mod ticket;
pub mod words;

pub use primitive::Primitive;
