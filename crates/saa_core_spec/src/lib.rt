//! The sequential object that every form of `saa` is proved against, and the words that callers share with it.
//!
//! `specs/` has the sequential specification: what is held, the waiters, what each call answers and leaves. `docs/DEFINITIONS.md` reads it
//! aloud. The modules here hold only the enums that it speaks of: what is asked, what is answered, and their numbers.
#![tactic(auto)]

pub mod barrier;
pub mod equality;
pub mod gate;
mod io_error;
pub mod lock;
pub mod polling;
pub mod request;
pub mod run;
pub mod semaphore;
