//! The forms that threads and tasks share, each one mutex round a core, with pagers, named futures and guards.
//!
//! A program that takes no word form may name this crate alone: it has all of `saa` but the word forms and the laws, under the same names.
//!
//! `form` is the one type of the four forms: one mutex around a core, with what is under it in `locked`, where a thread parks in `parker`,
//! and what tasks are woken by in `wakers`; it offers what `saa_core_waits` builds on, the waits of every kind. `semaphore`, `lock`, `gate` and
//! `barrier` have the calls of each. `future` has the futures that they hand out, `permit` a semaphore's permits as values, `pager` waits that
//! are kept outside a call, and `lock_api` mutexes and reader-writer locks, over what `raw_lock` says that the lock offers. `testing` has what
//! tests alone may see.
#![tactic(auto)]

pub mod barrier;
pub mod form;
pub mod future;
pub mod gate;
mod hint;
pub mod lock;
pub mod lock_api;
mod locked;
pub mod pager;
mod parker;
pub mod permit;
mod raw_lock;
mod rest;
pub mod semaphore;
pub mod spin_policy;
pub mod testing;
pub mod timed;
mod wakers;

pub use barrier::Barrier;
pub use gate::Gate;
pub use lock::{Lock, TryLockError};
pub use lock_api::{
    Guard, Lowers, Mutex, MutexGuard, RwLock, RwLockReadGuard, RwLockWriteGuard, Turn, ValueMut,
    ValueRef, Writing, lock_async, read_async, write_async,
};
pub use pager::Pager;
pub use permit::{OwnedPermit, OwnedPermitOf, Permit, PermitOf};
pub use saa_core::ticket::Full;
pub use saa_core::{line, ticket, words};
pub use saa_core_waits as waits;
pub use saa_core_waits::{AcquireError, Waitable};
pub use semaphore::{Semaphore, SemaphoreOf};
