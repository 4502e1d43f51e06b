//! Lock-free forms for any number of tasks: a semaphore and a lock in one atomic word, and values behind that lock, which tasks use by `&self`.
//!
//! A call that needn't wait takes no place and no memory (`saa_word_threads::visitor`). One that has to wait takes a place out of a pool
//! (`saa_word_pool`). `word_form` says what a word offers, `form` has what both primitives share, and `semaphore` and `lock` the calls of each. `raw_lock`
//! offers the lock to the mutexes of `saa_core_guards`, which `lock_api` names; `laws` has what crates above may use.
#![tactic(auto)]

mod awaiting;
mod blocking;
pub mod form;
pub mod future;
pub mod laws;
pub mod lock;
pub mod lock_api;
mod of_lock;
mod of_semaphore;
pub mod pager;
pub mod permit;
mod raw_lock;
pub mod registration;
pub mod semaphore;
pub mod tasks;
pub mod timed;
mod waiting;
pub mod word_form;

pub use lock::Lock;
pub use lock_api::{
    Guard, Lowers, Mutex, MutexGuard, RwLock, RwLockReadGuard, RwLockWriteGuard, Turn, ValueMut,
    ValueRef, Witnessed, Writing, lock_async, read_async, write_async,
};
pub use pager::Pager;
pub use permit::{OwnedPermit, OwnedPermitOf, Permit, PermitOf};
pub use saa_core_spec::request::Full;
pub use saa_core_waits as waits;
pub use saa_core_waits::{AcquireError, Deadline, SpinPolicy, Waitable, spin_policy};
pub use saa_word_threads::lock::{Error, Mode, TryLockError};
pub use saa_word_threads::receipt::Receipt;
pub use saa_word_threads::words::Words;
pub use semaphore::{Semaphore, SemaphoreOf};
