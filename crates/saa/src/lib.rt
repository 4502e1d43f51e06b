//! Fair synchronization for threads and tasks that are polled: every public name, under one crate.
//!
//! Nothing is defined here. A program that takes the threaded forms alone may name `saa_sync`, and one that takes the word forms alone
//! `saa_word_forms`: each has the same names, and less to prove below it. So has `saa_word_lock_free`, in the modules of `lock_free`, and so have
//! `saa_sync_pool` and `saa_sync_queue`, in `pool` and `queue`.
#![tactic(auto)]

pub mod bench;
pub mod lock_free;
pub mod pool;
pub mod queue;
pub mod request;
pub mod word;

pub use saa_core_bench::journal;
pub use saa_core_laws::laws;
pub use saa_sync::{
    AcquireError, Barrier, Full, Gate, Guard, Lock, Lowers, Mutex, MutexGuard, Pager, Permit,
    PermitOf, RwLock, RwLockReadGuard, RwLockWriteGuard, Semaphore, SemaphoreOf, TryLockError,
    Turn, ValueMut, ValueRef, Writing, barrier, form, future, gate, line, lock, lock_api,
    lock_async, pager, read_async, semaphore, spin_policy, ticket, timed, waits, words,
    write_async,
};
