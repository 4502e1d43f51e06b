//! Lock-free forms for any number of tasks: the semaphore and the lock in one atomic word, whose calls take a place only where they wait, and values
//! behind that lock.
//!
//! Calls, answers and errors are those of the threaded forms of the same names.

pub use saa_word_lock_free::{
    Guard, Lock, Lowers, Mutex, MutexGuard, Pager, Permit, PermitOf, RwLock, RwLockReadGuard,
    RwLockWriteGuard, Semaphore, SemaphoreOf, Turn, ValueMut, ValueRef, Witnessed, Writing, form,
    future, laws, lock, lock_api, lock_async, pager, permit, read_async, registration, semaphore,
    tasks, timed, word_form, write_async,
};
