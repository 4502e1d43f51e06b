//! Forms that are kept in words, with no mutex round them: the semaphore and the lock that threads share, each with a place of its own; a
//! value behind that lock, in a mutex or a reader-writer lock, with a worker at each place; and the machine that makes the same single steps,
//! one at a move. `Place` and `Left` are the semaphore's, `LockPlace` and `LockLeft` the lock's; a `Visitor` is of either, and has no place; a
//! `Receipt` says what one of them had seen.

pub use saa_word::machine;
pub use saa_word_forms::{
    Error, Guard, Left, Lock, LockLeft, LockPlace, Lowers, Mode, Mutex, MutexGuard, MutexWorker,
    Place, Receipt, RwLock, RwLockReadGuard, RwLockWorker, RwLockWriteGuard, Semaphore,
    SemaphoreOf, TryLockError, Turn, ValueMut, ValueRef, Visitor, Words, Writing,
};
