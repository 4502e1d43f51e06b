//! A value behind a fair lock: `Mutex` and `RwLock`, their guards, and the futures that wait for a guard.
//!
//! They are those of `saa_core_guards`, in the turns of the threaded lock (`raw_lock`), whose waiters are FIFO. Its calls aren't handed out, so
//! it is never poisoned. A guard's drop gives up the value first and the turn afterwards; a guard that is leaked (`mem::forget`) gives up neither.
//! What holds of the value under the lock is known by its type: each guard keeps every invariant of that type.

use crate::lock::Lock;
pub use saa_core_guards::future::{GuardFuture, lock_async, read_async, write_async};
pub use saa_core_guards::guarded::GuardKind;
pub use saa_core_guards::turn_at::{OfMutex, OfReader, OfWriter};
use saa_core_guards::{future, mutex, rw_lock};
pub use saa_core_guards::{Guard, Lowers, Turn, ValueMut, ValueRef, Writing};

/// A value that one owner at a time uses; `R` is the permission to block, as a reference to the runtime.
///
/// Making one takes no memory for room 0, so it is never refused there.
pub type Mutex<R, T> = mutex::Mutex<Lock<R>, T>;

/// The turn of one owner at a [`Mutex`], and its value to read and write. Its drop gives both up.
pub type MutexGuard<'a, R, T> = mutex::MutexGuard<'a, Lock<R>, T>;

/// A value that up to 62 readers share, or one writer uses alone; `R` is the permission to block, as a reference to the runtime.
///
/// Making one takes no memory for room 0, so it is never refused there.
pub type RwLock<R, T> = rw_lock::RwLock<Lock<R>, T>;

/// A reader's turn at an [`RwLock`], and its value to read. Its drop gives both up.
pub type RwLockReadGuard<'a, R, T> = rw_lock::RwLockReadGuard<'a, Lock<R>, T>;

/// A writer's turn at an [`RwLock`], and its value to read and write. Its drop gives both up.
pub type RwLockWriteGuard<'a, R, T> = rw_lock::RwLockWriteGuard<'a, Lock<R>, T>;

/// The future of [`lock_async`].
pub type MutexFuture<'a, R, T> = future::MutexFuture<'a, Lock<R>, T>;

/// The future of [`write_async`].
pub type WriteFuture<'a, R, T> = future::WriteFuture<'a, Lock<R>, T>;

/// The future of [`read_async`].
pub type ReadFuture<'a, R, T> = future::ReadFuture<'a, Lock<R>, T>;
