//! A value behind the lock-free lock: `Mutex` and `RwLock`, their guards, and the futures that wait for a guard.
//!
//! All is `saa_core_guards`', at this lock. A guard keeps a receipt of its grant, which [`Guard::unlock_witnessed`] hands out; `close` gives the value, the
//! word's numbers, and one history for all receipts that are handed in.

ghost use Rattle.std.specs.Prelude.{◌≡◌, ◌++◌};
ghost use Rattle.saa_word_threads.specs.Dealt.{numbers};
ghost use Rattle.saa_word_threads.specs.Locks.{about_of, table_of};
ghost use Rattle.saa_word_threads.specs.Receipts.{IsLedOn, IsReceiptAt, said};

use crate::lock::Lock;
pub use saa_core_guards::future::{GuardFuture, lock_async, read_async, write_async};
pub use saa_core_guards::guarded::GuardKind;
use saa_core_guards::guarded::{Guarded, lock_of};
pub use saa_core_guards::rw_lock::OfRwLock;
pub use saa_core_guards::turn_at::{OfMutex, OfReader, OfWriter};
pub use saa_core_guards::{Guard, Lowers, Turn, ValueMut, ValueRef, Witnessed, Writing};
use saa_word_threads::receipt::Receipt;
use saa_word_threads::words::Words;
use std::sync::Wait;

/// A value that one owner at a time uses, in turns of the lock-free lock.
pub type Mutex<R, T> = saa_core_guards::mutex::Mutex<Lock<R>, T>;

/// The turn of one owner at a [`Mutex`], and its value to read and write. Its drop gives both up.
pub type MutexGuard<'a, R, T> = saa_core_guards::mutex::MutexGuard<'a, Lock<R>, T>;

/// A value that up to 62 readers share, or one writer uses alone, in turns of the lock-free lock.
pub type RwLock<R, T> = saa_core_guards::rw_lock::RwLock<Lock<R>, T>;

/// A reader's turn at an [`RwLock`], and its value to read. Its drop gives both up.
pub type RwLockReadGuard<'a, R, T> = saa_core_guards::rw_lock::RwLockReadGuard<'a, Lock<R>, T>;

/// A writer's turn at an [`RwLock`], and its value to read and write. Its drop gives both up.
pub type RwLockWriteGuard<'a, R, T> = saa_core_guards::rw_lock::RwLockWriteGuard<'a, Lock<R>, T>;

/// The future of [`lock_async`].
pub type MutexFuture<'a, R, T> = saa_core_guards::future::MutexFuture<'a, Lock<R>, T>;

/// The future of [`write_async`].
pub type WriteFuture<'a, R, T> = saa_core_guards::future::WriteFuture<'a, Lock<R>, T>;

/// The future of [`read_async`].
pub type ReadFuture<'a, R, T> = saa_core_guards::future::ReadFuture<'a, Lock<R>, T>;

/// The value, and the word's numbers at the end, with a receipt as the witness of what led there; never blocks. Costs O(room).
///
/// That a turn's receipt may be handed in, [`turns`](crate::laws::turns) says.
pub fn close<R: Wait + Drop, T, K>(guarded: Guarded<Lock<R>, T, K>, receipt: Receipt) -> (T, Words)
    requires { IsReceiptAt (table_of guarded.word) receipt }
    ensures places { result.1.places ≡ (about_of guarded.word).places }
    ensures led { IsLedOn (about_of guarded.word) (numbers result.1) (said receipt) }
{
    let (lock, value) = guarded.into_lock_and_value();
    (value, lock.close(receipt))
}

/// A receipt says from now on what another one says, too. Costs one load.
pub fn join_receipt<R: Wait + Drop, T, K>(
    guarded: &Guarded<Lock<R>, T, K>,
    receipt: &mut Receipt,
    other: Receipt,
)
    requires { IsReceiptAt (table_of guarded.now.word) receipt.old × IsReceiptAt (table_of guarded.now.word) other }
    ensures table { IsReceiptAt (table_of guarded.now.word) receipt.new }
    ensures joined { said receipt.new ≡ said receipt.old ++ said other }
{
    lock_of(guarded).join_receipt(receipt, other);
}
