//! The future that waits for a guard: it waits for the turn as the lock's own future does, and then takes the value.
//!
//! It asks at its first poll. While the turn isn't there it stays pending, and its task is woken once it is. A poll
//! after the end asks to be polled again, and changes nothing. Dropping it drops what it is registered for: it leaves the
//! queue, or gives back a turn that it was granted and not told of yet.

ghost use Rattle.std.specs.Prelude.{◌≡◌, false, IfOk, IfErr};
ghost use Rattle.saa_core_spec.specs.declared.request.Request.TheVariants.{Exclusive as AskExclusive, Shared as AskShared};
ghost use Rattle.saa_core_spec.specs.Lock.{mode_request};

use crate::guarded::GuardKind;
use crate::mutex::Mutex;
use crate::raw_lock::{RawLock, RawLockAsync};
use crate::rw_lock::RwLock;
use crate::turn_at::{OfMutex, OfReader, OfWriter, TurnKind};
use futures::task::{Context, Poll};
use futures::{Future, ready};
use saa_core_spec::request::Full;
use std::marker::{Model, PhantomData};
use std::sync::RwLock as Value;

/// The future of a guard of this kind. Contracts see the lock whose turn it waits for, and what is pending there.
///
/// Its type names no guard, since the checker proves no drop of one whose type does.
pub struct GuardFuture<'a, L: RawLockAsync, T, K: TurnKind> {
    lock: &'a L,
    value: &'a Value<T>,
    pending: L::Pending,
    kind: PhantomData<K>,
}

impl<'a, L: RawLockAsync, T, K: TurnKind> Model for GuardFuture<'a, L, T, K> {
    ghost use Rattle.std.specs.Prelude.{◌≡◌};
    ghost use Rattle.saa_core_guards.specs.Guards.{GuardFutureState};
    ghost use Rattle.saa_core_spec.specs.Lock.{mode_request};

    ghost Value = { GuardFutureState L L.Pending };

    ghost view = { λ future. record { lock = future.lock.now; pending = future.pending } };

    ghost invariant = { λ future. L.admits_pending future.lock.now future.pending × (L.asked future.pending ≡ mode_request K.mode) };
}

/// The future of [`lock_async`].
pub type MutexFuture<'a, L, T> = GuardFuture<'a, L, T, OfMutex>;

/// The future of [`write_async`].
pub type WriteFuture<'a, L, T> = GuardFuture<'a, L, T, OfWriter>;

/// The future of [`read_async`].
pub type ReadFuture<'a, L, T> = GuardFuture<'a, L, T, OfReader>;

/// The future of a mutex's guard: its output is that of [`Mutex::lock`].
///
/// Nothing is asked before its first poll.
pub fn lock_async<L: RawLockAsync + Drop, T>(mutex: &Mutex<L, T>) -> MutexFuture<'_, L, T>
    ensures mutex { result.lock ≡ mutex.now }
    ensures request { L.asked result.pending ≡ AskExclusive }
    ensures idle { L.is_idle result.pending }
    ensures fresh { L.has_ended result.pending ≡ false }
{
    GuardFuture::new(&mutex.lock, &mutex.value)
}

/// The future of a writer's guard: its output is that of [`RwLock::write`].
///
/// Nothing is asked before its first poll.
pub fn write_async<L: RawLockAsync + Drop, T>(rwlock: &RwLock<L, T>) -> WriteFuture<'_, L, T>
    ensures rwlock { result.lock ≡ rwlock.now }
    ensures request { L.asked result.pending ≡ AskExclusive }
    ensures idle { L.is_idle result.pending }
    ensures fresh { L.has_ended result.pending ≡ false }
{
    GuardFuture::new(&rwlock.lock, &rwlock.value)
}

/// The future of a reader's guard: its output is that of [`RwLock::read`].
///
/// Nothing is asked before its first poll.
pub fn read_async<L: RawLockAsync + Drop, T>(rwlock: &RwLock<L, T>) -> ReadFuture<'_, L, T>
    ensures rwlock { result.lock ≡ rwlock.now }
    ensures request { L.asked result.pending ≡ AskShared }
    ensures idle { L.is_idle result.pending }
    ensures fresh { L.has_ended result.pending ≡ false }
{
    GuardFuture::new(&rwlock.lock, &rwlock.value)
}

impl<'a, L: RawLockAsync, T, K: TurnKind> GuardFuture<'a, L, T, K> {
    // The future of a guard of this value.
    fn new(lock: &'a L, value: &'a Value<T>) -> Self
        ensures lock { result.lock ≡ lock.now }
        ensures request { L.asked result.pending ≡ mode_request K.mode }
        ensures idle { L.is_idle result.pending }
        ensures fresh { L.has_ended result.pending ≡ false }
    {
        GuardFuture {
            lock,
            value,
            pending: L::pending(K::mode()),
            kind: PhantomData,
        }
    }
}

impl<'a, L: RawLockAsync, T, K: GuardKind<'a, L, T>> Future for GuardFuture<'a, L, T, K> {
    type Output = Result<K::Guard, Full>;

    ghost needs = { λ future source. source ≡ L.source future.lock };

    ghost gives = { λ future answer. IfOk answer (λ guard. K.lock_of guard ≡ future.lock) × IfErr answer (λ full. L.is_full future.lock) };

    fn poll(&mut self, cx: &mut Context<'_>) -> Poll<Result<K::Guard, Full>> {
        match ready!(self.lock.poll_turn(&mut self.pending, K::mode(), cx)) {
            Ok(witness) => Poll::Ready(Ok(K::guard(self.lock, self.value, witness))),
            Err(full) => Poll::Ready(Err(full)),
        }
    }
}

impl<L: RawLockAsync, T, K: TurnKind> Drop for GuardFuture<'_, L, T, K> {
    fn drop(self) {
        let GuardFuture {
            lock,
            value: _value,
            mut pending,
            kind: _kind,
        } = self;
        lock.give_up(&mut pending);
    }
}
