//! A mutex over any raw lock, and its guard.

ghost use Rattle.std.specs.Prelude.{◌≡◌, IfOk, IfSome, IfErr};

use crate::guard::Guard;
use crate::guarded::Guarded;
use crate::raw_lock::{RawLock, RawLockUntil};
use crate::turn_at::{OfMutex, TurnAt};
use saa_core_spec::request::Full;
use saa_core_waits::deadline::Deadline;
use std::sync::RwLockWriteGuard as Writer;
use std::time::{Duration, Instant};

/// A value that one owner at a time uses, in turns of the lock `L`.
///
/// Waiters are granted in FIFO order of joining the queue. A call that may block, and isn't timed, first tries and spins for a bounded
/// number of times ([`SpinPolicy`](saa_core_waits::spin_policy::SpinPolicy)); until it joins it is no waiter, and nothing orders it. The value's type
/// says what holds of it while it has no guard: a guard ends only where every invariant of the type holds, and its holder may use them. Contracts see
/// a mutex as the lock in whose turns the value is used.
pub type Mutex<L, T> = Guarded<L, T, OfMutex>;

/// The turn of one owner at a [`Mutex`], and its value to read and write. Its drop gives both up.
pub type MutexGuard<'a, L, T> = Guard<Writer<'a, T>, TurnAt<'a, L, OfMutex>>;

impl<L: RawLock + Drop, T> Guarded<L, T, OfMutex> {
    /// Takes the mutex. It spins first, as its spin policy says, and then waits in the queue where it must.
    ///
    /// `Full`: its spins are over, it would have to wait, and there is no room for one more waiter; nothing is changed. A thread that has
    /// the guard already waits for itself, so for ever, where there is room.
    pub fn lock(&self) -> Result<MutexGuard<'_, L, T>, Full>
        ensures guard { IfOk result (λ guard. guard.turn.lock.now ≡ self.now) }
        ensures full { IfErr result (λ full. L.is_full self.now) }
    {
        self.take::<OfMutex>()
    }

    /// Takes the mutex if nobody has it and nobody waits; never waits for it.
    ///
    /// `None` changes nothing.
    pub fn try_lock(&self) -> Option<MutexGuard<'_, L, T>>
        ensures { IfSome result (λ guard. guard.turn.lock.now ≡ self.now) }
    {
        self.try_take::<OfMutex>()
    }
}

impl<L: RawLockUntil + Drop, T> Guarded<L, T, OfMutex> {
    /// Takes the mutex, and waits for it in the queue at most so long; it joins at once, without a look before it.
    ///
    /// `Ok(None)`: time is up, and nothing is registered or taken; those behind are granted while they fit. `Full` comes at once, where it
    /// would have to wait and there is no room for one more waiter.
    pub fn lock_for(&self, duration: Duration) -> Result<Option<MutexGuard<'_, L, T>>, Full>
        ensures guard { IfOk result (λ reply. IfSome reply (λ guard. guard.turn.lock.now ≡ self.now)) }
        ensures full { IfErr result (λ full. L.is_full self.now) }
    {
        self.take_until::<OfMutex>(self.lock.after(duration))
    }

    /// Takes the mutex as [`Self::lock_for`] does, and waits for it until this instant.
    pub fn lock_until(&self, deadline: Instant) -> Result<Option<MutexGuard<'_, L, T>>, Full>
        ensures guard { IfOk result (λ reply. IfSome reply (λ guard. guard.turn.lock.now ≡ self.now)) }
        ensures full { IfErr result (λ full. L.is_full self.now) }
    {
        self.take_until::<OfMutex>(Deadline::At(deadline))
    }
}
