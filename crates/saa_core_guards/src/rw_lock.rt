//! A reader-writer lock over any raw lock, and its two guards.

ghost use Rattle.std.specs.Prelude.{◌≡◌, IfOk, IfSome, IfErr};

use crate::guard::Guard;
use crate::guarded::Guarded;
use crate::raw_lock::{RawLock, RawLockUntil};
use crate::turn::Writing;
use crate::turn_at::{OfReader, OfWriter, TurnAt};
use saa_core_spec::request::Full;
use saa_core_waits::deadline::Deadline;
use std::sync::{RwLockReadGuard as Reader, RwLockWriteGuard as Writer};
use std::time::{Duration, Instant};

/// The kind of a reader-writer lock.
#[derive(Drop)]
pub struct OfRwLock;

/// A value that up to 62 readers share, or one writer uses alone, in turns of the lock `L`.
///
/// Waiters are granted in FIFO order of joining the queue: no later request passes a waiter, a reader beside readers included. A call
/// that may block, and isn't timed, first tries and spins for a bounded number of times
/// ([`SpinPolicy`](saa_core_waits::spin_policy::SpinPolicy)); until it joins it is no waiter, and nothing orders it. The value's type says what holds
/// of it while there is no writer: a guard ends only where every invariant of the type holds, and its holder may use them. Contracts see a lock
/// around a value as the lock in whose turns the value is used.
pub type RwLock<L, T> = Guarded<L, T, OfRwLock>;

/// A reader's turn at an [`RwLock`], and its value to read. Its drop gives both up.
pub type RwLockReadGuard<'a, L, T> = Guard<Reader<'a, T>, TurnAt<'a, L, OfReader>>;

/// A writer's turn at an [`RwLock`], and its value to read and write. Its drop gives both up.
pub type RwLockWriteGuard<'a, L, T> = Guard<Writer<'a, T>, Writing<'a, TurnAt<'a, L, OfWriter>, T>>;

impl<L: RawLock + Drop, T> Guarded<L, T, OfRwLock> {
    /// Takes the lock to read. It spins first, as its spin policy says, and then waits in the queue where it must.
    ///
    /// `Full`: its spins are over, it would have to wait, and there is no room for one more waiter; nothing is changed. A thread that has a
    /// guard and asks again may wait for itself, so for ever: behind a writer readers wait too.
    pub fn read(&self) -> Result<RwLockReadGuard<'_, L, T>, Full>
        ensures guard { IfOk result (λ guard. guard.turn.lock.now ≡ self.now) }
        ensures full { IfErr result (λ full. L.is_full self.now) }
    {
        self.take::<OfReader>()
    }

    /// Takes the lock to read if nobody writes, fewer than 62 read, and nobody waits; never waits for it.
    ///
    /// `None` changes nothing.
    pub fn try_read(&self) -> Option<RwLockReadGuard<'_, L, T>>
        ensures { IfSome result (λ guard. guard.turn.lock.now ≡ self.now) }
    {
        self.try_take::<OfReader>()
    }

    /// Takes the lock to write. It spins first, as its spin policy says, and then waits in the queue where it must.
    ///
    /// `Full`: its spins are over, it would have to wait, and there is no room for one more waiter; nothing is changed. A thread that has a
    /// guard already waits for itself, so for ever, where there is room.
    pub fn write(&self) -> Result<RwLockWriteGuard<'_, L, T>, Full>
        ensures guard { IfOk result (λ guard. guard.turn.turn.lock.now ≡ self.now) }
        ensures full { IfErr result (λ full. L.is_full self.now) }
    {
        self.take::<OfWriter>()
    }

    /// Takes the lock to write if nobody has it and nobody waits; never waits for it.
    ///
    /// `None` changes nothing.
    pub fn try_write(&self) -> Option<RwLockWriteGuard<'_, L, T>>
        ensures { IfSome result (λ guard. guard.turn.turn.lock.now ≡ self.now) }
    {
        self.try_take::<OfWriter>()
    }
}

impl<L: RawLockUntil + Drop, T> Guarded<L, T, OfRwLock> {
    /// Takes the lock to read, and waits for it in the queue at most so long; it joins at once, without a look before it.
    ///
    /// `Ok(None)`: time is up, and nothing is registered or taken; those behind are granted while they fit. `Full` comes at once, where it
    /// would have to wait and there is no room for one more waiter.
    pub fn read_for(&self, duration: Duration) -> Result<Option<RwLockReadGuard<'_, L, T>>, Full>
        ensures guard { IfOk result (λ reply. IfSome reply (λ guard. guard.turn.lock.now ≡ self.now)) }
        ensures full { IfErr result (λ full. L.is_full self.now) }
    {
        self.take_until::<OfReader>(self.lock.after(duration))
    }

    /// Takes the lock to read as [`Self::read_for`] does, and waits for it until this instant.
    pub fn read_until(&self, deadline: Instant) -> Result<Option<RwLockReadGuard<'_, L, T>>, Full>
        ensures guard { IfOk result (λ reply. IfSome reply (λ guard. guard.turn.lock.now ≡ self.now)) }
        ensures full { IfErr result (λ full. L.is_full self.now) }
    {
        self.take_until::<OfReader>(Deadline::At(deadline))
    }

    /// Takes the lock to write, and waits and answers as [`Self::read_for`] does.
    pub fn write_for(&self, duration: Duration) -> Result<Option<RwLockWriteGuard<'_, L, T>>, Full>
        ensures guard { IfOk result (λ reply. IfSome reply (λ guard. guard.turn.turn.lock.now ≡ self.now)) }
        ensures full { IfErr result (λ full. L.is_full self.now) }
    {
        self.take_until::<OfWriter>(self.lock.after(duration))
    }

    /// Takes the lock to write as [`Self::write_for`] does, and waits for it until this instant.
    pub fn write_until(&self, deadline: Instant) -> Result<Option<RwLockWriteGuard<'_, L, T>>, Full>
        ensures guard { IfOk result (λ reply. IfSome reply (λ guard. guard.turn.turn.lock.now ≡ self.now)) }
        ensures full { IfErr result (λ full. L.is_full self.now) }
    {
        self.take_until::<OfWriter>(Deadline::At(deadline))
    }
}
