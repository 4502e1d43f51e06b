//! A value and the lock in whose turns it is used: what mutexes and reader-writer locks share.
//!
//! The value is in a lock of std, which gives it only to a guard. Only the holder of the turn asks for it, and gives it back before
//! the turn is passed on, so that lock should never be contended. No clause says so.

ghost use Rattle.std.specs.Prelude.{◌≡◌, IfOk, IfSome, IsOk, IfErr};

use crate::guard::Guard;
use crate::raw_lock::{MadeWith, RawLock, RawLockUntil};
use crate::turn::Writing;
use crate::turn_at::{OfMutex, OfReader, OfWriter, TurnAt, TurnKind};
use saa_core_spec::request::Full;
use saa_core_waits::deadline::Deadline;
use saa_core_waits::spin_policy::{DEFAULT, SpinPolicy};
use std::alloc::{AllocError, Global};
use std::marker::{Model, PhantomData};
use std::sync::{RwLock, RwLockReadGuard as Reader, RwLockWriteGuard as Writer};

/// A value, and the lock in whose turns it is used: a [`Mutex`](crate::mutex::Mutex) or a [`RwLock`](crate::rw_lock::RwLock), by its kind.
///
/// The lock's calls aren't handed out. Contracts see the lock.
#[derive(Drop)]
pub struct Guarded<L: RawLock + Drop, T, K> {
    pub(crate) lock: L,
    pub(crate) value: RwLock<T>,
    kind: PhantomData<K>,
}

impl<L: RawLock + Drop, T, K> Model for Guarded<L, T, K> {
    ghost Value = { L };

    ghost view = { λ guarded. guarded.lock };
}

impl<L: RawLock + Drop, T, K> Guarded<L, T, K> {
    /// A value that nobody has, and room for so many waiters. Costs O(`room`).
    ///
    /// Reserves all the memory that it will ever need; the error comes only where that was refused. Where it comes, the value is dropped.
    pub fn new<R>(rt: R, alloc: Global, value: T, room: u16) -> Result<Self, AllocError>
    where
        L: MadeWith<R>,
        T: Drop,
        ensures no_room { ⟦<L as MadeWith<R>>⟧.takes_no_memory room → IsOk result }
        ensures made { IfOk result (λ guarded. ⟦<L as MadeWith<R>>⟧.is_made guarded room DEFAULT) }
    {
        Self::with_spin_policy(rt, alloc, value, room, DEFAULT)
    }

    /// As [`Self::new`], with a spin policy of its own for calls that haven't joined the queue; with [`NONE`](saa_core_waits::spin_policy::NONE)
    /// each joins at once.
    pub fn with_spin_policy<R>(
        rt: R,
        alloc: Global,
        value: T,
        room: u16,
        spin_policy: SpinPolicy,
    ) -> Result<Self, AllocError>
    where
        L: MadeWith<R>,
        T: Drop,
        ensures no_room { ⟦<L as MadeWith<R>>⟧.takes_no_memory room → IsOk result }
        ensures made { IfOk result (λ guarded. ⟦<L as MadeWith<R>>⟧.is_made guarded room spin_policy) }
    {
        let lock = L::make(rt, alloc, room, spin_policy)?;
        Ok(Self::of_lock(lock, value))
    }

    /// The value, used in the turns of a lock that is handed in. That has to be free, and isn't handed out again before the end.
    pub fn of_lock(lock: L, value: T) -> Self
        ensures { result ≡ lock }
    {
        Guarded {
            lock,
            value: RwLock::new(value),
            kind: PhantomData,
        }
    }

    /// The value, with no lock: an exclusive reference to the lock needs none.
    pub fn get_mut(&mut self) -> &mut T {
        self.value.get_mut()
    }

    /// The value; nobody uses it any more.
    pub fn into_inner(self) -> T {
        let (_lock, value) = self.into_lock_and_value();
        value
    }

    /// The lock and the value; nobody uses them any more.
    pub fn into_lock_and_value(self) -> (L, T)
        ensures { result.0 ≡ self }
    {
        let Guarded {
            lock,
            value,
            kind: _kind,
        } = self;
        (lock, value.into_inner())
    }

    // Takes the value as a guard of this kind has it, if that needs no wait.
    pub(crate) fn try_take<'a, G: GuardKind<'a, L, T>>(&'a self) -> Option<G::Guard>
        ensures { IfSome result (λ guard. G.lock_of guard ≡ self.now) }
    {
        let witness = self.lock.try_take(G::mode())?;
        Some(G::guard(&self.lock, &self.value, witness))
    }

    // Waits for the value as a guard of this kind has it.
    pub(crate) fn take<'a, G: GuardKind<'a, L, T>>(&'a self) -> Result<G::Guard, Full>
        ensures taken { IfOk result (λ guard. G.lock_of guard ≡ self.now) }
        ensures full { IfErr result (λ full. L.is_full self.now) }
    {
        let witness = self.lock.take(G::mode())?;
        Ok(G::guard(&self.lock, &self.value, witness))
    }
}

impl<L: RawLockUntil + Drop, T, K> Guarded<L, T, K> {
    // Waits for the value until the deadline. `None`: time is up.
    pub(crate) fn take_until<'a, G: GuardKind<'a, L, T>>(
        &'a self,
        deadline: Deadline,
    ) -> Result<Option<G::Guard>, Full>
        ensures taken { IfOk result (λ reply. IfSome reply (λ guard. G.lock_of guard ≡ self.now)) }
        ensures full { IfErr result (λ full. L.is_full self.now) }
    {
        match self.lock.take_until(G::mode(), deadline)? {
            Some(witness) => Ok(Some(G::guard(&self.lock, &self.value, witness))),
            None => Ok(None),
        }
    }
}

/// The lock of a mutex or of a reader-writer lock, for the crate whose lock that is, and for tests: a call at it may end the turn of another.
pub fn lock_of<L: RawLock + Drop, T, K>(guarded: &Guarded<L, T, K>) -> &L
    ensures { result.now ≡ guarded.now }
{
    &guarded.lock
}

/// A kind of guard, and how it is made of a grant.
pub trait GuardKind<'a, L: RawLock, T>: TurnKind {
    /// The guard.
    type Guard;

    // The lock whose turn it has.
    ghost lock_of: { Self.Guard → L };

    /// The guard of a turn that was granted, with the value.
    fn guard(lock: &'a L, value: &'a RwLock<T>, witness: L::Witness) -> Self::Guard
        requires { ∥ L.granted lock.now Self.mode witness ∥₁ }
        ensures { lock_of result ≡ lock.now };
}

impl<'a, L: RawLock + 'a, T: 'a> GuardKind<'a, L, T> for OfMutex {
    type Guard = Guard<Writer<'a, T>, TurnAt<'a, L, OfMutex>>;

    ghost lock_of = { λ guard. guard.turn.lock.now };

    fn guard(lock: &'a L, value: &'a RwLock<T>, witness: L::Witness) -> Self::Guard {
        Guard::new(TurnAt::of(lock, witness), lock.write(value))
    }
}

impl<'a, L: RawLock + 'a, T: 'a> GuardKind<'a, L, T> for OfWriter {
    type Guard = Guard<Writer<'a, T>, Writing<'a, TurnAt<'a, L, OfWriter>, T>>;

    ghost lock_of = { λ guard. guard.turn.turn.lock.now };

    fn guard(lock: &'a L, value: &'a RwLock<T>, witness: L::Witness) -> Self::Guard {
        let turn = Writing::new(TurnAt::of(lock, witness), value);
        Guard::new(turn, lock.write(value))
    }
}

impl<'a, L: RawLock + 'a, T: 'a> GuardKind<'a, L, T> for OfReader {
    type Guard = Guard<Reader<'a, T>, TurnAt<'a, L, OfReader>>;

    ghost lock_of = { λ guard. guard.turn.lock.now };

    fn guard(lock: &'a L, value: &'a RwLock<T>, witness: L::Witness) -> Self::Guard {
        Guard::new(TurnAt::of(lock, witness), lock.read(value))
    }
}
