//! A reader-writer lock on the word's lock, for a fixed set of workers, and its two guards.

ghost use Rattle.std.specs.Prelude.{◌≡◌, All, IfOk, IfSome, vec_len};
ghost use Rattle.saa_core_spec.specs.declared.lock.Mode.TheVariants.{Exclusive, Shared as Sharing};
ghost use Rattle.saa_word_steps.specs.declared.call.WordCall.TheVariants.{TryLock, TryShare};
ghost use Rattle.saa_word_steps.specs.declared.rules.Rules.TheVariants.{Modes};
ghost use Rattle.saa_word_forms.specs.Turns.{IsLoweredOrWaitedFor, IsTriedAndGranted, IsWaitedFor};
ghost use Rattle.saa_word_threads.specs.Dealt.{IsLedTo, numbers};
ghost use Rattle.saa_word_threads.specs.Locks.{AreNew, HasLeft, IsDealtBy, IsLeftOf, about_of, table_of, view_left};

use crate::guarded::{Guarded, Worker};
use crate::turn::{Alone, Shared};
use saa_core_guards::guard::Guard;
use saa_core_guards::turn::Writing;
use saa_word_threads::lock::{Left, Place, Words};
use std::alloc::{AllocError, Global};
use std::marker::Model;
use std::sync::{RwLockReadGuard as Reader, RwLockWriteGuard as Writer, Wait};

/// A value that up to 62 readers share, or one writer uses alone, taken by one atomic word.
///
/// Waiters are granted in FIFO order of joining the queue: no later request passes a waiter, a reader beside readers included. `new` deals as many places as there may be
/// workers; [`Self::worker`] makes one of a place. What is true of the value whenever it isn't written is said by its type: a guard is given up
/// only where every invariant of the type holds, and its holder may use them. Contracts see a lock round a value as the word's lock whose turns
/// the value is used in. The lock's calls aren't handed out, so it is never poisoned.
#[derive(Drop)]
pub struct RwLock<T> {
    pub(crate) guarded: Guarded<T>,
}

impl<T> Model for RwLock<T> {
    ghost use Rattle.saa_word_threads.specs.declared.lock.Lock.{Lock};

    ghost Value = { Lock };

    ghost view = { λ rwlock. rwlock.guarded.lock };
}

impl<T> RwLock<T> {
    /// A lock with no owner, and its places, in the order of their numbers. Costs O(`places`). With 0 places no worker can be made.
    ///
    /// The error comes only where memory was refused; the value is dropped then. No other call takes memory.
    pub fn new(alloc: Global, value: T, places: u16) -> Result<(Self, Vec<Place>), AllocError>
    where
        T: Drop,
        ensures made { IfOk result (λ made. about_of made.0 ≡ record { rules = Modes; withheld = 0; places = places }) }
        ensures dealt { IfOk result (λ made. (vec_len made.1 ≡ places) × AreNew (table_of made.0) 0 made.1.items) }
        ensures ours { IfOk result (λ made. All (IsDealtBy made.0) made.1.items) }
    {
        let (guarded, dealt) = Guarded::new(alloc, value, places)?;
        Ok((RwLock { guarded }, dealt))
    }

    /// The worker at a place that this lock dealt. Costs O(1).
    pub fn worker(&self, place: Place) -> RwLockWorker<'_, T>
        requires { IsDealtBy self.now place }
        ensures lock { result.lock.now ≡ self.now }
        ensures place { result.place ≡ place }
    {
        RwLockWorker {
            worker: self.guarded.worker(place),
        }
    }

    /// The value, with no lock: `&mut self` is the only access.
    pub fn get_mut(&mut self) -> &mut T {
        self.guarded.get_mut()
    }

    /// The value, which is no longer in use.
    pub fn into_inner(self) -> T {
        let RwLock { guarded } = self;
        guarded.into_inner()
    }

    /// The value, and the words of the lock at the end, with the place of `left` as the witness of what led there. Costs O(1).
    pub fn close(self, left: Left) -> (T, Words)
        requires { IsLeftOf self left }
        ensures places { result.1.places ≡ (about_of self).places }
        ensures led { IsLedTo (about_of self) (numbers result.1) (view_left left) }
    {
        let RwLock { guarded } = self;
        guarded.close(left)
    }
}

/// A place beside the lock that dealt it: what one task takes the lock with, one guard at a time.
///
/// It keeps that the place is the lock's, so its calls ask for nothing. A worker that is dropped while it has no guard needs no [`Self::leave`].
#[derive(Drop)]
pub struct RwLockWorker<'l, T> {
    worker: Worker<'l, T>,
}

impl<'l, T> Model for RwLockWorker<'l, T> {
    ghost use Rattle.saa_word_forms.specs.Workers.{WorkerState};

    ghost Value = { WorkerState };

    ghost view = { λ this. record { lock = this.worker.at.lock; place = this.worker.at.place } };
}

impl<'l, T> RwLockWorker<'l, T> {
    /// Takes the lock to read. It looks and yields a bounded number of times first, and then joins the queue where it must.
    ///
    /// The worker is the guard's until that is dropped. A waiter spins, yields and then parks. A thread that asks with a second worker while it has the
    /// guard of a first may wait for itself, so for ever: behind a writer readers wait too.
    pub fn read<'a, R: Wait>(&'a mut self, rt: &'a R) -> RwLockReadGuard<'a, 'l, R, T>
        ensures lock { result.turn.at.now.lock ≡ self.old.lock }
        ensures taken { IsWaitedFor Sharing self.old.place result.turn.at.now.place }
    {
        let (turn, value) = self.worker.read(rt);
        RwLockReadGuard::new(turn, value)
    }

    /// Takes the lock to read if there is no writer, fewer than 62 readers, and no waiter; never waits for an owner.
    ///
    /// `None` changes nothing.
    pub fn try_read<'a, R: Wait>(&'a mut self, rt: &'a R) -> Option<RwLockReadGuard<'a, 'l, R, T>>
        ensures lock { IfSome result (λ guard. guard.turn.at.now.lock ≡ self.old.lock) }
        ensures tried { IfSome result (λ guard. IsTriedAndGranted TryShare self.old.place guard.turn.at.now.place) }
    {
        let (turn, value) = self.worker.try_read(rt)?;
        Some(RwLockReadGuard::new(turn, value))
    }

    /// Takes the lock to write. It looks and yields a bounded number of times first, and then joins the queue where it must.
    ///
    /// The worker is the guard's until that is dropped. A waiter spins, yields and then parks. A thread that asks with a second worker while it has the
    /// guard of a first waits for itself, so for ever.
    pub fn write<'a, R: Wait>(&'a mut self, rt: &'a R) -> RwLockWriteGuard<'a, 'l, R, T>
        ensures lock { result.turn.turn.at.now.lock ≡ self.old.lock }
        ensures taken { IsWaitedFor Exclusive self.old.place result.turn.turn.at.now.place }
    {
        let cell = self.worker.value();
        let (turn, value) = self.worker.write(rt);
        RwLockWriteGuard::new(Writing::new(turn, cell), value)
    }

    /// Takes the lock to write if it has no owner and no waiter; never waits for an owner.
    ///
    /// `None` changes nothing.
    pub fn try_write<'a, R: Wait>(&'a mut self, rt: &'a R) -> Option<RwLockWriteGuard<'a, 'l, R, T>>
        ensures lock { IfSome result (λ guard. guard.turn.turn.at.now.lock ≡ self.old.lock) }
        ensures tried { IfSome result (λ guard. IsTriedAndGranted TryLock self.old.place guard.turn.turn.at.now.place) }
    {
        let cell = self.worker.value();
        let (turn, value) = self.worker.try_write(rt)?;
        Some(RwLockWriteGuard::new(Writing::new(turn, cell), value))
    }

    /// The place leaves the lock.
    pub fn leave<R: Wait>(self, rt: &R) -> Left
        ensures { HasLeft self.entry.place result }
    {
        let RwLockWorker { worker } = self;
        worker.leave(rt)
    }
}

/// A reader's turn at an [`RwLock`], and its value to read. Its drop gives both up.
pub type RwLockReadGuard<'a, 'l, R, T> = Guard<Reader<'l, T>, Shared<'a, 'l, R>>;

/// A writer's turn at an [`RwLock`], and its value to read and write. Its drop gives both up.
pub type RwLockWriteGuard<'a, 'l, R, T> = Guard<Writer<'l, T>, Writing<'l, Alone<'a, 'l, R>, T>>;
