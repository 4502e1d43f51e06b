//! A mutex on the word's lock, for a fixed set of workers, and its guard.

ghost use Rattle.std.specs.Prelude.{◌≡◌, All, IfOk, IfSome, vec_len};
ghost use Rattle.saa_core_spec.specs.declared.lock.Mode.TheVariants.{Exclusive};
ghost use Rattle.saa_word_steps.specs.declared.call.WordCall.TheVariants.{TryLock};
ghost use Rattle.saa_word_steps.specs.declared.rules.Rules.TheVariants.{Modes};
ghost use Rattle.saa_word_forms.specs.Turns.{IsTriedAndGranted, IsWaitedFor};
ghost use Rattle.saa_word_threads.specs.Dealt.{IsLedTo, numbers};
ghost use Rattle.saa_word_threads.specs.Locks.{AreNew, HasLeft, IsDealtBy, IsLeftOf, about_of, table_of, view_left};

use crate::guarded::{Guarded, Worker};
use crate::turn::Alone;
use saa_core_guards::guard::Guard;
use saa_word_threads::lock::{Left, Place, Words};
use std::alloc::{AllocError, Global};
use std::marker::Model;
use std::sync::{RwLockWriteGuard as Writer, Wait};

/// A value that one owner at a time uses, taken by one atomic word. Waiters are granted in FIFO order of joining the queue.
///
/// `new` deals as many places as there may be workers; [`Self::worker`] makes one of a place. What is true of the value whenever it isn't in use is
/// said by its type: a guard is given up only where every invariant of the type holds, and its holder may use them. Contracts see a mutex as the
/// word's lock whose turns the value is used in. The lock's calls aren't handed out, so it is never poisoned.
#[derive(Drop)]
pub struct Mutex<T> {
    pub(crate) guarded: Guarded<T>,
}

impl<T> Model for Mutex<T> {
    ghost use Rattle.saa_word_threads.specs.declared.lock.Lock.{Lock};

    ghost Value = { Lock };

    ghost view = { λ mutex. mutex.guarded.lock };
}

impl<T> Mutex<T> {
    /// A mutex with no owner, and its places, in the order of their numbers. Costs O(`places`). With 0 places no worker can be made.
    ///
    /// The error comes only where memory was refused; the value is dropped then. No other call takes memory.
    pub fn new(alloc: Global, value: T, places: u16) -> Result<(Self, Vec<Place>), AllocError>
    where
        T: Drop,
        ensures made { IfOk result (λ made. about_of made.0 ≡ record { rules = Modes; withheld = 0; places = places }) }
        ensures dealt { IfOk result (λ made. (vec_len made.1 ≡ places) × AreNew (table_of made.0) 0 made.1.items) }
        ensures ours { IfOk result (λ made. All (IsDealtBy made.0) made.1.items) }
    {
        let (guarded, dealt) = Guarded::new(alloc, value, places)?;
        Ok((Mutex { guarded }, dealt))
    }

    /// The worker at a place that this mutex dealt. Costs O(1).
    pub fn worker(&self, place: Place) -> MutexWorker<'_, T>
        requires { IsDealtBy self.now place }
        ensures lock { result.lock.now ≡ self.now }
        ensures place { result.place ≡ place }
    {
        MutexWorker {
            worker: self.guarded.worker(place),
        }
    }

    /// The value, with no lock: `&mut self` is the only access.
    pub fn get_mut(&mut self) -> &mut T {
        self.guarded.get_mut()
    }

    /// The value, which is no longer in use.
    pub fn into_inner(self) -> T {
        let Mutex { guarded } = self;
        guarded.into_inner()
    }

    /// The value, and the words of the lock at the end, with the place of `left` as the witness of what led there. Costs O(1).
    pub fn close(self, left: Left) -> (T, Words)
        requires { IsLeftOf self left }
        ensures places { result.1.places ≡ (about_of self).places }
        ensures led { IsLedTo (about_of self) (numbers result.1) (view_left left) }
    {
        let Mutex { guarded } = self;
        guarded.close(left)
    }
}

/// A place beside the mutex that dealt it: what one task takes the mutex with, one guard at a time.
///
/// It keeps that the place is the mutex's, so its calls ask for nothing. A worker that is dropped while it has no guard needs no [`Self::leave`].
#[derive(Drop)]
pub struct MutexWorker<'l, T> {
    worker: Worker<'l, T>,
}

impl<'l, T> Model for MutexWorker<'l, T> {
    ghost use Rattle.saa_word_forms.specs.Workers.{WorkerState};

    ghost Value = { WorkerState };

    ghost view = { λ this. record { lock = this.worker.at.lock; place = this.worker.at.place } };
}

impl<'l, T> MutexWorker<'l, T> {
    /// Takes the mutex. It looks and yields a bounded number of times first, and then joins the queue where it must.
    ///
    /// The worker is the guard's until that is dropped. A waiter spins, yields and then parks. A thread that takes it with a second worker while it
    /// has the guard of a first waits for itself, so for ever.
    pub fn lock<'a, R: Wait>(&'a mut self, rt: &'a R) -> MutexGuard<'a, 'l, R, T>
        ensures lock { result.turn.at.now.lock ≡ self.old.lock }
        ensures taken { IsWaitedFor Exclusive self.old.place result.turn.at.now.place }
    {
        let (turn, value) = self.worker.write(rt);
        MutexGuard::new(turn, value)
    }

    /// Takes the mutex if it has no owner and no waiter; never waits for an owner.
    ///
    /// `None` changes nothing.
    pub fn try_lock<'a, R: Wait>(&'a mut self, rt: &'a R) -> Option<MutexGuard<'a, 'l, R, T>>
        ensures lock { IfSome result (λ guard. guard.turn.at.now.lock ≡ self.old.lock) }
        ensures tried { IfSome result (λ guard. IsTriedAndGranted TryLock self.old.place guard.turn.at.now.place) }
    {
        let (turn, value) = self.worker.try_write(rt)?;
        Some(MutexGuard::new(turn, value))
    }

    /// The place leaves the mutex.
    pub fn leave<R: Wait>(self, rt: &R) -> Left
        ensures { HasLeft self.entry.place result }
    {
        let MutexWorker { worker } = self;
        worker.leave(rt)
    }
}

/// The turn of one owner at a [`Mutex`], and its value to read and write. Its drop gives both up.
pub type MutexGuard<'a, 'l, R, T> = Guard<Writer<'l, T>, Alone<'a, 'l, R>>;
