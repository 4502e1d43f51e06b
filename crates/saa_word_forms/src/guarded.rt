//! A value and the word's lock whose turns it is used in, and a worker at both: what the mutex and the reader-writer lock share.
//!
//! The value is in a lock of std, which gives it only to a guard. Only the owner of the turn takes that lock, and unlocks it before the
//! turn is passed on, so it should never be contended. No clause says so.

ghost use Rattle.std.specs.Prelude.{◌≡◌, All, IfOk, IfSome, vec_len};
ghost use Rattle.saa_core_spec.specs.declared.lock.Mode.TheVariants.{Exclusive, Shared as Sharing};
ghost use Rattle.saa_word_steps.specs.declared.call.WordCall.TheVariants.{TryLock, TryShare};
ghost use Rattle.saa_word_steps.specs.declared.rules.Rules.TheVariants.{Modes};
ghost use Rattle.saa_word_forms.specs.Turns.{HasLock, HasShare, IsTriedAndGranted, IsWaitedFor};
ghost use Rattle.saa_word_threads.specs.Dealt.{IsLedTo, numbers};
ghost use Rattle.saa_word_threads.specs.Locks.{AreNew, HasLeft, IsDealtBy, IsLeftOf, about_of, table_of, view_left};

use crate::place_at::PlaceAt;
use crate::turn::{Alone, Shared};
use saa_word_threads::lock::{Left, Lock, Place, Words};
use std::alloc::{AllocError, Global};
use std::sync::{RwLock, RwLockReadGuard, RwLockWriteGuard, Wait};

/// A value, and the lock whose turns it is used in.
#[derive(Drop)]
pub(crate) struct Guarded<T> {
    pub(crate) lock: Lock,
    value: RwLock<T>,
}

impl<T> Guarded<T> {
    // A value that isn't in use yet, and the places of its lock.
    pub(crate) fn new(
        alloc: Global,
        value: T,
        places: u16,
    ) -> Result<(Self, Vec<Place>), AllocError>
    where
        T: Drop,
        ensures made { IfOk result (λ made. about_of made.0.lock ≡ record { rules = Modes; withheld = 0; places = places }) }
        ensures dealt { IfOk result (λ made. (vec_len made.1 ≡ places) × AreNew (table_of made.0.lock) 0 made.1.items) }
        ensures ours { IfOk result (λ made. All (IsDealtBy made.0.lock) made.1.items) }
    {
        let (lock, dealt) = Lock::new(alloc, places)?;
        let value = RwLock::new(value);
        Ok((Guarded { lock, value }, dealt))
    }

    // A worker at a place of the lock.
    pub(crate) fn worker(&self, place: Place) -> Worker<'_, T>
        requires { IsDealtBy self.now.lock place }
        ensures lock { result.at.lock.now ≡ self.now.lock }
        ensures place { result.at.place ≡ place }
    {
        Worker {
            at: PlaceAt::new(&self.lock, place),
            value: &self.value,
        }
    }

    // The value, which no other turn can use meanwhile.
    pub(crate) fn get_mut(&mut self) -> &mut T {
        self.value.get_mut()
    }

    // The value, which is no longer in use.
    pub(crate) fn into_inner(self) -> T {
        let Guarded { lock: _lock, value } = self;
        value.into_inner()
    }

    // The value, and the words of the lock at the end.
    pub(crate) fn close(self, left: Left) -> (T, Words)
        requires { IsLeftOf self.lock left }
        ensures places { result.1.places ≡ (about_of self.lock).places }
        ensures led { IsLedTo (about_of self.lock) (numbers result.1) (view_left left) }
    {
        let Guarded { lock, value } = self;
        (value.into_inner(), lock.close(left))
    }
}

/// A place at the lock that dealt it, and the value that is used in the lock's turns.
#[derive(Drop)]
pub(crate) struct Worker<'l, T> {
    pub(crate) at: PlaceAt<'l>,
    value: &'l RwLock<T>,
}

impl<'l, T> Worker<'l, T> {
    // Waits for the turn alone, and takes the value to write.
    pub(crate) fn write<'a, R: Wait>(
        &'a mut self,
        rt: &'a R,
    ) -> (Alone<'a, 'l, R>, RwLockWriteGuard<'l, T>)
        ensures lock { result.0.at.now.lock ≡ self.old.at.lock }
        ensures granted { HasLock result.0.at.now.place }
        ensures taken { IsWaitedFor Exclusive self.old.at.place result.0.at.now.place }
    {
        let turn = Alone::take(rt, &mut self.at);
        (turn, self.value.write(rt))
    }

    // Takes the turn alone, and the value to write, if that needs no wait.
    pub(crate) fn try_write<'a, R: Wait>(
        &'a mut self,
        rt: &'a R,
    ) -> Option<(Alone<'a, 'l, R>, RwLockWriteGuard<'l, T>)>
        ensures lock { IfSome result (λ taken. taken.0.at.now.lock ≡ self.old.at.lock) }
        ensures granted { IfSome result (λ taken. HasLock taken.0.at.now.place) }
        ensures tried { IfSome result (λ taken. IsTriedAndGranted TryLock self.old.at.place taken.0.at.now.place) }
    {
        let turn = Alone::try_take(rt, &mut self.at)?;
        Some((turn, self.value.write(rt)))
    }

    // Waits for a share of the turn, and takes the value to read.
    pub(crate) fn read<'a, R: Wait>(
        &'a mut self,
        rt: &'a R,
    ) -> (Shared<'a, 'l, R>, RwLockReadGuard<'l, T>)
        ensures lock { result.0.at.now.lock ≡ self.old.at.lock }
        ensures granted { HasShare result.0.at.now.place }
        ensures taken { IsWaitedFor Sharing self.old.at.place result.0.at.now.place }
    {
        let turn = Shared::take(rt, &mut self.at);
        (turn, self.value.read(rt))
    }

    // Takes a share of the turn, and the value to read, if that needs no wait.
    pub(crate) fn try_read<'a, R: Wait>(
        &'a mut self,
        rt: &'a R,
    ) -> Option<(Shared<'a, 'l, R>, RwLockReadGuard<'l, T>)>
        ensures lock { IfSome result (λ taken. taken.0.at.now.lock ≡ self.old.at.lock) }
        ensures granted { IfSome result (λ taken. HasShare taken.0.at.now.place) }
        ensures tried { IfSome result (λ taken. IsTriedAndGranted TryShare self.old.at.place taken.0.at.now.place) }
    {
        let turn = Shared::try_take(rt, &mut self.at)?;
        Some((turn, self.value.read(rt)))
    }

    // The value, for the owner of the turn.
    pub(crate) fn value(&self) -> &'l RwLock<T> {
        self.value
    }

    // The place leaves.
    pub(crate) fn leave<R: Wait>(self, rt: &R) -> Left
        ensures { HasLeft self.entry.at.place result }
    {
        let Worker { at, value: _value } = self;
        at.leave(rt)
    }
}
