//! A place beside the lock that dealt it, and the calls of the lock that guards make there.
//!
//! What keeps the place at its lock is the type, so that no crate above has to carry that fact. A turn ends by `end_lock` or `end_share`, or
//! is lowered by `lower`. The first two ask for a `ValueReleased`, which only the end of a hold on a value makes; the types don't say of which value.

ghost use Rattle.std.specs.Prelude.{◌≡◌, is_ok, true};
ghost use Rattle.saa_core_spec.specs.declared.lock.Mode.TheVariants.{Exclusive, Shared};
ghost use Rattle.saa_word_steps.specs.declared.call.Answer.{Answer};
ghost use Rattle.saa_word_steps.specs.declared.call.WordCall.TheVariants.{Cancel, ClearPoison, Downgrade, ReleaseLock, ReleaseShare, TryLock, TryShare};
ghost use Rattle.saa_word_threads.specs.declared.lock.Place.{Place};
ghost use Rattle.saa_word_threads.specs.Locks.{IsDealtBy, IsMade, AcquiresAndPolls};
ghost use Rattle.saa_word_threads.specs.Public.{is_yes, tried};
ghost use Rattle.saa_word_forms.specs.Turns.{HasLock, HasShare, IsLoweredOrWaitedFor, IsWaitedFor};

use saa_core_guards::value::ValueReleased;
use saa_word_threads::lock::{Left, Lock, Place};
use std::sync::Wait;

/// A place at the lock that dealt it.
#[derive(Drop)]
pub(crate) struct PlaceAt<'l> {
    lock: &'l Lock,
    place: Place,
    ghost dealt: { IsDealtBy lock.now place },
}

impl<'l> PlaceAt<'l> {
    ghost use Rattle.saa_word_threads.specs.Locks.{HasLeft};

    // The place, at the lock that dealt it.
    pub(crate) fn new(lock: &'l Lock, place: Place) -> Self
        requires { IsDealtBy lock.now place }
        ensures lock { result.lock ≡ lock.entry }
        ensures place { result.place ≡ place }
    {
        PlaceAt { lock, place }
    }

    // Takes the lock for one owner alone, if that needs no wait: by one try.
    pub(crate) fn try_lock<R: Wait>(&mut self, rt: &R) -> bool
        ensures lock { self.new.lock ≡ self.old.lock }
        ensures granted { result ≡ true → HasLock self.new.place }
        ensures tried { (answer : Answer) × (result ≡ is_ok (tried answer)) × IsMade TryLock self.old.place answer self.new.place }
    {
        match self.lock.try_lock(rt, &mut self.place) {
            Ok(()) => true,
            Err(_refused) => false,
        }
    }

    // Waits for the lock for one owner alone. A lock that says it is poisoned, as none here ever is, is cleared and asked again.
    pub(crate) fn lock<R: Wait>(&mut self, rt: &R)
        ensures lock { self.new.lock ≡ self.old.lock }
        ensures granted { HasLock self.new.place }
        ensures taken { IsWaitedFor Exclusive self.old.place self.new.place }
    {
        for _ in rt.forever() {
            if self.ask_lock(rt) {
                return;
            }
            self.clear_impossible_state(rt);
        }
        unreachable!()
    }

    // Waits for the lock once. `false`: it is poisoned, or the place is registered.
    fn ask_lock<R: Wait>(&mut self, rt: &R) -> bool
        ensures lock { self.new.lock ≡ self.old.lock }
        ensures waited { AcquiresAndPolls Exclusive self.old.place result self.new.place }
    {
        self.lock.lock(rt, &mut self.place)
    }

    // Takes a share, if that needs no wait: by one try.
    pub(crate) fn try_share<R: Wait>(&mut self, rt: &R) -> bool
        ensures lock { self.new.lock ≡ self.old.lock }
        ensures granted { result ≡ true → HasShare self.new.place }
        ensures tried { (answer : Answer) × (result ≡ is_ok (tried answer)) × IsMade TryShare self.old.place answer self.new.place }
    {
        match self.lock.try_share(rt, &mut self.place) {
            Ok(()) => true,
            Err(_refused) => false,
        }
    }

    // Waits for a share, as `lock` does for all of it.
    pub(crate) fn share<R: Wait>(&mut self, rt: &R)
        ensures lock { self.new.lock ≡ self.old.lock }
        ensures granted { HasShare self.new.place }
        ensures taken { IsWaitedFor Shared self.old.place self.new.place }
    {
        for _ in rt.forever() {
            if self.ask_share(rt) {
                return;
            }
            self.clear_impossible_state(rt);
        }
        unreachable!()
    }

    // Waits for a share once. `false`: the lock is poisoned, or the place is registered.
    fn ask_share<R: Wait>(&mut self, rt: &R) -> bool
        ensures lock { self.new.lock ≡ self.old.lock }
        ensures waited { AcquiresAndPolls Shared self.old.place result self.new.place }
    {
        self.lock.share(rt, &mut self.place)
    }

    // Makes the lock of its one owner a share. Where the lock is no one owner's, as it never is in a turn, a share is waited for.
    pub(crate) fn lower<R: Wait>(&mut self, rt: &R)
        requires { HasLock self.old.place }
        ensures lock { self.new.lock ≡ self.old.lock }
        ensures granted { HasShare self.new.place }
        ensures lowered { IsLoweredOrWaitedFor self.old.place self.new.place }
    {
        if !self.ask_lower(rt) {
            self.share(rt);
        }
    }

    // Makes the lock of its one owner a share. `false`: it is no one owner's.
    fn ask_lower<R: Wait>(&mut self, rt: &R) -> bool
        ensures lock { self.new.lock ≡ self.old.lock }
        ensures called { (answer : Answer) × (result ≡ is_yes answer) × IsMade Downgrade self.old.place answer self.new.place }
    {
        self.lock.downgrade(rt, &mut self.place)
    }

    // Makes a lock that is poisoned free, and a place that is registered idle: neither is ever so where the lock's calls aren't handed out.
    fn clear_impossible_state<R: Wait>(&mut self, rt: &R)
        ensures lock { self.new.lock ≡ self.old.lock }
        ensures cleared { (cleared : Place) × (said : Answer) × (answer : Answer) × IsMade ClearPoison self.old.place said cleared × IsMade Cancel cleared answer self.new.place }
    {
        self.lock.clear_poison(rt, &mut self.place);
        self.lock.cancel(rt, &mut self.place);
    }

    // Ends the turn of one owner alone, behind the guard of the value.
    pub(crate) fn end_lock<R: Wait>(&mut self, rt: &R, value: ValueReleased)
        requires { HasLock self.old.place }
        ensures lock { self.new.lock ≡ self.old.lock }
        ensures ended { (answer : Answer) × IsMade ReleaseLock self.old.place answer self.new.place }
    {
        value.end_turn();
        self.lock.release_lock(rt, &mut self.place);
    }

    // Ends a share, behind the guard of the value.
    pub(crate) fn end_share<R: Wait>(&mut self, rt: &R, value: ValueReleased)
        requires { HasShare self.old.place }
        ensures lock { self.new.lock ≡ self.old.lock }
        ensures ended { (answer : Answer) × IsMade ReleaseShare self.old.place answer self.new.place }
    {
        value.end_turn();
        self.lock.release_share(rt, &mut self.place);
    }

    // The place leaves.
    pub(crate) fn leave<R: Wait>(self, rt: &R) -> Left
        ensures { HasLeft self.entry.place result }
    {
        let PlaceAt { lock, place } = self;
        lock.leave(rt, place)
    }
}
