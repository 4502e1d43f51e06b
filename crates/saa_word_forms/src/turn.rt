//! The turn at the word's lock, of one owner alone or shared.
//!
//! A turn has its place until it ends. It keeps nothing of what was granted: a guard does, and passing the turn on asks for the proof that the place's
//! last call took what the turn is of (`saa_core_guards::turn`).

ghost use Rattle.std.specs.Prelude.{◌≡◌, IfSome};
ghost use Rattle.saa_core_spec.specs.declared.lock.Mode.TheVariants.{Exclusive, Shared as Sharing};
ghost use Rattle.saa_word_steps.specs.declared.call.WordCall.TheVariants.{TryLock, TryShare};
ghost use Rattle.saa_word_forms.specs.Turns.{HasLock, HasShare, IsLoweredOrWaitedFor, IsTriedAndGranted, IsWaitedFor, TookLock, TookShare};

use crate::place_at::PlaceAt;
use saa_core_guards::turn::{Lowers, Turn};
use saa_core_guards::value::{Lowered, ValueReleased};
use std::sync::{RwLock, RwLockReadGuard, Wait};

/// The turn of one owner alone.
pub struct Alone<'a, 'l, R: Wait> {
    at: &'a mut PlaceAt<'l>,
    rt: &'a R,
}

impl<'a, 'l, R: Wait> Alone<'a, 'l, R> {
    // Takes the turn if it is free and has no waiter.
    pub(crate) fn try_take(rt: &'a R, at: &'a mut PlaceAt<'l>) -> Option<Self>
        ensures lock { IfSome result (λ turn. turn.at.now.lock ≡ at.old.lock) }
        ensures granted { IfSome result (λ turn. HasLock turn.at.now.place) }
        ensures tried { IfSome result (λ turn. IsTriedAndGranted TryLock at.old.place turn.at.now.place) }
    {
        if at.try_lock(rt) {
            Some(Alone { at, rt })
        } else {
            None
        }
    }

    // Waits for the turn.
    pub(crate) fn take(rt: &'a R, at: &'a mut PlaceAt<'l>) -> Self
        ensures lock { result.at.now.lock ≡ at.old.lock }
        ensures granted { HasLock result.at.now.place }
        ensures taken { IsWaitedFor Exclusive at.old.place result.at.now.place }
    {
        at.lock(rt);
        Alone { at, rt }
    }
}

impl<R: Wait> Turn for Alone<'_, '_, R> {
    ghost granted = { λ turn. TookLock turn.at.now.place };

    fn pass_on(self, value: ValueReleased) {
        let Alone { at, rt } = self;
        at.end_lock(rt, value);
    }
}

impl<'a, 'b, R: Wait> Lowers for Alone<'a, 'b, R> {
    type Shared = Shared<'a, 'b, R>;

    ghost lowered = { λ alone shared. (shared.at.now.lock ≡ alone.at.now.lock) × IsLoweredOrWaitedFor alone.at.now.place shared.at.now.place };

    fn read<'l, T>(&self, value: &'l RwLock<T>) -> RwLockReadGuard<'l, T> {
        value.read(self.rt)
    }

    fn lower<'l, T>(self, value: Lowered<'l, T>) -> (Self::Shared, RwLockReadGuard<'l, T>) {
        let Alone { at, rt } = self;
        at.lower(rt);
        (Shared { at, rt }, value.into_reader())
    }
}

/// A turn that is shared with others.
pub struct Shared<'a, 'l, R: Wait> {
    at: &'a mut PlaceAt<'l>,
    rt: &'a R,
}

impl<'a, 'l, R: Wait> Shared<'a, 'l, R> {
    // Takes a share of the turn if one is left and there is no waiter.
    pub(crate) fn try_take(rt: &'a R, at: &'a mut PlaceAt<'l>) -> Option<Self>
        ensures lock { IfSome result (λ turn. turn.at.now.lock ≡ at.old.lock) }
        ensures granted { IfSome result (λ turn. HasShare turn.at.now.place) }
        ensures tried { IfSome result (λ turn. IsTriedAndGranted TryShare at.old.place turn.at.now.place) }
    {
        if at.try_share(rt) {
            Some(Shared { at, rt })
        } else {
            None
        }
    }

    // Waits for a share of the turn.
    pub(crate) fn take(rt: &'a R, at: &'a mut PlaceAt<'l>) -> Self
        ensures lock { result.at.now.lock ≡ at.old.lock }
        ensures granted { HasShare result.at.now.place }
        ensures taken { IsWaitedFor Sharing at.old.place result.at.now.place }
    {
        at.share(rt);
        Shared { at, rt }
    }
}

impl<R: Wait> Turn for Shared<'_, '_, R> {
    ghost granted = { λ turn. TookShare turn.at.now.place };

    fn pass_on(self, value: ValueReleased) {
        let Shared { at, rt } = self;
        at.end_share(rt, value);
    }
}
