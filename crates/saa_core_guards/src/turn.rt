//! A turn at a lock, which ends after the hold on the value.
//!
//! A turn has no `Drop`: it can be neither dropped nor forgotten, so each that is taken is passed on or kept in a guard, which its holder may leak
//! (`mem::forget`). Passing it on asks for a `ValueReleased`, and for the proof that the turn was granted.

ghost use Rattle.std.specs.Prelude.{◌≡◌};

use crate::value::{Lowered, ValueReleased};
use std::sync::{RwLock, RwLockReadGuard};

/// A turn at a lock, to be passed on once the value is given up.
pub trait Turn {
    // What was granted, which the turn is of. A lock whose calls no clause can follow has nothing to say here.
    ghost granted: { Self → Type 0 };

    /// Gives the turn up, and grants the oldest waiters while they fit.
    fn pass_on(self, value: ValueReleased)
        requires { ∥ granted self ∥₁ };
}

/// A turn that keeps the witness of its grant.
pub trait Witnessed: Turn {
    /// The witness.
    type Witness;

    // The witness of a turn.
    ghost witness: { Self → Self.Witness };

    /// Gives the turn up as [`Turn::pass_on`] does, and hands out its witness.
    fn pass_on_witnessed(self, value: ValueReleased) -> Self::Witness
        requires { ∥ Self.granted self ∥₁ }
        ensures { result ≡ witness self };
}

/// The turn of one owner alone, which can be lowered to a share.
pub trait Lowers: Turn {
    /// A turn that is shared with others.
    type Shared: Turn;

    // What the lowering of a turn to a share is.
    ghost lowered: { Self → Self.Shared → Type 0 };

    /// The value to read, with the lock's permission to block.
    fn read<'l, T>(&self, value: &'l RwLock<T>) -> RwLockReadGuard<'l, T>;

    /// Makes the turn a share, beside which others may have shares, and gives the value to read with it.
    fn lower<'l, T>(self, value: Lowered<'l, T>) -> (Self::Shared, RwLockReadGuard<'l, T>)
        requires { ∥ Self.granted self ∥₁ }
        ensures granted { ∥ Self.Shared.granted result.0 ∥₁ }
        ensures lowered { lowered self result.0 };
}

/// A writer's turn, which can be lowered to a reader's.
pub struct Writing<'l, U: Turn, T> {
    pub(crate) turn: U,
    // Where a downgrade finds the value again.
    pub(crate) value: &'l RwLock<T>,
}

impl<'l, U: Turn, T> Writing<'l, U, T> {
    /// The turn alone, at the lock of this value.
    pub fn new(turn: U, value: &'l RwLock<T>) -> Self
        ensures { result.turn ≡ turn }
    {
        Writing { turn, value }
    }
}

impl<U: Turn, T> Turn for Writing<'_, U, T> {
    ghost granted = { λ writing. U.granted writing.turn };

    fn pass_on(self, value: ValueReleased) {
        let Writing {
            turn,
            value: _value,
        } = self;
        turn.pass_on(value);
    }
}

impl<U: Witnessed, T> Witnessed for Writing<'_, U, T> {
    type Witness = U::Witness;

    ghost witness = { λ writing. U.witness writing.turn };

    fn pass_on_witnessed(self, value: ValueReleased) -> U::Witness {
        let Writing {
            turn,
            value: _value,
        } = self;
        turn.pass_on_witnessed(value)
    }
}
