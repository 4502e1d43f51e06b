//! The guard of the locks round a value: what shows the value, and the turn that ends after it.
//!
//! One type serves all guards. It is generic in what shows the value, a reader's or a writer's hold on std's lock, and in the turn: so each
//! call on a guard is written and proved once. A guard ends its hold on the value first and the turn afterwards, and `Turn::pass_on` asks for the
//! proof of that, a `ValueReleased`. It keeps the fact that its turn was granted.

ghost use Rattle.std.specs.Prelude.{◌≡◌};
ghost use Rattle.std.specs.Borrow.{follows, sem};

use crate::turn::{Lowers, Turn, Witnessed, Writing};
use crate::value::{Lowered, ValueMut, ValueRef};
use std::fmt;
use std::fmt::{Debug, Display};
use std::marker::Model;
use std::ops::{Deref, DerefMut};
use std::sync::{RwLockReadGuard as Reader, RwLockWriteGuard as Writer};

/// A turn at a lock, and the value that is used in it. Its drop gives both up, the value first.
///
/// It shows the value, and lends it to be written where it holds it to write. Contracts see the hold on the value and the turn.
pub struct Guard<V: ValueRef, U: Turn> {
    value: V,
    turn: U,
}

impl<V: ValueRef, U: Turn> Model for Guard<V, U> {
    ghost use Rattle.saa_core_guards.specs.Guards.{GuardState};

    ghost Value = { GuardState V U };

    ghost view = { λ guard. record { value = guard.value; turn = guard.turn } };

    ghost invariant = { λ guard. ∥ U.granted guard.turn ∥₁ };
}

impl<V: ValueRef, U: Turn> Guard<V, U> {
    /// The guard of a turn that was granted, with the value. Only a lock makes turns, so only a lock makes guards.
    pub fn new(turn: U, value: V) -> Self
        requires { ∥ U.granted turn ∥₁ }
        ensures turn { result.turn ≡ turn }
        ensures value { result.value ≡ value }
    {
        Guard { value, turn }
    }

    // The turn and the value, to make another guard of them.
    fn into_parts(self) -> (U, V)
        ensures turn { result.0 ≡ self.turn }
        ensures value { result.1 ≡ self.value }
        ensures granted { ∥ U.granted result.0 ∥₁ }
    {
        let Guard { value, turn } = self;
        (turn, value)
    }

    /// Gives the guard up, to the oldest waiter; the same as a drop, which is fair too.
    ///
    /// Of several readers the last to do so grants the oldest waiter.
    pub fn unlock_fair(guard: Self) {
        drop(guard);
    }
}

impl<V: ValueRef, U: Witnessed> Guard<V, U> {
    /// Gives the guard up as [`Guard::unlock_fair`] does, and hands out the witness of its grant.
    pub fn unlock_witnessed(guard: Self) -> U::Witness
        ensures witness { result ≡ U.witness guard.turn }
        ensures granted { ∥ U.granted guard.turn ∥₁ }
    {
        let (turn, value) = guard.into_parts();
        turn.pass_on_witnessed(value.release())
    }
}

impl<'l, U: Lowers, T> Guard<Writer<'l, T>, Writing<'l, U, T>> {
    /// Becomes a reader's guard, and lets in the oldest readers while they may share, up to the first writer; no other task writes in between.
    ///
    /// Never waits for a turn. The new guard reads what was written through this one. Readers behind a writer in the queue go on waiting.
    pub fn downgrade(guard: Self) -> Guard<Reader<'l, T>, U::Shared>
        ensures { U.lowered guard.entry.turn.turn result.turn }
    {
        let (Writing { turn, value }, writer) = guard.into_parts();
        let lowered = Lowered::from_writer(writer, value, &turn);
        let (turn, reader) = turn.lower(lowered);
        Guard::new(turn, reader)
    }
}

impl<V: ValueRef, U: Turn> Drop for Guard<V, U> {
    fn drop(self) {
        let Guard { value, turn } = self;
        turn.pass_on(value.release());
    }
}

impl<V: ValueRef, U: Turn> Debug for Guard<V, U>
where
    V::Value: Debug,
{
    /// Shows the value, as std's guards do.
    fn fmt<W: fmt::Write>(&self, f: &mut fmt::Formatter<W>) -> fmt::Result {
        Debug::fmt(self.value.show(), f)
    }
}

impl<V: ValueRef, U: Turn> Display for Guard<V, U>
where
    V::Value: Display,
{
    /// Shows the value, as std's guards do.
    fn fmt<W: fmt::Write>(&self, f: &mut fmt::Formatter<W>) -> fmt::Result {
        Display::fmt(self.value.show(), f)
    }
}

impl<V: ValueRef, U: Turn> Deref for Guard<V, U> {
    type Target = V::Value;

    ghost deref_gives = { λ guard value. value ≡ V.shown guard.value };

    /// The value behind the lock.
    fn deref(&self) -> &V::Value
        ensures { result.now ≡ V.shown self.now.value }
    {
        self.value.show()
    }
}

impl<V: ValueMut, U: Turn> DerefMut for Guard<V, U> {
    ghost use Rattle.saa_core_guards.specs.Guards.{written_through};
    ghost use Rattle.saa_core_guards.specs.contracts.guard.Guard.{the_row};

    ghost deref_mut_gives = { λ guard value. value ≡ V.shown guard.value };

    /// The value behind the lock, to be written: what is written is what the guard shows afterwards.
    fn deref_mut(&mut self) -> &mut V::Value
        ensures* writes_back { sem 𝓛 (follows (the_row V.row U.row V.Value.row V.ValueRef U.Turn) V.Value.row self.entry.ghost_name result.ghost_name (written_through V.with_value self.old)) }
        ensures value { result.now ≡ V.shown self.old.value }
    {
        self.value.lend()
    }
}
