//! The turn at a raw lock, of one owner alone or shared, as each kind of guard has it.
//!
//! Only this crate makes one, of a grant, and gives the lock back as it ends. Which mode it was granted in its kind says.

ghost use Rattle.std.specs.Prelude.{◌≡◌};

use crate::raw_lock::RawLock;
use crate::turn::{Lowers, Turn, Witnessed};
use crate::value::{Lowered, ValueReleased};
use saa_core_spec::lock::Mode;
use std::marker::{Model, PhantomData};
use std::sync::{RwLock, RwLockReadGuard};

/// A kind of guard: in which mode its lock is taken.
pub trait TurnKind {
    ghost use Rattle.saa_core_spec.specs.declared.lock.Mode.{Mode};

    // The mode.
    ghost mode: { Mode };

    /// In which mode the lock is taken.
    fn mode() -> Mode
        ensures { result ≡ mode };
}

/// That of a mutex.
#[derive(Drop)]
pub struct OfMutex;

/// A writer's of a reader-writer lock.
#[derive(Drop)]
pub struct OfWriter;

/// A reader's.
#[derive(Drop)]
pub struct OfReader;

impl TurnKind for OfMutex {
    ghost use Rattle.saa_core_spec.specs.declared.lock.Mode.TheVariants.{Exclusive};

    ghost mode = { Exclusive };

    #[inline(always)]
    fn mode() -> Mode {
        Mode::Exclusive
    }
}

impl TurnKind for OfWriter {
    ghost use Rattle.saa_core_spec.specs.declared.lock.Mode.TheVariants.{Exclusive};

    ghost mode = { Exclusive };

    #[inline(always)]
    fn mode() -> Mode {
        Mode::Exclusive
    }
}

impl TurnKind for OfReader {
    ghost use Rattle.saa_core_spec.specs.declared.lock.Mode.TheVariants.{Shared};

    ghost mode = { Shared };

    #[inline(always)]
    fn mode() -> Mode {
        Mode::Shared
    }
}

/// A turn at a lock. Contracts see the lock, and the witness of the grant.
pub struct TurnAt<'a, L: RawLock, K> {
    lock: &'a L,
    witness: L::Witness,
    kind: PhantomData<K>,
}

impl<'a, L: RawLock, K> Model for TurnAt<'a, L, K> {
    ghost use Rattle.saa_core_guards.specs.Guards.{TurnState};

    ghost Value = { TurnState L L.Witness };

    ghost view = { λ turn. record { lock = turn.lock; witness = turn.witness } };
}

impl<'a, L: RawLock, K: TurnKind> TurnAt<'a, L, K> {
    // The turn of a grant.
    pub(crate) fn of(lock: &'a L, witness: L::Witness) -> Self
        requires { ∥ L.granted lock.now K.mode witness ∥₁ }
        ensures lock { result.lock ≡ lock.entry }
        ensures witness { result.witness ≡ witness }
    {
        TurnAt {
            lock,
            witness,
            kind: PhantomData,
        }
    }
}

impl<L: RawLock, K: TurnKind> Turn for TurnAt<'_, L, K> {
    ghost granted = { λ turn. L.granted turn.lock.now K.mode turn.witness };

    fn pass_on(self, value: ValueReleased) {
        let _witness = self.pass_on_witnessed(value);
    }
}

impl<L: RawLock, K: TurnKind> Witnessed for TurnAt<'_, L, K> {
    type Witness = L::Witness;

    ghost witness = { λ turn. turn.witness };

    #[inline(always)]
    fn pass_on_witnessed(self, value: ValueReleased) -> L::Witness {
        let TurnAt {
            lock,
            witness,
            kind: _kind,
        } = self;
        value.end_turn();
        lock.give_back(K::mode(), &witness);
        witness
    }
}

impl<'a, L: RawLock> Lowers for TurnAt<'a, L, OfWriter> {
    type Shared = TurnAt<'a, L, OfReader>;

    ghost lowered = { λ alone shared. shared.lock ≡ alone.lock };

    fn read<'l, T>(&self, value: &'l RwLock<T>) -> RwLockReadGuard<'l, T> {
        self.lock.read(value)
    }

    fn lower<'l, T>(self, value: Lowered<'l, T>) -> (Self::Shared, RwLockReadGuard<'l, T>) {
        let TurnAt {
            lock,
            witness,
            kind: _kind,
        } = self;
        let witness = lock.lower(witness);
        (TurnAt::of(lock, witness), value.into_reader())
    }
}
