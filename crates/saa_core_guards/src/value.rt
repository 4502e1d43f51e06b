//! A hold on a value that lies in a lock of std: what shows the value, what lends it to be written, and the proof that the hold has ended.

ghost use Rattle.std.specs.Prelude.{◌≡◌};
ghost use Rattle.std.specs.Borrow.{follows, sem};
ghost use Rattle.std.specs.Sync.RwLock.{read_guard_value, write_guard_value, write_guard_with_value};

use crate::turn::Lowers;
use std::marker::PhantomData;
use std::ops::{Deref, DerefMut};
use std::sync::{RwLock, RwLockReadGuard as Reader, RwLockWriteGuard as Writer};

/// Says that a hold on a value has ended; only that makes one. The types don't say of which value.
pub struct ValueReleased {
    by: PhantomData<()>,
}

impl ValueReleased {
    // Ends a reader's hold.
    fn by_reader<T>(value: Reader<'_, T>) -> Self {
        drop(value);
        ValueReleased { by: PhantomData }
    }

    // Ends a writer's hold.
    fn by_writer<T>(value: Writer<'_, T>) -> Self {
        drop(value);
        ValueReleased { by: PhantomData }
    }

    /// The turn ends that it was asked for.
    #[inline(always)]
    pub fn end_turn(self) {
        let ValueReleased { by: _by } = self;
    }
}

/// A writer's hold that was changed to a reader's; only that makes one.
pub struct Lowered<'l, T> {
    reader: Reader<'l, T>,
}

impl<'l, T> Lowered<'l, T> {
    // Ends a writer's hold, and takes a reader's.
    pub(crate) fn from_writer<U: Lowers>(
        writer: Writer<'_, T>,
        value: &'l RwLock<T>,
        turn: &U,
    ) -> Self {
        drop(writer);
        Lowered {
            reader: turn.read(value),
        }
    }

    /// The reader's hold, for the turn that was lowered.
    pub fn into_reader(self) -> Reader<'l, T> {
        let Lowered { reader } = self;
        reader
    }
}

/// A hold on a value that shows it, until it is given up.
pub trait ValueRef {
    /// What is shown.
    type Value;

    // What a hold shows.
    ghost shown: { Self → Self.Value };

    /// The value.
    fn show(&self) -> &Self::Value
        ensures { result.now ≡ shown self.now };

    /// Gives the value up, and says so to the turn.
    fn release(self) -> ValueReleased;
}

/// A hold on a value that lends it to be written.
pub trait ValueMut: ValueRef {
    // The hold, with this value in place of the one that it shows.
    ghost with_value: { Self → Self.Value → Self };

    /// The value, to be written: what is written is what the hold shows afterwards.
    fn lend(&mut self) -> &mut Self::Value
        ensures* writes_back { sem 𝓛 (follows Self.row Self.Value.row self.entry.ghost_name result.ghost_name (with_value self.old)) }
        ensures value { result.now ≡ Self.shown self.old };
}

impl<T> ValueRef for Reader<'_, T> {
    type Value = T;

    ghost shown = { read_guard_value };

    fn show(&self) -> &T {
        self.deref()
    }

    fn release(self) -> ValueReleased {
        ValueReleased::by_reader(self)
    }
}

impl<T> ValueRef for Writer<'_, T> {
    type Value = T;

    ghost shown = { write_guard_value };

    fn show(&self) -> &T {
        self.deref()
    }

    fn release(self) -> ValueReleased {
        ValueReleased::by_writer(self)
    }
}

impl<T> ValueMut for Writer<'_, T> {
    ghost with_value = { write_guard_with_value };

    fn lend(&mut self) -> &mut T {
        self.deref_mut()
    }
}
