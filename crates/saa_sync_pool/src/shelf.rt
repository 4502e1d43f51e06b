//! What is under a pool's mutex: the values that are in, the oldest first, and how many are out. It never grows.
//!
//! A value leaves by `take` alone, with an `Away`, which can be neither copied nor dropped: it ends where the value comes back (`put`), stays out with a
//! caller (`keep`), or is given up for good (`remove`). So a body that loses track of a value isn't built.

ghost use Rattle.std.specs.Prelude.{◌≡◌, ◌+◌, ◌++◌, ◌∷◌, [], ◌≤◌, ◌<◌, ◌↔◌, true, false, drop, length, slice_get, IfErr, IfNone, IfOk, IfSome, IsOk, IsSome, OnOk, Some};
ghost use Rattle.circular_buffer.specs.Buffer.{buffer};

use crate::counts::Counts;
use circular_buffer::HeapCircularBuffer;
use std::alloc::{AllocError, Global};
use std::mem;

/// That a value is out. It ends at the shelf alone.
pub(crate) struct Away;

impl Away {
    // Ends it, where the shelf knows of its value.
    fn end(self) {
        let Away = self;
    }
}

/// The values that are in, and the counts.
#[derive(Drop)]
pub(crate) struct Shelf<T, const MAX: usize> {
    inside: HeapCircularBuffer<T>,
    out: usize,
    kept: usize,
    is_closed: bool,
    served: u64,
    timed_out: u64,
    ghost room: { inside.capacity ≡ MAX },
    ghost bound: { length inside.items + out ≤ MAX },
    ghost kept_are_out: { kept ≤ out },
}

impl<T: Drop, const MAX: usize> Shelf<T, MAX> {
    /// An empty shelf, open, for `MAX` values.
    pub(crate) fn new(alloc: Global) -> Result<Self, AllocError>
        ensures empty { IfOk result (λ shelf. (shelf.inside.items ≡ []) × (shelf.out ≡ 0)) }
        ensures open { IfOk result (λ shelf. shelf.is_closed ≡ false) }
    {
        let inside = HeapCircularBuffer::with_capacity(alloc, MAX)?;
        Ok(Shelf {
            inside,
            out: 0,
            kept: 0,
            is_closed: false,
            served: 0,
            timed_out: 0,
        })
    }

    /// Takes the value out that has been in for longest, exactly where one is in and the pool is open.
    pub(crate) fn take(&mut self) -> Option<(T, Away)>
        ensures some { IsSome result ↔ ((0 < length self.old.inside.items) × (self.old.is_closed ≡ false)) }
        ensures oldest { IfSome result (λ taken. slice_get self.old.inside.items 0 ≡ Some taken.0) }
        ensures rest { IfSome result (λ taken. self.new.inside.items ≡ drop 1 self.old.inside.items) }
        ensures out { IfSome result (λ taken. self.new.out ≡ self.old.out + 1) }
        ensures kept { self.new.kept ≡ self.old.kept }
        ensures unchanged { IfNone result (self.new ≡ self.old) }
    {
        if self.is_closed {
            return None;
        }
        let value = self.inside.pop_front()?;
        self.out += 1;
        self.served = self.served.saturating_add(1);
        Some((value, Away))
    }

    /// Puts a value back that was out in a guard, behind those that are in. It comes back only where none is: there always is one with an `Away`.
    pub(crate) fn put(&mut self, value: T, away: Away) -> Result<(), T>
        ensures ours { IsOk result ↔ (self.old.kept < self.old.out) }
        ensures last { OnOk result (self.new.inside.items ≡ self.old.inside.items ++ value ∷ []) }
        ensures out { OnOk result (self.new.out + 1 ≡ self.old.out) }
        ensures kept { self.new.kept ≡ self.old.kept }
        ensures back { IfErr result (λ back. (back ≡ value) × (self.new ≡ self.old)) }
    {
        away.end();
        if self.kept >= self.out {
            return Err(value);
        }
        self.inside.try_push_back(value)?;
        self.out -= 1;
        Ok(())
    }

    /// Keeps a value out that was in a guard: it is out until it is given back.
    pub(crate) fn keep(&mut self, away: Away)
        ensures kept { self.old.kept < self.old.out → self.new.kept ≡ self.old.kept + 1 }
        ensures out { self.new.out ≡ self.old.out }
        ensures values { self.new.inside ≡ self.old.inside }
    {
        away.end();
        if self.kept < self.out {
            self.kept += 1;
        }
    }

    /// Puts a value in for one that was kept; it comes back where none is.
    pub(crate) fn give_back(&mut self, value: T) -> Result<(), T>
        ensures ours { IsOk result ↔ (0 < self.old.kept) }
        ensures last { OnOk result (self.new.inside.items ≡ self.old.inside.items ++ value ∷ []) }
        ensures out { OnOk result (self.new.out + 1 ≡ self.old.out) }
        ensures kept { OnOk result (self.new.kept + 1 ≡ self.old.kept) }
        ensures back { IfErr result (λ back. (back ≡ value) × (self.new ≡ self.old)) }
    {
        if self.kept == 0 {
            return Err(value);
        }
        self.inside.try_push_back(value)?;
        self.out -= 1;
        self.kept -= 1;
        Ok(())
    }

    /// Puts one value more in; it comes back exactly where there are `MAX`, or the pool is closed.
    pub(crate) fn add(&mut self, value: T) -> Result<(), T>
        ensures room { IsOk result ↔ ((length self.old.inside.items + self.old.out < MAX) × (self.old.is_closed ≡ false)) }
        ensures last { OnOk result (self.new.inside.items ≡ self.old.inside.items ++ value ∷ []) }
        ensures out { self.new.out ≡ self.old.out }
        ensures kept { self.new.kept ≡ self.old.kept }
        ensures back { IfErr result (λ back. (back ≡ value) × (self.new ≡ self.old)) }
    {
        if self.is_closed || self.values() >= MAX {
            return Err(value);
        }
        self.inside.try_push_back(value)
    }

    /// Counts a value no more that was out in a guard. How many there still are.
    pub(crate) fn remove(&mut self, away: Away) -> usize
        ensures left { result ≡ length self.new.inside.items + self.new.out }
        ensures one { self.old.kept < self.old.out → self.new.out + 1 ≡ self.old.out }
        ensures bound { self.old.kept < self.old.out → result < MAX }
        ensures values { self.new.inside ≡ self.old.inside }
        ensures kept { self.new.kept ≡ self.old.kept }
    {
        away.end();
        if self.kept < self.out {
            self.out -= 1;
        }
        self.values()
    }

    /// Lets nothing out any more. Whether it did before.
    pub(crate) fn close(&mut self) -> bool
        ensures was { result ≡ self.old.is_closed }
        ensures closed { self.new.is_closed ≡ true }
        ensures values { self.new.inside ≡ self.old.inside }
        ensures out { self.new.out ≡ self.old.out }
        ensures kept { self.new.kept ≡ self.old.kept }
    {
        mem::replace(&mut self.is_closed, true)
    }

    /// Takes all values that are in, if the pool is closed, and has an empty ring in their place. An open one hands the empty ring back.
    pub(crate) fn drain(&mut self, empty: HeapCircularBuffer<T>) -> HeapCircularBuffer<T>
        requires { empty ≡ buffer [] MAX }
        ensures all { self.old.is_closed ≡ true → result ≡ self.old.inside }
        ensures none { self.old.is_closed ≡ true → self.new.inside.items ≡ [] }
        ensures open { self.old.is_closed ≡ false → (self.new ≡ self.old) × (result.items ≡ []) }
        ensures out { self.new.out ≡ self.old.out }
        ensures kept { self.new.kept ≡ self.old.kept }
    {
        if self.is_closed {
            mem::replace(&mut self.inside, empty)
        } else {
            empty
        }
    }

    /// Whether it was closed.
    pub(crate) fn is_closed(&self) -> bool
        ensures { result ≡ self.now.is_closed }
    {
        self.is_closed
    }

    /// How many are out.
    pub(crate) fn out(&self) -> usize
        ensures number { result ≡ self.now.out }
        ensures bound { result ≤ MAX }
    {
        self.out
    }

    /// How many values there are, in and out.
    pub(crate) fn values(&self) -> usize
        ensures number { result ≡ length self.now.inside.items + self.now.out }
        ensures bound { result ≤ MAX }
    {
        self.inside.len() + self.out
    }

    /// Counts a wait that ended in time.
    pub(crate) fn note_timed_out(&mut self)
        ensures values { self.new.inside ≡ self.old.inside }
        ensures out { self.new.out ≡ self.old.out }
        ensures kept { self.new.kept ≡ self.old.kept }
    {
        self.timed_out = self.timed_out.saturating_add(1);
    }

    /// All counts but that of waiters, who are counted elsewhere.
    pub(crate) fn counts(&self) -> Counts
        ensures inside { result.inside ≡ length self.now.inside.items }
        ensures out { result.out ≡ self.now.out }
        ensures kept { result.kept ≡ self.now.kept }
        ensures served { result.served ≡ self.now.served }
        ensures timed_out { result.timed_out ≡ self.now.timed_out }
        ensures bound { result.inside + result.out ≤ MAX }
    {
        Counts {
            inside: self.inside.len(),
            out: self.out,
            kept: self.kept,
            waiting: 0,
            served: self.served,
            timed_out: self.timed_out,
        }
    }
}
