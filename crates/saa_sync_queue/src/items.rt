//! What is under a queue's mutex: the items, the oldest first, and whether it takes more. It never grows.

ghost use Rattle.std.specs.Prelude.{◌≡◌, ◌++◌, ◌∷◌, [], ◌<◌, ◌≤◌, ◌↔◌, true, false, drop, length, slice_get, Err, IfErr, IfOk, IfSome, IsOk, IsSome, IsTrue, OnErr, OnOk, Some};

use crate::push_error::PushError;
use circular_buffer::HeapCircularBuffer;
use std::alloc::{AllocError, Global};
use std::mem;

/// The items, and whether the queue was closed.
#[derive(Drop)]
pub(crate) struct Items<T, const MAX: usize> {
    ring: HeapCircularBuffer<T>,
    is_closed: bool,
    ghost bound: { ring.capacity ≡ MAX },
}

/// What was seen of a queue as it was closed.
#[derive(Clone, Copy)]
pub(crate) struct AtClose {
    /// Whether it was closed before.
    pub was_closed: bool,
    /// Whether there is no item.
    pub is_empty: bool,
}

impl<T: Drop, const MAX: usize> Items<T, MAX> {
    ghost use Rattle.saa_sync_queue.specs.HandedBack.{item_of};
    ghost use Rattle.saa_sync_queue.specs.declared.push_error.PushError.TheVariants.{Closed};

    /// No items, in a queue that is open.
    pub(crate) fn new(alloc: Global) -> Result<Self, AllocError>
        ensures empty { IfOk result (λ items. items.ring.items ≡ []) }
        ensures open { IfOk result (λ items. items.is_closed ≡ false) }
    {
        let ring = HeapCircularBuffer::with_capacity(alloc, MAX)?;
        Ok(Items {
            ring,
            is_closed: false,
        })
    }

    /// Puts an item behind the others, exactly where the queue is open and has a place; else it is handed back.
    pub(crate) fn put(&mut self, item: T) -> Result<(), PushError<T>>
        ensures room { IsOk result ↔ ((length self.old.ring.items < MAX) × (self.old.is_closed ≡ false)) }
        ensures last { OnOk result (self.new.ring.items ≡ self.old.ring.items ++ item ∷ []) }
        ensures back { IfErr result (λ refused. item_of refused ≡ item) }
        ensures unchanged { OnErr result (self.new ≡ self.old) }
        ensures closed { self.old.is_closed ≡ true → result ≡ Err (Closed item) }
        ensures still { self.new.is_closed ≡ self.old.is_closed }
    {
        if self.is_closed {
            return Err(PushError::Closed(item));
        }
        match self.ring.try_push_back(item) {
            Ok(()) => Ok(()),
            Err(item) => Err(PushError::WouldWait(item)),
        }
    }

    /// Takes the oldest item, and says whether it was the last of a closed queue.
    pub(crate) fn take(&mut self) -> Option<(T, bool)>
        ensures some { IsSome result ↔ (0 < length self.old.ring.items) }
        ensures oldest { IfSome result (λ taken. slice_get self.old.ring.items 0 ≡ Some taken.0) }
        ensures rest { self.new.ring.items ≡ drop 1 self.old.ring.items }
        ensures end { IfSome result (λ taken. IsTrue taken.1 ↔ ((self.old.is_closed ≡ true) × (length self.new.ring.items ≡ 0))) }
        ensures still { self.new.is_closed ≡ self.old.is_closed }
    {
        let item = self.ring.pop_front()?;
        let is_last = self.is_closed && self.ring.is_empty();
        Some((item, is_last))
    }

    /// Takes no more items from now on; those that are there stay.
    pub(crate) fn close(&mut self) -> AtClose
        ensures closed { self.new.is_closed ≡ true }
        ensures items { self.new.ring ≡ self.old.ring }
        ensures was { result.was_closed ≡ self.old.is_closed }
        ensures empty { IsTrue result.is_empty ↔ (length self.old.ring.items ≡ 0) }
    {
        AtClose {
            was_closed: mem::replace(&mut self.is_closed, true),
            is_empty: self.ring.is_empty(),
        }
    }

    /// Whether it was closed.
    pub(crate) fn is_closed(&self) -> bool
        ensures { result ≡ self.now.is_closed }
    {
        self.is_closed
    }

    /// How many items there are.
    pub(crate) fn len(&self) -> usize
        ensures number { result ≡ length self.now.ring.items }
        ensures bound { result ≤ MAX }
    {
        self.ring.len()
    }
}
