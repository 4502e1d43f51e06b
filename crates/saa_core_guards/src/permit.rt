//! Permits as values, once for every semaphore: they give back what they took, once, and to their own semaphore.
//!
//! A `PermitFrom` has its semaphore by a reference or by an `Arc` of it (`Holder`), and how many permits it is, as a value that can be neither copied
//! nor dropped (`Owed`). It is made of a grant alone, and split and merged by the sums that the clauses say.

ghost use Rattle.std.specs.Prelude.{◌≡◌, ◌+◌, ◌≤◌, ◌↔◌, IfErr, IfOk, IfSome, IsOk, IsSome, OnErr, IfNone, OnOk, OnSome};
ghost use Rattle.saa_core_guards.specs.Permits.{IfGranted};

use crate::owed::Owed;
use crate::raw_semaphore::{RawSemaphore, RawSemaphoreUntil};
use saa_core_waits::deadline::Deadline;
use std::alloc::AllocError;
use std::fmt;
use std::fmt::Debug;
use std::marker::Model;
use std::sync::Arc;

/// What permits have their semaphore by: a reference to it, or an `Arc` of it.
pub trait Holder: Sized + Drop {
    ghost use Rattle.std.specs.Prelude.{◌≡◌, IfOk, IsOk};

    /// The semaphore.
    type Semaphore: RawSemaphore;

    // Which semaphore it is, and whether there is always another holder of it to be had.
    ghost held: { Self → Self.Semaphore };

    ghost is_shared_freely: { Type 0 };

    /// The semaphore.
    fn semaphore(&self) -> &Self::Semaphore
        ensures { result.now ≡ held self.now };

    /// One more holder of the same semaphore.
    fn another(&self) -> Result<Self, AllocError>
        ensures held { IfOk result (λ other. held other ≡ held self.now) }
        ensures freely { is_shared_freely → IsOk result };
}

impl<S: RawSemaphore> Holder for &S {
    type Semaphore = S;

    ghost held = { λ holder. holder.now };

    ghost is_shared_freely = { Unit {0} };

    fn semaphore(&self) -> &S {
        *self
    }

    fn another(&self) -> Result<Self, AllocError> {
        Ok(*self)
    }
}

impl<S: RawSemaphore + Drop> Holder for Arc<S> {
    ghost use Rattle.std.specs.Arc.{arc_value};

    type Semaphore = S;

    ghost held = { λ holder. arc_value holder };

    ghost is_shared_freely = { ⊥ };

    fn semaphore(&self) -> &S {
        self
    }

    fn another(&self) -> Result<Self, AllocError> {
        Arc::try_clone(self)
    }
}

/// Why a call for permits took nothing, as their semaphore says.
pub type ErrorOf<H> = <<H as Holder>::Semaphore as RawSemaphore>::Error;

/// Permits of a semaphore, which their drop gives back, to the oldest waiters.
///
/// They can be moved to another thread. Contracts see by what they have their semaphore, and how many they are.
pub struct PermitFrom<H: Holder> {
    holder: H,
    owed: Owed,
}

impl<H: Holder> Model for PermitFrom<H> {
    ghost use Rattle.saa_core_guards.specs.Permits.{PermitState};

    ghost Value = { PermitState H };

    ghost view = { λ permit. record { holder = permit.holder; count = permit.owed } };
}

/// What a call for permits answers that ends in time.
#[derive(Debug, Drop)]
pub enum InTime<P> {
    /// They are granted.
    Granted(P),
    /// There never are so many; nothing is changed.
    TooMany,
    /// Time is up; nothing is registered or taken.
    Late,
}

impl<H: Holder> PermitFrom<H> {
    /// Takes `count` permits if there is no waiter and they are available; never waits for them.
    ///
    /// `None`: they aren't available, or there is a waiter, or there never are so many; nothing is changed.
    pub fn try_acquire(holder: H, count: usize) -> Option<Self>
        ensures holder { IfSome result (λ permit. permit.holder ≡ holder) }
        ensures count { IfSome result (λ permit. permit.count ≡ count) }
        ensures granted { OnSome result (H.Semaphore.granted (H.held holder) count) }
    {
        if holder.semaphore().try_take(count) {
            Some(PermitFrom::of(holder, count))
        } else {
            None
        }
    }

    /// Takes `count` permits, all together, and waits for them in the queue where it must.
    ///
    /// `Ok(None)` comes at once, exactly where there never are so many. An error is the semaphore's, which may have no room for one more waiter. Both
    /// change nothing.
    pub fn acquire(holder: H, count: usize) -> Result<Option<Self>, ErrorOf<H>>
        ensures holder { IfOk result (λ reply. IfSome reply (λ permit. permit.holder ≡ holder)) }
        ensures count { IfOk result (λ reply. IfSome reply (λ permit. permit.count ≡ count)) }
        ensures granted { IfOk result (λ reply. OnSome reply (H.Semaphore.granted (H.held holder) count)) }
        ensures answer { IfOk result (λ reply. IsSome reply ↔ (count ≤ H.Semaphore.bound)) }
    {
        if holder.semaphore().take(count)? {
            Ok(Some(PermitFrom::of(holder, count)))
        } else {
            Ok(None)
        }
    }

    /// Takes one permit, and waits for it in the queue where it must. An error is the semaphore's, and changes nothing.
    pub fn acquire_one(holder: H) -> Result<Self, ErrorOf<H>>
        ensures holder { IfOk result (λ permit. permit.holder ≡ holder) }
        ensures count { IfOk result (λ permit. permit.count ≡ 1) }
        ensures granted { OnOk result (H.Semaphore.granted (H.held holder) 1) }
    {
        holder.semaphore().take_one()?;
        Ok(PermitFrom::of(holder, 1))
    }

    // The permits of a grant.
    pub(crate) fn of(holder: H, count: usize) -> Self
        ensures holder { result.holder ≡ holder }
        ensures count { result.count ≡ count }
    {
        let owed = Owed::of(count);
        PermitFrom { holder, owed }
    }

    /// How many permits these are.
    pub fn count(&self) -> usize
        ensures { result ≡ self.now.count }
    {
        self.owed.count()
    }

    /// The semaphore that they are of.
    pub fn semaphore(&self) -> &H::Semaphore
        ensures { result.now ≡ H.held self.now.holder }
    {
        self.holder.semaphore()
    }

    /// Splits `count` permits off, if these are so many and one more holder of the semaphore is to be had, as a reference always is.
    ///
    /// `None` changes nothing.
    pub fn split(&mut self, count: usize) -> Option<Self>
        ensures enough { OnSome result (count ≤ self.old.count) }
        ensures part { IfSome result (λ part. part.count ≡ count) }
        ensures semaphore { IfSome result (λ part. H.held part.holder ≡ H.held self.old.holder) }
        ensures rest { OnSome result (self.new.count + count ≡ self.old.count) }
        ensures unchanged { IfNone result (self.new ≡ self.old) }
        ensures holder { self.new.holder ≡ self.old.holder }
        ensures freely { H.is_shared_freely → count ≤ self.old.count → IsSome result }
    {
        let holder = self.holder.another().ok()?;
        let owed = self.owed.split(count)?;
        Some(PermitFrom { holder, owed })
    }

    /// Becomes as many permits more, of the same semaphore; the other gives none back any more.
    ///
    /// A caller shows that both are of one semaphore: a program that merges another's isn't built. The `Err` has the other as it was, and comes exactly where
    /// their sum is more than a `usize` counts; then nothing is changed.
    pub fn merge(&mut self, other: Self) -> Result<(), Self>
        requires same { H.held other.holder ≡ H.held self.old.holder }
        ensures sum { OnOk result (self.new.count ≡ self.old.count + other.count) }
        ensures fits { IsOk result ↔ (self.old.count + other.count ≤ usize.MAX) }
        ensures back { IfErr result (λ back. back ≡ other) }
        ensures unchanged { OnErr result (self.new ≡ self.old) }
        ensures holder { self.new.holder ≡ self.old.holder }
    {
        let PermitFrom { holder, owed } = other;
        match self.owed.merge(owed) {
            Ok(()) => Ok(()),
            Err(owed) => Err(PermitFrom { holder, owed }),
        }
    }

    /// Keeps the permits out; nothing is given back, and no waiter is woken. Answers how many they are.
    ///
    /// The semaphore's `release_many` gives them back later, by any task. So another task can give many back at once, or they stay out for good.
    pub fn forget(self) -> usize
        ensures { result ≡ self.count }
    {
        let PermitFrom {
            holder: _holder,
            owed,
        } = self;
        owed.end()
    }
}

impl<H: Holder> PermitFrom<H>
where
    H::Semaphore: RawSemaphoreUntil,
{
    /// As [`PermitFrom::acquire_one`], at most until the deadline; it joins at once, without a look before it. `Ok(None)`: time is up, and nothing is
    /// registered or taken.
    pub fn acquire_one_until(holder: H, deadline: Deadline) -> Result<Option<Self>, ErrorOf<H>>
        ensures holder { IfOk result (λ reply. IfSome reply (λ permit. permit.holder ≡ holder)) }
        ensures count { IfOk result (λ reply. IfSome reply (λ permit. permit.count ≡ 1)) }
        ensures granted { IfOk result (λ reply. OnSome reply (H.Semaphore.granted (H.held holder) 1)) }
    {
        match holder.semaphore().take_one_until(deadline)? {
            Some(()) => Ok(Some(PermitFrom::of(holder, 1))),
            None => Ok(None),
        }
    }

    /// As [`PermitFrom::acquire`], at most until the deadline; it joins at once, without a look before it.
    pub fn acquire_until(
        holder: H,
        count: usize,
        deadline: Deadline,
    ) -> Result<InTime<Self>, ErrorOf<H>>
        ensures holder { IfOk result (IfGranted (λ permit. permit.holder ≡ holder)) }
        ensures count { IfOk result (IfGranted (λ permit. permit.count ≡ count)) }
        ensures granted { IfOk result (IfGranted (λ _. H.Semaphore.granted (H.held holder) count)) }
    {
        match holder.semaphore().take_until(count, deadline)? {
            Some(true) => Ok(InTime::Granted(PermitFrom::of(holder, count))),
            Some(false) => Ok(InTime::TooMany),
            None => Ok(InTime::Late),
        }
    }
}

impl<S: RawSemaphore + Drop> PermitFrom<&S> {
    ghost use Rattle.std.specs.Arc.{arc_value};

    /// Permits that own their semaphore with others, in place of borrowing it.
    ///
    /// A caller shows that the owner is of the semaphore that these are of: a program that takes another isn't built.
    pub fn into_owned(self, owner: Arc<S>) -> PermitFrom<Arc<S>>
        requires same { arc_value owner ≡ self.holder.now }
        ensures holder { result.holder ≡ owner }
        ensures count { result.count ≡ self.entry.count }
    {
        let PermitFrom {
            holder: _holder,
            owed,
        } = self;
        PermitFrom {
            holder: owner,
            owed,
        }
    }
}

impl<H: Holder> Debug for PermitFrom<H> {
    /// Shows how many they are.
    fn fmt<W: fmt::Write>(&self, f: &mut fmt::Formatter<W>) -> fmt::Result {
        f.debug_struct("Permits")
            .field("count", &self.count())
            .finish_non_exhaustive()
    }
}

impl<H: Holder> Drop for PermitFrom<H> {
    /// Gives the permits back to their semaphore, which grants the oldest waiters while they fit.
    fn drop(self)
        ensures { H.Semaphore.took_back (H.held self.holder) self.count }
    {
        let PermitFrom { holder, owed } = self;
        holder.semaphore().take_back(owed);
    }
}
