//! A value that is checked out: it comes back as its guard goes, or the caller keeps it, or replaces it.

ghost use Rattle.std.specs.Prelude.{◌≡◌, ◌≤◌, Err, IfErr, IfOk, Ok};

use crate::pool::Pool;
use crate::shelf::Away;
use saa_sync::PermitOf;
use std::fmt;
use std::fmt::{Debug, Display};
use std::marker::Model;
use std::ops::{Deref, DerefMut};
use std::sync::Wait;

/// A value that is checked out, to be read and written. Its drop puts it back, behind the values that are in, and lets the oldest waiter in for it.
///
/// Contracts see the value. A guard that is leaked (`mem::forget`) puts nothing back: its value counts as out for good.
pub struct Checkout<'p, 'r, R: Wait, T: Drop, const MAX: usize> {
    pool: &'p Pool<'r, R, T, MAX>,
    value: T,
    away: Away,
    permit: PermitOf<'p, &'r R, MAX>,
}

impl<'p, 'r, R: Wait, T: Drop, const MAX: usize> Model for Checkout<'p, 'r, R, T, MAX> {
    ghost Value = { T };

    ghost view = { λ checkout. checkout.value };
}

/// A value could not be replaced: the pool has one less.
#[derive(Clone, Copy, Debug, Drop, Eq, PartialEq)]
pub struct Shrunk<E> {
    /// How many values the pool still has, in and out; another can be put in for this one ([`Pool::add`]).
    pub left: usize,
    /// Why the caller's function made none.
    pub error: E,
}

impl<'p, 'r, R: Wait, T: Drop, const MAX: usize> Checkout<'p, 'r, R, T, MAX> {
    // What was taken from a pool by a permit.
    pub(crate) fn new(
        pool: &'p Pool<'r, R, T, MAX>,
        value: T,
        away: Away,
        permit: PermitOf<'p, &'r R, MAX>,
    ) -> Self
        ensures { result ≡ value }
    {
        Checkout {
            pool,
            value,
            away,
            permit,
        }
    }

    /// Keeps the value out, with the caller, until [`Pool::give_back`]; nobody is let in for it. Costs O(1).
    pub fn keep(self) -> T
        ensures { result ≡ self.entry }
    {
        let Checkout {
            pool,
            value,
            away,
            permit,
        } = self;
        pool.keep(away);
        permit.forget();
        value
    }

    /// Replaces a value that was found broken by what `make` makes of it; the guard has the new one. The value is out meanwhile, and no mutex is held.
    ///
    /// The `Err` comes exactly where `make` answers one. Then the pool has a value less for good, and nobody is let in for it; tasks that wait at a
    /// pool with no value left wait until one is added, or it is closed.
    pub fn replace<E, F: FnOnce(T) -> Result<T, E>>(self, make: F) -> Result<Self, Shrunk<E>>
        requires { F.pre make self }
        ensures made { IfOk result (λ checkout. F.post make self.entry (Ok checkout)) }
        ensures refused { IfErr result (λ shrunk. F.post make self.entry (Err shrunk.error)) }
        ensures left { IfErr result (λ shrunk. shrunk.left ≤ MAX) }
    {
        let Checkout {
            pool,
            value,
            away,
            permit,
        } = self;
        match make(value) {
            Ok(value) => Ok(Checkout {
                pool,
                value,
                away,
                permit,
            }),
            Err(error) => {
                let left = pool.remove(away);
                permit.forget();
                Err(Shrunk { left, error })
            }
        }
    }
}

impl<R: Wait, T: Drop, const MAX: usize> Drop for Checkout<'_, '_, R, T, MAX> {
    fn drop(self) {
        let Checkout {
            pool,
            value,
            away,
            permit,
        } = self;
        // The value is in before the next task is let in for it.
        let _ = pool.put(value, away);
        drop(permit);
    }
}

impl<R: Wait, T: Drop, const MAX: usize> Deref for Checkout<'_, '_, R, T, MAX> {
    type Target = T;

    ghost deref_gives = { λ checkout value. value ≡ checkout };

    /// The value.
    fn deref(&self) -> &T
        ensures { result.now ≡ self.now }
    {
        &self.value
    }
}

impl<R: Wait, T: Drop, const MAX: usize> DerefMut for Checkout<'_, '_, R, T, MAX> {
    ghost deref_mut_gives = { λ checkout value. value ≡ checkout };

    /// The value, to be written.
    fn deref_mut(&mut self) -> &mut T
        ensures value { result.now ≡ self.old }
    {
        &mut self.value
    }
}

impl<R: Wait, T: Drop + Debug, const MAX: usize> Debug for Checkout<'_, '_, R, T, MAX> {
    /// Shows the value, as std's guards do.
    fn fmt<W: fmt::Write>(&self, f: &mut fmt::Formatter<W>) -> fmt::Result {
        Debug::fmt(&self.value, f)
    }
}

impl<R: Wait, T: Drop + Display, const MAX: usize> Display for Checkout<'_, '_, R, T, MAX> {
    /// Shows the value, as std's guards do.
    fn fmt<W: fmt::Write>(&self, f: &mut fmt::Formatter<W>) -> fmt::Result {
        Display::fmt(&self.value, f)
    }
}
