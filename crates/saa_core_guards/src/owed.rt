//! How many permits are owed to a semaphore, as a value that ends in one way alone: it is given back, or it is forgotten.
//!
//! It is neither copied nor dropped, and only permits make one, of a grant. So what was granted is given back once at most.

ghost use Rattle.std.specs.Prelude.{◌≡◌, ◌+◌, ◌≤◌, ◌↔◌, IfErr, IfNone, IfSome, IsOk, IsSome, OnErr, OnOk, OnSome};

use std::marker::Model;

/// So many permits that are owed to their semaphore. Contracts see the number.
pub struct Owed {
    count: usize,
}

impl Model for Owed {
    ghost use Rattle.std.specs.Prelude.{ℕ, ◌<◌, ◌^◌};

    ghost Value = { ℕ };

    ghost view = { λ owed. owed.count };

    ghost invariant = { λ owed. owed.count < 2 ^ 64 };
}

impl Owed {
    // What is owed of a grant.
    pub(crate) fn of(count: usize) -> Owed
        ensures { result ≡ count }
    {
        Owed { count }
    }

    /// How many permits are owed.
    pub fn count(&self) -> usize
        ensures { result ≡ self.now }
    {
        self.count
    }

    // Takes so many off, if there are so many.
    pub(crate) fn split(&mut self, count: usize) -> Option<Owed>
        ensures enough { IsSome result ↔ (count ≤ self.old) }
        ensures part { IfSome result (λ part. part ≡ count) }
        ensures rest { OnSome result (self.new + count ≡ self.old) }
        ensures unchanged { IfNone result (self.new ≡ self.old) }
    {
        if count > self.count {
            return None;
        }
        self.count -= count;
        Some(Owed { count })
    }

    // Is as many more; what would be more than a number holds comes back.
    pub(crate) fn merge(&mut self, other: Owed) -> Result<(), Owed>
        ensures sum { OnOk result (self.new ≡ self.old + other) }
        ensures fits { IsOk result ↔ (self.old + other ≤ usize.MAX) }
        ensures back { IfErr result (λ back. back ≡ other) }
        ensures unchanged { OnErr result (self.new ≡ self.old) }
    {
        match self.count.checked_add(other.count) {
            Some(sum) => {
                let _ended = other.end();
                self.count = sum;
                Ok(())
            }
            None => Err(other),
        }
    }

    /// Ends it, as the semaphore does that takes so many permits back.
    pub fn end(self) -> usize
        ensures { result ≡ self }
    {
        let Owed { count } = self;
        count
    }
}
