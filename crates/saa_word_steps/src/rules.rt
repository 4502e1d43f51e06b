//! What fits, what it takes, and what giving back leaves: of a semaphore and of a lock.

ghost use Rattle.std.specs.Prelude.{◌≡◌, ◌+◌, ◌-◌, ◌≤◌, true, IfSome};
ghost use Rattle.saa_word_steps.specs.Needs.{fits_count, forgets, kept, left_count, may_refuse, needs_of};
ghost use Rattle.saa_word_steps.specs.Steps.{left_from};

use crate::place::ReleaseAmount;

/// The count of a lock that one owner has alone.
pub(crate) const ALONE: u16 = 63;

// How many share a lock at most.
const SHARES: u16 = 62;

// The numbers of what is asked of a lock; each other number asks to hear when it could be shared.
const EXCLUSIVE: u16 = 0;

const SHARED: u16 = 1;

const WAIT_EXCLUSIVE: u16 = 2;

/// The rules by which a form grants.
#[derive(Clone, Copy, Debug, Eq, PartialEq)]
pub enum Rules {
    /// Those of a semaphore of so many permits.
    Permits(u16),
    /// Those of a lock, whose modes are asked by their numbers.
    Modes,
}

impl Rules {
    /// Whether they are those of a lock.
    pub fn is_lock(self) -> bool
        ensures { result ≡ (needs_of self).is_lock }
    {
        matches!(self, Rules::Modes)
    }

    /// The greatest count.
    pub fn top(self) -> u16
        ensures { result ≡ (needs_of self).top }
    {
        match self {
            Rules::Permits(bound) => bound,
            Rules::Modes => ALONE,
        }
    }

    /// Whether a request fits a count.
    pub fn fits(self, count: u16, request: u16) -> bool
        ensures { result ≡ fits_count (needs_of self) count request }
    {
        match self {
            Rules::Permits(bound) => u32::from(count) + u32::from(request) <= u32::from(bound),
            Rules::Modes => match request {
                EXCLUSIVE | WAIT_EXCLUSIVE => count == 0,
                _ => count < SHARES,
            },
        }
    }

    /// How much a request adds to the count when it is granted.
    pub fn takes(self, request: u16) -> u16
        ensures { result ≡ (needs_of self).takes request }
    {
        match self {
            Rules::Permits(_bound) => request,
            Rules::Modes => match request {
                EXCLUSIVE => ALONE,
                SHARED => 1,
                _ => 0,
            },
        }
    }

    /// The count with what a request takes that fits.
    pub fn plus(self, count: u16, request: u16) -> u16
        requires { fits_count (needs_of self) count request ≡ true }
        ensures plus { result ≡ count + (needs_of self).takes request }
        ensures bounded { result ≤ (needs_of self).top }
    {
        count + self.takes(request)
    }

    /// The count without what a request took; `None` where that isn't held.
    pub fn less(self, count: u16, request: u16) -> Option<u16>
        ensures less { result ≡ left_count (needs_of self) count request }
        ensures shrinks { IfSome result (λ left. left ≤ count) }
    {
        match self {
            Rules::Permits(_bound) => {
                if request > count {
                    return None;
                }
                Some(count - request)
            }
            Rules::Modes => match request {
                EXCLUSIVE if count == ALONE => Some(0),
                SHARED if count != 0 && count != ALONE => Some(count - 1),
                _ => None,
            },
        }
    }

    /// Whether every request may be refused from a count on: a lock is poisoned by its one owner, and a semaphore can always be shut.
    pub fn may_refuse(self, count: u16) -> bool
        ensures { result ≡ may_refuse (needs_of self) count }
    {
        match self {
            Rules::Permits(_bound) => true,
            Rules::Modes => count == ALONE,
        }
    }

    /// The count that is kept then: a poisoned lock forgets what is held, and a shut semaphore doesn't.
    pub fn kept(self, count: u16) -> u16
        ensures kept { result ≡ kept (needs_of self) count }
        ensures shrinks { result ≤ count }
    {
        match self {
            Rules::Permits(_bound) => count,
            Rules::Modes => 0,
        }
    }

    /// Whether nothing can be given back: a poisoned lock has forgotten it.
    pub fn forgets(self, is_poisoned: bool) -> bool
        ensures { result ≡ forgets (needs_of self) is_poisoned }
    {
        self.is_lock() && is_poisoned
    }

    /// The count once this is given back; `None` where that isn't held.
    pub fn left(self, count: u16, given: ReleaseAmount) -> Option<u16>
        ensures left { result ≡ left_from (needs_of self) count given }
        ensures shrinks { IfSome result (λ left. left ≤ count) }
    {
        match given {
            ReleaseAmount::Requested(request) => self.less(count, request),
            ReleaseAmount::AllButAShare => {
                if self.is_lock() && count == ALONE {
                    return Some(1);
                }
                None
            }
        }
    }
}
