//! Why nothing was checked out.

ghost use Rattle.std.specs.Prelude.{◌≡◌};

use saa_sync::AcquireError;

/// Why nothing was checked out. Nothing is taken then, and nothing stays registered.
#[derive(Clone, Copy, Debug, Eq, PartialEq, thiserror::Error)]
#[error("{}", self.message())]
pub enum Refused {
    /// The pool is closed: nothing goes out any more.
    Closed,
    /// No value is in that no other task is let in for, and the caller doesn't wait.
    WouldWait,
    /// The caller waited for as long as it would.
    TooLate,
    /// It would have to wait, and as many tasks wait as the pool was made for.
    Full,
}

impl Refused {
    fn message(&self) -> &'static str {
        match self {
            Refused::Closed => "the pool is closed",
            Refused::WouldWait => "no value is in, and the caller doesn't wait",
            Refused::TooLate => "the caller waited for as long as it would",
            Refused::Full => "it would have to wait, and every slot for waiters is held",
        }
    }
}

impl From<AcquireError> for Refused {
    ghost use Rattle.saa_sync_pool.specs.Refusals.{refusal};

    ghost from_gives = { λ error refused. refused ≡ refusal error };

    fn from(error: AcquireError) -> Refused {
        match error {
            AcquireError::Full => Refused::Full,
            AcquireError::Closed => Refused::Closed,
        }
    }
}
