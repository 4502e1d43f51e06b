//! Why no item was taken.

ghost use Rattle.std.specs.Prelude.{◌≡◌};

use saa_sync::AcquireError;

/// Why no item was taken. Nothing is changed then, and nothing stays registered.
#[derive(Clone, Copy, Debug, Eq, PartialEq, thiserror::Error)]
#[error("{}", self.message())]
pub enum PopError {
    /// The queue is closed, and all items were taken.
    Closed,
    /// There is no item that no other task is let in for, and the caller doesn't wait.
    WouldWait,
    /// The caller waited for as long as it would.
    TooLate,
    /// It would have to wait, and as many tasks wait at this end as the queue was made for.
    Full,
}

impl PopError {
    fn message(&self) -> &'static str {
        match self {
            PopError::Closed => "the queue is closed, and all items were taken",
            PopError::WouldWait => "there is no item, and the caller doesn't wait",
            PopError::TooLate => "the caller waited for as long as it would",
            PopError::Full => "it would have to wait, and every slot for waiters is held",
        }
    }
}

/// `Closed` comes of the consumers' semaphore only once all items were taken.
impl From<AcquireError> for PopError {
    ghost use Rattle.saa_sync_queue.specs.Refusals.{pop_refusal};

    ghost from_gives = { λ error refused. refused ≡ pop_refusal error };

    fn from(error: AcquireError) -> PopError {
        match error {
            AcquireError::Full => PopError::Full,
            AcquireError::Closed => PopError::Closed,
        }
    }
}
