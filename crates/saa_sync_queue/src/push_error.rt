//! An item that was not taken, handed back, and why.

ghost use Rattle.std.specs.Prelude.{◌≡◌};

use saa_sync::AcquireError;
use std::fmt;
use std::fmt::Display;

/// An item that was not taken, handed back, and why. Nothing is changed then, and nothing stays registered.
#[derive(Debug, Drop, PartialEq)]
pub enum PushError<T> {
    /// The queue is closed.
    Closed(T),
    /// There is no place that no other task is let in for, and the caller doesn't wait.
    WouldWait(T),
    /// The caller waited for as long as it would.
    TooLate(T),
    /// It would have to wait, and as many tasks wait at this end as the queue was made for.
    Full(T),
}

impl<T> PushError<T> {
    ghost use Rattle.saa_sync_queue.specs.HandedBack.{item_of};
    ghost use Rattle.saa_sync_queue.specs.Refusals.{push_refusal};

    /// The item.
    pub fn into_item(self) -> T
        ensures { result ≡ item_of self }
    {
        match self {
            PushError::Closed(item) => item,
            PushError::WouldWait(item) => item,
            PushError::TooLate(item) => item,
            PushError::Full(item) => item,
        }
    }

    // Why this item wasn't taken, by why there was no permit.
    pub(crate) fn of(error: AcquireError, item: T) -> Self
        ensures { result ≡ push_refusal error item }
    {
        match error {
            AcquireError::Full => PushError::Full(item),
            AcquireError::Closed => PushError::Closed(item),
        }
    }
}

impl<T> Display for PushError<T> {
    /// Says why, and shows nothing of the item.
    fn fmt<W: fmt::Write>(&self, f: &mut fmt::Formatter<W>) -> fmt::Result {
        f.write_str(match self {
            PushError::Closed(_item) => "the queue is closed",
            PushError::WouldWait(_item) => "there is no place, and the caller doesn't wait",
            PushError::TooLate(_item) => "the caller waited for as long as it would",
            PushError::Full(_item) => "it would have to wait, and every slot for waiters is held",
        })
    }
}
