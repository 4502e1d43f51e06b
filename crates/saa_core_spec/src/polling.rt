//! How a ticket is polled, and why a poll has no answer.
//!
//! What a poll answers and leaves stands in `specs/Polling.antt`.

ghost use Rattle.std.specs.Prelude.{◌≡◌};
ghost use Rattle.saa_core_spec.specs.Polling.{is_right_mode};

/// How a ticket is polled.
#[derive(Clone, Copy, Debug, Eq, PartialEq)]
pub enum How {
    /// Takes an answer that is there, whichever way the ticket was registered.
    Try,
    /// For a ticket that was registered as sync.
    Sync,
    /// For a ticket that was registered as async.
    Async,
}

impl How {
    /// Whether a ticket that was registered as sync, or not, may be polled in this way.
    pub fn is_right_mode(self, is_sync: bool) -> bool
        ensures { result ≡ is_right_mode self is_sync }
    {
        match self {
            How::Try => true,
            How::Sync => is_sync,
            How::Async => !is_sync,
        }
    }
}

/// Why a poll gives nothing. All but `Closed` change nothing; `Closed` is an answer, and is consumed.
#[derive(Clone, Copy, Debug, Eq, PartialEq, thiserror::Error)]
#[error("{}", self.message())]
pub enum Error {
    /// The ticket isn't registered in this primitive.
    NotRegistered,
    /// The ticket was registered as sync and polled as async, or the other way round.
    WrongMode,
    /// The registration isn't answered yet.
    NotReady,
    /// The semaphore was shut: nothing was granted. Only a semaphore answers this.
    Closed,
}

impl Error {
    pub(crate) fn message(&self) -> &'static str {
        match self {
            Error::NotRegistered => "nothing is registered here",
            Error::WrongMode => "registered as sync and polled as async, or the other way round",
            Error::NotReady => "not answered yet",
            Error::Closed => "the semaphore was shut",
        }
    }
}
