//! Why a call that waits for permits has none.

ghost use Rattle.std.specs.Prelude.{◌≡◌};
ghost use Rattle.std.specs.IoError.{error_kind};
ghost use Rattle.saa_core_waits.specs.AcquireErrors.{acquire_kind};

use saa_core_spec::request::Full;
use std::io;
use std::io::ErrorKind;

/// Why a call that waits for permits has none. Nothing is taken then, and nothing stays registered.
#[derive(Clone, Copy, Debug, Eq, PartialEq, thiserror::Error)]
#[error("{}", self.message())]
pub enum AcquireError {
    /// It would have to wait, and every slot for waiters is held.
    Full,
    /// The semaphore was shut: no permit is taken from it any more.
    Closed,
}

impl AcquireError {
    fn message(&self) -> &'static str {
        match self {
            AcquireError::Full => "it would have to wait, and every slot for waiters is held",
            AcquireError::Closed => "the semaphore was shut",
        }
    }
}

impl From<Full> for AcquireError {
    ghost use Rattle.saa_core_waits.specs.declared.acquire_error.AcquireError.TheVariants as Why;

    ghost from_gives = { λ _ error. error ≡ Why.Full };

    fn from(_full: Full) -> AcquireError {
        AcquireError::Full
    }
}

/// Of the kind `ResourceBusy` where there was no slot, and `BrokenPipe` where the semaphore was shut.
impl From<AcquireError> for io::Error {
    ghost from_gives = { λ refused error. error_kind error ≡ acquire_kind refused };

    fn from(refused: AcquireError) -> io::Error {
        let kind = match refused {
            AcquireError::Full => ErrorKind::ResourceBusy,
            AcquireError::Closed => ErrorKind::BrokenPipe,
        };
        io::Error::new(kind, refused.message())
    }
}
