//! Each error as `std::io::Error`, so that `?` works in a `main` that answers `io::Result`.
//!
//! The kinds stand in `specs/IoErrors.antt`; the message is what `Display` shows.

ghost use Rattle.std.specs.Prelude.{◌≡◌};
ghost use Rattle.std.specs.IoError.{error_kind};
ghost use Rattle.std.specs.declared.io.ErrorKind.TheVariants.{ResourceBusy};
ghost use Rattle.saa_core_spec.specs.IoErrors.{try_lock_kind, poll_kind, gate_kind};

use crate::lock::TryLockError;
use crate::request::Full;
use crate::{gate, polling};
use std::io;
use std::io::ErrorKind;

/// Of the kind `ResourceBusy`.
impl From<Full> for io::Error {
    ghost from_gives = { λ _ error. error_kind error ≡ ResourceBusy };

    fn from(full: Full) -> io::Error {
        io::Error::new(ErrorKind::ResourceBusy, full.message())
    }
}

/// Of the kind `Other` where it is poisoned, and else `WouldBlock`.
impl From<TryLockError> for io::Error {
    ghost from_gives = { λ refused error. error_kind error ≡ try_lock_kind refused };

    fn from(refused: TryLockError) -> io::Error {
        let kind = match refused {
            TryLockError::Poisoned => ErrorKind::Other,
            TryLockError::WouldBlock => ErrorKind::WouldBlock,
        };
        io::Error::new(kind, refused.message())
    }
}

/// Of the kind `WouldBlock` where the answer isn't there yet, `BrokenPipe` where the semaphore was shut, and else `InvalidInput`.
impl From<polling::Error> for io::Error {
    ghost from_gives = { λ unanswered error. error_kind error ≡ poll_kind unanswered };

    fn from(unanswered: polling::Error) -> io::Error {
        let kind = match unanswered {
            polling::Error::NotRegistered | polling::Error::WrongMode => ErrorKind::InvalidInput,
            polling::Error::NotReady => ErrorKind::WouldBlock,
            polling::Error::Closed => ErrorKind::BrokenPipe,
        };
        io::Error::new(kind, unanswered.message())
    }
}

/// Of the kind `Other` where the gate refused, `Interrupted` where the caller is to ask again, `WouldBlock` where the answer isn't there yet,
/// and else `InvalidInput`.
impl From<gate::Error> for io::Error {
    ghost from_gives = { λ refused error. error_kind error ≡ gate_kind refused };

    fn from(refused: gate::Error) -> io::Error {
        let kind = match refused {
            gate::Error::Rejected | gate::Error::Sealed => ErrorKind::Other,
            gate::Error::SpuriousFailure => ErrorKind::Interrupted,
            gate::Error::NotRegistered | gate::Error::WrongMode => ErrorKind::InvalidInput,
            gate::Error::NotReady => ErrorKind::WouldBlock,
        };
        io::Error::new(kind, refused.message())
    }
}
