//! The modes and calls of a lock, and what they answer.

use thiserror::Error;

/// What a registration asks of a lock.
#[derive(Clone, Copy, Debug, Eq, PartialEq)]
pub enum Mode {
    /// To own the lock alone.
    Exclusive,
    /// To own one of its shares.
    Shared,
    /// To be answered once it could be owned alone, or is poisoned; takes nothing.
    WaitExclusive,
    /// To be answered once it could be shared, or is poisoned; takes nothing.
    WaitShared,
}

/// Why a try on a lock was refused. Neither changes anything.
#[derive(Clone, Copy, Debug, Eq, Error, PartialEq)]
#[error("{}", self.message())]
pub enum TryLockError {
    /// The lock is poisoned.
    Poisoned,
    /// Somebody waits, or the lock is held so that the try doesn't fit.
    WouldBlock,
}

impl TryLockError {
    pub(crate) fn message(&self) -> &'static str {
        match self {
            TryLockError::Poisoned => "the lock is poisoned",
            TryLockError::WouldBlock => "the lock is held, or there is a waiter",
        }
    }
}

/// A call of a lock that needs no ticket.
#[derive(Clone, Copy, Debug, Eq, PartialEq)]
pub enum LockCall {
    /// Takes the lock for one owner alone if there is no waiter and it is free.
    TryLock,
    /// Takes a share if there is no waiter and one is left.
    TryShare,
    /// Gives the lock of one owner back.
    ReleaseLock,
    /// Gives one share back.
    ReleaseShare,
    /// Makes one owner a sharer, and lets nobody in between.
    Downgrade,
    /// Poisons the lock that one owner has.
    PoisonLock,
    /// Makes a poisoned lock free.
    ClearPoison,
    /// Asks whether the lock is free.
    IsFree,
    /// Asks whether one owner has the lock alone.
    IsLocked,
    /// Asks whether the lock is shared.
    IsShared,
    /// Asks whether the lock is poisoned.
    IsPoisoned,
}

/// What a call of a lock answers.
#[derive(Clone, Copy, Debug, Eq, PartialEq)]
pub enum LockAnswer {
    /// Of all calls but the two tries.
    Bool(bool),
    /// Of the two tries.
    Tried(Result<(), TryLockError>),
}
