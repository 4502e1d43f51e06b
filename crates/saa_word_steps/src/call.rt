//! What a place can be called to do, and what it answers.

pub use saa_core_spec::lock::{Mode, TryLockError};
pub use saa_core_spec::polling::Error;

/// A call at a place.
#[derive(Clone, Copy, Debug, Eq, PartialEq)]
pub enum WordCall {
    /// Of a semaphore: takes so many permits if there is no waiter and they are available.
    Try(usize),
    /// Of a semaphore: asks for so many permits, and waits in line where it must.
    Register(usize),
    /// Of a semaphore: gives so many permits back.
    Release(usize),
    /// Of a semaphore: how many permits are available.
    Available,
    /// Of a semaphore: shuts it for good; all waiters are answered that it is shut.
    Shut,
    /// Of a semaphore: whether it was shut.
    IsShut,
    /// Of a lock: takes it for one owner alone if there is no waiter and it is free.
    TryLock,
    /// Of a lock: takes a share if there is no waiter and one is left.
    TryShare,
    /// Of a lock: asks for it in a mode, and waits in line where it must.
    RegisterMode(Mode),
    /// Of a lock: gives the lock of one owner back.
    ReleaseLock,
    /// Of a lock: gives one share back.
    ReleaseShare,
    /// Of a lock: makes its one owner a sharer, and lets nobody in between.
    Downgrade,
    /// Of a lock: poisons the lock that one owner has; all waiters are answered that it is poisoned.
    PoisonLock,
    /// Of a lock: makes a poisoned lock free.
    ClearPoison,
    /// Of a lock: whether it is free.
    IsFree,
    /// Of a lock: whether one owner has it alone.
    IsLocked,
    /// Of a lock: whether it is shared.
    IsShared,
    /// Of a lock: whether it is poisoned.
    IsPoisoned,
    /// Takes the answer of a registration, where it is there.
    TryPoll,
    /// Takes the answer of a registration, and waits for it where it must.
    Poll,
    /// Cancels a registration: leaves the line, or gives back what was granted.
    Cancel,
}

/// What a call answers.
#[derive(Clone, Copy, Debug, Eq, PartialEq)]
pub enum Answer {
    /// Of a try of a semaphore, and of a registration, a release, a downgrade, poison, clear and shut: whether it did so. Of those that read a
    /// lock, and whether a semaphore was shut: whether it is so.
    Bool(bool),
    /// Of `Available`.
    Number(u16),
    /// Of a try of a lock.
    Tried(Result<(), TryLockError>),
    /// Of a poll: whether it was granted, and else the lock is poisoned, or the semaphore shut; or why there is no answer.
    Taken(Result<bool, Error>),
    /// Of a cancel.
    Unit,
}
