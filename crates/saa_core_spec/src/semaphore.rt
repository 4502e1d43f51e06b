//! The calls of a semaphore, and what they answer.

/// A call of a semaphore that needs no ticket.
#[derive(Clone, Copy, Debug, Eq, PartialEq)]
pub enum SemaphoreCall {
    /// Takes so many permits if there is no waiter and they fit.
    TryAcquireMany(usize),
    /// Gives so many permits back.
    ReleaseMany(usize),
    /// Asks how many permits are available.
    AvailablePermits,
    /// Asks whether a permit is available.
    IsOpen,
    /// Asks whether no permit is available.
    IsClosed,
    /// Shuts the semaphore: every waiter is answered that it is, and no permit is taken from then on.
    Shut,
    /// Asks whether the semaphore is shut.
    IsShut,
}

/// What a call of a semaphore answers.
#[derive(Clone, Copy, Debug, Eq, PartialEq)]
pub enum SemaphoreAnswer {
    /// Of all calls but `AvailablePermits`.
    Bool(bool),
    /// Of `AvailablePermits`.
    Number(usize),
}
