//! What happens to the abstract state that the words stand for.

/// An event. Each belongs to the place whose step it is.
///
/// `specs/AbstractState.antt` says where an event is enabled, and what it changes. Requests are numbers, and so are values of answers.
#[derive(Clone, Copy, Debug, Eq, PartialEq)]
pub enum Event {
    /// An ask is granted at once.
    Acquired(u16),
    /// A try is refused.
    Refused(u16),
    /// A registration joins the line.
    Joined(u16),
    /// Something is given back.
    Released(u16),
    /// Something that isn't held is given back.
    ReleasedNothing(u16),
    /// One owner has a share from now on.
    Lowered,
    /// No one owner has the lock, so nothing is lowered.
    NotLowered,
    /// An ask finds the lock poisoned, or the semaphore shut.
    AskedPoisoned,
    /// A place leaves the line.
    Cancelled,
    /// The line is settled.
    Closed,
    /// The lock is poisoned, or the semaphore shut.
    Poisoned,
    /// The lock isn't poisoned, since no one owner has it; or the semaphore isn't shut, since it was.
    NotPoisoned,
    /// A poisoned lock is made free.
    Cleared,
    /// The lock wasn't poisoned.
    NotCleared,
    /// A poll finds no answer.
    NotReady,
    /// So many of the line are granted, from the oldest on.
    Granted(u16),
    /// The answer of this place is shown.
    Showed(u16),
    /// A place takes its answer.
    AnswerTaken(u8),
    /// The count is read, and whether the lock is poisoned, or the semaphore shut.
    Read(u16, bool),
}
