//! What a task asks of a primitive: the one word that the line, the tickets and the cores share.
//!
//! Which request fits, what it takes and what it gives back stands in `specs/Held.antt`.

use thiserror::Error;

/// What a task asks of a primitive.
#[derive(Clone, Copy, Debug, Eq, PartialEq)]
pub enum Request {
    /// A lock for one owner alone.
    Exclusive,
    /// A share of a lock.
    Shared,
    /// To be answered once a lock could be taken by one owner alone, or is poisoned; takes nothing.
    WaitExclusive,
    /// To be answered once a lock could be shared, or is poisoned; takes nothing.
    WaitShared,
    /// So many permits of a semaphore, 0 among them.
    Permits(u16),
    /// To pass a gate.
    Enter,
    /// To arrive at a barrier.
    Arrive,
}

/// A registration was refused: it had to wait, and every slot of the room is held.
///
/// Nothing is changed by a refused registration.
#[derive(Clone, Copy, Debug, Eq, Error, PartialEq)]
#[error("{}", self.message())]
pub struct Full;

impl Full {
    pub(crate) fn message(&self) -> &'static str {
        "it would have to wait, and every slot for waiters is held"
    }
}
