//! What the workers ask of a connection, and of what opens it: all that `share` knows of them.

use crate::counts::{Done, Found};

/// A connection could not be opened again.
#[derive(Clone, Copy, Debug, PartialEq)]
pub struct Unopened;

/// What a worker does with a connection in one turn.
#[derive(Clone, Copy)]
pub struct Turn {
    /// The amount of its transfer.
    pub amount: u16,
    /// Whether it leaves the connection broken.
    pub breaks: bool,
}

/// A connection to a ledger.
pub trait Pooled {
    /// The number of its database.
    fn number(&self) -> usize;

    /// Whether it is in order: not in a transaction that its last user left open.
    fn is_in_order(&self) -> bool;

    /// Makes a transfer at a connection that is in order, and reads the balance; none if SQLite refuses it.
    fn take_turn(&mut self, turn: Turn) -> Option<Done>;

    /// What SQL finds in its ledger; none if SQLite refuses it.
    fn found(&mut self) -> Option<Found>;
}

/// What opens connections, each to the database of a number.
pub trait Opens<T> {
    /// A connection to the database of this number, with an empty ledger; none if memory, the system or SQLite refuses it.
    fn created(&self, number: usize) -> Option<Box<T>>;

    /// Closes a connection, and opens its database again: what was committed is there, and what wasn't is gone.
    fn reopened(&self, broken: Box<T>) -> Result<Box<T>, Unopened>;
}
