//! What ends a run early: a bad line, refused memory, a failed read or write, or an output that is closed.

use std::alloc::{AllocError, AllocFailed};
use std::io;
use std::io::ErrorKind;

/// A bad line: where it is bad, and why.
#[derive(Debug, Drop)]
pub struct Fault {
    /// The number of the line, from 1.
    pub line: u64,
    /// The column, in characters from 1.
    pub column: usize,
    /// What it has, why it is bad, and what was expected.
    pub what: String,
    /// The line as it was read.
    pub text: String,
}

/// Why a run ends early.
#[derive(Debug, Drop)]
pub enum Trouble {
    /// A line is bad.
    Bad(Fault),
    /// Memory was refused.
    NoMemory,
    /// A file can't be opened: its name, and why.
    Unopened(String, io::Error),
    /// A read or a write failed.
    Failed(io::Error),
    /// Nobody reads what is written any more.
    Closed,
}

impl From<AllocError> for Trouble {
    fn from(_error: AllocError) -> Trouble {
        Trouble::NoMemory
    }
}

impl<T: Drop> From<AllocFailed<T>> for Trouble {
    fn from(_error: AllocFailed<T>) -> Trouble {
        Trouble::NoMemory
    }
}

impl From<io::Error> for Trouble {
    fn from(error: io::Error) -> Trouble {
        match error.kind() {
            ErrorKind::OutOfMemory => Trouble::NoMemory,
            ErrorKind::BrokenPipe => Trouble::Closed,
            _ => Trouble::Failed(error),
        }
    }
}
