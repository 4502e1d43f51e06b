//! The tables and their columns, and the cells of one primitive in the tables of turns and of reader-writer locks.

use crate::asks::Asks;
use crate::machine::Machine;
use crate::meeting::{print_alone, print_turns};
use crate::pass::{Label, Pass};
use crate::polls::{One, Two, print_polled};
use crate::tasks::print_tasks;
use crate::tries::{Tries, Try};
use crate::turns::Turn;
use std::io;

/// The room for waiters.
pub const ROOM: u16 = 64;

/// The table of turns.
pub const TURNS: &str = "turns";

/// The table of reader-writer locks.
pub const RW_LOCKS: &str = "rw_locks";

/// The table of waits of a task.
pub const WAITS: &str = "waits";

/// The table of threads at a mutex.
pub const THREADS: &str = "threads";

/// The table of threads that wake one another.
pub const WAKES: &str = "wakes";

/// The columns of tries, and of futures that are granted at their first poll.
#[derive(Clone, Copy)]
pub struct Columns<'c> {
    /// That of tries.
    pub tries: &'c str,
    /// That of futures.
    pub futures: &'c str,
}

/// The columns of turns that exclude one another.
pub const EXCLUSIVE: Columns<'static> = Columns {
    tries: "a try",
    futures: "a future",
};

/// The columns of a reader-writer lock, to read.
pub const READ: Columns<'static> = Columns {
    tries: "a try to read",
    futures: "a future to read",
};

/// The columns of a reader-writer lock, to write.
pub const WRITE: Columns<'static> = Columns {
    tries: "a try to write",
    futures: "a future to write",
};

/// Prints how long a try takes with its release.
pub fn print_tries<R: Machine, P: Tries>(
    rt: &R,
    pass: Pass,
    label: Label<'_>,
    column: &str,
    tries: P,
) -> io::Result<()> {
    print_alone(rt, pass, label, column, &Try(tries))
}

/// Prints that, and how long a future takes that is granted at its first poll.
pub fn print_granted<R: Machine, P: Tries + Asks + Copy>(
    rt: &R,
    pass: Pass,
    label: Label<'_>,
    columns: Columns<'_>,
    asks: P,
) -> io::Result<()> {
    print_tries(rt, pass, label, columns.tries, asks)?;
    print_polled(rt, pass, label, columns.futures, &One(asks))
}

/// Prints that, and how long futures take of which all but one wait: in one task, and in many tasks of one thread.
pub fn print_exclusive<R: Machine, P: Tries + Asks + Copy>(
    rt: &R,
    pass: Pass,
    label: Label<'_>,
    asks: P,
) -> io::Result<()> {
    print_granted(rt, pass, label, EXCLUSIVE, asks)?;
    print_polled(rt, pass, label, "two futures", &Two(asks))?;
    print_tasks(rt, pass, label, "16 tasks", asks)
}

/// Threads at one thing: one thread, two, and four.
pub fn print_threads<R: Machine, T: Turn + Sync>(
    rt: &R,
    pass: Pass,
    name: &str,
    work: &T,
) -> io::Result<()> {
    let label = Label {
        table: THREADS,
        name,
    };
    print_turns(rt, pass, label, "1 thread", 1, work)?;
    print_turns(rt, pass, label, "2 threads", 2, work)?;
    print_turns(rt, pass, label, "4 threads", 4, work)
}
