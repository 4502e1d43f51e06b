//! The rows of a form of this library, whichever it is.
//!
//! They are generic in its semaphore or lock, so that a program that measures one form proves what it is, and not how it is measured. What two threads do
//! isn't: the borrow checker covers a bound of theirs only if it is on the very type that a thread is sent.

use crate::asks::{PermitsOf, Reads, Writes};
use crate::machine::Machine;
use crate::pass::{Label, Pass};
use crate::prints::{READ, RW_LOCKS, TURNS, WAKES, WRITE, print_exclusive, print_granted};
use crate::sides::{Side, TurnsAt, Waits, Wakes, hand_offs, print_sides};
use crate::tasks::take_turns;
use crate::turns::Turn;
use saa_core_guards::mutex::Mutex;
use saa_core_guards::raw_lock::RawLockAsync;
use saa_core_guards::raw_semaphore::{RawSemaphore, RawSemaphoreAsync};
use saa_core_guards::rw_lock::RwLock;
use saa_core_waits::AcquireError;
use std::alloc::AllocGlobal;
use std::io;
use std::random::RandomSource;
use std::sync::Wait;

/// Permits, one at a time, of a semaphore that has one, in this thread.
pub fn print_semaphore<R, S>(rt: &R, pass: Pass, name: &str, semaphore: &S) -> io::Result<()>
where
    R: Machine,
    S: RawSemaphore<Error = AcquireError> + RawSemaphoreAsync,
{
    let label = Label { table: TURNS, name };
    print_exclusive(rt, pass, label, PermitsOf(semaphore))
}

/// A number behind a mutex, in this thread.
pub fn print_mutex<R, L>(rt: &R, pass: Pass, name: &str, mutex: &Mutex<L, u64>) -> io::Result<()>
where
    R: Machine,
    L: RawLockAsync + Drop,
{
    let label = Label { table: TURNS, name };
    print_exclusive(rt, pass, label, mutex)
}

/// A number behind a reader-writer lock, in this thread.
pub fn print_rw_lock<R, L>(rt: &R, pass: Pass, name: &str, lock: &RwLock<L, u64>) -> io::Result<()>
where
    R: Machine,
    L: RawLockAsync + Drop,
{
    let label = Label {
        table: RW_LOCKS,
        name,
    };
    print_granted(rt, pass, label, READ, Reads(lock))?;
    print_granted(rt, pass, label, WRITE, Writes(lock))
}

/// Has a task of this thread take so many turns at a semaphore.
pub fn take_turns_at_semaphore<R, S>(rt: &R, semaphore: &S, turns: u64)
where
    R: Wait + RandomSource + AllocGlobal,
    S: RawSemaphore<Error = AcquireError> + RawSemaphoreAsync,
{
    take_turns(rt, PermitsOf(semaphore), turns);
}

/// Has a task of this thread take so many turns at a mutex.
pub fn take_turns_at_mutex<R, L>(rt: &R, mutex: &Mutex<L, u64>, turns: u64)
where
    R: Wait + RandomSource + AllocGlobal,
    L: RawLockAsync + Drop,
{
    take_turns(rt, mutex, turns);
}

/// Two tasks that take turns at one thing, each in a thread of its own.
pub fn print_apart<R, A, B>(rt: &R, pass: Pass, name: &str, sides: (A, B)) -> io::Result<()>
where
    R: Machine,
    A: Side + Send,
    B: Side,
{
    let label = Label { table: TURNS, name };
    print_sides(rt, pass, label, "2 threads", pass.rounds(2), sides)
}

/// Two threads that wake one another by two signals.
pub fn print_hand_offs<R, S>(rt: &R, pass: Pass, name: &str, one: S, other: S) -> io::Result<()>
where
    R: Machine,
    S: Waits + Wakes + Copy + Send,
{
    let label = Label { table: WAKES, name };
    let sides = hand_offs((one, other), (other, one));
    print_sides(rt, pass, label, "a hand-off", pass.rounds(2), sides)
}

/// Two threads that meet at a barrier, round after round.
pub fn print_meetings<R, T>(rt: &R, pass: Pass, name: &str, barrier: &T) -> io::Result<()>
where
    R: Machine,
    T: Turn + Sync,
{
    let label = Label { table: WAKES, name };
    let sides = (TurnsAt(barrier), TurnsAt(barrier));
    print_sides(rt, pass, label, "a meeting", pass.rounds(1), sides)
}
