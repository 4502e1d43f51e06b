//! The rows of primitives of the kit: of `tokio`, `crossbeam_utils` and std. Each pass makes them anew.

use crate::asks::{Reads, Writes};
use crate::forms::{print_apart, print_hand_offs, print_meetings};
use crate::machine::Machine;
use crate::meeting::print_alone;
use crate::pass::{Label, Pass};
use crate::polls::print_polled;
use crate::prints::{
    EXCLUSIVE, READ, RW_LOCKS, TURNS, WAITS, WAKES, WRITE, print_exclusive, print_granted,
    print_threads, print_tries,
};
use crate::sides::{hand_offs, print_sides};
use crate::tasks::TaskOf;
use crate::turns::AfterGroup;
use crossbeam_utils::sync::Parker as CrossbeamParker;
use std::io;
use std::sync::{Barrier as StdBarrier, Mutex as StdMutex, RwLock as StdRwLock};
use std::thread::Parker;
use tokio::sync::{Barrier, Mutex, Notify, RwLock, Semaphore};

/// Permits.
pub fn permits<R: Machine>(rt: &R, pass: Pass) -> io::Result<()> {
    let semaphore = Semaphore::new(rt.alloc(), 1)?;
    let label = Label {
        table: TURNS,
        name: "tokio Semaphore",
    };
    print_exclusive(rt, pass, label, &semaphore)?;
    print_apart(
        rt,
        pass,
        label.name,
        (TaskOf(&semaphore), TaskOf(&semaphore)),
    )
}

/// A number behind a mutex.
pub fn mutexes<R: Machine>(rt: &R, pass: Pass) -> io::Result<()> {
    let mutex = Mutex::new(rt.alloc(), 0u64)?;
    let label = Label {
        table: TURNS,
        name: "tokio Mutex",
    };
    print_exclusive(rt, pass, label, &mutex)?;
    print_apart(rt, pass, label.name, (TaskOf(&mutex), TaskOf(&mutex)))?;
    let label = Label {
        table: TURNS,
        name: "std Mutex",
    };
    print_tries(rt, pass, label, EXCLUSIVE.tries, &StdMutex::new(0u64))
}

/// A number behind a reader-writer lock of tokio.
pub fn rw_locks<R: Machine>(rt: &R, pass: Pass) -> io::Result<()> {
    let lock = RwLock::new(rt.alloc(), 0u64)?;
    let label = Label {
        table: RW_LOCKS,
        name: "tokio RwLock",
    };
    print_granted(rt, pass, label, READ, Reads(&lock))?;
    print_granted(rt, pass, label, WRITE, Writes(&lock))
}

/// A number behind a reader-writer lock of std.
pub fn std_rw_locks<R: Machine>(rt: &R, pass: Pass) -> io::Result<()> {
    let lock = StdRwLock::new(0u64);
    let label = Label {
        table: RW_LOCKS,
        name: "std RwLock",
    };
    print_tries(rt, pass, label, READ.tries, Reads(&lock))?;
    print_tries(rt, pass, label, WRITE.tries, Writes(&lock))
}

/// A `Notify`, at which a task waits until another tells it.
pub fn notifies<R: Machine>(rt: &R, pass: Pass) -> io::Result<()> {
    let notify = Notify::new(rt.alloc())?;
    let label = Label {
        table: WAITS,
        name: "tokio Notify",
    };
    print_polled(rt, pass, label, "a wait", &notify)
}

/// A barrier, at which a task waits for the second arrival.
pub fn arrivals<R: Machine>(rt: &R, pass: Pass) -> io::Result<()> {
    let barrier = Barrier::new(rt.alloc(), 2)?;
    let label = Label {
        table: WAITS,
        name: "tokio Barrier",
    };
    print_polled(rt, pass, label, "a wait", &barrier)
}

/// Threads at a mutex.
pub fn threads<R: Machine>(rt: &R, pass: Pass) -> io::Result<()> {
    print_threads(rt, pass, "std Mutex", &StdMutex::new(0u64))
}

/// Two threads that wake one another by two parkers of std.
pub fn signals<R: Machine>(rt: &R, pass: Pass) -> io::Result<()> {
    let (one, other) = (Parker::new(), Parker::new());
    print_hand_offs(rt, pass, "std Parker", &one, &other)
}

/// Two threads that wake one another by two parkers of crossbeam.
pub fn crossbeam_signals<R: Machine>(rt: &R, pass: Pass) -> io::Result<()> {
    let one = CrossbeamParker::new(rt.alloc())?;
    let other = CrossbeamParker::new(rt.alloc())?;
    let wakes_one = one.unparker().clone()?;
    let wakes_other = other.unparker().clone()?;
    let label = Label {
        table: WAKES,
        name: "crossbeam Parker",
    };
    let sides = hand_offs((one, wakes_other), (other, wakes_one));
    print_sides(rt, pass, label, "a hand-off", pass.rounds(2), sides)
}

/// Two threads that meet at a barrier of std.
pub fn barriers<R: Machine>(rt: &R, pass: Pass) -> io::Result<()> {
    print_meetings(rt, pass, "std Barrier", &StdBarrier::new(2))
}

/// A `WaitGroup`, for one that left.
pub fn groups<R: Machine>(rt: &R, pass: Pass) -> io::Result<()> {
    let label = Label {
        table: WAKES,
        name: "crossbeam WaitGroup",
    };
    let column = "a wait for one that left";
    print_alone(rt, pass, label, column, &AfterGroup(rt.alloc()))
}
