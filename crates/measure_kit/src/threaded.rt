//! The rows of the threaded forms. Each pass makes its primitives anew.

use crate::arrivals::{AfterArrival, Arrivals, Passages};
use measure_turns::forms::{
    print_apart, print_hand_offs, print_meetings, print_mutex, print_rw_lock, print_semaphore,
    take_turns_at_mutex, take_turns_at_semaphore,
};
use measure_turns::machine::Machine;
use measure_turns::meeting::print_alone;
use measure_turns::pass::{Label, Pass};
use measure_turns::polls::print_polled;
use measure_turns::prints::{ROOM, WAITS, WAKES, print_threads};
use measure_turns::sides::{Side, Waits, Wakes};
use saa_sync::spin_policy::NONE;
use saa_sync::{Barrier, Gate, Mutex, RwLock, Semaphore};
use std::io;
use std::sync::Wait;

/// Permits.
pub fn permits<R: Machine>(rt: &R, pass: Pass) -> io::Result<()> {
    let semaphore = Semaphore::with_permits(rt, rt.alloc(), 1, ROOM)?;
    print_semaphore(rt, pass, "Semaphore", &semaphore)
}

/// A number behind a mutex.
pub fn mutexes<R: Machine>(rt: &R, pass: Pass) -> io::Result<()> {
    let mutex = Mutex::new(rt, rt.alloc(), 0u64, ROOM)?;
    print_mutex(rt, pass, "Mutex", &mutex)
}

// A task that takes turns at permits, in a thread of its own.
#[derive(Drop)]
struct AtSemaphore<'s, S: Wait + Drop>(&'s Semaphore<S>);

impl<S: Wait + Drop> Side for AtSemaphore<'_, S> {
    fn play<R: Machine>(self, rt: &R, rounds: u64) {
        take_turns_at_semaphore(rt, self.0, rounds);
    }
}

// The same at a mutex.
#[derive(Drop)]
struct AtMutex<'m, S: Wait + Drop>(&'m Mutex<S, u64>);

impl<S: Wait + Drop> Side for AtMutex<'_, S> {
    fn play<R: Machine>(self, rt: &R, rounds: u64) {
        take_turns_at_mutex(rt, self.0, rounds);
    }
}

/// Tasks in two threads, at permits.
pub fn permits_apart<R: Machine>(rt: &R, pass: Pass) -> io::Result<()> {
    let semaphore = Semaphore::with_permits(rt, rt.alloc(), 1, ROOM)?;
    let sides = (AtSemaphore(&semaphore), AtSemaphore(&semaphore));
    print_apart(rt, pass, "Semaphore", sides)
}

/// Tasks in two threads, at a mutex.
pub fn mutexes_apart<R: Machine>(rt: &R, pass: Pass) -> io::Result<()> {
    let mutex = Mutex::new(rt, rt.alloc(), 0u64, ROOM)?;
    let sides = (AtMutex(&mutex), AtMutex(&mutex));
    print_apart(rt, pass, "Mutex", sides)
}

/// A number behind a reader-writer lock.
pub fn rw_locks<R: Machine>(rt: &R, pass: Pass) -> io::Result<()> {
    let lock = RwLock::new(rt, rt.alloc(), 0u64, ROOM)?;
    print_rw_lock(rt, pass, "RwLock", &lock)
}

/// A gate, at which a task waits until another lets it pass.
pub fn gates<R: Machine>(rt: &R, pass: Pass) -> io::Result<()> {
    let gate = Gate::new(rt, rt.alloc(), ROOM)?;
    let label = Label {
        table: WAITS,
        name: "Gate",
    };
    print_polled(rt, pass, label, "a wait", &Passages(&gate))
}

/// A barrier, at which a task waits for the second arrival.
pub fn arrivals<R: Machine>(rt: &R, pass: Pass) -> io::Result<()> {
    let barrier = Barrier::with_count(rt, rt.alloc(), 2, 2)?;
    let label = Label {
        table: WAITS,
        name: "Barrier",
    };
    print_polled(rt, pass, label, "a wait", &Arrivals(&barrier))
}

/// Threads at a mutex.
pub fn threads<R: Machine>(rt: &R, pass: Pass) -> io::Result<()> {
    let mutex = Mutex::new(rt, rt.alloc(), 0u64, ROOM)?;
    print_threads(rt, pass, "Mutex", &mutex)
}

/// Threads at a mutex whose calls join the queue at once.
pub fn strict_threads<R: Machine>(rt: &R, pass: Pass) -> io::Result<()> {
    let mutex = Mutex::with_spin_policy(rt, rt.alloc(), 0u64, ROOM, NONE)?;
    print_threads(rt, pass, "Mutex, strict", &mutex)
}

// A semaphore without a permit, as a signal.
#[derive_where(Clone, Copy)]
struct Signal<'s, S: Wait + Drop>(&'s Semaphore<S>);

impl<S: Wait + Drop> Waits for Signal<'_, S> {
    fn wait<R: Wait>(&self, _rt: &R) {
        let _taken = self.0.acquire_sync();
    }
}

impl<S: Wait + Drop> Wakes for Signal<'_, S> {
    fn wake(&self) {
        let _released = self.0.release();
    }
}

/// Two threads that wake one another by two semaphores.
pub fn signals<R: Machine>(rt: &R, pass: Pass) -> io::Result<()> {
    let one = Semaphore::with_permits(rt, rt.alloc(), 0, 1)?;
    let other = Semaphore::with_permits(rt, rt.alloc(), 0, 1)?;
    print_hand_offs(rt, pass, "Semaphore", Signal(&one), Signal(&other))
}

/// Two threads that meet at a barrier.
pub fn barriers<R: Machine>(rt: &R, pass: Pass) -> io::Result<()> {
    let barrier = Barrier::with_count(rt, rt.alloc(), 2, 2)?;
    print_meetings(rt, pass, "Barrier", &Arrivals(&barrier))
}

/// A barrier of two, at which a thread waits for one other that has arrived and gone on.
pub fn left_arrivals<R: Machine>(rt: &R, pass: Pass) -> io::Result<()> {
    let barrier = Barrier::with_count(rt, rt.alloc(), 2, 2)?;
    let label = Label {
        table: WAKES,
        name: "Barrier",
    };
    let column = "a wait for one that left";
    print_alone(rt, pass, label, column, &AfterArrival(&barrier))
}
