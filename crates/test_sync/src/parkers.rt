//! The parker on its own: an unpark that comes late, and one that comes as its waiter parks.

use saa_sync::testing::Parker;
use std::sync::{Mutex, Wait};
use std::thread::{self, Threads, yield_now};
use test_asserts::same;

// Parks until the parker is unparked.
fn park(rt: &impl Wait, parker: &Parker, lock: &Mutex<()>) {
    drop(parker.park(rt, lock.lock(rt)));
}

// Waits until the waiter is parked, and so has let go of the mutex.
fn await_asleep(rt: &impl Wait, parker: &Parker, lock: &Mutex<()>) {
    for _ in rt.forever() {
        let guard = lock.lock(rt);
        if parker.is_parked() {
            return;
        }
        drop(guard);
        yield_now();
    }
}

// Unparks once the waiter is parked, or twice, of which the first unpark found no waiter there.
fn unpark(rt: &impl Wait, parker: &Parker, lock: &Mutex<()>, is_late: bool) {
    await_asleep(rt, parker, lock);
    if is_late {
        parker.reset();
        parker.unpark();
    }
    parker.unpark();
}

// A waiter parks at a parker that was notified before, and another thread unparks it, so that it returns: whether the parker was notified before, and is
// in the end.
fn notified<R: Wait + Threads + Sync>(rt: &R, is_late: bool) -> [bool; 2] {
    let parker = Parker::new();
    let lock = Mutex::new(());
    parker.reset();
    parker.unpark();
    let before = parker.is_notified();
    let ((), ()) = thread::join(
        rt,
        || park(rt, &parker, &lock),
        || unpark(rt, &parker, &lock, is_late),
    );
    [before, parker.is_notified()]
}

// An unpark for the slot's last waiter may come late. One that comes before the next waiter parks doesn't keep that awake. One that comes as
// it parks, and finds no waiter there yet, leaves it parked at a parker that is notified; the next unpark wakes it.
#[test]
fn a_waiter_at_a_notified_parker_is_woken(rt: HostRuntime) {
    same!(rt; [notified(&rt, false), notified(&rt, true)], [[true; 2]; 2]);
}
