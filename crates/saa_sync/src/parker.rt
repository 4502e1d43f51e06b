//! A parker: where the waiter of a slot spins, yields, and then parks.
//!
//! A wait ends with a poll that finds an answer; a parker only says when it is worth polling again. How long a task spins and
//! yields is a value, `SpinPolicy`, so that tests can make every wait park.

use crate::rest::Spent;
use crate::spin_policy::SpinPolicy;
use saa_core_waits::Deadline;
use std::sync::atomic::{AtomicU64, Ordering};
use std::sync::{Condvar, CondvarTimeouts, MutexGuard, Wait};
use std::time::{Clock, Duration};

/// How long a waiter stays awake, in every threaded form. Measured with 2, 4 and 8 threads on 4 processors: a sleep costs some five
/// microseconds and a wake that comes sooner is the common one, so a waiter yields long before it parks. It looks without a yield for less
/// than the time of a hand-off: where calls join at once, and as many threads take turns as there are processors, 500 looks made a turn a
/// third longer and the longest waits four times as long; with more threads than processors looks alone are ruinous. If it yielded for less
/// than a few wakes take, all waiters would park for each turn once one of them had: with 500 yields strict turns of a microsecond came to take
/// 12 to 38 in some runs.
pub const WAITER: SpinPolicy = SpinPolicy {
    looks: 50,
    yields: 2_000,
};

// What a parker is: its waiter is awake, is notified, or may be parked.
const AWAKE: u64 = 0;

const NOTIFIED: u64 = 1;

const PARKED: u64 = 2;

/// Where the waiter of a slot waits.
#[derive(Drop)]
pub struct Parker {
    state: AtomicU64,
    condvar: Condvar,
}

impl Parker {
    /// A parker at which nobody waits.
    pub fn new() -> Parker {
        Parker {
            state: AtomicU64::new(AWAKE),
            condvar: Condvar::new(),
        }
    }

    /// A new waiter may wait here from now on. Called under the mutex under which the slot is given out.
    pub fn reset(&self) {
        self.state.store(AWAKE, Ordering::SeqCst);
    }

    /// Wakes the waiter; a system call only where it may be parked.
    ///
    /// One that is notified already may be parked too: it parked as a late unpark for the slot's last waiter came, and so missed that.
    pub fn unpark(&self) {
        if self.state.swap(NOTIFIED, Ordering::SeqCst) != AWAKE {
            self.condvar.notify_all();
        }
    }

    /// Spins, and then yields, until it is notified, or so often that it is time to park.
    pub(crate) fn spin(&self, policy: SpinPolicy, spent: &mut Spent) {
        for turn in 0..policy.turns() {
            spent.look();
            if self.is_notified() {
                return;
            }
            if turn < policy.looks {
                spent.spin();
            } else {
                spent.give_way();
            }
        }
    }

    /// Parks until it is notified, with the mutex free meanwhile; now and then it wakes for no reason.
    ///
    /// A slot is answered under the mutex that is handed in, and its waiter is unparked after that. So a waiter that found no
    /// answer under this mutex is seen to be parked by the task that unparks it.
    pub fn park<'g, T>(&self, rt: &impl Wait, locked: MutexGuard<'g, T>) -> MutexGuard<'g, T> {
        self.state.store(PARKED, Ordering::SeqCst);
        self.condvar.wait(rt, locked)
    }

    /// Spins and yields as [`Self::spin`] does, and no longer than there is time.
    pub(crate) fn spin_until(
        &self,
        policy: SpinPolicy,
        clock: &impl Clock,
        deadline: Deadline,
        spent: &mut Spent,
    ) {
        for turn in 0..policy.turns() {
            spent.look();
            if self.is_notified() {
                return;
            }
            if turn < policy.looks {
                spent.spin();
            } else if deadline.left(clock).is_some() {
                spent.give_way();
            } else {
                return;
            }
        }
    }

    /// Parks as [`Self::park`] does, and for so long at most.
    pub fn park_for<'g, R: Wait + Clock, T>(
        &self,
        rt: &R,
        locked: MutexGuard<'g, T>,
        left: Duration,
    ) -> MutexGuard<'g, T> {
        self.state.store(PARKED, Ordering::SeqCst);
        let (locked, _timed_out) = self.condvar.wait_timeout(rt, locked, left);

        // Its wait may end here, and then nobody is parked. A notification that came meanwhile stays.
        let _state = self
            .state
            .compare_exchange(PARKED, AWAKE, Ordering::SeqCst, Ordering::SeqCst);
        locked
    }

    /// Whether the slot may have been answered since its waiter joined.
    pub fn is_notified(&self) -> bool {
        self.state.load(Ordering::SeqCst) == NOTIFIED
    }

    /// Whether the waiter is parked. Who asks under the mutex knows that it has let go of the mutex.
    pub fn is_parked(&self) -> bool {
        self.state.load(Ordering::SeqCst) == PARKED
    }
}
