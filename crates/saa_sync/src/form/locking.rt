//! Turns at a form's mutex: each is one step of the core, and the wakes that it leaves pending are made with the mutex free.
//!
//! What an uncontended call needs is inlined, and the rest isn't: each register that a call saves in memory before it
//! takes the lock is waited for there, which cost a lock some 10 ns.

use super::Form;
use crate::locked::{Locked, Wake};
use crate::rest::Spent;
use saa_core::primitive::Primitive;
use saa_core_waits::spin_policy::{Rest, hints_of};
use std::sync::{MutexGuard, Wait};

// How often a call tries to lock the mutex that another task has, before it may sleep there.
const MUTEX_TRIES: u32 = 10;

impl<R: Wait + Drop, P: Primitive> Form<R, P> {
    /// Locks the mutex, for a turn there; may wait for its holder.
    #[inline(always)]
    pub(crate) fn lock(&self) -> MutexGuard<'_, Locked<P>> {
        let mut locked = match self.mutex.try_lock() {
            Some(locked) => locked,
            None => self.lock_contended(),
        };
        locked.count();
        locked
    }

    // Locks the mutex that another task has. It rests before each try, longer each time: a turn at the mutex takes some
    // nanoseconds, and each try takes the mutex's cache line from the task that makes turns there. It sleeps where that doesn't help.
    #[inline(never)]
    fn lock_contended(&self) -> MutexGuard<'_, Locked<P>> {
        let mut spent = Spent::new();
        for turn in 0..MUTEX_TRIES {
            spent.rest(Rest::Spins(hints_of(turn)));
            if let Some(mut locked) = self.try_again(&mut spent) {
                locked.count_tries(&spent);
                return locked;
            }
        }
        self.hint.block(&spent);
        self.mutex.lock(&self.rt)
    }

    // Tries once for the mutex, and counts that.
    #[inline(always)]
    fn try_again(&self, spent: &mut Spent) -> Option<MutexGuard<'_, Locked<P>>> {
        spent.look();
        self.mutex.try_lock()
    }

    /// Makes one step of the core under the mutex, and then makes the core's pending wakes, with the mutex free.
    ///
    /// The answer is one that the step gives at some core.
    #[inline(always)]
    pub(crate) fn step<A, F: FnOnce(&mut P) -> A + Drop>(&self, step: F) -> A
        requires { F.IsAlwaysCallable step }
        ensures { (lent : _) × (left : _) × F.post step lent result left }
    {
        let mut locked = self.lock();
        let answer = step(&mut locked.core);
        self.unlock(locked);
        answer
    }

    /// Unlocks the mutex, and makes the core's pending wakes, with the mutex free.
    #[inline(always)]
    pub(crate) fn unlock<'s>(&'s self, mut locked: MutexGuard<'s, Locked<P>>) {
        if self.hint.is_watched() {
            self.hint.show(&locked.core);
        }
        match locked.core.next_answered() {
            Some(slot) => self.wake(locked, slot),
            None => drop(locked),
        }
    }

    // Wakes as the core says, from this slot on, whose wake was told: lets the lock go before each wake.
    //
    // Each costs an unpark, which is a system call only where somebody is parked there, and each second one a
    // short lock, to ask for more.
    #[inline(never)]
    fn wake<'s>(&'s self, locked: MutexGuard<'s, Locked<P>>, first: u16) {
        let mut locked = locked;
        let mut slot = first;
        for _ in self.rt.forever() {
            let wakes = locked.wakes_from(slot);
            drop(locked);
            self.unpark(wakes.first);
            let Some(second) = wakes.second else {
                return;
            };
            self.unpark(second);
            locked = self.lock();
            let Some(next) = locked.core.next_answered() else {
                return;
            };
            slot = next;
        }
    }

    // Wakes the waiter of a slot: a thread at its parker, and a task by its waker, which wakes it as it is dropped here.
    fn unpark(&self, wake: Wake) {
        if let Some(parker) = self.parker(wake.slot) {
            parker.unpark();
        }
    }
}
