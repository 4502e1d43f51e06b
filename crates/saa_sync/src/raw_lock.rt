//! The threaded lock as the mutexes and reader-writer locks of `saa_core_guards` take it: tries, waits, waits in time, and polls for a turn.
//!
//! That a grant here comes of the core, and is given back to it, is shown by tests: no clause can follow the calls of a lock with a mutex,
//! so its witness says nothing of what was granted.

use crate::form::Form;
use crate::lock::{LockCore, Mode, is_granted};
use crate::spin_policy::SpinPolicy;
use crate::timed::Deadline;
use futures::ready;
use futures::task::{Context, Poll};
use saa_core::future::PendingRegistration;
use saa_core::ticket::Full;
use saa_core_guards::raw_lock::{MadeWith, RawLock, RawLockAsync, RawLockUntil};
use saa_core_waits::Pends;
use std::alloc::{AllocError, Global};
use std::sync::{RwLock, RwLockReadGuard, RwLockWriteGuard, Wait};
use std::time::{Clock, Duration};

impl<R: Wait + Drop> RawLock for Form<R, LockCore> {
    type Witness = ();

    ghost granted = { λ lock mode witness. Unit {0} };

    fn try_take(&self, mode: Mode) -> Option<()> {
        let is_taken = match mode {
            Mode::Exclusive => self.try_lock().is_ok(),
            Mode::Shared => self.try_share().is_ok(),
            // No guard is of these.
            Mode::WaitExclusive | Mode::WaitShared => false,
        };
        if is_taken { Some(()) } else { None }
    }

    /// Waits for a turn. A lock that says it is poisoned, as none here ever is, is cleared and asked again.
    #[inline(always)]
    fn take(&self, mode: Mode) -> Result<(), Full> {
        for _ in self.rt().forever() {
            if is_granted(self.acquire(mode)?) {
                return Ok(());
            }
            self.clear_poison();
        }
        unreachable!()
    }

    #[inline(always)]
    fn give_back(&self, mode: Mode, _witness: &()) {
        match mode {
            Mode::Exclusive => {
                self.release_lock();
            }
            Mode::Shared => {
                self.release_share();
            }
            // A wait takes nothing.
            Mode::WaitExclusive | Mode::WaitShared => {}
        }
    }

    fn lower(&self, _witness: ()) {
        self.downgrade();
    }

    #[inline(always)]
    fn read<'l, T>(&self, value: &'l RwLock<T>) -> RwLockReadGuard<'l, T> {
        value.read(self.rt())
    }

    #[inline(always)]
    fn write<'l, T>(&self, value: &'l RwLock<T>) -> RwLockWriteGuard<'l, T> {
        value.write(self.rt())
    }
}

impl<R: Wait + Drop> MadeWith<R> for Form<R, LockCore> {
    ghost use Rattle.std.specs.Prelude.{◌≡◌};
    ghost use Rattle.saa_sync.specs.Forms.{room_of, spin_policy_of, waiter_policy_of};
    ghost use Rattle.saa_sync.specs.declared.parker.TheConstants.{WAITER};

    ghost is_made = { λ lock room spin_policy. (spin_policy_of lock ≡ spin_policy) × (waiter_policy_of lock ≡ WAITER) × (room_of lock ≡ room) };

    ghost takes_no_memory = { λ room. room ≡ 0 };

    fn make(rt: R, alloc: Global, room: u16, spin_policy: SpinPolicy) -> Result<Self, AllocError> {
        Self::with_spin_policy(rt, alloc, room, spin_policy)
    }
}

impl<R: Wait + Clock + Drop> RawLockUntil for Form<R, LockCore> {
    fn after(&self, duration: Duration) -> Deadline {
        Deadline::after(self.rt(), duration)
    }

    /// Waits for a turn as [`RawLock::take`] does, until the deadline.
    fn take_until(&self, mode: Mode, deadline: Deadline) -> Result<Option<()>, Full> {
        for _ in self.rt().forever() {
            match self.take_by(mode, deadline)? {
                Some(true) => return Ok(Some(())),
                Some(false) => {
                    self.clear_poison();
                }
                None => return Ok(None),
            }
        }
        unreachable!()
    }
}

impl<R: Wait + Drop> RawLockAsync for Form<R, LockCore> {
    ghost use Rattle.std.specs.Prelude.{◌≡◌};
    ghost use Rattle.saa_core.specs.declared.ticket.Registration.TheVariants.{Unregistered};

    ghost is_idle = { λ pending. pending.ticket ≡ Unregistered };

    fn pending(mode: Mode) -> PendingRegistration<LockCore> {
        PendingRegistration::new(mode)
    }

    /// Polls for the turn. One that is poisoned, as none here ever is, never comes.
    fn poll_turn(
        &self,
        pending: &mut PendingRegistration<LockCore>,
        _mode: Mode,
        cx: &mut Context<'_>,
    ) -> Poll<Result<(), Full>> {
        if pending.has_ended() {
            return cx.yield_now();
        }
        let (polled, _has_joined) = self.advance(pending, cx);
        match ready!(polled) {
            Ok(Some(value)) if is_granted(value) => Poll::Ready(Ok(())),
            Ok(_) => cx.yield_now(),
            Err(full) => Poll::Ready(Err(full)),
        }
    }
}
