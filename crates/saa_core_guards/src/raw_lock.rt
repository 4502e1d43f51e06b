//! What a lock offers to the mutexes that stand on it: turns, alone and shared, by calls that try, wait, and wait in time or by a future.
//!
//! A turn is granted with a witness, of which the lock says what it means; one whose calls no clause can follow has nothing to say, and its
//! witness is `()`. Nothing here knows how a lock keeps its queue.

use futures::task::{Context, Poll};
use saa_core_spec::lock::Mode;
use saa_core_spec::request::Full;
use saa_core_waits::deadline::Deadline;
use saa_core_waits::spin_policy::SpinPolicy;
use saa_core_waits::waitable::Pends;
use std::alloc::{AllocError, Global};
use std::sync::{RwLock, RwLockReadGuard, RwLockWriteGuard};
use std::time::{Duration, Instant};

/// A lock in whose turns a value is used.
///
/// Its own calls aren't handed out by a mutex round it, so nobody poisons it; a call that finds it poisoned clears that, and asks again.
pub trait RawLock: Sized {
    ghost use Rattle.std.specs.Prelude.{◌≡◌, ⊤, IfErr, IfOk, IfSome};
    ghost use Rattle.saa_core_spec.specs.declared.lock.Mode.{Mode};
    ghost use Rattle.saa_core_spec.specs.declared.lock.Mode.TheVariants.{Exclusive, Shared};

    /// The witness of a grant, which a turn keeps until it ends.
    type Witness: Drop;

    // What a witness says: that this lock was granted in this mode.
    ghost granted: { Self → Mode → Self.Witness → Type 0 };

    // What it says of itself where it refuses a wait, `Full`; anything will do unless a lock says more.
    ghost is_full: { Self → Type 0 } = { λ _. ⊤ };

    /// Takes the lock in a mode, if that needs no wait; never waits for an owner.
    fn try_take(&self, mode: Mode) -> Option<Self::Witness>
        ensures { IfSome result (λ witness. ∥ granted self.now mode witness ∥₁) };

    /// Takes the lock in a mode, and waits for it where it must. `Full`: it would have to wait, and there is no room for one more waiter.
    fn take(&self, mode: Mode) -> Result<Self::Witness, Full>
        ensures taken { IfOk result (λ witness. ∥ granted self.now mode witness ∥₁) }
        ensures full { IfErr result (λ full. is_full self.now) };

    /// Gives the lock back that was granted in a mode, and grants the oldest waiters while they fit.
    fn give_back(&self, mode: Mode, witness: &Self::Witness)
        requires { ∥ granted self.now mode witness.now ∥₁ };

    /// Makes the lock of one owner a share, and grants the oldest waiters while they fit beside it.
    fn lower(&self, witness: Self::Witness) -> Self::Witness
        requires { ∥ granted self.now Exclusive witness ∥₁ }
        ensures { ∥ granted self.now Shared result ∥₁ };

    /// The value to read, with the lock's permission to block.
    fn read<'l, T>(&self, value: &'l RwLock<T>) -> RwLockReadGuard<'l, T>;

    /// The value to write, with the lock's permission to block.
    fn write<'l, T>(&self, value: &'l RwLock<T>) -> RwLockWriteGuard<'l, T>;
}

/// A lock that is made with a permission to block of this type.
pub trait MadeWith<R>: RawLock {
    ghost use Rattle.std.specs.Prelude.{ℕ, IfOk, IsOk};
    ghost use Rattle.saa_core_waits.specs.declared.spin_policy.SpinPolicy.{SpinPolicy};

    // What a lock is that was made with so large a room and this spin policy, and for which rooms it takes no memory.
    ghost is_made: { Self → ℕ → SpinPolicy → Type 0 };

    ghost takes_no_memory: { ℕ → Type 0 };

    /// A free lock, with room for so many waiters. Costs O(`room`).
    ///
    /// The error comes only where memory was refused.
    fn make(rt: R, alloc: Global, room: u16, spin_policy: SpinPolicy) -> Result<Self, AllocError>
        ensures no_room { takes_no_memory room → IsOk result }
        ensures made { IfOk result (λ lock. is_made lock room spin_policy) };
}

/// A lock at which calls wait until a deadline.
pub trait RawLockUntil: RawLock {
    ghost use Rattle.std.specs.Prelude.{IfErr, IfOk, IfSome};

    /// The deadline after this time from now, by the lock's clock.
    fn after(&self, duration: Duration) -> Deadline;

    /// Takes the lock in a mode, and waits for it until the deadline; it joins at once, without a look before it. `None`: time is up.
    fn take_until(&self, mode: Mode, deadline: Deadline) -> Result<Option<Self::Witness>, Full>
        ensures taken { IfOk result (λ reply. IfSome reply (λ witness. ∥ Self.granted self.now mode witness ∥₁)) }
        ensures full { IfErr result (λ full. Self.is_full self.now) };
}

/// A lock at which tasks wait for turns by futures.
pub trait RawLockAsync: RawLock + Pends {
    ghost use Rattle.std.specs.Prelude.{◌≡◌, IfErr, IfOk, false};
    ghost use Rattle.futures.specs.Poll.{IfReady, OnPending};
    ghost use Rattle.futures.specs.Task.{Hears, IsArmed, Keeps};
    ghost use Rattle.saa_core_spec.specs.Lock.{mode_request};

    // Nothing is registered for what is pending.
    ghost is_idle: { Self.Pending → Type 0 };

    /// What is pending for a turn in a mode, which asks for nothing yet.
    fn pending(mode: Mode) -> Self::Pending
        ensures admitted { (lock : Self) → Self.admits_pending lock result }
        ensures request { Self.asked result ≡ mode_request mode }
        ensures idle { is_idle result }
        ensures fresh { Self.has_ended result ≡ false };

    /// Polls for the turn that is pending in a mode, for a task, which is woken once the turn is there.
    fn poll_turn(
        &self,
        pending: &mut Self::Pending,
        mode: Mode,
        cx: &mut Context<'_>,
    ) -> Poll<Result<Self::Witness, Full>>
        requires admitted { Self.admits_pending self.now pending.old }
        requires asked { Self.asked pending.old ≡ mode_request mode }
        ensures granted { IfReady result (λ answer. IfOk answer (λ witness. ∥ Self.granted self.now mode witness ∥₁)) }
        ensures full { IfReady result (λ answer. IfErr answer (λ full. Self.is_full self.now)) }
        ensures armed { OnPending result (IsArmed cx.new) }
        ensures heard { OnPending result (Hears cx.new (Self.source self.now)) }
        ensures kept { Keeps cx.old cx.new }
        ensures asks { Self.asked pending.new ≡ Self.asked pending.old }
        ensures admitted { Self.admits_pending self.now pending.new };
}
