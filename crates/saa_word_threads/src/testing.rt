//! For tests alone: calls beside a watch, or with another spin policy, and what can be seen of a form beside its calls.
//!
//! A program has no use for this. Each call here is a public one of a semaphore or a lock, and is held to the same contract.

ghost use Rattle.std.specs.Prelude.{◌≡◌};
ghost use Rattle.saa_word_steps.specs.declared.call.Answer.{Answer};
ghost use Rattle.saa_word_steps.specs.declared.call.WordCall.TheVariants.{Cancel, RegisterMode, Release, ReleaseShare, TryPoll, TryShare};
ghost use Rattle.saa_word_threads.specs.Locks.{IsDealtBy as IsDealtByLock, IsMade as IsMadeAtLock, AcquiresAndPolls as IsWaitedAtLock};
ghost use Rattle.saa_word_threads.specs.Public.{is_yes, polled_lock, tried};
ghost use Rattle.saa_word_threads.specs.Semaphores.{IsDealtBy, IsMade, AcquiresAndPolls};
ghost use Rattle.futures.specs.Task.{IsArmed, Keeps};
ghost use Rattle.futures.specs.Poll.{IfReady, OnPending};

use crate::answers::yes;
pub use crate::limit::Limit;
use crate::lock::{Error, Lock, Mode, Place as LockPlace, SHARED, TryLockError, tried};
pub use crate::mark::{is_parked, is_parked_at};
use crate::place::Place;
use crate::semaphore::SemaphoreOf;
pub use crate::watch::{Made, Moment, Pause, Watch};
use futures::task::{Context, Poll};
pub use saa_core_waits::spin_policy::{DEFAULT, NONE, SpinPolicy};
use saa_core_words::word::Word;
use saa_word_steps::call::WordCall;
use saa_word_steps::place::{Ask, Stage};
use std::sync::Wait;

/// Gives permits back as [`SemaphoreOf::release_many`] does, step by step, beside a watch.
pub fn release_watched<R: Wait, W: Watch, const MAX: usize>(
    semaphore: &SemaphoreOf<MAX>,
    rt: &R,
    watch: &W,
    place: &mut Place,
    count: usize,
) -> bool
    requires { IsDealtBy semaphore.now place.old }
    ensures { (answer : Answer) × (result ≡ is_yes answer) × IsMade semaphore.now (Release count) place.old answer place.new }
{
    yes(
        semaphore
            .form
            .call(rt, watch, place, WordCall::Release(count)),
    )
}

/// Cancels as [`SemaphoreOf::cancel`] does, beside a watch.
pub fn cancel_watched<R: Wait, W: Watch, const MAX: usize>(
    semaphore: &SemaphoreOf<MAX>,
    rt: &R,
    watch: &W,
    place: &mut Place,
)
    requires { IsDealtBy semaphore.now place.old }
    ensures { (answer : Answer) × IsMade semaphore.now Cancel place.old answer place.new }
{
    semaphore.form.cancel(rt, watch, place);
}

/// Waits for permits as [`SemaphoreOf::acquire_many`] does, beside a watch, and joins the waiters once this spins are over.
pub fn acquire_with_policy<R: Wait, W: Watch, const MAX: usize>(
    semaphore: &SemaphoreOf<MAX>,
    rt: &R,
    watch: &W,
    place: &mut Place,
    count: usize,
    spin_policy: SpinPolicy,
) -> bool
    requires { IsDealtBy semaphore.now place.old }
    ensures { AcquiresAndPolls semaphore.now count place.old result place.new }
{
    semaphore.wait_with_policy(rt, watch, place, count, spin_policy)
}

/// Gives a share back as [`Lock::release_share`] does, step by step, beside a watch.
pub fn release_share_watched<R: Wait, W: Watch>(
    lock: &Lock,
    rt: &R,
    watch: &W,
    place: &mut LockPlace,
) -> bool
    requires { IsDealtByLock lock.now place.old }
    ensures { (answer : Answer) × (result ≡ is_yes answer) × IsMadeAtLock ReleaseShare place.old answer place.new }
{
    yes(
        lock.form
            .call(rt, watch, &mut place.inner, WordCall::ReleaseShare),
    )
}

/// Tries for a share as [`Lock::try_share`] does, beside a watch.
pub fn try_share_watched<R: Wait, W: Watch>(
    lock: &Lock,
    rt: &R,
    watch: &W,
    place: &mut LockPlace,
) -> Result<(), TryLockError>
    requires { IsDealtByLock lock.now place.old }
    ensures { (answer : Answer) × (result ≡ tried answer) × IsMadeAtLock TryShare place.old answer place.new }
{
    let ask = Ask {
        request: SHARED,
        joins: false,
    };
    let call = WordCall::TryShare;
    tried(lock.form.ask(rt, watch, &mut place.inner, call, ask, NONE))
}

/// Registers as [`Lock::register`] does, beside a watch, and joins the waiters once this spins are over.
pub fn register_with_policy<R: Wait, W: Watch>(
    lock: &Lock,
    rt: &R,
    watch: &W,
    place: &mut LockPlace,
    mode: Mode,
    spin_policy: SpinPolicy,
) -> bool
    requires { IsDealtByLock lock.now place.old }
    ensures { (answer : Answer) × (result ≡ is_yes answer) × IsMadeAtLock (RegisterMode mode) place.old answer place.new }
{
    lock.register_with_policy(rt, watch, place, mode, spin_policy)
}

/// Waits as [`Lock::lock`] and [`Lock::share`] do, in this mode, beside a watch, and joins the waiters once this spins are over.
pub fn wait_with_policy<R: Wait, W: Watch>(
    lock: &Lock,
    rt: &R,
    watch: &W,
    place: &mut LockPlace,
    mode: Mode,
    spin_policy: SpinPolicy,
) -> bool
    requires { IsDealtByLock lock.now place.old }
    ensures { IsWaitedAtLock mode place.old result place.new }
{
    lock.wait_with_policy(rt, watch, place, mode, spin_policy)
}

/// Polls as [`Lock::poll_until`] does, beside a watch, while the limit lets it wait.
pub fn poll_within<R: Wait, W: Watch, L: Limit>(
    lock: &Lock,
    rt: &R,
    watch: &W,
    place: &mut LockPlace,
    limit: &L,
) -> Result<bool, Error>
    requires { IsDealtByLock lock.now place.old }
    ensures { (answer : Answer) × (result ≡ polled_lock answer) × IsMadeAtLock TryPoll place.old answer place.new }
{
    lock.poll_within(rt, watch, place, limit)
}

/// Polls for a task as [`Lock::poll_task`] does, beside a watch.
pub fn poll_task_watched<W: Watch>(
    lock: &Lock,
    watch: &W,
    place: &mut LockPlace,
    cx: &mut Context<'_>,
) -> Poll<Result<bool, Error>>
    requires { IsDealtByLock lock.now place.old }
    ensures ready { IfReady result (λ reply. (answer : Answer) × (reply ≡ polled_lock answer) × IsMadeAtLock TryPoll place.old answer place.new) }
    ensures dealt { IsDealtByLock lock.now place.new }
    ensures armed { OnPending result (IsArmed cx.new) }
    ensures kept { Keeps cx.old cx.new }
{
    lock.poll_task_beside(watch, place, cx)
}

/// Whether a place that asks for the lock, and is about to exchange a free word, would do so now. Another place may change that meanwhile.
pub fn may_exchange(lock: &Lock) -> bool {
    let ask = Ask {
        request: 0,
        joins: true,
    };
    let seen = Word {
        count: 0,
        is_flagged: false,
        is_poisoned: false,
        tail: 0,
    };
    lock.form.may_get_on(Stage::AcquireExchange { ask, seen })
}

/// Whether an answer is written for the place of this number that it hasn't taken yet. `false` for a number of no place.
pub fn is_answered(lock: &Lock, place: u16) -> bool {
    lock.form.is_answered(place)
}
