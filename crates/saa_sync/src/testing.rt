//! For tests and measurements alone: forms with waiters of another spin policy, and what a test may see of a form.
//!
//! A program has no use for this. Tests make a form whose every wait is surely sent to sleep, or of a core in use, and ask how many waiters
//! are parked and whose parkers are notified.

ghost use Rattle.std.specs.Prelude.{◌≡◌, ◌||◌, false, IfOk, IsOk};
ghost use Rattle.saa_core.specs.Tickets.{slot_of};
ghost use Rattle.saa_sync.specs.Forms.{spin_policy_of, waiter_policy_of};

pub use crate::form::{Counts, Form};
use crate::lock::Lock;
use crate::lock_api::{Mutex, RwLock};
use crate::pager::{Pager, SyncResult, Ticket};
pub use crate::parker::{Parker, WAITER};
pub use crate::spin_policy::SpinPolicy;
use saa_core::lock::LockCore;
use saa_core::primitive::Primitive;
use saa_core_guards::guarded::lock_of;
use std::alloc::{AllocError, Global};
use std::sync::Wait;

/// The form of a core that was made for so large a room, with its spin policies: of calls that aren't registered yet, and of waiters.
///
/// The error comes only where memory was refused, and so never for room 0.
pub fn form_of<R: Wait + Drop, P: Primitive>(
    rt: R,
    alloc: Global,
    core: P,
    room: u16,
    unregistered: SpinPolicy,
    waiting: SpinPolicy,
) -> Result<Form<R, P>, AllocError>
    ensures no_room { room ≡ 0 → IsOk result }
    ensures spin_policy { IfOk result (λ form. spin_policy_of form ≡ unregistered) }
    ensures waiter { IfOk result (λ form. waiter_policy_of form ≡ waiting) }
{
    Form::of_core(rt, alloc, core, room, unregistered, waiting)
}

/// A form, of which tests may see counts.
pub trait Counted {
    /// The permission to block.
    type Runtime: Wait + Drop;

    /// The core.
    type Core: Primitive;

    /// What a test may see of it.
    fn counts(&self) -> Counts<'_, Self::Runtime, Self::Core>;
}

impl<R: Wait + Drop, P: Primitive> Counted for Form<R, P> {
    type Runtime = R;

    type Core = P;

    fn counts(&self) -> Counts<'_, R, P>
        ensures { result.now ≡ self.now }
    {
        Counts::of(self)
    }
}

/// The slot in which a pager of a threaded form waits, or its answer stands. `None` where it is idle or was answered at once.
pub fn slot_of<S: SyncResult<Ticket>>(pager: &Pager<'_, S>) -> Option<u16>
    ensures { result ≡ slot_of pager.now }
{
    pager.registration().slot()
}

/// The mutex whose turns are those of a lock that is handed in, with another spin policy of its waiters, say.
pub fn mutex_on<R: Wait + Drop, T>(lock: Lock<R>, value: T) -> Mutex<R, T>
    ensures { result ≡ lock }
{
    Mutex::of_lock(lock, value)
}

/// The reader-writer lock whose turns are those of a lock that is handed in.
pub fn rwlock_on<R: Wait + Drop, T>(lock: Lock<R>, value: T) -> RwLock<R, T>
    ensures { result ≡ lock }
{
    RwLock::of_lock(lock, value)
}

/// What a test may see of the lock that the turns of a mutex are of.
pub fn counts_of_mutex<R: Wait + Drop, T>(mutex: &Mutex<R, T>) -> Counts<'_, R, LockCore>
    ensures { result.now ≡ mutex.now }
{
    Counts::of(lock_of(mutex))
}

/// What a test may see of the lock that the turns of a reader-writer lock are of.
pub fn counts_of_rwlock<R: Wait + Drop, T>(rwlock: &RwLock<R, T>) -> Counts<'_, R, LockCore>
    ensures { result.now ≡ rwlock.now }
{
    Counts::of(lock_of(rwlock))
}

/// Makes one step of the core under the mutex, and wakes none of the waiters that it answers: their wakes stay pending until the next call.
pub fn call_untold<R: Wait + Drop, P: Primitive, A, F: FnOnce(&mut P) -> A + Drop>(
    form: &Form<R, P>,
    step: F,
) -> A
    requires { F.IsAlwaysCallable step }
    ensures { (lent : _) × (left : _) × F.post step lent result left }
{
    let mut locked = form.lock();
    step(&mut locked.core)
}

/// Looks as a call does that found nothing at its first turn at the mutex, until its spins are over. `None`: it would register then.
pub fn look_on<R: Wait + Drop, P: Primitive>(form: &Form<R, P>, ask: P::Ask) -> Option<u8> {
    form.look_on(ask)
}

/// Has the form count one more call that looks, and never ends to. Who looks beside it isn't the first, so what was shown holds for it.
pub fn add_looker<R: Wait + Drop, P: Primitive>(form: &Form<R, P>) {
    form.add_looker();
}
