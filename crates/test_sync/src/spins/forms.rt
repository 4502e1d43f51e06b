//! The forms of a story of spins: its calls, each of which takes what it says and gives it back, and what is counted of them.

use crate::spins::stage::{Keep, spin};
use futures::executor::block_on;
use futures::test::MockTask;
use saa_core::Primitive;
use saa_core::barrier::BarrierCore;
use saa_core::gate::GateCore;
use saa_core::lock::LockCore;
use saa_core::semaphore::SemaphoreCore;
use saa_sync::barrier::Barrier;
use saa_sync::gate::Gate;
use saa_sync::lock::{Lock, Mode};
use saa_sync::lock_api::{Mutex, RwLock, RwLockWriteGuard};
use saa_sync::pager::Pager;
use saa_sync::semaphore::Semaphore;
use saa_sync::spin_policy::{NONE, SpinPolicy};
use saa_sync::testing::{
    Counted, Counts, call_untold, counts_of_mutex, counts_of_rwlock, form_of, mutex_on, rwlock_on,
};
use std::alloc::{AllocError, AllocGlobal, Global};
use std::random::RandomSource;
use std::sync::Wait;
use std::thread::{Threads, available_parallelism};
use std::time::{Clock, Duration, Instant};
use test_language::language::{Call, Time};

// How many can wait at a form.
const ROOM: u16 = 4;

// How many lengths of rest there are beside calls that are made often.
const RESTS: usize = 256;

fn policy(looks: u32, yields: u32) -> SpinPolicy {
    SpinPolicy { looks, yields }
}

// The spin policies of calls that aren't registered and of waiters. No test lasts as long as `u32::MAX` looks or yields.
fn policies(name: &str) -> (SpinPolicy, SpinPolicy) {
    match name {
        "few_none" => (policy(9, 4), NONE),
        "none_few" => (NONE, policy(9, 4)),
        "some_none" => (policy(20, 1), NONE),
        "looks_none" => (policy(u32::MAX, 4), NONE),
        "none_looks" => (NONE, policy(u32::MAX, 4)),
        "yields_none" => (policy(0, u32::MAX), NONE),
        _ => (NONE, NONE),
    }
}

/// The forms. A story is of one of them.
#[derive(Drop)]
pub(crate) struct Forms<'t, R: Wait + Drop> {
    name: &'t str,
    semaphore: Semaphore<R>,
    pub(crate) lock: Lock<R>,
    mutex: Mutex<R, u32>,
    rwlock: RwLock<R, u32>,
    gate: Gate<R>,
    barrier: Barrier<R>,
}

fn lock_of<R: Wait + Drop>(
    rt: R,
    alloc: Global,
    (calls, waiters): (SpinPolicy, SpinPolicy),
) -> Result<Lock<R>, AllocError> {
    form_of(rt, alloc, LockCore::new(alloc, ROOM)?, ROOM, calls, waiters)
}

/// The forms of a story that begins with this line.
pub(crate) fn forms_of<'t, R: Wait + Copy + Drop>(
    rt: R,
    alloc: Global,
    line: &Call<'t>,
) -> Result<Forms<'t, R>, AllocError> {
    let (calls, waiters) = policies(line.then().verb);
    let permits = SemaphoreCore::with_permits(alloc, 63, ROOM)?;
    let gate = GateCore::new(alloc, ROOM)?;
    let barrier = BarrierCore::with_count(alloc, 2, ROOM)?;
    Ok(Forms {
        name: line.verb,
        semaphore: form_of(rt, alloc, permits, ROOM, calls, waiters)?,
        lock: lock_of(rt, alloc, (calls, waiters))?,
        mutex: mutex_on(lock_of(rt, alloc, (calls, waiters))?, 5),
        rwlock: rwlock_on(lock_of(rt, alloc, (calls, waiters))?, 5),
        gate: form_of(rt, alloc, gate, ROOM, NONE, waiters)?,
        barrier: form_of(rt, alloc, barrier, ROOM, NONE, waiters)?,
    })
}

impl<'t, R: Wait + Drop> Forms<'t, R> {
    /// A count of the story's form; nothing where that word is no count.
    pub(crate) fn count(&self, what: &str) -> Option<u64> {
        match self.name {
            "semaphore" => count_of(self.semaphore.counts(), what),
            "lock" => count_of(self.lock.counts(), what),
            "mutex" => count_of(counts_of_mutex(&self.mutex), what),
            "rwlock" => count_of(counts_of_rwlock(&self.rwlock), what),
            "gate" => count_of(self.gate.counts(), what),
            _ => count_of(self.barrier.counts(), what),
        }
    }
}

// A count of a form. Only turns, parked waiters, and what waiters and calls that met at the mutex spent, are counted under the mutex.
fn count_of<R: Wait + Drop, P: Primitive>(counts: Counts<'_, R, P>, what: &str) -> Option<u64> {
    match what {
        "looked" => Some(counts.looked()),
        "spins" => Some(counts.rested().0),
        "yields" => Some(counts.rested().1),
        "lookers" => Some(counts.lookers()),
        "blocked" => Some(counts.blocked().0),
        "blocked_spins" => Some(counts.blocked().1),
        "blocked_yields" => Some(counts.blocked().2),
        "met" => Some(counts.contended().0),
        "waited" => Some(counts.spun().0),
        "waited_spins" => Some(counts.spun().1),
        "waited_yields" => Some(counts.spun().2),
        "turns" => Some(counts.turns()),
        "parked" => Some(counts.parked() as u64),
        _ => None,
    }
}

// How long a timed call waits: so long as its row says, or long.
fn long_of(call: &Call<'_>) -> Duration {
    match call.time {
        Time::Lasts(long) => long,
        _ => Duration::from_secs(1_000),
    }
}

/// Makes a call; whether it was granted, and gave back what it took.
pub(crate) fn call<H, R>(rt: &H, forms: &Forms<'_, R>, call: &Call<'_>, keep: Keep<'_>) -> bool
where
    H: Wait + Clock + RandomSource + AllocGlobal,
    R: Wait + Clock + Drop,
{
    match (forms.name, call.verb) {
        ("semaphore", _) => call_semaphore(rt, &forms.semaphore, call, keep),
        ("lock", _) => call_lock(rt, &forms.lock, call, keep),
        ("mutex", "lock") => kept(rt, forms.mutex.lock().ok(), keep),
        ("mutex", "lock_for") => kept(rt, in_time(forms.mutex.lock_for(long_of(call))), keep),
        ("mutex", _) => kept(rt, forms.mutex.try_lock(), keep),
        ("rwlock", _) => call_rwlock(rt, &forms.rwlock, call, keep),
        ("gate", "enter") => forms.gate.enter_sync().is_ok(),
        ("gate", _) => forms.gate.permit() == Ok(1),
        (_, "wait") => forms.barrier.wait_sync() == Ok(false),
        _ => forms.barrier.wait_sync() == Ok(true),
    }
}

// Keeps what was taken, if it was, and drops it.
fn kept<G: Drop>(rt: &impl Wait, guard: Option<G>, keep: Keep<'_>) -> bool {
    let is_granted = guard.is_some();
    if is_granted {
        keep.pass(rt);
    }
    is_granted
}

// What a timed call took, if it took something.
fn in_time<G: Drop, E: Drop>(answer: Result<Option<G>, E>) -> Option<G> {
    answer.ok()?
}

fn call_rwlock<R: Wait + Clock + Drop>(
    rt: &impl Wait,
    rwlock: &RwLock<R, u32>,
    call: &Call<'_>,
    keep: Keep<'_>,
) -> bool {
    match call.verb {
        "read" => kept(rt, rwlock.read().ok(), keep),
        "read_for" => kept(rt, in_time(rwlock.read_for(long_of(call))), keep),
        "write" => kept(rt, rwlock.write().ok(), keep),
        "try_read" => kept(rt, rwlock.try_read(), keep),
        "try_write" => kept(rt, rwlock.try_write(), keep),
        _ => kept(
            rt,
            rwlock.try_write().map(RwLockWriteGuard::downgrade),
            keep,
        ),
    }
}

fn call_semaphore<H, R>(rt: &H, semaphore: &Semaphore<R>, call: &Call<'_>, keep: Keep<'_>) -> bool
where
    H: Wait + RandomSource + AllocGlobal,
    R: Wait + Clock + Drop,
{
    let count = call.number().unwrap_or(1);
    let is_granted = match (call.verb, call.number()) {
        ("acquire_permit", _) => return kept(rt, semaphore.acquire_permit().ok(), keep),
        ("try_permit", _) => return kept(rt, semaphore.try_acquire_permit(), keep),
        ("acquire", None) => semaphore.acquire_sync() == Ok(()),
        ("acquire", _) => semaphore.acquire_many_sync(count) == Ok(true),
        ("acquire_with", None) => semaphore.acquire_sync_with(|| ()) == Ok(()),
        ("acquire_with", _) => semaphore.acquire_many_sync_with(count, || ()) == Ok(true),
        ("acquire_for", _) => semaphore.acquire_sync_for(long_of(call)) == Ok(Some(())),
        ("page_async", _) => page_async(rt, semaphore, count),
        ("try", None) => semaphore.try_acquire(),
        _ => semaphore.try_acquire_many(count),
    };
    if !is_granted {
        return false;
    }
    keep.pass(rt);
    semaphore.release_many(count)
}

// Waits for permits by a pager that a task polls; whether they were granted.
fn page_async<H: Wait + RandomSource + AllocGlobal, R: Wait + Drop>(
    rt: &H,
    semaphore: &Semaphore<R>,
    count: usize,
) -> bool {
    let mut pager = Pager::new();
    let has_joined = semaphore.register_pager(&mut pager, count, false) == Ok(true);
    has_joined && matches!(block_on(rt, pager.poll_async()), Ok(Ok(())))
}

fn call_lock<H, R>(rt: &H, lock: &Lock<R>, call: &Call<'_>, keep: Keep<'_>) -> bool
where
    H: Wait + Clock + RandomSource + AllocGlobal,
    R: Wait + Clock + Drop,
{
    let is_granted = match call.verb {
        "take" => return lock.try_lock() == Ok(()),
        "release_lock" => return lock.release_lock(),
        "release_share" => return lock.release_share(),
        "downgrade" => return lock.downgrade(),
        "poison_lock" => return lock.poison_lock(),
        "leave" => return leave(rt, lock, keep),
        "drop_future" => return drop_future(rt, lock, keep),
        "share" => lock.share_sync() == Ok(true),
        "share_with" => lock.share_sync_with(|| ()) == Ok(true),
        "try_share" => lock.try_share() == Ok(()),
        "lock" => lock.lock_sync() == Ok(true),
        "lock_with" => lock.lock_sync_with(|| ()) == Ok(true),
        "lock_for" => lock.lock_sync_for(long_of(call)) == Ok(Some(true)),
        "lock_until" => lock_until(rt, lock, long_of(call)),
        "try_lock" => lock.try_lock() == Ok(()),
        "lower" => lock.try_lock() == Ok(()) && lock.downgrade(),
        _ => page(lock, call),
    };
    if !is_granted {
        return false;
    }
    keep.pass(rt);
    if matches!(call.verb, "share" | "share_with" | "try_share" | "lower") {
        lock.release_share()
    } else {
        lock.release_lock()
    }
}

// Waits for the lock until so long from now; whether it was granted.
fn lock_until<R: Wait + Clock + Drop>(clock: &impl Clock, lock: &Lock<R>, long: Duration) -> bool {
    let Ok(now) = Instant::now(clock) else {
        return false;
    };
    match now.checked_add(long) {
        Some(end) => lock.lock_sync_until(end) == Ok(Some(true)),
        None => false,
    }
}

// Waits for the lock by a pager; whether it was granted.
fn page<R: Wait + Clock + Drop>(lock: &Lock<R>, call: &Call<'_>) -> bool {
    let mut pager = Pager::new();
    if lock.register_pager(&mut pager, Mode::Exclusive, true) != Ok(true) {
        return false;
    }
    match call.verb {
        "page" => pager.poll_sync() == Ok(true),
        "page_for" => pager.poll_sync_for(long_of(call)) == Some(Ok(true)),
        _ => false,
    }
}

// Waits for the lock by a pager, which is cancelled; whether it joined the queue.
fn leave<R: Wait + Drop>(rt: &impl Wait, lock: &Lock<R>, keep: Keep<'_>) -> bool {
    let mut pager = Pager::new();
    let has_joined = lock.register_pager(&mut pager, Mode::Exclusive, true) == Ok(true);
    keep.pass(rt);
    pager.cancel();
    has_joined
}

// Waits for the lock by a future, which is dropped; whether it joined the queue.
fn drop_future<H: Wait + RandomSource + AllocGlobal, R: Wait + Drop>(
    rt: &H,
    lock: &Lock<R>,
    keep: Keep<'_>,
) -> bool {
    let Ok(task) = MockTask::new(rt) else {
        return false;
    };
    let mut future = lock.lock_async();
    let has_joined = task.poll(&mut future).is_pending();
    keep.pass(rt);
    drop(future);
    has_joined
}

/// Makes a call so often, with rests of many lengths while it has what it took, and after that; how often it was granted.
///
/// An answer falls anywhere beside the wait for it, so a wake that can be lost there is lost.
pub(crate) fn often<H, R>(rt: &H, forms: &Forms<'_, R>, often: &Call<'_>) -> usize
where
    H: Wait + Clock + RandomSource + AllocGlobal,
    R: Wait + Clock + Drop,
{
    let mut granted = 0usize;
    for round in 0..often.number().unwrap_or(0) {
        let hints = round.saturating_mul(7) % RESTS;
        let is_granted = call(rt, forms, &often.then(), Keep::Spins(hints));
        granted = granted.saturating_add(usize::from(is_granted));
        spin(round.saturating_mul(13) % RESTS);
    }
    granted
}

// How often a thread takes turns at the mutex at most, and after how many it looks whether one was had at a later try.
const ROUNDS: u32 = 10_000_000;

const MEETINGS: u32 = 100;

/// Takes turns at the lock's mutex until a call has had that at a later try; whether one has, or there is one processor, on which threads can't meet.
pub(crate) fn meets<R: Wait + Drop>(rt: &impl Threads, forms: &Forms<'_, R>) -> bool {
    for round in 0..ROUNDS {
        call_untold(&forms.lock, |_core| ());
        if round.is_multiple_of(MEETINGS) && forms.count("met") != Some(0) {
            return true;
        }
    }
    matches!(available_parallelism(rt), Ok(processors) if processors.get() == 1)
}
