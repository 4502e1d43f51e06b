//! Every ordering on every call that only reads, of every form, in every state that the call tells apart: the answer is that of `SeqCst`.

use saa_sync::barrier::Barrier;
use saa_sync::gate::Gate;
use saa_sync::lock::Lock;
use saa_sync::semaphore::Semaphore;
use std::sync::Wait;
use std::sync::atomic::Ordering::{self, AcqRel, Acquire, Relaxed, Release, SeqCst};
use std::test::Fail;
use test_asserts::{holds, same};

// Whether a reading is the same in every ordering.
fn is_alike<A: PartialEq + Drop, F: Fn(Ordering) -> A>(read: &F) -> bool
    requires { F.IsAlwaysCallable read.now }
{
    let wanted = read(SeqCst);
    for mo in [Relaxed, Acquire, Release, AcqRel] {
        if read(mo) != wanted {
            return false;
        }
    }
    true
}

fn lock_is_alike<R: Wait + Drop>(lock: &Lock<R>) -> bool {
    is_alike(&|mo| {
        [
            lock.is_free(mo),
            lock.is_locked(mo),
            lock.is_shared(mo),
            lock.is_poisoned(mo),
        ]
    })
}

// A lock that is free, owned, shared, and poisoned.
#[test]
fn a_lock_reads_alike_in_every_ordering(rt: HostRuntime) -> Result<(), Fail> {
    let lock = Lock::new(&rt, rt.alloc(), 0)?;
    holds!(rt; lock_is_alike(&lock) && lock.try_lock() == Ok(()));
    holds!(rt; lock_is_alike(&lock) && lock.downgrade());
    holds!(rt; lock_is_alike(&lock) && lock.release_share());
    holds!(rt; lock.try_lock() == Ok(()) && lock.poison_lock());
    holds!(rt; lock_is_alike(&lock));
    Ok(())
}

// A semaphore with two permits, with one, and with none.
#[test]
fn a_semaphore_reads_alike_in_every_ordering(rt: HostRuntime) -> Result<(), Fail> {
    let semaphore = Semaphore::with_permits(&rt, rt.alloc(), 2, 0)?;
    for _taken in 0..3 {
        holds!(rt; is_alike(&|mo| (semaphore.available_permits(mo), semaphore.is_open(mo), semaphore.is_closed(mo))));
        semaphore.try_acquire();
    }
    Ok(())
}

// A gate that is controlled, sealed, and open.
#[test]
fn a_gate_reads_alike_in_every_ordering(rt: HostRuntime) -> Result<(), Fail> {
    let gate = Gate::new(&rt, rt.alloc(), 0)?;
    let controlled = is_alike(&|mo| gate.state(mo));
    gate.seal();
    let sealed = is_alike(&|mo| gate.state(mo));
    gate.open();
    same!(rt; [controlled, sealed, is_alike(&|mo| gate.state(mo))], [true; 3]);
    Ok(())
}

// A barrier for none, for some, and for more than there may be.
#[test]
fn a_barrier_reads_alike_in_every_ordering(rt: HostRuntime) -> Result<(), Fail> {
    for size in [0, 1, 2, 63, 64, usize::MAX] {
        let barrier = Barrier::with_count(&rt, rt.alloc(), size, 0)?;
        holds!(rt; is_alike(&|mo| (barrier.count(mo), barrier.round(mo))));
        same!(rt; barrier.count(SeqCst), size.min(63));
    }
    same!(rt; (Lock::<&HostRuntime>::MAX_SHARED_OWNERS, Barrier::<&HostRuntime>::MAX_TASKS), (62, 63));
    Ok(())
}
