//! A call at a lock-free form that is granted while its place looks hasn't joined the queue, so its callback doesn't run.

use saa_core_waits::Pager;
use saa_core_waits::spin_policy::SpinPolicy;
use saa_word_lock_free::Full;
use saa_word_lock_free::semaphore::Semaphore;
use std::sync::Wait;
use std::sync::atomic::AtomicU64;
use std::sync::atomic::Ordering::SeqCst;
use std::test::Fail;
use std::thread::{self, yield_now};
use test_asserts::same;

// A place looks for longer than any test lasts.
const ENDLESS: SpinPolicy = SpinPolicy {
    looks: u32::MAX,
    yields: 0,
};

// Takes a permit by a call with a callback, and calls again where the other thread had the only place; how often callbacks ran.
fn take<R: Wait + Drop>(rt: &impl Wait, semaphore: &Semaphore<R>) -> u64 {
    let runs = AtomicU64::new(0);
    for _turn in rt.forever() {
        let count = || {
            runs.fetch_add(1, SeqCst);
        };
        if semaphore.acquire_sync_with(count) == Ok(()) {
            break;
        }
        yield_now();
    }
    runs.load(SeqCst)
}

// Gives a permit back once the only place is out, at which the other thread's call looks; whether it is given back.
fn give<R: Wait + Drop>(rt: &impl Wait, semaphore: &Semaphore<R>) -> bool {
    for _turn in rt.forever() {
        let mut pager = Pager::new();
        if semaphore.register_pager(&mut pager, 1, true) == Err(Full) {
            break;
        }
        yield_now();
    }
    semaphore.release()
}

#[test]
fn no_callback_runs_where_a_call_is_granted_while_it_looks(rt: HostRuntime) -> Result<(), Fail> {
    let semaphore = Semaphore::with_spin_policy(&rt, rt.alloc(), 0, 1, ENDLESS)?;
    let both = thread::join(&rt, || take(&rt, &semaphore), || give(&rt, &semaphore));
    same!(rt; both, (0, true));
    same!(rt; semaphore.available_permits(SeqCst), 0);
    Ok(())
}
