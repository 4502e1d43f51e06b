//! Guards of the word's lock: what they show and write, whom they keep out, and that a call for one waits in the queue. The stories are those of the
//! reader-writer lock: a mutex takes its turns by the same calls as a writer.
//!
//! That a guard is made only where its turn was granted, and that its drop makes the release, is proved (`saa_word_forms`).

use crate::scene::{At, Caller};
use saa_word_forms::Guard;
use saa_word_forms::mutex::{Mutex, MutexWorker};
use saa_word_forms::rw_lock::{RwLock, RwLockWorker, RwLockWriteGuard};
use saa_word_threads::lock::Lock;
use std::alloc::{AllocError, AllocGlobal, Global};
use std::sync::Wait;
use test_asserts::same;
use test_language::language::Call;
use test_language::reply::{Reply, ReplyWord, number, unknown, word};

// What a call writes into a value that is this.
fn written(call: &Call<'_>, value: u64) -> u64 {
    call.number().map_or(value, |number| number as u64)
}

// Takes the lock to write, and keeps it; or only to read, once it has written.
fn keep_written<R: Wait>(
    worker: &mut RwLockWorker<'_, u64>,
    at: &At<'_, R, Lock>,
    call: &Call<'_>,
) -> Reply {
    let mut writer = worker.write(at.scene.rt);
    let found = *writer;
    *writer = written(call, found);
    if call.verb == "keep_lowered" {
        let reader = RwLockWriteGuard::downgrade(writer);
        at.scene.hold(at.place);
        at.scene.inside.check(*reader == written(call, found));
    } else {
        at.scene.hold(at.place);
        drop(writer);
    }
    number(found as usize)
}

impl<R: Wait> Caller<R, Lock> for RwLockWorker<'_, u64> {
    fn make(&mut self, at: &At<'_, R, Lock>, call: &Call<'_>) -> Reply {
        let rt = at.scene.rt;
        match call.verb {
            "keep_write" | "keep_lowered" => keep_written(self, at, call),
            "keep_read" => {
                let reader = self.read(rt);
                at.scene.hold(at.place);
                number(*reader as usize)
            }
            "read" => number(*self.read(rt) as usize),
            "try_read" => match self.try_read(rt) {
                Some(reader) => number(*reader as usize),
                None => word(ReplyWord::None),
            },
            "try_write" => match self.try_write(rt) {
                Some(writer) => number(*writer as usize),
                None => word(ReplyWord::None),
            },
            _ => unknown(),
        }
    }

    fn leave(self, rt: &R) {
        let _left = RwLockWorker::leave(self, rt);
    }
}

// The first worker of a mutex writes 6: whether the second is refused beside it, and not after.
fn write_beside<R: Wait>(
    rt: &R,
    mut first: MutexWorker<'_, u64>,
    mut second: MutexWorker<'_, u64>,
) -> [bool; 2] {
    let mut guard = first.lock(rt);
    *guard = 6;
    let is_refused = second.try_lock(rt).is_none();
    Guard::unlock_fair(guard);
    [is_refused, second.try_lock(rt).is_some()]
}

// The same at a new mutex, and its value and its main word in the end.
fn at_mutex<R: Wait + AllocGlobal>(rt: &R) -> Result<([bool; 2], [u64; 2]), AllocError> {
    let (mutex, mut places) = Mutex::new(rt.alloc(), 5u64, 3)?;
    let (Some(witness), Some(second), Some(first)) = (places.pop(), places.pop(), places.pop())
    else {
        unreachable!()
    };
    let answers = write_beside(rt, mutex.worker(first), mutex.worker(second));
    let left = mutex.worker(witness).leave(rt);
    let (value, words) = mutex.close(left);
    Ok((answers, [value, words.main()]))
}

// What is behind a mutex and a reader-writer lock that no guard holds, once it was written.
fn unowned(alloc: Global) -> Result<[u64; 2], AllocError> {
    let (mut mutex, _places) = Mutex::new(alloc, 8u64, 0)?;
    *mutex.get_mut() = 9;
    let (mut rwlock, _places) = RwLock::new(alloc, 8u64, 0)?;
    *rwlock.get_mut() = 9;
    Ok([mutex.into_inner(), rwlock.into_inner()])
}

#[test]
fn a_value_is_written_by_one_at_a_time(rt: HostRuntime) {
    same!(rt; at_mutex(&rt).ok(), Some(([true, true], [6, 0])));
    same!(rt; unowned(rt.alloc()).ok(), Some([9, 9]));
}
