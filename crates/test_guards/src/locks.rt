//! A mutex and a reader-writer lock round a number each, and every call for a guard of theirs, over any lock: the threaded one, or the lock-free one.

use futures::task::Poll;
use futures::test::MockTask;
use saa_core::ticket::Full;
use saa_core_guards::Guard;
use saa_core_guards::future::{
    MutexFuture, ReadFuture, WriteFuture, lock_async, read_async, write_async,
};
use saa_core_guards::guarded::Guarded;
use saa_core_guards::mutex::{Mutex, MutexGuard};
use saa_core_guards::raw_lock::{MadeWith, RawLockAsync, RawLockUntil};
use saa_core_guards::rw_lock::{RwLock, RwLockReadGuard, RwLockWriteGuard};
use std::alloc::{AllocError, AllocGlobal};
use std::time::{Duration, Instant};
use test_language::reply::ReplyWord;

// Which guard is asked for.
#[derive(Clone, Copy)]
pub(crate) enum Way {
    Lock,
    Read,
    Write,
}

// By which call.
#[derive(Clone, Copy)]
pub(crate) enum How {
    Wait,
    Try,
    For(Duration),
    Until(Instant),
}

// A guard, or the word for why there is none.
pub(crate) type Given<G> = Result<G, ReplyWord>;

fn full(_full: Full) -> ReplyWord {
    ReplyWord::Full
}

// What a call of one of these names gives.
macro_rules! given {
    ($lock:expr, $how:expr, $wait:ident, $try:ident, $for:ident, $until:ident) => {
        match $how {
            How::Wait => $lock.$wait().map_err(full),
            How::Try => $lock.$try().ok_or(ReplyWord::None),
            How::For(long) => $lock.$for(long).map_err(full)?.ok_or(ReplyWord::None),
            How::Until(end) => $lock.$until(end).map_err(full)?.ok_or(ReplyWord::None),
        }
    };
}

// A mutex and a reader-writer lock.
#[derive(Drop)]
pub(crate) struct Locks<L: RawLockAsync + RawLockUntil + Drop> {
    pub(crate) mutex: Mutex<L, usize>,
    pub(crate) rwlock: RwLock<L, usize>,
}

impl<L: RawLockAsync + RawLockUntil + Drop> Locks<L> {
    // Both locks round this number, with room for so many waiters each.
    pub(crate) fn new<'h, H: AllocGlobal>(
        rt: &'h H,
        number: usize,
        room: u16,
    ) -> Result<Self, AllocError>
    where
        L: MadeWith<&'h H>,
    {
        Ok(Locks {
            mutex: Guarded::new(rt, rt.alloc(), number, room)?,
            rwlock: Guarded::new(rt, rt.alloc(), number, room)?,
        })
    }

    // The guard, by this call.
    pub(crate) fn acquire(&self, way: Way, how: How) -> Given<Held<'_, L>> {
        Ok(match way {
            Way::Lock => Held::Mutex(self.lock(how)?),
            Way::Read => Held::Reader(self.read(how)?),
            Way::Write => Held::Writer(self.write(how)?),
        })
    }

    fn lock(&self, how: How) -> Given<MutexGuard<'_, L, usize>> {
        given!(self.mutex, how, lock, try_lock, lock_for, lock_until)
    }

    fn read(&self, how: How) -> Given<RwLockReadGuard<'_, L, usize>> {
        given!(self.rwlock, how, read, try_read, read_for, read_until)
    }

    fn write(&self, how: How) -> Given<RwLockWriteGuard<'_, L, usize>> {
        given!(self.rwlock, how, write, try_write, write_for, write_until)
    }

    // The future of the guard.
    pub(crate) fn future(&self, way: Way) -> Pending<'_, L> {
        match way {
            Way::Lock => Pending::Mutex(lock_async(&self.mutex)),
            Way::Read => Pending::Reader(read_async(&self.rwlock)),
            Way::Write => Pending::Writer(write_async(&self.rwlock)),
        }
    }
}

// A guard of either lock.
#[derive(Drop)]
pub(crate) enum Held<'s, L: RawLockAsync + RawLockUntil + Drop> {
    Mutex(MutexGuard<'s, L, usize>),
    Reader(RwLockReadGuard<'s, L, usize>),
    Writer(RwLockWriteGuard<'s, L, usize>),
}

impl<'s, L: RawLockAsync + RawLockUntil + Drop> Held<'s, L> {
    // The number that it shows.
    pub(crate) fn shown(&self) -> usize {
        match self {
            Held::Mutex(guard) => **guard,
            Held::Reader(guard) => **guard,
            Held::Writer(guard) => **guard,
        }
    }

    // Writes this number; whether it may.
    pub(crate) fn put(&mut self, number: usize) -> bool {
        match self {
            Held::Mutex(guard) => **guard = number,
            Held::Reader(_) => return false,
            Held::Writer(guard) => **guard = number,
        }
        true
    }

    // The reader's guard that a writer's one becomes.
    pub(crate) fn lowered(self) -> Option<Held<'s, L>> {
        match self {
            Held::Writer(guard) => Some(Held::Reader(RwLockWriteGuard::downgrade(guard))),
            _ => None,
        }
    }

    // Gives the guard up by the call for that.
    pub(crate) fn unlock_fair(self) {
        match self {
            Held::Mutex(guard) => Guard::unlock_fair(guard),
            Held::Reader(guard) => Guard::unlock_fair(guard),
            Held::Writer(guard) => Guard::unlock_fair(guard),
        }
    }
}

// A future of a guard.
#[derive(Drop)]
pub(crate) enum Pending<'s, L: RawLockAsync + RawLockUntil + Drop> {
    Mutex(MutexFuture<'s, L, usize>),
    Reader(ReadFuture<'s, L, usize>),
    Writer(WriteFuture<'s, L, usize>),
}

impl<'s, L: RawLockAsync + RawLockUntil + Drop> Pending<'s, L> {
    // The guard, by a poll of this task.
    pub(crate) fn poll(&mut self, task: &MockTask) -> Given<Held<'s, L>> {
        Ok(match self {
            Pending::Mutex(future) => Held::Mutex(ready(task.poll(future))?),
            Pending::Reader(future) => Held::Reader(ready(task.poll(future))?),
            Pending::Writer(future) => Held::Writer(ready(task.poll(future))?),
        })
    }
}

// What a poll gave, if it was ready.
fn ready<G>(polled: Poll<Result<G, Full>>) -> Given<G> {
    match polled {
        Poll::Ready(answer) => answer.map_err(full),
        Poll::Pending => Err(ReplyWord::Pending),
    }
}
