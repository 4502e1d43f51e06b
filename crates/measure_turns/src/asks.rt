//! What tasks ask for by futures: a permit, a mutex, or a reader-writer lock.

use futures::Future;
use saa_core_guards::future::{
    MutexFuture, ReadFuture, WriteFuture, lock_async, read_async, write_async,
};
use saa_core_guards::mutex::{Mutex, MutexGuard};
use saa_core_guards::permit::PermitFrom;
use saa_core_guards::permit_future::PermitsFuture;
use saa_core_guards::raw_lock::RawLockAsync;
use saa_core_guards::raw_semaphore::{RawSemaphore, RawSemaphoreAsync};
use saa_core_guards::rw_lock::{RwLock, RwLockReadGuard, RwLockWriteGuard};
use saa_core_spec::request::Full;
use saa_core_waits::AcquireError;
use std::alloc::AllocError;
use tokio::sync::{
    Acquire, AcquireError as TokioAcquireError, Lock, Mutex as TokioMutex,
    MutexGuard as TokioMutexGuard, Read, RwLock as TokioRwLock, RwLockReadGuard as TokioReadGuard,
    RwLockWriteGuard as TokioWriteGuard, Semaphore as TokioSemaphore, SemaphorePermit, Write,
};

/// Something that tasks ask for: a reference to a primitive.
pub trait Asks: Drop {
    /// The future of what is asked for. It asks at its first poll.
    type Asked: Future<Output = Self::Granted>;

    /// What gives it back once it is dropped.
    type Granted: Drop;

    /// Asks for it.
    fn ask(&self) -> Self::Asked
        ensures { Self.Asked.can_poll result };
}

/// Permits of a semaphore of ours, one at a time.
#[derive_where(Clone, Copy)]
pub struct PermitsOf<'s, S>(pub &'s S);

/// A reader-writer lock, to read.
#[derive_where(Clone, Copy)]
pub struct Reads<'l, T>(pub &'l T);

/// A reader-writer lock, to write.
#[derive_where(Clone, Copy)]
pub struct Writes<'l, T>(pub &'l T);

impl<'s, S: RawSemaphore<Error = AcquireError> + RawSemaphoreAsync> Asks for PermitsOf<'s, S> {
    type Asked = PermitsFuture<'s, S>;

    type Granted = Result<Option<PermitFrom<&'s S>>, AcquireError>;

    fn ask(&self) -> PermitsFuture<'s, S> {
        PermitsFuture::new(self.0, 1)
    }
}

impl<'s> Asks for &'s TokioSemaphore {
    type Asked = Acquire<'s>;

    type Granted = Result<SemaphorePermit<'s>, TokioAcquireError>;

    fn ask(&self) -> Acquire<'s> {
        (*self).acquire()
    }
}

impl<'m, L: RawLockAsync + Drop> Asks for &'m Mutex<L, u64> {
    type Asked = MutexFuture<'m, L, u64>;

    type Granted = Result<MutexGuard<'m, L, u64>, Full>;

    fn ask(&self) -> MutexFuture<'m, L, u64> {
        lock_async(*self)
    }
}

impl<'m> Asks for &'m TokioMutex<u64> {
    type Asked = Lock<'m, u64>;

    type Granted = Result<TokioMutexGuard<'m, u64>, AllocError>;

    fn ask(&self) -> Lock<'m, u64> {
        (*self).lock()
    }
}

impl<'l, L: RawLockAsync + Drop> Asks for Reads<'l, RwLock<L, u64>> {
    type Asked = ReadFuture<'l, L, u64>;

    type Granted = Result<RwLockReadGuard<'l, L, u64>, Full>;

    fn ask(&self) -> ReadFuture<'l, L, u64> {
        read_async(self.0)
    }
}

impl<'l> Asks for Reads<'l, TokioRwLock<u64>> {
    type Asked = Read<'l, u64>;

    type Granted = Result<TokioReadGuard<'l, u64>, AllocError>;

    fn ask(&self) -> Read<'l, u64> {
        self.0.read()
    }
}

impl<'l, L: RawLockAsync + Drop> Asks for Writes<'l, RwLock<L, u64>> {
    type Asked = WriteFuture<'l, L, u64>;

    type Granted = Result<RwLockWriteGuard<'l, L, u64>, Full>;

    fn ask(&self) -> WriteFuture<'l, L, u64> {
        write_async(self.0)
    }
}

impl<'l> Asks for Writes<'l, TokioRwLock<u64>> {
    type Asked = Write<'l, u64>;

    type Granted = Result<TokioWriteGuard<'l, u64>, AllocError>;

    fn ask(&self) -> Write<'l, u64> {
        self.0.write()
    }
}
