//! The loads that are timed, and how long each takes.
//!
//! Each measurement makes what it times anew, before it looks at the clock.

use crate::alone::{Asked, By, Form, alone_nanos};
use crate::cores::core_timed;
use crate::lines::{Action, core_line_nanos, task_nanos};
use crate::listed::ListedSemaphore;
use crate::lock_free_lines::lock_free_task_nanos;
use crate::rounds::{Rounds, passings_nanos};
use crate::times::{Case, Figure, PASSES, Timed, figure_of};
use crate::turns::{Counter, TwoTurns, turns_nanos};
use crate::words::words_nanos;
use saa_core::semaphore::SemaphoreCore;
use saa_sync::barrier::Barrier;
use saa_sync::gate::Gate;
use saa_sync::lock::Lock;
use saa_sync::lock_api;
use saa_sync::semaphore::Semaphore;
use saa_word_lock_free::lock::Lock as LockFreeLock;
use saa_word_lock_free::lock_api::Mutex as LockFreeMutex;
use saa_word_lock_free::semaphore::Semaphore as LockFreeSemaphore;
use std::alloc::{AllocGlobal, Global};
use std::random::RandomSource;
use std::sync::{Mutex, RwLock, Wait};
use std::thread::Threads;
use std::time::Clock;

// The room of what is measured: no less than there are threads that wait.
const ROOM: u16 = 32;

// The room of the lines of cores.
const CORE_ROOM: u16 = 64;

// How many wait in the shortest line.
const SHORTEST: u64 = 64;

/// What is timed. Those of std are plain ones, under its `Mutex`, `Condvar` or `RwLock`.
#[derive(Clone, Copy)]
pub enum Load {
    /// Turns at a semaphore, at a plain counter, at the word's semaphore, and at the lock-free one.
    Semaphore,
    Counter,
    Word,
    LockFreeSemaphore,
    /// Two bare turns at a `Mutex`.
    TwoTurns,
    /// Turns at a lock, of which three of four share it, or none.
    Lock,
    LockShared,
    StdLock,
    StdLockShared,
    LockFreeLock,
    LockFreeLockShared,
    LockFreeMutex,
    /// Turns at a number behind a lock: all alone, or three of four that read.
    Mutex,
    StdMutex,
    RwLock,
    StdRwLock,
    /// Arrivals at a barrier.
    Barrier,
    StdBarrier,
    /// A gate that lets so many pass, until all have.
    Gate,
    StdGate,
    /// Turns as futures.
    Future,
    /// Calls of one thread that needn't wait, each with its release.
    Alone(Form, Asked, By),
    /// What happens in a line at a core, in one that threads share, and in the shortest of each.
    CoreLine(Action),
    ShortCoreLine(Action),
    SharedLine(Action),
    ShortSharedLine(Action),
    /// The same in the line of a lock-free semaphore.
    LockFreeLine(Action),
    /// Turns at a core of links or of a list, in each of which one waits, or none.
    Linked { waits: bool },
    Listed { waits: bool },
}

/// What two loads cost that are measured in turn, and what the last turn of each took or asked for.
#[derive(Clone, Copy)]
pub struct Compared {
    /// The figures of the first and of the second.
    pub figures: [Figure; 2],
    /// Their last turns.
    pub last: [usize; 2],
}

/// Measures two in turn, several times; `None` where memory, a thread or the clock was refused.
pub fn beside<R: Clock + RandomSource + AllocGlobal + Threads + Wait + Sync>(
    rt: &R,
    alloc: Global,
    ours: Load,
    theirs: Load,
    case: Case,
) -> Option<Compared> {
    let (mut first, mut second) = ([0; PASSES], [0; PASSES]);
    let mut last = [0; 2];
    for pass in 0..PASSES {
        let (one, other) = (
            measured(rt, alloc, ours, case)?,
            measured(rt, alloc, theirs, case)?,
        );
        first[pass] = one.nanos;
        second[pass] = other.nanos;
        last = [one.last, other.last];
    }
    let is_best = case.count == 1;
    Some(Compared {
        figures: [figure_of(first, is_best), figure_of(second, is_best)],
        last,
    })
}

// How long a load takes; `None` where memory, a thread or the clock was refused.
fn measured<R: Clock + RandomSource + AllocGlobal + Threads + Wait + Sync>(
    rt: &R,
    alloc: Global,
    load: Load,
    case: Case,
) -> Option<Timed> {
    match load {
        Load::Linked { waits } => linked(rt, alloc, case, waits),
        Load::Listed { waits } => listed(rt, alloc, case, waits),
        _ => {
            let nanos = nanos(rt, alloc, load, case)?;
            Some(Timed { nanos, last: 0 })
        }
    }
}

fn linked<R: Clock>(rt: &R, alloc: Global, case: Case, waits: bool) -> Option<Timed> {
    let mut core = SemaphoreCore::new(alloc, CORE_ROOM).ok()?;
    core_timed(rt, &mut core, case, waits)
}

fn listed<R: Clock>(rt: &R, alloc: Global, case: Case, waits: bool) -> Option<Timed> {
    let mut core = ListedSemaphore::new(alloc, CORE_ROOM).ok()?;
    core_timed(rt, &mut core, case, waits)
}

// How long a load takes that isn't at a core alone, in nanoseconds.
fn nanos<R: Clock + RandomSource + AllocGlobal + Threads + Wait + Sync>(
    rt: &R,
    alloc: Global,
    load: Load,
    case: Case,
) -> Option<u64> {
    let short = Case {
        count: SHORTEST,
        ..case
    };
    match load {
        Load::Future => task_nanos(rt, alloc, None, case),
        Load::SharedLine(action) => task_nanos(rt, alloc, Some(action), case),
        Load::ShortSharedLine(action) => task_nanos(rt, alloc, Some(action), short),
        Load::LockFreeLine(action) => lock_free_task_nanos(rt, alloc, action, case),
        Load::Alone(form, asked, by) => alone_nanos(rt, alloc, form, asked, by, case),
        Load::CoreLine(action) => core_line_nanos(rt, alloc, action, case),
        Load::ShortCoreLine(action) => core_line_nanos(rt, alloc, action, short),
        _ => threads_nanos(rt, alloc, load, case),
    }
}

// How long a load of threads takes, in nanoseconds.
fn threads_nanos<R: Clock + Threads + Wait + Sync>(
    rt: &R,
    alloc: Global,
    load: Load,
    case: Case,
) -> Option<u64> {
    match load {
        Load::Semaphore => semaphore(rt, alloc, case),
        Load::Counter => turns_nanos(rt, &Counter::new(), case, false),
        Load::Word => words_nanos(rt, alloc, case),
        Load::LockFreeSemaphore => lock_free_semaphore(rt, alloc, case),
        Load::TwoTurns => turns_nanos(rt, &TwoTurns::new(), case, false),
        Load::Lock => lock(rt, alloc, case, false),
        Load::LockShared => lock(rt, alloc, case, true),
        Load::LockFreeLock => lock_free_lock(rt, alloc, case, false),
        Load::LockFreeLockShared => lock_free_lock(rt, alloc, case, true),
        Load::LockFreeMutex => lock_free_mutex(rt, alloc, case),
        Load::StdLock => turns_nanos(rt, &RwLock::new(()), case, false),
        Load::StdLockShared => turns_nanos(rt, &RwLock::new(()), case, true),
        Load::Mutex => mutex(rt, alloc, case),
        Load::StdMutex => turns_nanos(rt, &Mutex::new(0u64), case, false),
        Load::RwLock => rwlock(rt, alloc, case),
        Load::StdRwLock => turns_nanos(rt, &RwLock::new(0u64), case, true),
        Load::Barrier => barrier(rt, alloc, case),
        Load::StdBarrier => turns_nanos(rt, &Rounds::new(size_of(case)), case, false),
        Load::Gate => gate(rt, alloc, case),
        Load::StdGate => passings_nanos(rt, &Rounds::new(usize::MAX), case),
        _ => None,
    }
}

fn semaphore<R: Clock + Threads + Wait + Sync>(rt: &R, alloc: Global, case: Case) -> Option<u64> {
    let semaphore = Semaphore::new(rt, alloc, ROOM).ok()?;
    turns_nanos(rt, &semaphore, case, false)
}

fn lock<R: Clock + Threads + Wait + Sync>(
    rt: &R,
    alloc: Global,
    case: Case,
    is_mostly_shared: bool,
) -> Option<u64> {
    let lock = Lock::new(rt, alloc, ROOM).ok()?;
    turns_nanos(rt, &lock, case, is_mostly_shared)
}

fn lock_free_semaphore<R: Clock + Threads + Wait + Sync>(
    rt: &R,
    alloc: Global,
    case: Case,
) -> Option<u64> {
    let semaphore = LockFreeSemaphore::new(rt, alloc, ROOM).ok()?;
    turns_nanos(rt, &semaphore, case, false)
}

fn lock_free_lock<R: Clock + Threads + Wait + Sync>(
    rt: &R,
    alloc: Global,
    case: Case,
    is_mostly_shared: bool,
) -> Option<u64> {
    let lock = LockFreeLock::new(rt, alloc, ROOM).ok()?;
    turns_nanos(rt, &lock, case, is_mostly_shared)
}

fn lock_free_mutex<R: Clock + Threads + Wait + Sync>(
    rt: &R,
    alloc: Global,
    case: Case,
) -> Option<u64> {
    let mutex = LockFreeMutex::new(rt, alloc, 0u64, ROOM).ok()?;
    turns_nanos(rt, &mutex, case, false)
}

fn mutex<R: Clock + Threads + Wait + Sync>(rt: &R, alloc: Global, case: Case) -> Option<u64> {
    let mutex = lock_api::Mutex::new(rt, alloc, 0u64, ROOM).ok()?;
    turns_nanos(rt, &mutex, case, false)
}

fn rwlock<R: Clock + Threads + Wait + Sync>(rt: &R, alloc: Global, case: Case) -> Option<u64> {
    let rwlock = lock_api::RwLock::new(rt, alloc, 0u64, ROOM).ok()?;
    turns_nanos(rt, &rwlock, case, true)
}

fn barrier<R: Clock + Threads + Wait + Sync>(rt: &R, alloc: Global, case: Case) -> Option<u64> {
    let barrier = Barrier::with_count(rt, alloc, size_of(case), ROOM).ok()?;
    turns_nanos(rt, &barrier, case, false)
}

fn gate<R: Clock + Threads + Wait + Sync>(rt: &R, alloc: Global, case: Case) -> Option<u64> {
    let gate = Gate::new(rt, alloc, ROOM).ok()?;
    passings_nanos(rt, &gate, case)
}

// How many tasks a barrier is for.
fn size_of(case: Case) -> usize {
    usize::from(u16::try_from(case.count).unwrap_or(1))
}
