//! The workshop: a few desks for hundreds of tasks, the book that they write in, and the threads that poll them.

use crate::crew::{self, Foreman};
use crate::task::{Task, task};
use futures::executor::TaskSet;
use saa_sync::gate::Gate;
use saa_sync::{Semaphore, SemaphoreOf};
use saa_word_lock_free::Mutex;
use std::alloc::{AllocError, AllocGlobal, Global};
use std::io;
use std::random::RandomSource;
use std::sync::Wait;
use std::sync::atomic::Ordering;
use std::thread::{self, Threads};
use std::time::{Clock, Duration};

/// How many tasks there are, and how many desks.
pub const TASKS: u16 = 400;

pub const DESKS: usize = 3;

// Each task whose number is a multiple of this is in a hurry; so many are.
const HURRY: u16 = 10;

const HURRIED: usize = 40;

// How long a task in a hurry waits at least, in milliseconds.
const PATIENCE: u64 = 5;

/// What the tasks wrote: how many did, and the sum of their numbers.
#[derive(Clone, Copy, Default, Drop, PartialEq)]
pub struct Book {
    pub entries: u64,
    pub sum: u64,
}

impl Book {
    /// The entry of the task of this number.
    pub fn enter(&mut self, number: u64) {
        self.entries = self.entries.saturating_add(1);
        self.sum = self.sum.saturating_add(number);
    }
}

/// What is told in the end.
#[derive(Clone, Copy, PartialEq)]
pub struct Told {
    pub book: Book,
    pub gave_up: usize,
    pub free_desks: usize,
}

impl Told {
    /// What must be told: those in a hurry gave up, and all others wrote.
    pub fn expected() -> Self {
        let mut book = Book::default();
        for number in 0..TASKS {
            if !number.is_multiple_of(HURRY) {
                book.enter(u64::from(number));
            }
        }
        Told {
            book,
            gave_up: HURRIED,
            free_desks: DESKS,
        }
    }
}

/// What the tasks share.
#[derive(Drop)]
pub struct Workshop<R: Wait + Drop> {
    pub start: Gate<R>,
    pub desks: SemaphoreOf<R, DESKS>,
    pub book: Mutex<R, Book>,
    /// A permit for each task that gave up.
    pub gave_up: Semaphore<R>,
    // The bell that rings for those in a hurry, and the one of the others, which never does.
    late: Gate<R>,
    never: Gate<R>,
}

impl<R: Wait + Drop + Copy> Workshop<R> {
    // A workshop whose desks are all taken, with room for all its tasks in each queue.
    fn new(rt: R, alloc: Global) -> Result<Self, AllocError> {
        Ok(Workshop {
            start: Gate::new(rt, alloc, TASKS)?,
            desks: SemaphoreOf::with_permits(rt, alloc, 0, TASKS)?,
            book: Mutex::new(rt, alloc, Book::default(), TASKS)?,
            gave_up: Semaphore::with_permits(rt, alloc, 0, 1)?,
            late: Gate::new(rt, alloc, TASKS)?,
            never: Gate::new(rt, alloc, TASKS)?,
        })
    }

    // What is told once all tasks have ended.
    fn into_told(self) -> Told {
        Told {
            gave_up: self.gave_up.available_permits(Ordering::SeqCst),
            free_desks: self.desks.available_permits(Ordering::SeqCst),
            book: self.book.into_inner(),
        }
    }
}

impl<'a, R: Wait + Clock + Drop> Foreman<R, Task<'a, R>> for &'a Workshop<R> {
    fn hand_out(&self, tasks: &TaskSet<Task<'a, R>>) -> bool {
        let shop = *self;
        for number in 0..TASKS {
            let bell = if number.is_multiple_of(HURRY) {
                &shop.late
            } else {
                &shop.never
            };
            if tasks.spawn(task(shop, u64::from(number), bell)).is_err() {
                return false;
            }
        }
        true
    }

    // Lets all tasks in, rings for those in a hurry, and frees the desks once those have given up.
    //
    // The kit's timers for tasks need its runtime with sockets. So this thread sleeps, and the bell is a gate that it seals.
    fn attend(&self, rt: &R) {
        let _ = self.start.open();
        thread::sleep(rt, Duration::from_millis(PATIENCE));
        let _ = self.late.seal();
        if self.gave_up.acquire_many_sync(HURRIED) == Ok(true) {
            self.gave_up.release_many(HURRIED);
        }
        self.desks.release_many(DESKS);
    }
}

/// Runs all tasks on so many threads.
///
/// The error comes if memory was refused or a thread couldn't be started; all threads have ended then too.
pub fn work<R>(rt: R, threads: u16) -> io::Result<Told>
where
    R: Threads + Wait + Clock + AllocGlobal + RandomSource + Copy + Drop + Sync + 'static,
{
    let shop = Workshop::new(rt, rt.alloc())?;
    if crew::run::<R, Task<'_, R>, _>(&rt, &shop, threads)? {
        Ok(shop.into_told())
    } else {
        Err(io::Error::from(AllocError))
    }
}
