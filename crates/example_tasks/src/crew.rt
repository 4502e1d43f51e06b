//! A few threads that poll tasks of one type until none is left.

use futures::Future;
use futures::executor::TaskSet;
use futures::task::Doorbell;
use std::alloc::AllocGlobal;
use std::io;
use std::random::RandomSource;
use std::sync::Wait;
use std::thread::{self, Threads};

/// A foreman has tasks of the type `F`, and attends to them while threads poll them.
pub trait Foreman<R, F: Future<Output = ()>> {
    /// Hands out all tasks; whether they were taken.
    fn hand_out(&self, tasks: &TaskSet<F>) -> bool;

    /// Does what the tasks wait for.
    fn attend(&self, rt: &R);
}

/// Runs all tasks of a foreman on so many threads, and attends to them on the calling one; whether all were run.
///
/// The error comes if memory was refused.
pub fn run<R, F, M>(rt: &R, foreman: M, threads: u16) -> io::Result<bool>
where
    R: Threads + Wait + AllocGlobal + RandomSource + Sync,
    F: Future<Output = ()> + Send,
    M: Foreman<R, F> + Copy,
{
    let tasks = TaskSet::new(rt, Doorbell::parking(), usize::from(threads))?;
    Ok(foreman.hand_out(&tasks) && all_work(rt, &foreman, &tasks, threads))
}

// Starts so many threads that poll tasks until none is left. Whether all were started; else the tasks are dropped.
fn all_work<R, F, M>(rt: &R, foreman: &M, tasks: &TaskSet<F>, threads: u16) -> bool
where
    R: Threads + Wait + Sync,
    F: Future<Output = ()> + Send,
    M: Foreman<R, F>,
{
    thread::scope(thread::scope_env(), rt, |scope| {
        for number in 0..threads {
            let worker = scope.spawn(move || tasks.work(rt, usize::from(number)));
            if worker.is_err() {
                tasks.shut_down();
                return false;
            }
        }
        foreman.attend(rt);
        true
    })
}
