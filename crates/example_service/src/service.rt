//! A service: jobs that are admitted, a queue of them, and workers that do them until it is stopped.

use crate::report::{Answer, Report};
use saa_sync::gate::{Error, Gate};
use saa_sync::timed::TimedEntry;
use saa_sync::{Barrier, SemaphoreOf};
use saa_sync_queue::Queue;
use std::alloc::{AllocError, Global};
use std::sync::Wait;
use std::sync::atomic::{AtomicU64, Ordering};
use std::thread;
use std::time::{Clock, Duration};

/// How many jobs are in the service at most, queued or at work.
pub const ROOM: usize = 32;

/// A job: the number that its client gave it, and what is to be done.
#[derive(Clone, Copy)]
pub struct Job {
    pub number: u64,
    pub task: Task,
}

/// What is to be done.
#[derive(Clone, Copy)]
pub enum Task {
    /// Work of this length.
    Short(Duration),
    /// Work that is under way as the service is stopped.
    Long,
}

/// The service. A job that is in it has a permit of `admission`, which is given back as the job leaves, done or not.
#[derive(Drop)]
pub struct Service<'r, R: Wait> {
    rt: &'r R,
    admission: SemaphoreOf<&'r R, ROOM>,
    queue: Queue<&'r R, Job, ROOM>,
    start: Gate<&'r R>,
    meeting: Barrier<&'r R>,
    end: Gate<&'r R>,
    done: AtomicU64,
    sum: AtomicU64,
}

impl<'r, R: Wait> Service<'r, R> {
    /// A service that isn't started, for so many workers and one client that waits.
    pub fn new(rt: &'r R, alloc: Global, workers: u16) -> Result<Self, AllocError> {
        let all = workers.saturating_add(1);
        Ok(Service {
            rt,
            admission: SemaphoreOf::new(rt, alloc, 1)?,
            queue: Queue::new(rt, alloc, workers)?,
            start: Gate::new(rt, alloc, workers)?,
            meeting: Barrier::with_count(rt, alloc, usize::from(all), all)?,
            end: Gate::new(rt, alloc, 1)?,
            done: AtomicU64::new(0),
            sum: AtomicU64::new(0),
        })
    }

    /// Lets the workers begin.
    pub fn start(&self) {
        let _ = self.start.open();
    }

    /// Stops the service: no worker begins another job, and no job is accepted any more. Jobs that are accepted stay in the queue.
    pub fn stop(&self) {
        let _ = self.start.seal();
        let _ = self.admission.shut();
        let _ = self.queue.close();
        let _ = self.end.open();
    }

    /// Waits until each worker is at a long job, or at the end of it.
    pub fn meet(&self) {
        let _ = self.meeting.wait_sync();
    }

    /// Offers a job, and waits until there is room for it.
    pub fn offer(&self, job: Job) -> Answer {
        match self.admission.acquire_sync() {
            Ok(()) => self.enqueue(job),
            Err(_closed) => Answer::Stopped,
        }
    }

    // Puts an admitted job into the queue, which has a place for each; a service that was stopped meanwhile takes none.
    fn enqueue(&self, job: Job) -> Answer {
        match self.queue.try_push(job) {
            Ok(()) => Answer::Accepted,
            Err(_closed) => {
                self.leave();
                Answer::Stopped
            }
        }
    }

    // Makes room for another job.
    fn leave(&self) {
        let _ = self.admission.release();
    }

    /// Takes the jobs that were left in the queue of a service that was stopped, and counts them.
    pub fn drain(&self, report: &mut Report) {
        for _job in 0..ROOM {
            let Ok(job) = self.queue.try_pop() else {
                return;
            };
            self.leave();
            report.count_drained(job.number);
        }
    }

    /// What the workers did, once they have ended, and whether the service is empty.
    pub fn count_done(&self, report: &mut Report) {
        report.done = self.done.load(Ordering::SeqCst);
        report.done_sum = self.sum.load(Ordering::SeqCst);
        report.is_empty = self.admission.available_permits(Ordering::SeqCst) == ROOM;
    }
}

impl<'r, R: Wait + Clock> Service<'r, R> {
    /// Offers a job, and waits for room for as long as the client would.
    pub fn offer_for(&self, job: Job, patience: Duration) -> Answer {
        match self.admission.acquire_sync_for(patience) {
            Ok(Some(())) => self.enqueue(job),
            Ok(None) => Answer::Refused,
            Err(_closed) => Answer::Stopped,
        }
    }

    /// A worker: does one job after another from the start to the stop.
    pub fn work(&self) {
        for _job in self.rt.forever() {
            // Before it takes a job: one that is taken is done.
            if !may_begin(&self.start) {
                return;
            }
            match self.queue.pop() {
                Ok(job) => self.finish(job),
                Err(_closed) => return,
            }
        }
    }

    // Does a job.
    fn finish(&self, job: Job) {
        match job.task {
            Task::Short(length) => {
                if !length.is_zero() {
                    thread::sleep(self.rt, length);
                }
            }
            Task::Long => {
                self.meet();
                self.meet();
            }
        }
        let _ = self.done.fetch_add(1, Ordering::SeqCst);
        let _ = self.sum.fetch_add(job.number, Ordering::SeqCst);
        self.leave();
    }
}

impl<'r, R: Wait + Clock + Print> Service<'r, R> {
    /// Prints each second how many jobs are done, until the service is stopped.
    pub fn print_progress(&self) {
        let second = Duration::from_secs(1);
        for _second in self.rt.forever() {
            let Ok(TimedEntry::Late) = self.end.enter_sync_for(second) else {
                return;
            };
            let done = self.done.load(Ordering::SeqCst);
            if println!(self.rt; "{done} jobs are done").is_err() {
                return;
            }
        }
    }
}

// Whether a worker may begin a job: it waits at the gate until the service is started or stopped.
//
// The last errors are those of polls. No call that enters meets them, by the contract of `enter_sync`, so the last arm is proved to be out of reach.
fn may_begin<R: Wait + Drop>(start: &Gate<R>) -> bool {
    match start.enter_sync() {
        Ok(Ok(_open)) => true,
        Ok(Err(Error::Sealed)) => false,
        // Never here: nobody rejects, no pager leaves, and the gate has a slot for each worker.
        Ok(Err(Error::Rejected)) | Ok(Err(Error::SpuriousFailure)) | Err(_) => false,
        Ok(Err(Error::NotRegistered | Error::WrongMode | Error::NotReady)) => unreachable!(),
    }
}
