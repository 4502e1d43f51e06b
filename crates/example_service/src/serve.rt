//! A day of the service: a client that offers jobs, and somebody who starts and stops it.

use crate::report::{Answer, Report};
use crate::service::{Job, ROOM, Service, Task};
use std::alloc::{AllocError, Global};
use std::sync::Wait;
use std::thread::{self, Threads};
use std::time::{Clock, Duration};

// How many jobs are offered that find no room, each time.
const TOO_MANY: usize = 8;

// How many short jobs are done between the first and the long ones.
const BETWEEN: usize = 160;

// How long a client waits for room that surely isn't there, in milliseconds.
const PATIENCE: u64 = 5;

/// What is asked of a service.
#[derive(Clone, Copy)]
pub struct Plan {
    /// How many workers it has, at most 16.
    pub workers: u16,
    /// How long each short job takes.
    pub length: Duration,
    /// Whether progress is printed.
    pub shows_progress: bool,
}

/// Starts a service, offers it jobs, stops it while each worker is at one and others are queued, and tells what became of all.
///
/// The error comes where memory was refused or a thread couldn't be started: then it is stopped before any job was begun.
pub fn serve<R: Threads + Wait + Clock + Print + Sync>(
    rt: &R,
    alloc: Global,
    plan: Plan,
) -> Result<Report, AllocError> {
    let service = Service::new(rt, alloc, plan.workers)?;
    let mut client = Client {
        service: &service,
        plan,
        report: Report::default(),
    };
    if !run(rt, &mut client) {
        return Err(AllocError);
    }
    let mut report = client.report;
    service.drain(&mut report);
    service.count_done(&mut report);
    Ok(report)
}

// Starts the workers, and lets the client offer its jobs; returns when the service is stopped, and all have ended. Whether all were started.
fn run<R: Threads + Wait + Clock + Print + Sync>(rt: &R, client: &mut Client<'_, '_, R>) -> bool {
    let service = client.service;
    let plan = client.plan;
    thread::scope(thread::scope_env(), rt, |scope| {
        let mut is_whole = true;
        for _worker in 0..plan.workers {
            is_whole = is_whole && scope.spawn(move || service.work()).is_ok();
        }
        if plan.shows_progress {
            is_whole = is_whole && scope.spawn(move || service.print_progress()).is_ok();
        }
        if is_whole {
            client.offer_all();
        } else {
            service.stop();
        }
        is_whole
    })
}

// A client: the service, and what it was told of its jobs.
#[derive(Drop)]
struct Client<'s, 'r, R: Wait> {
    service: &'s Service<'r, R>,
    plan: Plan,
    report: Report,
}

impl<R: Wait + Clock> Client<'_, '_, R> {
    // All offers, from before the start until after the stop.
    fn offer_all(&mut self) {
        let workers = usize::from(self.plan.workers);
        // Nobody is at work yet, so as many are accepted as there is room for.
        self.offer_in_time(ROOM + TOO_MANY);
        self.service.start();
        self.offer_short(BETWEEN);
        self.offer_long(workers);
        self.offer_short(ROOM.saturating_sub(workers));
        // Each worker is at a long job now, and the others are behind it.
        self.service.meet();
        self.offer_in_time(TOO_MANY);
        self.service.stop();
        self.service.meet();
        self.offer_in_time(1);
    }

    // Offers short jobs, and waits a little for room for each.
    fn offer_in_time(&mut self, count: usize) {
        let patience = Duration::from_millis(PATIENCE);
        for _job in 0..count {
            let job = self.next(Task::Short(self.plan.length));
            let answer = self.service.offer_for(job, patience);
            self.report.count_offer(job.number, answer);
        }
    }

    // Offers short jobs, and waits until there is room for each.
    fn offer_short(&mut self, count: usize) {
        for _job in 0..count {
            self.offer(Task::Short(self.plan.length));
        }
    }

    // Offers long jobs, and waits until there is room for each.
    fn offer_long(&mut self, count: usize) {
        for _job in 0..count {
            self.offer(Task::Long);
        }
    }

    // Offers a job, and waits until there is room for it.
    fn offer(&mut self, task: Task) {
        let job = self.next(task);
        let answer = self.service.offer(job);
        self.report.count_offer(job.number, answer);
    }

    // The next job: its number is how many were offered before it.
    fn next(&self, task: Task) -> Job {
        Job {
            number: self.report.offered,
            task,
        }
    }
}
