//! Workers on threads of their own, over one gate, one barrier, one semaphore and one journal.
//!
//! Each enters the gate, passes the barrier some times, takes and gives back permits, and calls the journal; then its share
//! of the journal is handed in. What the threads do at the three shared forms no contract can say. What the journal's
//! shares count together is proved: a worker is done only with all its calls, and the count comes only where all are.

ghost use Rattle.std.specs.Prelude.{◌≡◌, ◌<◌, ◌*◌, All, IfOk, length, replicate, sum_by, true};
ghost use Rattle.saa_core.specs.declared.ticket.Registration.TheVariants.{Unregistered};
ghost use Rattle.saa_core.specs.Tickets.{object_of};

use saa::barrier::Barrier;
use saa::bench::CommandOf;
use saa::gate::Gate;
use saa::journal::{Journal, Journalled, Share};
use saa::semaphore::{Semaphore, SemaphoreCall, SemaphoreCore};
use std::alloc::{AllocError, Global};
use std::marker::Brand;
use std::sync::atomic::Ordering;
use std::sync::ledger::Blank;
use std::sync::{Mutex, Wait};
use std::thread::{self, Threads};

// How often a worker waits at the barrier, how often it takes permits, and how often it calls the journal.
const PHASES: u8 = 4;

const TURNS: u8 = 100;

const CALLS: usize = 50;

// How many permits it takes at a time.
const PERMITS: usize = 2;

/// What the workers counted together.
#[derive(Clone, Copy, PartialEq)]
pub struct Counts {
    /// How many arrivals at the barrier were told that they were the last of their round: one in each.
    pub leaders: usize,
    /// How many permits are available when all are done: as many as there were.
    pub available: usize,
    /// How many calls were written into the journal.
    pub journal: usize,
}

/// Somebody who watches the workers; for tests.
pub trait Watch {
    /// Whether the worker of this number, counted from 0, may be started; where not, it is as if no thread could be had.
    fn may_start(&self, worker: u8) -> bool;

    /// The worker of this number has started, and hasn't waited for anything yet.
    fn begin(&self, worker: u8);

    /// A worker has permits of this semaphore, and is about to give them back.
    fn hold<R: Wait + Drop>(&self, permits: &Semaphore<R>);

    /// All workers are done, and this is the journal that they have written.
    fn read<J: Journal>(&self, journal: &Journalled<SemaphoreCore, J>);
}

/// Nobody watches.
struct Nobody;

impl Watch for Nobody {
    fn may_start(&self, _worker: u8) -> bool {
        true
    }

    fn begin(&self, _worker: u8) {}

    fn hold<R: Wait + Drop>(&self, _permits: &Semaphore<R>) {}

    fn read<J: Journal>(&self, _journal: &Journalled<SemaphoreCore, J>) {}
}

/// A worker that hasn't started.
#[derive(Drop)]
struct Worker<J: Journal> {
    number: u8,
    share: Share<J>,
    ghost unused: { share.calls ≡ 0 },
}

/// What a worker has that is done with everything.
#[derive(Drop)]
struct Done<J: Journal> {
    leaders: usize,
    share: Share<J>,
    ghost called: { share.calls ≡ 50 },
}

/// The forms at which the workers meet.
#[derive(Drop)]
struct Forms<'r, R: Wait> {
    gate: Gate<&'r R>,
    barrier: Barrier<&'r R>,
    permits: Semaphore<&'r R>,
}

/// What the workers share.
#[derive(Drop)]
struct Place<'r, J: Journal, R: Wait> {
    rt: &'r R,
    forms: Forms<'r, R>,
    journal: Mutex<Journalled<SemaphoreCore, J>>,
    done: Mutex<Vec<Done<J>>>,
}

impl<R: Wait> Forms<'_, R> {
    // Passes the barrier, and tells how often it was the last to come.
    fn meet(&self) -> usize {
        let mut leaders = 0usize;
        for _phase in 0..PHASES {
            let is_last = self.barrier.wait_sync() == Ok(true);
            leaders = leaders.saturating_add(usize::from(is_last));
        }
        leaders
    }

    // Takes permits and gives them back.
    fn share_permits<W: Watch>(&self, watch: &W) {
        for _turn in 0..TURNS {
            if self.permits.acquire_many_sync(PERMITS) == Ok(true) {
                watch.hold(&self.permits);
                let _ = self.permits.release_many(PERMITS);
            }
        }
    }
}

impl<J: Journal, R: Wait> Place<'_, J, R> {
    // All that one worker does. It ends at a sealed gate, and where the journal gets no memory: then it isn't done.
    fn work<W: Watch>(&self, worker: Worker<J>, watch: &W) {
        let Worker { number, share } = worker;
        watch.begin(number);
        if let Ok(Ok(_open)) = self.forms.gate.enter_sync() {
            let leaders = self.forms.meet();
            self.forms.share_permits(watch);
            // Last, so that nobody waits for a worker that gets no memory here.
            self.write(leaders, share);
        }
    }

    // Makes all calls of the journal, and hands the share in; not where memory for one of them was refused.
    fn write(&self, leaders: usize, share: Share<J>)
        requires { share.calls ≡ 0 }
    {
        let mut share = share;
        if self.call_all(&mut share) {
            let _ = self.done.lock(self.rt).push(Done { leaders, share });
        }
    }

    // Makes all calls of the journal. Whether memory for each of them was had.
    fn call_all(&self, share: &mut Share<J>) -> bool
        requires { share.old.calls ≡ 0 }
        ensures { result ≡ true → share.new.calls ≡ 50 }
    {
        let command = CommandOf::Call(SemaphoreCall::TryAcquireMany(1));
        while share.calls() < CALLS {
            if self.journal.lock(self.rt).call(&command, share).is_err() {
                return false;
            }
        }
        true
    }
}

// Starts a thread for each worker, and opens the gate once all have started. Where one can't be started, the gate is
// sealed, at which those that have started end. Whether all were.
fn start_all<J: Journal + Send + Sync, R: Threads + Wait + Sync, W: Watch + Sync>(
    place: &Place<'_, J, R>,
    workers: Vec<Worker<J>>,
    watch: &W,
) -> bool {
    thread::scope(thread::scope_env(), place.rt, |scope| {
        for worker in workers {
            let may_start = watch.may_start(worker.number);
            if !may_start || scope.spawn(move || place.work(worker, watch)).is_err() {
                let _ = place.forms.gate.seal();
                return false;
            }
        }
        let _ = place.forms.gate.open();
        true
    })
}

// A worker for each share.
fn workers_of<J: Journal>(
    alloc: Global,
    shares: Vec<Share<J>>,
) -> Result<Vec<Worker<J>>, AllocError>
    requires { All (λ share. share.calls ≡ 0) shares.items }
{
    let mut workers = Vec::with_capacity(alloc, shares.len())?;
    let (mut shares, mut number) = (shares, 0u8);
    while let Some(share) = shares.pop() {
        workers.push_reserved(Worker { number, share });
        number = number.wrapping_add(1);
    }
    Ok(workers)
}

// How often the workers that are done led at the barrier.
fn leaders_of<J: Journal>(done: &[Done<J>]) -> usize {
    let mut leaders = 0usize;
    for worker in done {
        leaders = leaders.saturating_add(worker.leaders);
    }
    leaders
}

// The shares of the workers that are done, each with all its calls.
fn shares_of<J: Journal>(
    alloc: Global,
    done: &mut Vec<Done<J>>,
) -> Result<Vec<Share<J>>, AllocError>
    ensures { IfOk result (λ shares. sum_by (λ share. share.calls) shares.items ≡ 50 * length shares.items) }
{
    let mut shares = Vec::with_capacity(alloc, done.len())?;
    while let Some(worker) = done.pop() {
        shares.push_reserved(worker.share);
    }
    Ok(shares)
}

// The forms at which so many workers meet.
fn forms_for<'r, R: Wait>(
    rt: &'r R,
    alloc: Global,
    workers: u8,
) -> Result<Forms<'r, R>, AllocError> {
    let room = u16::from(workers);
    Ok(Forms {
        gate: Gate::new(rt, alloc, room)?,
        barrier: Barrier::with_count(rt, alloc, usize::from(workers), room)?,
        permits: Semaphore::new(rt, alloc, room)?,
    })
}

// What so many workers share, over this journal.
fn place_for<'r, J: Journal, R: Wait>(
    rt: &'r R,
    alloc: Global,
    journal: Journalled<SemaphoreCore, J>,
    workers: u8,
) -> Result<Place<'r, J, R>, AllocError> {
    let done = Vec::with_capacity(alloc, usize::from(workers))?;
    let forms = forms_for(rt, alloc, workers)?;
    Ok(Place {
        rt,
        forms,
        journal: Mutex::new(journal),
        done: Mutex::new(done),
    })
}

// What the workers did, once all have ended. The error comes where one of them isn't done, or memory was refused.
fn count<J: Journal, R: Wait, W: Watch>(
    alloc: Global,
    place: &mut Place<'_, J, R>,
    watch: &W,
) -> Result<Counts, AllocError>
    requires { J.dealt ≡ J.parts }
    ensures { IfOk result (λ counts. counts.journal ≡ 50 * J.parts) }
{
    let available = place.forms.permits.available_permits(Ordering::SeqCst);
    let leaders = leaders_of(place.done.get_mut().as_slice());
    let journal = place.journal.get_mut();
    watch.read(journal);
    let shares = shares_of(alloc, place.done.get_mut())?;
    match journal.gather(shares) {
        Some(journal) => Ok(Counts {
            leaders,
            available,
            journal,
        }),
        None => Err(AllocError),
    }
}

// Starts a worker with each share, and counts what they did once all have ended.
fn run_at<J: Journal + Send + Sync, R: Threads + Wait + Sync, W: Watch + Sync>(
    alloc: Global,
    place: &mut Place<'_, J, R>,
    shares: Vec<Share<J>>,
    watch: &W,
) -> Result<Counts, AllocError>
    requires unused { All (λ share. share.calls ≡ 0) shares.items }
    requires one_each { J.dealt ≡ J.parts }
    ensures { IfOk result (λ counts. counts.journal ≡ 50 * J.parts) }
{
    let workers = workers_of(alloc, shares)?;
    match start_all(place, workers, watch) {
        true => count(alloc, place, watch),
        false => Err(AllocError),
    }
}

// Runs the workers over a journal of a core that is handed in.
fn run_over<J: Journal + Send + Sync, R: Threads + Wait + Sync, W: Watch + Sync>(
    rt: &R,
    alloc: Global,
    core: SemaphoreCore,
    blank: Blank,
    workers: u8,
    watch: &W,
) -> Result<Counts, AllocError>
    requires some { 0 < workers }
    requires name { blank.name ≡ J.name }
    requires parts { blank.parts ≡ J.parts }
    requires dealt { blank.parts ≡ workers }
    requires one_each { J.dealt ≡ J.parts }
    requires opening { object_of core (replicate 0 Unregistered) ≡ J.opening }
    ensures { IfOk result (λ counts. counts.journal ≡ 50 * workers) }
{
    let room = u16::from(workers);
    let (journal, shares) = Journalled::<SemaphoreCore, J>::new(alloc, core, 0, blank, room)?;
    let mut place = place_for(rt, alloc, journal, workers)?;
    run_at(alloc, &mut place, shares, watch)
}

/// Starts so many workers, each on a thread of its own, lets `watch` see them, and counts what they did when all are done.
pub fn run_with<R: Threads + Wait + Sync, W: Watch + Sync>(
    rt: &R,
    alloc: Global,
    workers: u8,
    watch: &W,
) -> Result<Counts, AllocError>
    requires { 0 < workers }
    ensures { IfOk result (λ counts. counts.journal ≡ 50 * workers) }
{
    let core = SemaphoreCore::new(alloc, 0)?;
    let blank = Blank::new(u64::from(workers));
    run_over::<Brand, R, W>(rt, alloc, core, blank, workers, watch)
}

/// Starts so many workers, each on a thread of its own, and counts what they did when all are done. There are at most 63, since
/// a barrier is for no more: of more, some would wait for ever.
///
/// Each passes a barrier for all of them 4 times, takes and gives back 2 of 63 permits 100 times, and makes 50 calls by
/// one journal. The error comes where memory was refused or a thread can't be started; no worker is left running then
/// either. A worker that gets no memory for the journal ends without the rest of its calls, and nobody waits for it.
pub fn run<R: Threads + Wait + Sync>(
    rt: &R,
    alloc: Global,
    workers: u8,
) -> Result<Counts, AllocError>
    requires { 0 < workers }
    ensures { IfOk result (λ counts. counts.journal ≡ 50 * workers) }
{
    run_with(rt, alloc, workers, &Nobody)
}
