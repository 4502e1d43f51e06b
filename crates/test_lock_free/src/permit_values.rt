//! Permits as values at both semaphores: how many are left as they are taken by each call for many, parted, put together and dropped; and that a future of
//! them waits, and is told of a shut.
//!
//! What a split and a merge leave is proved. One permit by each call, and those that are forgotten, are in the stories of `test_stories`.

ghost use Rattle.std.specs.Prelude.{◌≡◌, IfSome};
ghost use Rattle.saa_core_guards.specs.declared.permit.InTime.TheVariants.{Granted};

use futures::task::Poll;
use futures::test::MockTask;
use saa_core_guards::permit::{Holder, InTime, PermitFrom};
use saa_core_guards::permit_future::PermitsFuture;
use saa_core_guards::raw_semaphore::{RawSemaphore, RawSemaphoreAsync};
use saa_core_waits::AcquireError;
use saa_sync::semaphore::SemaphoreOf as Threaded;
use saa_word_lock_free::semaphore::SemaphoreOf as LockFree;
use std::sync::atomic::Ordering::SeqCst;
use std::sync::{Arc, Wait};
use std::test::Fail;
use std::thread;
use std::time::{Clock, Duration, Instant};
use test_asserts::same;

// How many permits there are.
const MAX: usize = 5;

// A call for permits.
#[derive(Clone, Copy)]
enum Way {
    Try,
    Wait,
    For,
    Until(Instant),
}

// What a future of permits answers, and then how many are left; nothing if it waits on.
type Polled = Option<Result<Option<usize>, AcquireError>>;

// A semaphore, by what is looked at.
trait Counted {
    fn left(&self) -> usize;

    fn end(&self) -> bool;
}

// The same, by the stories of it; they can't name its permits, since the checker has no kind for a type that names `Self` there.
trait Lends: Counted {
    // How many are left at each step as so many permits by this call are parted; nothing if they aren't granted.
    fn parted(&self, way: Way, count: usize) -> Option<[usize; 4]>;

    // What a future of so many answers, if need be as the semaphore is shut.
    fn polled(&self, task: &MockTask, count: usize) -> Polled;
}

// Permits by a call for many, at either form.
macro_rules! permits {
    ($form:expr, $way:expr, $count:expr) => {
        match $way {
            Way::Try => $form.try_acquire_permits($count),
            Way::Wait => $form.acquire_permits($count).ok()?,
            Way::For => granted($form.acquire_permits_for($count, Duration::MAX).ok()?),
            Way::Until(end) => granted($form.acquire_permits_until($count, end).ok()?),
        }
    };
}

impl<R: Wait + Clock + Drop> Counted for Threaded<R, MAX> {
    fn left(&self) -> usize {
        self.available_permits(SeqCst)
    }

    fn end(&self) -> bool {
        self.shut()
    }
}

impl<R: Wait + Clock + Drop> Lends for Threaded<R, MAX> {
    fn parted(&self, way: Way, count: usize) -> Option<[usize; 4]> {
        parted(self, permits!(self, way, count)?)
    }

    fn polled(&self, task: &MockTask, count: usize) -> Polled {
        polled(self, task, self.acquire_permits_async(count))
    }
}

impl<R: Wait + Clock + Drop> Counted for LockFree<R, MAX> {
    fn left(&self) -> usize {
        self.available_permits(SeqCst)
    }

    fn end(&self) -> bool {
        self.shut()
    }
}

impl<R: Wait + Clock + Drop> Lends for LockFree<R, MAX> {
    fn parted(&self, way: Way, count: usize) -> Option<[usize; 4]> {
        parted(self, permits!(self, way, count)?)
    }

    fn polled(&self, task: &MockTask, count: usize) -> Polled {
        polled(self, task, self.acquire_permits_async(count))
    }
}

// What was granted in time.
fn granted<P: Drop>(answer: InTime<P>) -> Option<P>
    ensures { IfSome result (λ permits. answer ≡ Granted permits) }
{
    match answer {
        InTime::Granted(permits) => Some(permits),
        InTime::TooMany | InTime::Late => None,
    }
}

// How many are left beside four permits; after one was split off and went; after the others were parted and put together again; and once they are gone.
fn parted<S: Counted, H: Holder>(semaphore: &S, permits: PermitFrom<H>) -> Option<[usize; 4]> {
    let mut four = permits;
    let beside_four = semaphore.left();
    drop(four.split(1)?);
    let beside_three = semaphore.left();
    let mut two = four.split(2)?;
    two.merge(four).ok()?;
    let beside_merged = semaphore.left();
    drop(two);
    Some([beside_four, beside_three, beside_merged, semaphore.left()])
}

// Polls a future; one that waits is polled again if a shut wakes its task.
fn polled<S>(semaphore: &S, task: &MockTask, mut future: PermitsFuture<'_, S>) -> Polled
where
    S: Counted + RawSemaphore<Error = AcquireError> + RawSemaphoreAsync,
{
    let mut answer = task.poll(&mut future);
    let is_pending = matches!(answer, Poll::Pending);
    if is_pending && !task.is_woken() && semaphore.end() && task.is_woken() {
        answer = task.poll(&mut future);
    }
    match answer {
        Poll::Ready(Ok(Some(_permits))) => Some(Ok(Some(semaphore.left()))),
        Poll::Ready(Ok(None)) => Some(Ok(None)),
        Poll::Ready(Err(error)) => Some(Err(error)),
        Poll::Pending => None,
    }
}

// What is answered otherwise at a semaphore of five permits, all in.
fn first_wrong<S: Lends + RawSemaphore>(
    task: &MockTask,
    semaphore: &S,
    end: Instant,
) -> Option<&'static str> {
    for way in [Way::Try, Way::Wait, Way::For, Way::Until(end)] {
        if semaphore.parted(way, 4) != Some([1, 2, 2, 5]) {
            return Some("parts are put together again");
        }
        if semaphore.parted(way, 6).is_some() {
            return Some("more than there are");
        }
    }
    if semaphore.polled(task, 2) != Some(Ok(Some(3))) || semaphore.left() != 5 {
        return Some("a task has permits");
    }
    if semaphore.polled(task, 6) != Some(Ok(None)) {
        return Some("a task asks for more than there are");
    }
    let _one = PermitFrom::try_acquire(semaphore, 1);
    if semaphore.parted(Way::Try, 5).is_some() {
        return Some("more than are available");
    }
    if semaphore.polled(task, 5) != Some(Err(AcquireError::Closed)) {
        return Some("a task is told of a shut");
    }
    None
}

#[test]
fn permits_are_values(rt: HostRuntime) -> Result<(), Fail> {
    let end = Instant::now(&rt)?;
    let task = MockTask::new(&rt)?;
    let lock_free = LockFree::<_, MAX>::new(&rt, rt.alloc(), 1)?;
    same!(rt; first_wrong(&task, &lock_free, end), None);
    let threaded = Threaded::<_, MAX>::new(&rt, rt.alloc(), 1)?;
    same!(rt; first_wrong(&task, &threaded, end), None);
    Ok(())
}

// Parts permits in a job, where both parts go: how many each was.
fn done_with<H: Holder>(permits: Option<PermitFrom<H>>) -> Option<(usize, usize)> {
    let mut permits = permits?;
    let part = permits.split(1)?;
    Some((part.count(), permits.count()))
}

// At the lock-free semaphore; the guide's page on jobs does the same at the threaded one.
#[test]
fn a_job_carries_permits(rt: HostRuntime) -> Result<(), Fail> {
    let semaphore = Arc::new(rt.alloc(), LockFree::<_, MAX>::new(rt, rt.alloc(), 1)?)?;
    let permits = PermitFrom::acquire(Arc::try_clone(&semaphore)?, 3)?;
    let borrowed = semaphore.acquire_permit()?;
    let one = borrowed.into_owned(Arc::try_clone(&semaphore)?);
    same!(rt; semaphore.available_permits(SeqCst), 1);
    let job = thread::spawn(&rt, move || done_with(permits))?;
    same!(rt; job.join(&rt), Some((1, 2)));
    same!(rt; semaphore.available_permits(SeqCst), 4);
    drop(one);
    same!(rt; semaphore.available_permits(SeqCst), 5);
    Ok(())
}
