//! Wakers go out with the mutex free: a wake lasts until another thread has locked the mutex many times.

use crate::tasks::polled;
use futures::Future;
use futures::task::{Doorbell, Poll as Polled, Solo};
use futures::test::MockTask;
use saa_core::Primitive;
use saa_sync::future::Enter;
use saa_sync::gate::{Gate, State};
use saa_sync::pager::Pager;
use saa_sync::testing::{Counted, call_untold};
use std::alloc::AllocGlobal;
use std::fs::Files;
use std::io::{PipeReader, PipeWriter, Read, Write};
use std::os::fd::OwnedFd;
use std::random::RandomSource;
use std::sync::Wait;
use std::sync::atomic::Ordering;
use std::thread::{Threads, yield_now};
use std::{io, thread};
use test_asserts::same;

// As many bytes as a pipe takes before a write waits.
const PIPE: usize = 65_536;

// How often the mutex is locked before the other thread reads.
const TURNS: u32 = 2_000;

// A task whose wake writes to a pipe, and both ends of that.
#[derive(Drop)]
struct Slow {
    task: Solo,
    reader: PipeReader,
    writer: PipeWriter,
}

impl Slow {
    fn new<R: Files + RandomSource + AllocGlobal>(rt: &R) -> io::Result<Slow> {
        let (reader, writer) = io::pipe(rt)?;
        let doorbell = Doorbell::from_event_fd(OwnedFd::from(writer.try_clone()?));
        let task = Solo::new(rt, doorbell)?;
        Ok(Slow {
            task,
            reader,
            writer,
        })
    }

    // Polls a future as this task; whether it is ready.
    fn poll<F: Future>(&self, future: &mut F) -> bool
    where
        F::Output: Drop,
        requires { F.can_poll future.old }
    {
        let mut cx = self.task.begin();
        let polled = future.poll(&mut cx);
        cx.end(&polled);
        matches!(polled, Polled::Ready(_))
    }

    // Fills the pipe, so that a wake lasts until the other thread reads. What the task's making wrote is read first.
    fn fill(&mut self) -> io::Result<()> {
        let mut first = [0u8; 8];
        let _read = self.reader.read(&mut first)?;
        let full = [1u8; PIPE];
        let _written = self.writer.write(&full)?;
        Ok(())
    }
}

// Waits until the other thread's call has had the mutex, takes that many times, and only then makes room in the pipe.
fn lock_then_read<R: Wait + Drop>(
    rt: &impl Wait,
    gate: &Gate<R>,
    before: u64,
    reader: &PipeReader,
) -> bool {
    for _ in rt.forever() {
        if gate.counts().turns() != before {
            break;
        }
        yield_now();
    }
    for _turn in 0..TURNS {
        let _state = gate.state(Ordering::SeqCst);
        yield_now();
    }
    let mut bytes = [0u8; 4096];
    let mut end = reader;
    end.read(&mut bytes).is_ok()
}

// What brings the waker of a slow task out of a gate.
#[derive(Clone, Copy, Debug, PartialEq)]
enum Out {
    // An answer: it is the only one, or that of a quick task is taken out together with it, and first.
    Answer,
    AnswerOfTwo,
    // The future or the pager is dropped or cancelled.
    Future,
    Pager,
    // Another task takes the answer of the future or the pager, at whose slot the waker is left.
    FuturesAnswer,
    PagersAnswer,
}

const OUTS: [Out; 6] = [
    Out::Answer,
    Out::AnswerOfTwo,
    Out::Future,
    Out::Pager,
    Out::FuturesAnswer,
    Out::PagersAnswer,
];

// What another task is answered that polls a future.
fn polled_by_another<H: RandomSource + AllocGlobal, F: Future>(
    rt: &H,
    future: &mut F,
) -> Option<F::Output>
where
    requires { F.can_poll future.old }
{
    polled(&MockTask::new(rt).ok()?, future)
}

// Brings the waker out; whether that is answered as it must be.
fn bring<'s, H: RandomSource + AllocGlobal, R: Wait + Drop>(
    rt: &H,
    gate: &'s Gate<R>,
    future: &mut Enter<'s, R>,
    pager: &mut Pager<'s, Gate<R>>,
    out: Out,
) -> bool {
    let passed = Ok(State::Controlled);
    match out {
        Out::Answer => gate.permit() == Ok(1),
        Out::AnswerOfTwo => gate.permit() == Ok(2),
        Out::Future => {
            *future = gate.enter_async();
            true
        }
        Out::Pager => {
            pager.cancel();
            true
        }
        Out::FuturesAnswer => polled_by_another(rt, future) == Some(Ok(passed)),
        Out::PagersAnswer => polled_by_another(rt, &mut pager.poll_async()) == Some(passed),
    }
}

// Brings the waker out, while another thread takes the mutex many times before it reads; whether the one is answered as it must be, and the other has read.
fn bring_beside<'s, H: Threads + Wait + RandomSource + AllocGlobal + Sync, R: Wait + Drop + Sync>(
    rt: &H,
    gate: &'s Gate<R>,
    reader: &PipeReader,
    future: &mut Enter<'s, R>,
    pager: &mut Pager<'s, Gate<R>>,
    out: Out,
) -> (bool, bool) {
    let before = gate.counts().turns();
    thread::join(
        rt,
        || bring(rt, gate, future, pager, out),
        || lock_then_read(rt, gate, before, reader),
    )
}

// Answers the waiter, and takes the wake that is pending for that, but wakes no task: the waker stays where it is.
fn answer_untold<R: Wait + Drop>(gate: &Gate<R>) -> bool {
    call_untold(
        gate,
        |core| core.permit() == Ok(1) && core.next_answered().is_some(),
    )
}

// The slow task polls a future, or a pager, and its waker is brought out while it sleeps; whether it slept, the waiter was answered first where that is
// wanted, the other thread has read, and a future that is answered says so to its task. It joins by the first poll.
fn is_out_at<H: Threads + Wait + RandomSource + AllocGlobal + Sync, R: Wait + Drop + Sync>(
    rt: &H,
    gate: &Gate<R>,
    slow: &mut Slow,
    out: Out,
) -> bool {
    let mut future = gate.enter_async();
    let mut pager = Pager::new();
    let is_by_pager = matches!(out, Out::Pager | Out::PagersAnswer);
    let has_joined = !is_by_pager || gate.register_pager(&mut pager, false) == Ok(true);
    let is_early = if is_by_pager {
        slow.poll(&mut pager.poll_async())
    } else {
        slow.poll(&mut future)
    };
    if is_early || !has_joined || slow.fill().is_err() {
        return false;
    }
    let Some(asleep) = slow.task.sleep() else {
        return false;
    };
    let is_taken = matches!(out, Out::FuturesAnswer | Out::PagersAnswer);
    let is_answered = !is_taken || answer_untold(gate);
    let (is_right, has_read) = bring_beside(rt, gate, &slow.reader, &mut future, &mut pager, out);
    asleep.end();
    let is_late = !matches!(out, Out::Answer | Out::AnswerOfTwo) || slow.poll(&mut future);
    is_answered && is_right && has_read && is_late
}

// The same at a new gate: behind a quick task where both are answered, or alone.
fn is_out<H: Files + Threads + Wait + RandomSource + AllocGlobal + Sync>(
    rt: &H,
    out: Out,
) -> io::Result<bool> {
    let mut slow = Slow::new(rt)?;
    let quick = MockTask::new(rt)?;
    let gate = Gate::new(rt, rt.alloc(), 2)?;
    if out != Out::AnswerOfTwo {
        return Ok(is_out_at(rt, &gate, &mut slow, out));
    }
    let mut one = gate.enter_async();
    let is_early = polled(&quick, &mut one).is_some();
    let is_behind = is_out_at(rt, &gate, &mut slow, out);
    let is_woken = quick.is_woken() && polled(&quick, &mut one).is_some();
    Ok(!is_early && is_behind && is_woken)
}

#[test]
fn each_waker_goes_out_with_the_mutex_free(rt: HostRuntime) {
    for out in OUTS {
        same!(rt; (out, is_out(&rt, out).ok()), (out, Some(true)));
    }
}
