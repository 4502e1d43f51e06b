//! What stories wait with at a form: tasks, pagers, and futures of one kind.

use crate::forms::{Caller, Reads, Span};
use futures::executor::block_on;
use futures::test::MockTask;
use saa_core_spec::polling::How;
use saa_core_waits::{Acquiring, AcquiringWith, Pager, Pends, Timed};
use std::alloc::AllocGlobal;
use std::io;
use std::random::RandomSource;
use std::sync::Wait;
use std::thread::{self, Threads};
use test_language::language::Call;
use test_language::reply::{Replies, Reply, ReplyWord, unknown, word};

/// The tasks of a story.
#[derive(Drop)]
pub(crate) struct Tasks([MockTask; 3]);

impl Tasks {
    pub(crate) fn new<H: RandomSource + AllocGlobal>(rt: &H) -> io::Result<Tasks> {
        Ok(Tasks([MockTask::new(rt)?, MockTask::new(rt)?, MockTask::new(rt)?]))
    }

    /// This task.
    pub(crate) fn get(&self, task: usize) -> &MockTask {
        &self.0[task % 3]
    }

    /// Whether this task was woken since its last poll; or a poll of it that polls nothing.
    pub(crate) fn answer(&self, task: usize, call: &Call<'_>) -> Reply {
        if call.verb == "woken" {
            return self.get(task).is_woken().reply();
        }
        self.get(task).enter(|_cx| ());
        word(ReplyWord::Done)
    }
}

/// The pagers of a story.
#[derive(Drop)]
pub(crate) struct Pagers<'s, S: Timed<T> + Drop, T: Drop> {
    first: Pager<'s, S, T>,
    second: Pager<'s, S, T>,
    third: Pager<'s, S, T>,
    fourth: Pager<'s, S, T>,
}

impl<'s, S: Timed<T, Result: Replies> + Drop, T: Drop> Pagers<'s, S, T> {
    pub(crate) fn new() -> Self {
        Pagers {
            first: Pager::new(),
            second: Pager::new(),
            third: Pager::new(),
            fourth: Pager::new(),
        }
    }

    /// This pager.
    pub(crate) fn get(&mut self, pager: usize) -> &mut Pager<'s, S, T> {
        match pager {
            0 => &mut self.first,
            1 => &mut self.second,
            2 => &mut self.third,
            _ => &mut self.fourth,
        }
    }

    /// Polls a pager by a call of its own, for so long if it is timed.
    pub(crate) fn polled(&mut self, call: &Call<'_>, span: Span) -> Reply {
        let pager = self.get(call.pager());
        match (call.verb, span) {
            ("try_poll", _) => pager.try_poll().reply(),
            ("poll_sync", _) => pager.poll_sync().reply(),
            ("poll_async", _) => pager.poll(How::Async).reply(),
            ("poll_for", Span::For(long)) => pager.poll_sync_for(long).reply(),
            ("poll_until", Span::Until(end)) => pager.poll_sync_until(end).reply(),
            _ => unknown(),
        }
    }

    /// Makes another call at a pager.
    pub(crate) fn answer(&mut self, tasks: &Tasks, call: &Call<'_>) -> Reply {
        let pager = self.get(call.pager());
        match call.verb {
            "registered" => pager.is_registered().reply(),
            "poll" => polled_for(pager, tasks.get(call.task)),
            "cancel" => {
                pager.cancel();
                word(ReplyWord::Done)
            }
            "drop" => {
                *pager = Pager::new();
                word(ReplyWord::Dropped)
            }
            _ => unknown(),
        }
    }

    /// Polls a pager as a task of an executor until it is answered.
    pub(crate) fn blocked<H: Wait + RandomSource + AllocGlobal>(
        &mut self,
        rt: &H,
        call: &Call<'_>,
    ) -> Reply {
        match block_on(rt, self.get(call.pager()).poll_async()) {
            Ok(answer) => answer.reply(),
            Err(_no_memory) => unknown(),
        }
    }
}

// One poll for a task, in a future of the pager that is made for it.
fn polled_for<S: Timed<T, Result: Replies>, T: Drop>(
    pager: &mut Pager<'_, S, T>,
    task: &MockTask,
) -> Reply {
    let mut poll = pager.poll_async();
    task.poll(&mut poll).reply()
}

/// What a future with a callback answers a task, which polls it once more where it is woken; with no task it is dropped.
pub(crate) fn polled_twice<S: Pends, Q: Reads, F: FnOnce() + Drop>(
    caller: Caller<'_>,
    mut future: AcquiringWith<'_, S, Q, F>,
) -> Reply
    requires { (begin_wait : F) → F.pre begin_wait }
{
    let Caller::Task(task) = caller else {
        return word(ReplyWord::Done);
    };
    let mut answer = task.poll(&mut future).reply();
    if answer.is("pending") && task.is_woken() {
        answer = task.poll(&mut future).reply();
    }
    if future.has_ended() == answer.is("pending") {
        return unknown();
    }
    answer
}

/// The futures of a story.
#[derive(Drop)]
pub(crate) struct Futures<'s, S: Pends + Drop, Q: Reads> {
    first: Option<Acquiring<'s, S, Q>>,
    second: Option<Acquiring<'s, S, Q>>,
    third: Option<Acquiring<'s, S, Q>>,
}

impl<'s, S: Pends + Drop, Q: Reads> Futures<'s, S, Q> {
    pub(crate) fn new() -> Self {
        Futures {
            first: None,
            second: None,
            third: None,
        }
    }

    fn get(&mut self, future: usize) -> &mut Option<Acquiring<'s, S, Q>> {
        match future {
            0 => &mut self.first,
            1 => &mut self.second,
            _ => &mut self.third,
        }
    }

    /// Has this future in the place of the one that was there.
    pub(crate) fn put(&mut self, name: usize, future: Acquiring<'s, S, Q>) -> Reply {
        *self.get(name) = Some(future);
        word(ReplyWord::Done)
    }

    /// Makes a call at this future, if there is one.
    pub(crate) fn answer(&mut self, tasks: &Tasks, name: usize, call: &Call<'_>) -> Reply {
        let slot = self.get(name);
        let Some(future) = slot else {
            return unknown();
        };
        match call.verb {
            "poll" => tasks.get(call.task).poll(future).reply(),
            "ended" => future.has_ended().reply(),
            "drop" => {
                *slot = None;
                word(ReplyWord::Dropped)
            }
            _ => unknown(),
        }
    }

    /// Polls this future for a task on another thread.
    pub(crate) fn polled_away<H: Threads + Sync>(
        &mut self,
        rt: &H,
        task: &MockTask,
        name: usize,
    ) -> Reply
    where
        S: Sync,
    {
        match self.get(name) {
            Some(future) => thread::join(rt, || (), || task.poll(future).reply()).1,
            None => unknown(),
        }
    }

    /// Awaits this future by an executor.
    pub(crate) fn blocked<H: Wait + RandomSource + AllocGlobal>(
        &mut self,
        rt: &H,
        name: usize,
    ) -> Reply {
        let Some(future) = self.get(name).take() else {
            return unknown();
        };
        blocked(rt, future)
    }
}

/// Awaits a future by an executor.
pub(crate) fn blocked<H: Wait + RandomSource + AllocGlobal, S: Pends, Q: Reads>(
    rt: &H,
    future: Acquiring<'_, S, Q>,
) -> Reply {
    match block_on(rt, future) {
        Ok(answer) => answer.reply(),
        Err(_no_memory) => unknown(),
    }
}
