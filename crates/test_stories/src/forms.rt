//! A form as stories call it: any primitive, threaded or lock-free.

mod barriers;
mod gates;
mod locks;
mod semaphores;

use futures::test::MockTask;
use saa_core_waits::{Acquiring, AnswerReader, Pager, Pends, Timed};
use std::alloc::AllocGlobal;
use std::random::RandomSource;
use std::sync::Wait;
use std::thread::Threads;
use std::time::{Clock, Duration, Instant};
use test_language::language::Call;
use test_language::reply::{Replies, Reply, unknown};

/// How long a timed call waits; one that isn't waits for ever.
#[derive(Clone, Copy)]
pub(crate) enum Span {
    Ever,
    For(Duration),
    Until(Instant),
}

/// Who makes a call with a callback: a thread, a task by a future, or nobody, where the future is dropped.
#[derive(Clone, Copy)]
pub(crate) enum Caller<'c> {
    Thread,
    Task(&'c MockTask),
    Nobody,
}

/// A runtime on which stories are played.
pub(crate) trait Host: Wait + Clock + Threads + Sync + RandomSource + AllocGlobal {}

impl<H: Wait + Clock + Threads + Sync + RandomSource + AllocGlobal> Host for H {}

/// A reader of futures' answers that reads them as replies.
pub(crate) trait Reads: AnswerReader<Output: Replies, Error: Replies> {}

impl<Q: AnswerReader<Output: Replies, Error: Replies>> Reads for Q {}

/// A form whose pagers have registrations of the type `T`, and whose futures read answers by `Q`.
///
/// Each call is answered by what it replies, and `?` where it is none of this form.
pub(crate) trait Form<T: Drop, Q: Reads>: Timed<T, Result: Replies> + Pends {
    /// Readings, tries, releases, and calls that may block: so long if they are timed, and else as long as they must.
    fn call_in_time(&self, call: &Call<'_>, span: Span) -> Reply;

    /// The same of a call that isn't timed.
    fn call(&self, call: &Call<'_>) -> Reply {
        self.call_in_time(call, Span::Ever)
    }

    /// Makes a call that may block, or a future, with a callback for as it begins to wait; a future's task polls it once more where it is woken.
    fn call_with<F: FnOnce() + Drop>(&self, who: Caller<'_>, call: &Call<'_>, begin: F) -> Reply
        requires callable { F.pre begin }
        requires always { (begin : F) → F.pre begin };

    /// Registers a pager for what is asked.
    fn enroll<'s>(&'s self, pager: &mut Pager<'s, Self, T>, call: &Call<'_>) -> Reply;

    /// Whether the parker of a pager's slot is notified; nothing where it has none, or the form doesn't say.
    fn is_notified(&self, _pager: &Pager<'_, Self, T>) -> Option<bool> {
        None
    }

    /// Takes a permit so, and answers how many are available until it goes; the pager may be registered for it meanwhile.
    fn with_permit<'s>(
        &'s self,
        _call: &Call<'_>,
        _span: Span,
        _pager: &mut Pager<'s, Self, T>,
    ) -> Reply {
        unknown()
    }

    /// Makes a future.
    fn ask(&self, call: &Call<'_>) -> Acquiring<'_, Self, Q>;
}
