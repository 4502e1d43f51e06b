//! The semaphores of stories: the lock-free one and the threaded one, by the calls that both have under the same names.

use crate::forms::{Caller, Form, Span};
use crate::parts::polled_twice;
use saa_core_waits::{Acquiring, Pager};
use saa_sync::future::ManyPermits as ThreadedPermits;
use saa_sync::pager::Ticket;
use saa_sync::semaphore::SemaphoreOf as Threaded;
use saa_sync::testing::{Counted, call_untold, slot_of};
use saa_word_lock_free::future::ManyPermits;
use saa_word_lock_free::registration::Registration;
use saa_word_lock_free::semaphore::SemaphoreOf as LockFree;
use saa_word_threads::semaphore::SemaphoreOf as Word;
use std::sync::Wait;
use std::sync::atomic::Ordering::SeqCst;
use std::thread::yield_now;
use std::time::Clock;
use test_language::language::Call;
use test_language::reply::{Replies, Reply, ReplyWord, number, unknown, word};

macro_rules! called {
    ($form:expr, $call:expr, $span:expr) => {
        match ($call.verb, $call.number(), $span) {
            ("bound", _, _) => number(Self::MAX_PERMITS),
            ("shut", _, _) => $form.shut().reply(),
            ("is_shut", _, _) => $form.is_shut().reply(),
            ("is_open", _, _) => $form.is_open(SeqCst).reply(),
            ("is_closed", _, _) => $form.is_closed(SeqCst).reply(),
            ("available", _, _) => number($form.available_permits(SeqCst)),
            ("try", None, _) => $form.try_acquire().reply(),
            ("try", Some(count), _) => $form.try_acquire_many(count).reply(),
            ("release", None, _) => $form.release().reply(),
            ("release", Some(count), _) => $form.release_many(count).reply(),
            ("acquire", None, _) => $form.acquire_sync().reply(),
            ("acquire", Some(count), _) => $form.acquire_many_sync(count).reply(),
            ("acquire_for", None, Span::For(long)) => $form.acquire_sync_for(long).reply(),
            ("acquire_until", None, Span::Until(end)) => $form.acquire_sync_until(end).reply(),
            ("acquire_for", Some(count), Span::For(long)) => {
                $form.acquire_many_sync_for(count, long).reply()
            }
            ("acquire_until", Some(count), Span::Until(end)) => {
                $form.acquire_many_sync_until(count, end).reply()
            }
            _ => unknown(),
        }
    };
}

macro_rules! called_with {
    ($form:expr, $caller:expr, $call:expr, $begin:expr) => {
        match ($caller, $call.number()) {
            (Caller::Thread, Some(count)) => {
                $form.acquire_many_sync_with(count, $begin).reply()
            }
            (Caller::Thread, None) => $form.acquire_sync_with($begin).reply(),
            (caller, Some(count)) => {
                polled_twice(caller, $form.acquire_many_async_with(count, $begin))
            }
            (caller, None) => polled_twice(caller, $form.acquire_async_with($begin)),
        }
    };
}

// Waits until another thread's call sleeps.
fn await_sleeper<R: Wait + Drop, const MAX: usize>(form: &Threaded<R, MAX>) {
    for _look in 0..u64::MAX {
        if form.counts().parked() != 0 {
            return;
        }
        yield_now();
    }
}

// A permit that goes, at once or, where the form says how many sleep, once another call sleeps, or is forgotten; the pager is registered beside it.
macro_rules! permitted {
    ($form:expr, $call:expr, $span:expr, $pager:expr, $await_sleeper:expr) => {{
        let taken = match ($call.verb, $span) {
            ("take_permit" | "hold_permit", _) => $form.acquire_permit().map(Some),
            ("permit_for", Span::For(long)) => $form.acquire_permit_for(long),
            ("permit_until", Span::Until(end)) => $form.acquire_permit_until(end),
            ("try_permit" | "pass_permit", _) => Ok($form.try_acquire_permit()),
            _ => return unknown(),
        };
        match taken {
            Ok(Some(permit)) => {
                let available = $form.available_permits(SeqCst);
                match $call.verb {
                    "pass_permit" => {
                        let _registered = $form.register_pager($pager, 1, true);
                    }
                    "hold_permit" => $await_sleeper,
                    _ => {}
                }
                if $call.then().verb == "forget" {
                    permit.forget();
                }
                number(available)
            }
            Ok(None) => word(ReplyWord::TimedOut),
            Err(full) => full.reply(),
        }
    }};
}

impl<R: Wait + Clock + Drop, const MAX: usize> Form<Registration<Word<MAX>>, ManyPermits>
    for LockFree<R, MAX> {
    fn call_in_time(&self, call: &Call<'_>, span: Span) -> Reply {
        let count = call.number().unwrap_or(1);
        match call.verb {
            "available_witnessed" => number(usize::from(self.available_permits_witnessed().0)),
            "try_witnessed" => self.try_acquire_many_witnessed(count).0.reply(),
            "release_witnessed" => self.release_many_witnessed(count).0.reply(),
            "acquire_witnessed" if count > MAX => word(ReplyWord::False),
            "acquire_witnessed" => match self.acquire_many_witnessed(count) {
                Ok((value, _receipt)) => value.reply(),
                Err(_no_place) => word(ReplyWord::Full),
            },
            _ => called!(self, call, span),
        }
    }

    fn call_with<F: FnOnce() + Drop>(&self, who: Caller<'_>, call: &Call<'_>, begin: F) -> Reply {
        called_with!(self, who, call, begin)
    }

    fn enroll<'s>(
        &'s self,
        pager: &mut Pager<'s, Self, Registration<Word<MAX>>>,
        call: &Call<'_>,
    ) -> Reply {
        self.register_pager(pager, call.asked(), call.is_sync)
            .reply()
    }

    fn with_permit<'s>(
        &'s self,
        call: &Call<'_>,
        span: Span,
        pager: &mut Pager<'s, Self, Registration<Word<MAX>>>,
    ) -> Reply {
        permitted!(self, call, span, pager, ())
    }

    fn ask(&self, call: &Call<'_>) -> Acquiring<'_, Self, ManyPermits> {
        self.acquire_many_async(call.number().unwrap_or(1))
    }
}

impl<R: Wait + Clock + Drop, const MAX: usize> Form<Ticket, ThreadedPermits> for Threaded<R, MAX> {
    fn call_in_time(&self, call: &Call<'_>, span: Span) -> Reply {
        match call.verb {
            "notified" => number(self.counts().notified()),
            "parked" => number(self.counts().parked()),
            "lookers" => number(self.counts().lookers() as usize),
            // It wakes no waiter.
            "release_untold" => call_untold(self, |core| core.release()).reply(),
            _ => called!(self, call, span),
        }
    }

    fn call_with<F: FnOnce() + Drop>(&self, who: Caller<'_>, call: &Call<'_>, begin: F) -> Reply {
        called_with!(self, who, call, begin)
    }

    fn enroll<'s>(&'s self, pager: &mut Pager<'s, Self, Ticket>, call: &Call<'_>) -> Reply {
        self.register_pager(pager, call.asked(), call.is_sync)
            .reply()
    }

    fn is_notified(&self, pager: &Pager<'_, Self, Ticket>) -> Option<bool> {
        slot_of(pager).map(|slot| self.counts().is_notified(slot))
    }

    fn with_permit<'s>(
        &'s self,
        call: &Call<'_>,
        span: Span,
        pager: &mut Pager<'s, Self, Ticket>,
    ) -> Reply {
        permitted!(self, call, span, pager, await_sleeper(self))
    }

    fn ask(&self, call: &Call<'_>) -> Acquiring<'_, Self, ThreadedPermits> {
        self.acquire_many_async(call.number().unwrap_or(1))
    }
}
