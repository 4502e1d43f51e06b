//! The locks of stories: the lock-free one and the threaded one, by the calls that both have under the same names.

use crate::forms::{Caller, Form, Span};
use crate::parts::polled_twice;
use saa_core_waits::{Acquiring, Pager};
use saa_sync::future::Turn as ThreadedTurn;
use saa_sync::lock::Lock as Threaded;
use saa_sync::pager::Ticket;
use saa_sync::testing::{Counted, slot_of};
use saa_word_lock_free::future::Turn;
use saa_word_lock_free::lock::Lock as LockFree;
use saa_word_lock_free::registration::Registration;
use saa_word_threads::lock::Lock as Word;
use std::sync::Wait;
use std::sync::atomic::Ordering::SeqCst;
use std::time::Clock;
use test_language::language::Call;
use test_language::reply::{Replies, Reply, ReplyWord, number, unknown, word};

macro_rules! called {
    ($form:expr, $call:expr, $span:expr) => {
        match ($call.verb, $span) {
            ("is_free", _) => $form.is_free(SeqCst).reply(),
            ("is_locked", _) => $form.is_locked(SeqCst).reply(),
            ("is_shared", _) => $form.is_shared(SeqCst).reply(),
            ("is_poisoned", _) => $form.is_poisoned(SeqCst).reply(),
            ("try_lock", _) => $form.try_lock().reply(),
            ("try_share", _) => $form.try_share().reply(),
            ("release_lock", _) => $form.release_lock().reply(),
            ("release_share", _) => $form.release_share().reply(),
            ("downgrade", _) => $form.downgrade().reply(),
            ("poison_lock", _) => $form.poison_lock().reply(),
            ("clear_poison", _) => $form.clear_poison().reply(),
            ("lock", _) => $form.lock_sync().reply(),
            ("share", _) => $form.share_sync().reply(),
            ("lock_for", Span::For(long)) => $form.lock_sync_for(long).reply(),
            ("lock_until", Span::Until(end)) => $form.lock_sync_until(end).reply(),
            ("share_for", Span::For(long)) => $form.share_sync_for(long).reply(),
            ("share_until", Span::Until(end)) => $form.share_sync_until(end).reply(),
            _ => unknown(),
        }
    };
}

macro_rules! called_with {
    ($form:expr, $caller:expr, $call:expr, $begin:expr) => {
        match ($caller, is_share($call)) {
            (Caller::Thread, true) => $form.share_sync_with($begin).reply(),
            (Caller::Thread, false) => $form.lock_sync_with($begin).reply(),
            (caller, true) => polled_twice(caller, $form.share_async_with($begin)),
            (caller, false) => polled_twice(caller, $form.lock_async_with($begin)),
        }
    };
}

macro_rules! asked {
    ($form:expr, $call:expr) => {
        if is_share($call) {
            $form.share_async()
        } else {
            $form.lock_async()
        }
    };
}

// Whether a call asks for a share.
fn is_share(call: &Call<'_>) -> bool {
    matches!(call.verb, "share" | "share_with")
}

impl<R: Wait + Clock + Drop> Form<Registration<Word>, Turn> for LockFree<R> {
    fn call_in_time(&self, call: &Call<'_>, span: Span) -> Reply {
        match call.verb {
            "try_as" => self.try_witnessed(call.mode).0.reply(),
            "release_lock_witnessed" => self.release_lock_witnessed().0.reply(),
            "release_share_witnessed" => self.release_share_witnessed().0.reply(),
            "downgrade_witnessed" => self.downgrade_witnessed().0.reply(),
            "poison_lock_witnessed" => self.poison_lock_witnessed().0.reply(),
            "take_witnessed" => match self.take_witnessed(call.mode) {
                Ok((value, _receipt)) => value.reply(),
                Err(_no_place) => word(ReplyWord::Full),
            },
            _ => called!(self, call, span),
        }
    }

    fn call_with<F: FnOnce() + Drop>(&self, who: Caller<'_>, call: &Call<'_>, begin: F) -> Reply {
        called_with!(self, who, call, begin)
    }

    fn enroll<'s>(
        &'s self,
        pager: &mut Pager<'s, Self, Registration<Word>>,
        call: &Call<'_>,
    ) -> Reply {
        self.register_pager(pager, call.mode, call.is_sync).reply()
    }

    fn ask(&self, call: &Call<'_>) -> Acquiring<'_, Self, Turn> {
        asked!(self, call)
    }
}

impl<R: Wait + Clock + Drop> Form<Ticket, ThreadedTurn> for Threaded<R> {
    fn call_in_time(&self, call: &Call<'_>, span: Span) -> Reply {
        match call.verb {
            "notified" => number(self.counts().notified()),
            "parked" => number(self.counts().parked()),
            _ => called!(self, call, span),
        }
    }

    fn call_with<F: FnOnce() + Drop>(&self, who: Caller<'_>, call: &Call<'_>, begin: F) -> Reply {
        called_with!(self, who, call, begin)
    }

    fn enroll<'s>(&'s self, pager: &mut Pager<'s, Self, Ticket>, call: &Call<'_>) -> Reply {
        self.register_pager(pager, call.mode, call.is_sync).reply()
    }

    fn is_notified(&self, pager: &Pager<'_, Self, Ticket>) -> Option<bool> {
        slot_of(pager).map(|slot| self.counts().is_notified(slot))
    }

    fn ask(&self, call: &Call<'_>) -> Acquiring<'_, Self, ThreadedTurn> {
        asked!(self, call)
    }
}
