//! The gate of stories.

use crate::forms::{Caller, Form, Span};
use crate::parts::polled_twice;
use saa_core::Primitive;
use saa_core_spec::request::Full;
use saa_core_waits::{Acquiring, Pager};
use saa_sync::future::Passing;
use saa_sync::gate::{Gate, TimedEntry};
use saa_sync::pager::Ticket;
use saa_sync::testing::{Counted, call_untold, slot_of};
use std::sync::Wait;
use std::sync::atomic::Ordering::SeqCst;
use std::time::Clock;
use test_language::language::Call;
use test_language::reply::{Replies, Reply, ReplyWord, number, unknown, word};

impl<R: Wait + Clock + Drop> Form<Ticket, Passing> for Gate<R> {
    fn call_in_time(&self, call: &Call<'_>, span: Span) -> Reply {
        match (call.verb, span) {
            ("state", _) => self.state(SeqCst).reply(),
            ("reset", _) => match self.reset() {
                Some(before) => before.reply(),
                None => word(ReplyWord::None),
            },
            ("permit", _) => self.permit().reply(),
            ("permit_many", _) => self.permit_many(call.number().unwrap_or(0)).reply(),
            ("reject", _) => self.reject().reply(),
            ("open", _) => self.open().reply(),
            ("seal", _) => self.seal().reply(),
            ("give_up", _) => gives_up(self).reply(),
            ("permit_untold", _) => is_untold(self).reply(),
            ("notified", _) => number(self.counts().notified()),
            ("parked", _) => number(self.counts().parked()),
            ("enter", _) => self.enter_sync().reply(),
            ("enter_for", Span::For(long)) => entered(self.enter_sync_for(long)),
            ("enter_until", Span::Until(end)) => entered(self.enter_sync_until(end)),
            _ => unknown(),
        }
    }

    fn call_with<F: FnOnce() + Drop>(&self, who: Caller<'_>, _call: &Call<'_>, begin: F) -> Reply {
        match who {
            Caller::Thread => self.enter_sync_with(begin).reply(),
            _ => polled_twice(who, self.enter_async_with(begin)),
        }
    }

    fn enroll<'s>(&'s self, pager: &mut Pager<'s, Self, Ticket>, call: &Call<'_>) -> Reply {
        self.register_pager(pager, call.is_sync).reply()
    }

    fn is_notified(&self, pager: &Pager<'_, Self, Ticket>) -> Option<bool> {
        slot_of(pager).map(|slot| self.counts().is_notified(slot))
    }

    fn ask(&self, _call: &Call<'_>) -> Acquiring<'_, Self, Passing> {
        self.enter_async()
    }
}

// What a timed call answers.
fn entered(answer: Result<TimedEntry, Full>) -> Reply {
    match answer {
        Ok(TimedEntry::Passed(state)) => state.granted(),
        Ok(TimedEntry::Refused(error)) => error.reply(),
        Ok(TimedEntry::Late) => word(ReplyWord::TimedOut),
        Err(full) => full.reply(),
    }
}

// Another pager is registered, and dropped.
fn gives_up<R: Wait + Drop>(gate: &Gate<R>) -> Result<bool, Full> {
    let mut pager = Pager::new();
    gate.register_pager(&mut pager, true)
}

// Answers the waiter, and takes the wake that is pending for that, but wakes no task: the waker stays where it is.
fn is_untold<R: Wait + Drop>(gate: &Gate<R>) -> bool {
    call_untold(gate, |core| {
        core.permit() == Ok(1) && core.next_answered().is_some()
    })
}
