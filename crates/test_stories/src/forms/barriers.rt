//! The barrier of stories.

use crate::forms::{Caller, Form, Span};
use crate::parts::polled_twice;
use saa_core_waits::{Acquiring, Pager};
use saa_sync::barrier::Barrier;
use saa_sync::future::Arrival;
use saa_sync::pager::Ticket;
use saa_sync::testing::{Counted, slot_of};
use std::sync::Wait;
use std::sync::atomic::Ordering::SeqCst;
use std::time::Clock;
use test_language::language::Call;
use test_language::reply::{Replies, Reply, number, unknown};

impl<R: Wait + Clock + Drop> Form<Ticket, Arrival> for Barrier<R> {
    fn call_in_time(&self, call: &Call<'_>, span: Span) -> Reply {
        match (call.verb, span) {
            ("count", _) => number(self.count(SeqCst)),
            ("round", _) => number(self.round(SeqCst) as usize),
            ("arrive", _) => self.arrive().reply(),
            ("join", _) => self.join().reply(),
            ("leave_barrier", _) => self.leave().reply(),
            ("notified", _) => number(self.counts().notified()),
            ("parked", _) => number(self.counts().parked()),
            ("wait", _) => self.wait_sync().reply(),
            ("wait_for", Span::For(long)) => self.wait_sync_for(long).reply(),
            ("wait_until", Span::Until(end)) => self.wait_sync_until(end).reply(),
            _ => unknown(),
        }
    }

    fn call_with<F: FnOnce() + Drop>(&self, who: Caller<'_>, _call: &Call<'_>, begin: F) -> Reply {
        match who {
            Caller::Thread => self.wait_sync_with(begin).reply(),
            _ => polled_twice(who, self.wait_async_with(begin)),
        }
    }

    fn enroll<'s>(&'s self, pager: &mut Pager<'s, Self, Ticket>, call: &Call<'_>) -> Reply {
        self.register_pager(pager, call.is_sync).reply()
    }

    fn is_notified(&self, pager: &Pager<'_, Self, Ticket>) -> Option<bool> {
        slot_of(pager).map(|slot| self.counts().is_notified(slot))
    }

    fn ask(&self, _call: &Call<'_>) -> Acquiring<'_, Self, Arrival> {
        self.wait_async()
    }
}
