//! Gates that are waited at in time.

ghost use Rattle.std.specs.Prelude.{◌≡◌, None, IfOk};
ghost use Rattle.saa_sync.specs.GateAnswers.{entry_fault, gate_fault};

use crate::form::Form;
use crate::gate::{Error, GateCore, State, read_value};
use crate::timed::Deadline;
use saa_core::ticket::Full;
use std::sync::Wait;
use std::time::{Clock, Duration, Instant};

/// What an entry that ends in time answers.
#[derive(Clone, Copy, Debug, Eq, PartialEq)]
pub enum TimedEntry {
    /// It passed, at a gate in this state: `Controlled` if it was permitted, and else `Open`.
    Passed(State),
    /// It didn't pass: `Rejected`, `Sealed` or `SpuriousFailure`.
    Refused(Error),
    /// Time is up, and nothing is registered.
    Late,
}

impl<R: Wait + Clock + Drop> Form<R, GateCore> {
    /// Passes the gate as [`Self::enter_sync`] does, and waits at most so long.
    ///
    /// If time is up, it leaves the queue, and all other waiters wait on. `Full` as there.
    pub fn enter_sync_for(&self, duration: Duration) -> Result<TimedEntry, Full>
        ensures { IfOk result (λ reply. entry_fault reply ≡ None) }
    {
        self.enter_by(Deadline::after(self.rt(), duration))
    }

    /// Passes the gate as [`Self::enter_sync_for`] does, and waits until this instant.
    pub fn enter_sync_until(&self, deadline: Instant) -> Result<TimedEntry, Full>
        ensures { IfOk result (λ reply. entry_fault reply ≡ None) }
    {
        self.enter_by(Deadline::At(deadline))
    }

    // Passes, by this time.
    fn enter_by(&self, deadline: Deadline) -> Result<TimedEntry, Full>
        ensures { IfOk result (λ reply. entry_fault reply ≡ None) }
    {
        match self.acquire_until((), deadline)? {
            Some(value) => Ok(entry(read_value(value))),
            None => Ok(TimedEntry::Late),
        }
    }
}

// What an entry is told that was answered in time.
fn entry(answer: Result<State, Error>) -> TimedEntry
    ensures { entry_fault result ≡ gate_fault answer }
{
    match answer {
        Ok(state) => TimedEntry::Passed(state),
        Err(error) => TimedEntry::Refused(error),
    }
}
