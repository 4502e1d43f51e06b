//! A registration that a task makes at its first poll, and polls for its answer from then on.
//!
//! What each poll does to the core and says is in `specs/Futures.antt`, and the contract of every call here is said
//! over it.

ghost use Rattle.std.specs.Prelude.{◌≡◌, ◌&&◌, not, true, false, Some, is_some};
ghost use Rattle.saa_core.specs.declared.ticket.Registration.TheVariants.{Unregistered};
ghost use Rattle.saa_core_spec.specs.Asking.{registered};
ghost use Rattle.saa_core.specs.Slots.{WakesAnswered};
ghost use Rattle.saa_core.specs.Tickets.{StepsWithTicket, dropping, leaving, is_busy, slot_of};
ghost use Rattle.saa_core.specs.Beginning.{BeginWakes, alone, mode_of};
ghost use Rattle.saa_core.specs.Futures.{IfDone, IsRead, asked, has_joined, is_end, is_waiting, registration_of, waited};

use crate::primitive::Primitive;
use crate::ticket::{Full, How, Ticket};
use std::marker::Model;

/// How far a poll of a future came.
#[derive(Clone, Copy, Debug, Eq, PartialEq)]
pub enum Progress<T> {
    /// It ended, with this value.
    Done(T),
    /// It joined the line by this poll, and waits from now on.
    Joined,
    /// It waits still.
    Waits,
    /// It ended: it would have to wait, and the room is full.
    Refused(Full),
}

impl<T> Progress<T> {
    /// Whether the future has ended by this.
    pub fn is_end(&self) -> bool
        ensures { result ≡ is_end self.now }
    {
        matches!(self, Progress::Done(_) | Progress::Refused(_))
    }

    /// The same progress, with the value that it ended with read so. Nothing is read where it didn't end with one.
    pub fn map<V, F: FnOnce(T) -> V + Drop>(self, read: F) -> Progress<V>
        requires { IfDone self (F.pre read) }
        ensures { IsRead (F.post read) self result }
    {
        match self {
            Progress::Done(value) => Progress::Done(read(value)),
            Progress::Joined => Progress::Joined,
            Progress::Waits => Progress::Waits,
            Progress::Refused(full) => Progress::Refused(full),
        }
    }
}

/// A registration that a task makes at its first poll and polls from then on, as async.
///
/// Nothing is registered before the first poll. It belongs to the core of its first poll: each further poll, and its
/// cancel, take that core. Dropping it while it is registered leaves its slot held, so cancel it first. After
/// its end it isn't polled. Contracts see what it asks, its ticket, and whether it has ended.
#[derive(Drop)]
pub struct PendingRegistration<P: Primitive> {
    ask: P::Ask,
    // Registered as async, if at all; idle once the future has ended.
    ticket: Ticket,
    has_ended: bool,
}

impl<P: Primitive> Model for PendingRegistration<P> {
    ghost use Rattle.saa_core.specs.Futures.{PendingState, IsKept};

    ghost Value = { PendingState };

    ghost view = { λ asking. record { request = P.request asking.ask; ticket = asking.ticket; has_ended = asking.has_ended } };

    ghost invariant = { λ asking. IsKept asking.ticket asking.has_ended };
}

impl<P: Primitive> PendingRegistration<P> {
    /// A future that asks this, and isn't registered yet. Takes no memory.
    pub fn new(ask: P::Ask) -> Self
        ensures { result ≡ record { request = P.request ask; ticket = Unregistered; has_ended = false } }
    {
        PendingRegistration {
            ask,
            ticket: Ticket::new(),
            has_ended: false,
        }
    }

    /// What it asks.
    pub fn ask(&self) -> P::Ask
        ensures { P.request result ≡ self.now.request }
    {
        self.ask
    }

    /// Whether it has ended: by a poll that said so, or by a cancel. Then nothing of it is registered.
    pub fn has_ended(&self) -> bool
        ensures ended { result ≡ self.now.has_ended }
        ensures idle { result ≡ true → self.now.ticket ≡ Unregistered }
    {
        self.has_ended
    }

    /// The slot at which it waits, or has an answer that it didn't look for yet: the waker that this answer wakes is to be
    /// kept by that number. `None` exactly where it isn't registered. It is never registered as sync.
    pub fn slot(&self) -> Option<u16>
        ensures slot { result ≡ slot_of self.now.ticket }
        ensures registered { is_some result ≡ is_busy self.now.ticket }
        ensures mode { is_busy self.now.ticket ≡ true → mode_of self.now.ticket ≡ Some false }
    {
        self.ticket.slot()
    }

    /// Polls it in its core; never waits.
    ///
    /// The first poll registers it as async. `Done(None)`: the registration is false, so it asks for more than there
    /// ever is. `Done(Some(value))`: it was answered at once, and the answer is consumed. `Joined`: it waits in the line,
    /// at the slot that [`Self::slot`] says. `Refused`: it would have to wait, and the room is full; nothing is changed.
    ///
    /// Each further poll looks for the answer. `Done(Some(value))`: it was there, and is consumed. `Waits`: it isn't there
    /// yet, and nothing is changed. In another core than that of its first poll, where its slot isn't held, a poll says
    /// `Waits` too, and the future stays as it was; where a slot of that number is held there too, it is polled as if it
    /// were from there.
    ///
    /// A wake is pending for each waiter that a first poll answers; a further poll answers none. Costs what registering and polling
    /// a ticket costs in the core, and takes no memory.
    pub fn poll_on(&mut self, core: &mut P) -> Progress<Option<u8>>
        requires { self.old.has_ended ≡ false }
        ensures first { is_busy self.old.ticket ≡ false → StepsWithTicket (P.core core.old) (P.core core.new) self.old.ticket self.new.ticket
            (λ s name. asked s name self.old.request) result }
        ensures later { is_busy self.old.ticket ≡ true → StepsWithTicket (P.core core.old) (P.core core.new) self.old.ticket self.new.ticket
            (λ s name. waited s name) result }
        ensures state { self.new ≡ record { request = self.old.request; ticket = self.new.ticket; has_ended = is_end result } }
        ensures ticket { is_busy self.new.ticket ≡ not (is_end result) }
        ensures mode { is_busy self.new.ticket ≡ true → mode_of self.new.ticket ≡ Some false }
        ensures slot { is_some (slot_of self.new.ticket) ≡ is_busy self.new.ticket }
        ensures joined { has_joined result ≡ (not (is_busy self.old.ticket) && is_busy self.new.ticket) }
        ensures waits { is_waiting result ≡ true → self.new.ticket ≡ self.old.ticket }
        ensures registration { is_busy self.old.ticket ≡ false → registration_of result ≡ (registered (alone (P.core core.old)) 0 self.old.request false).reply }
        ensures begins { is_busy self.old.ticket ≡ false → BeginWakes (P.core core.old) (P.core core.new) self.old.ticket self.old.request false (registration_of result) }
        ensures pending_wakes { is_busy self.old.ticket ≡ true → (P.core core.new).slots.pending_wakes ≡ (P.core core.old).slots.pending_wakes }
    {
        let progress = if self.ticket.is_registered() {
            wait_on(&mut self.ticket, core)
        } else {
            ask_on(&mut self.ticket, core, self.ask)
        };
        self.has_ended = progress.is_end();
        progress
    }

    /// Ends it, and drops what it is registered for in its core.
    ///
    /// A waiter leaves the line, and what was granted and not consumed is given back; each waiter that this answers has a
    /// pending wake. Where it isn't registered, nothing is done to the core. Costs what the cancel of a ticket costs in the core,
    /// and takes no memory.
    pub fn cancel_on(&mut self, core: &mut P)
        ensures acts { StepsWithTicket (P.core core.old) (P.core core.new) self.old.ticket self.new.ticket dropping result }
        ensures state { self.new ≡ record { request = self.old.request; ticket = Unregistered; has_ended = true } }
        ensures idle { is_busy self.old.ticket ≡ false → core.new ≡ core.old }
        ensures wakes { is_busy self.old.ticket ≡ true → WakesAnswered (P.core core.old).slots (P.core core.new).slots }
    {
        if self.ticket.is_registered() {
            core.cancel(&mut self.ticket);
        }
        self.has_ended = true;
    }

    /// Ends it as [`Self::cancel_on`] does, and disturbs nobody by it: at a gate all other waiters wait on.
    pub fn leave_on(&mut self, core: &mut P)
        ensures acts { StepsWithTicket (P.core core.old) (P.core core.new) self.old.ticket self.new.ticket leaving result }
        ensures state { self.new ≡ record { request = self.old.request; ticket = Unregistered; has_ended = true } }
        ensures idle { is_busy self.old.ticket ≡ false → core.new ≡ core.old }
        ensures wakes { is_busy self.old.ticket ≡ true → WakesAnswered (P.core core.old).slots (P.core core.new).slots }
    {
        if self.ticket.is_registered() {
            core.leave(&mut self.ticket);
        }
        let has_ended = &mut self.has_ended;
        *has_ended = true;
    }
}

// The first poll: registers an idle ticket as async, and consumes the answer where it is there at once.
fn ask_on<P: Primitive>(ticket: &mut Ticket, core: &mut P, ask: P::Ask) -> Progress<Option<u8>>
    requires { ticket.old ≡ Unregistered }
    ensures acts { StepsWithTicket (P.core core.old) (P.core core.new) ticket.old ticket.new (λ s name. asked s name (P.request ask)) result }
    ensures ticket { is_busy ticket.new ≡ has_joined result }
    ensures end { is_end result ≡ not (has_joined result) }
    ensures mode { has_joined result ≡ true → mode_of ticket.new ≡ Some false }
    ensures slot { has_joined result ≡ true → is_some (slot_of ticket.new) ≡ true }
    ensures registration { registration_of result ≡ (registered (alone (P.core core.old)) 0 (P.request ask) false).reply }
    ensures wakes { BeginWakes (P.core core.old) (P.core core.new) ticket.old (P.request ask) false (registration_of result) }
{
    match core.register(ticket, ask, false) {
        Err(full) => Progress::Refused(full),
        Ok(false) => Progress::Done(None),
        Ok(true) => match core.poll_number(ticket, How::Async) {
            Ok(value) => Progress::Done(Some(value)),
            Err(_not_ready) => Progress::Joined,
        },
    }
}

// A further poll: consumes the answer where it is there.
fn wait_on<P: Primitive>(ticket: &mut Ticket, core: &mut P) -> Progress<Option<u8>>
    requires { is_busy ticket.old ≡ true }
    ensures acts { StepsWithTicket (P.core core.old) (P.core core.new) ticket.old ticket.new (λ s name. waited s name) result }
    ensures ticket { is_busy ticket.new ≡ is_waiting result }
    ensures end { is_end result ≡ not (is_waiting result) }
    ensures same { is_waiting result ≡ true → ticket.new ≡ ticket.old }
    ensures pending_wakes { (P.core core.new).slots.pending_wakes ≡ (P.core core.old).slots.pending_wakes }
{
    match core.poll_number(ticket, How::Async) {
        Ok(value) => Progress::Done(Some(value)),
        Err(_not_there) => Progress::Waits,
    }
}
