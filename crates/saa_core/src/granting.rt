//! What the semaphore and the lock share: a line of waiters, and what is granted to them in FIFO order.
//!
//! The two differ in which request fits, what it takes, and what giving back leaves: that is `Needs`. All else is said
//! and proved here once: taking at once, registering, settling, giving back, undoing and dropping, each held to the
//! steps of the object with any tickets registered in the core. The cores of the semaphore and the lock are its names at what each
//! needs, and have their own calls beside these.

ghost use Rattle.std.specs.Prelude.{true, false, ◌≡◌, ◌<◌, ◌||◌, [], IsErr, OnErr, IfSome, length, slice_get, Some, None, if◌then◌else◌, Option};
ghost use Rattle.std.specs.Bool.{OnFalse};
ghost use Rattle.saa_core_spec.specs.declared.polling.Error.TheVariants.{NotRegistered};
ghost use Rattle.saa_core_spec.specs.Held.{Held, refuses_all, fits, plus, less, asks_too_much};
ghost use Rattle.saa_core_spec.specs.Asking.{tried, registered};
ghost use Rattle.saa_core_spec.specs.Polling.{polled, given_back, is_for_nothing};
ghost use Rattle.saa_core.specs.Slots.{WakesAnswered, IsSound, held_slots, room_of, wake_taken, all_slots_answered};
ghost use Rattle.saa_core.specs.declared.ticket.Registration.TheVariants.{Unregistered};
ghost use Rattle.saa_core.specs.Tickets.{Core, StepsWithTicket, Calls, IsCoreSettled, HasAnswer, Polled, IsForeign, dropping, leaving, fault_of, is_busy, is_yes};
ghost use Rattle.saa_core.specs.CoreParts.{core_settled, core_given, core_undone, core_vacated, takes_now, oldest_fitting, IsGranting, answer_to_all};

use crate::line::LineOf;
use crate::line::order::Order;
use crate::ticket::{Error, Full, How, Registration, Ticket};
use saa_core_spec::request::Request;
use std::marker::Model;

/// What is held by grants: which request fits, what it takes, and what giving back leaves.
pub trait Needs: Drop {
    /// How the line keeps the order of the waiters.
    type Order: Order;

    // What contracts see of it.
    ghost held: { Self → Held };

    /// Whether a request fits what is held.
    fn fits(&self, request: Request) -> bool
        ensures { result ≡ fits (held self.now) request };

    /// Takes what a request takes that fits.
    fn take(&mut self, request: Request)
        requires { fits (held self.old) request ≡ true }
        ensures { held self.new ≡ plus (held self.old) request };

    /// Gives back what a request took; `false`, and unchanged, where that isn't held.
    fn give_back(&mut self, request: Request) -> bool
        ensures given { less (held self.old) request ≡ if result then Some (held self.new) else None }
        ensures refused { OnFalse result (held self.new ≡ held self.old) };

    /// The answer that every registration gets at once, whatever it asks, if there is one: that of a poisoned lock or a shut semaphore.
    fn answer_to_all(&self) -> Option<u8>
        ensures { result ≡ answer_to_all (held self.now) };

    ghost grants: { (needs : Self) → IsGranting (held needs) };
}

/// A line, and what is held by grants out of it.
#[derive(Drop)]
pub struct Granting<N: Needs> {
    needs: N,
    line: LineOf<N::Order>,
}

impl<N: Needs> Model for Granting<N> {
    ghost use Rattle.std.specs.Prelude.{◌≡◌, true, []};
    ghost use Rattle.saa_core_spec.specs.Held.{refuses_all};
    ghost use Rattle.saa_core_spec.specs.Settling.{fitting_front};
    ghost use Rattle.saa_core.specs.Slots.{IsSound};
    ghost use Rattle.saa_core.specs.Tickets.{Core};

    ghost Value = { Core };

    ghost view = { λ core. record { held = N.held core.needs; slots = core.line } };

    ghost invariant = { λ core. record {
      sound : IsSound core.line;
      settled : fitting_front (N.held core.needs) core.line.line ≡ 0;
      refused : refuses_all (N.held core.needs) ≡ true → core.line.line ≡ [];
    } };
}

impl<N: Needs> Granting<N> {
    /// A line at which nobody waits, and what is held.
    pub fn from_parts(needs: N, line: LineOf<N::Order>) -> Self
        requires sound { IsSound line }
        requires nobody { line.line ≡ [] }
        ensures { result ≡ record { held = N.held needs; slots = line } }
    {
        Granting { needs, line }
    }

    /// What is held.
    pub fn needs(&self) -> &N
        ensures held { self.now.held ≡ N.held result.now }
        ensures quiet { WakesAnswered self.now.slots self.now.slots }
        ensures settled { IsCoreSettled self.now }
    {
        &self.needs
    }

    /// How many wait.
    pub fn waiting(&self) -> u16
        ensures waiting { result ≡ length self.now.slots.line }
        ensures sound { IsSound self.now.slots }
        ensures quiet { WakesAnswered self.now.slots self.now.slots }
        ensures settled { IsCoreSettled self.now }
        ensures refused { refuses_all self.now.held ≡ true → self.now.slots.line ≡ [] }
    {
        self.line.waiting()
    }

    /// The waiters, as their order keeps them.
    pub fn waiters(&self) -> &N::Order
        ensures { N.Order.waiters result.now ≡ record { line = self.now.slots.line; room = room_of self.now.slots } }
    {
        self.line.waiters()
    }

    /// Takes what a request takes if there is no waiter and it fits; else `false`, and nothing changes. Costs O(1).
    pub fn try_take(&mut self, request: Request) -> bool
        ensures calls { Calls self.old self.new (λ s. tried s request) result }
        ensures answer { result ≡ takes_now self.old request }
        ensures refused { OnFalse result (self.new ≡ self.old) }
        ensures taken { result ≡ true → self.new ≡ record self.old { held = plus self.old.held request } }
        ensures wakes { WakesAnswered self.old.slots self.new.slots }
        ensures settled { IsCoreSettled self.new }
    {
        if !self.takes_now(request) {
            return false;
        }
        self.needs.take(request);
        true
    }

    /// Gives back what a request took, and grants the oldest waiters while they fit.
    ///
    /// `false`, and unchanged, where that isn't held. Giving no permits back is true, and changes nothing.
    /// Costs O(how many are granted).
    pub fn take_back(&mut self, request: Request) -> bool
        ensures calls { Calls self.old self.new (λ s. given_back s request) result }
        ensures given { self.new ≡ core_given self.old request }
        ensures refused { OnFalse result (self.new ≡ self.old) }
        ensures wakes { WakesAnswered self.old.slots self.new.slots }
        ensures settled { IsCoreSettled self.new }
    {
        if is_for_nothing(request) {
            let _opened = &self.line;
            return true;
        }
        if !self.needs.give_back(request) {
            return false;
        }
        settle(&mut self.needs, &mut self.line);
        true
    }

    /// Registers an idle ticket. What it asks isn't more than there ever is, and the line can keep it. Costs O(1).
    ///
    /// `Ok(true)`: it is answered at once, as everybody is, or granted where there is no waiter and it fits; or it waits, last
    /// in the line. `Ok(false)`: the ticket isn't idle. `Err(Full)`: it would have to wait, and as many slots are held as
    /// there is room. The last two change nothing.
    pub fn register_request(
        &mut self,
        ticket: &mut Ticket,
        request: Request,
        is_sync: bool,
    ) -> Result<bool, Full>
        requires small { asks_too_much self.old.held request ≡ false }
        requires kept { N.Order.keeps request }
        ensures acts { StepsWithTicket self.old self.new ticket.old ticket.new (λ s name. registered s name request is_sync) result }
        ensures ticket { is_busy ticket.new ≡ (is_busy ticket.old || is_yes result) }
        ensures busy { is_busy ticket.old ≡ true
            → (result ≡ Ok false) × (self.new ≡ self.old) × (ticket.new ≡ ticket.old) }
        ensures full { IsErr result → held_slots self.old.slots ≡ room_of self.old.slots }
        ensures refused { is_yes result ≡ false → (self.new ≡ self.old) × (ticket.new ≡ ticket.old) }
        ensures wakes { WakesAnswered self.old.slots self.new.slots }
        ensures settled { IsCoreSettled self.new }
    {
        if ticket.is_registered() {
            let _opened = &self.line;
            return Ok(false);
        }
        if let Some(value) = self.needs.answer_to_all() {
            ticket.set(Registration::AtOnce(value, request, is_sync));
            return Ok(true);
        }
        if self.takes_now(request) {
            self.needs.take(request);
            ticket.set(Registration::AtOnce(0, request, is_sync));
            return Ok(true);
        }
        let Some(slot) = self.line.join(request) else {
            return Err(Full);
        };
        ticket.set(Registration::InSlot(slot, request, is_sync));
        Ok(true)
    }

    /// Polls a ticket for the number of its answer; a core never waits. Costs O(1).
    pub fn poll_number(&mut self, ticket: &mut Ticket, how: How) -> Result<u8, Error>
        ensures acts { StepsWithTicket self.old self.new ticket.old ticket.new (λ s name. polled s name how) result }
        ensures ticket { Polled ticket.old ticket.new how (fault_of result) }
        ensures kept { HasAnswer ticket.old result }
        ensures foreign { IsForeign self.old.slots ticket.old
            → (result ≡ Err NotRegistered) × (self.new ≡ self.old) × (ticket.new ≡ ticket.old) }
        ensures unchanged { OnErr result (self.new ≡ self.old) }
        ensures same { OnErr result (ticket.new ≡ ticket.old) }
        ensures held { self.new.held ≡ self.old.held }
        ensures pending_wakes { self.new.slots.pending_wakes ≡ self.old.slots.pending_wakes }
        ensures settled { IsCoreSettled self.new }
    {
        ticket.poll_in(&mut self.line, how)
    }

    /// Drops what a ticket is registered for: it is idle afterwards in every case.
    ///
    /// A waiter leaves the line, and those behind it are granted while they fit. A grant that wasn't consumed is given
    /// back. A ticket whose slot isn't held here changes nothing. Costs O(how many are granted), and for a waiter what it
    /// costs the line to let one leave.
    pub fn cancel(&mut self, ticket: &mut Ticket)
        ensures acts { StepsWithTicket self.old self.new ticket.old ticket.new dropping result }
        ensures idle { ticket.new ≡ Unregistered }
        ensures unregistered { ticket.old ≡ Unregistered → self.new ≡ self.old }
        ensures foreign { IsForeign self.old.slots ticket.old → self.new ≡ self.old }
        ensures wakes { WakesAnswered self.old.slots self.new.slots }
        ensures settled { IsCoreSettled self.new }
    {
        let _opened = &self.line;
        let registration = ticket.registration();
        ticket.set(Registration::Unregistered);
        match registration {
            Registration::Unregistered => {}
            Registration::AtOnce(value, request, _is_sync) => self.undo(value, request),
            Registration::InSlot(slot, request, _is_sync) => self.vacate(slot, request),
        }
    }

    /// Drops what a ticket is registered for, as [`Self::cancel`] does: here nobody is told that a waiter left.
    pub fn leave(&mut self, ticket: &mut Ticket)
        ensures acts { StepsWithTicket self.old self.new ticket.old ticket.new leaving result }
        ensures idle { ticket.new ≡ Unregistered }
        ensures unregistered { ticket.old ≡ Unregistered → self.new ≡ self.old }
        ensures foreign { IsForeign self.old.slots ticket.old → self.new ≡ self.old }
        ensures wakes { WakesAnswered self.old.slots self.new.slots }
        ensures settled { IsCoreSettled self.new }
    {
        let _opened = &self.line;
        self.cancel(ticket);
    }

    /// Takes out the oldest pending wake, and reports its slot; `None` exactly where none is pending. Costs O(1).
    pub fn next_answered(&mut self) -> Option<u16>
        ensures oldest { result ≡ slice_get self.old.slots.pending_wakes 0 }
        ensures taken { self.new ≡ record self.old { slots = wake_taken self.old.slots } }
        ensures within { IfSome result (λ slot. slot < room_of self.old.slots) }
        ensures settled { IsCoreSettled self.new }
    {
        self.line.next_answered()
    }

    /// This is held from now on, and the oldest waiters are granted while they fit. It isn't what refuses every request.
    ///
    /// Costs O(how many are granted).
    pub(crate) fn settle_with(&mut self, needs: N)
        requires grants { refuses_all (N.held needs) ≡ false }
        ensures granted { self.new ≡ core_settled (record self.old { held = N.held needs }) }
        ensures wakes { WakesAnswered self.old.slots self.new.slots }
        ensures settled { IsCoreSettled self.new }
    {
        self.needs = needs;
        settle(&mut self.needs, &mut self.line);
    }

    /// All waiters are answered with a value, and this is held from now on. Costs O(how many wait).
    pub(crate) fn answer_all(&mut self, needs: N, value: u8)
        ensures answered { self.new ≡ record { held = N.held needs; slots = all_slots_answered value self.old.slots } }
        ensures wakes { WakesAnswered self.old.slots self.new.slots }
        ensures settled { IsCoreSettled self.new }
    {
        self.needs = needs;
        self.line.answer_all(value);
    }

    /// This is held from now on; nobody waits.
    pub(crate) fn replace(&mut self, needs: N)
        requires { self.old.slots.line ≡ [] }
        ensures replaced { self.new ≡ record self.old { held = N.held needs } }
        ensures wakes { WakesAnswered self.old.slots self.new.slots }
        ensures settled { IsCoreSettled self.new }
    {
        self.needs = needs;
    }

    // Whether a request is granted at once.
    fn takes_now(&self, request: Request) -> bool
        ensures { result ≡ takes_now self.now request }
    {
        if self.line.waiting() != 0 {
            return false;
        }
        self.needs.fits(request)
    }

    // Undoes an answer that isn't consumed: what was granted is given back.
    fn undo(&mut self, value: u8, request: Request)
        ensures undone { self.new ≡ core_undone self.old value request }
        ensures wakes { WakesAnswered self.old.slots self.new.slots }
        ensures settled { IsCoreSettled self.new }
    {
        let _opened = &self.line;
        if value != 0 {
            return;
        }
        let _given = self.take_back(request);
    }

    // Frees a slot of this core: its answer is undone, or it leaves the line; a slot that isn't held is nothing.
    fn vacate(&mut self, slot: u16, request: Request)
        ensures vacated { self.new ≡ core_vacated self.old slot request }
        ensures wakes { WakesAnswered self.old.slots self.new.slots }
        ensures settled { IsCoreSettled self.new }
    {
        if let Some(value) = self.line.take(slot) {
            self.undo(value, request);
            return;
        }
        if self.line.leave(slot) {
            settle(&mut self.needs, &mut self.line);
        }
    }
}

// Whether a request is for no permits: giving them back is always true.
fn is_for_nothing(request: Request) -> bool
    ensures { result ≡ is_for_nothing request }
{
    matches!(request, Request::Permits(0))
}

// Grants the oldest waiters while they fit. The look at the line is all that most calls need of it, so it is apart from the loop.
fn settle<N: Needs>(needs: &mut N, line: &mut LineOf<N::Order>)
    requires { IsSound line.old }
    ensures settled { record { held = N.held needs.new; slots = line.new }
        ≡ core_settled (record { held = N.held needs.old; slots = line.old }) }
    ensures sound { IsSound line.new }
{
    if line.waiting() == 0 {
        return;
    }
    grant_fitting(needs, line);
}

// The same, of a line in which somebody waits.
#[inline(never)]
fn grant_fitting<N: Needs>(needs: &mut N, line: &mut LineOf<N::Order>)
    requires { IsSound line.old }
    ensures settled { record { held = N.held needs.new; slots = line.new }
        ≡ core_settled (record { held = N.held needs.old; slots = line.old }) }
    ensures sound { IsSound line.new }
{
    while let Some(request) = oldest_fitting(needs, line) {
        needs.take(request);
        line.grant_front(1);
    }
}

// What the oldest waiter asks, if that fits.
fn oldest_fitting<N: Needs>(needs: &N, line: &LineOf<N::Order>) -> Option<Request>
    ensures { result ≡ oldest_fitting (N.held needs.now) line.now.line }
{
    let (_slot, request) = line.oldest()?;
    if !needs.fits(request) {
        return None;
    }
    Some(request)
}
