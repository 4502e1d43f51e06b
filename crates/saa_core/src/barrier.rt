//! The barrier: as many tasks as its size wait for one another, and pass together.
//!
//! The core is held to `specs/Barrier.antt` of `saa_core_spec` by every call, with any tickets that are registered in it.
//! The waiters are in a line; the last arrival of a round never is. An arrival that doesn't wait is only counted. That a round
//! stays incomplete while tasks wait is `specs/BarrierInvariant.antt`.

ghost use Rattle.std.specs.Prelude.{true, false, ◌≡◌, ℕ, ◌+◌, ◌-◌, ◌≤◌, ◌==◌, ◌||◌, ◌&&◌, nat_lt, length, min, replicate, IsOk, IfOk, OnErr, IsErr};
ghost use Rattle.saa_core_spec.specs.declared.request.Request.TheVariants.{Arrive};
ghost use Rattle.saa_core_spec.specs.declared.polling.Error.TheVariants.{NotRegistered};
ghost use Rattle.saa_core.specs.declared.ticket.Registration.TheVariants.{Unregistered, AtOnce};
ghost use Rattle.saa_core_spec.specs.Held.{OfBarrier, max_tasks};
ghost use Rattle.saa_core_spec.specs.Asking.{registered};
ghost use Rattle.saa_core_spec.specs.Polling.{polled, read_as};
ghost use Rattle.saa_core_spec.specs.Values.{barrier_value, leader_value, passed_value};
ghost use Rattle.saa_core_spec.specs.Barrier.{size_of, arrived_of, round_of, is_complete, barrier_step, new_barrier};
ghost use Rattle.saa_core.specs.Slots.{WakesAnswered, empty_slots, held_slots, room_of, all_slots_answered};
ghost use Rattle.saa_core.specs.Tickets.{StepsWithTicket, Calls, Belong, Polled, IsForeign, dropping, fault_of, is_busy, is_yes, object_of};
ghost use Rattle.saa_core.specs.BarrierInvariant.{IsBarrierInvariant};
ghost use Rattle.saa_core.specs.Waiters.{IsWaiting, left_by};
ghost use Rattle.saa_core.specs.GatheringParts.{vacated};
ghost use Rattle.saa_core.specs.BarrierParts.{core_complete, core_resized};
ghost use Rattle.saa_core_spec.specs.Object.{one_if};

use crate::line::Line;
use crate::primitive::Primitive;
use crate::ticket::{Error, Full, How, Registration, Ticket};
pub use saa_core_spec::barrier::{BarrierAnswer, BarrierCall};
use saa_core_spec::request::Request;
use std::alloc::{AllocError, Global};
use std::fmt;
use std::marker::Model;

// The answer of an arrival whose round another one completed.
const PASSED: u8 = 0;

// The answer of the arrival that completes a round.
const LEADER: u8 = 1;

/// The core of a barrier for at most 63 tasks.
///
/// It is used by one task at a time; a threaded form puts a lock round it. Each ticket is used with the core that
/// it was registered in. Only making takes memory, and nothing is refused for want of it afterwards.
#[derive(Drop)]
pub struct BarrierCore {
    size: usize,
    // Arrivals of this round that don't wait.
    arrived: usize,
    // Rounds that are complete.
    round: u64,
    line: Line,
}

impl Model for BarrierCore {
    ghost use Rattle.std.specs.Prelude.{◌≤◌};
    ghost use Rattle.saa_core_spec.specs.Held.{OfBarrier, max_tasks};
    ghost use Rattle.saa_core.specs.Slots.{IsSound};
    ghost use Rattle.saa_core.specs.Tickets.{Core};
    ghost use Rattle.saa_core.specs.BarrierInvariant.{IsBarrierOf};

    ghost Value = { Core };

    ghost view = { λ barrier. record { held = OfBarrier barrier.size barrier.arrived barrier.round; slots = barrier.line } };

    ghost invariant = { λ barrier. record {
      sound : IsSound barrier.line;
      small : barrier.size ≤ max_tasks;
      bounded : barrier.arrived ≤ max_tasks;
      incomplete : IsBarrierOf (OfBarrier barrier.size barrier.arrived barrier.round) barrier.line.line;
    } };
}

impl BarrierCore {
    /// The most tasks that a barrier is for.
    pub const MAX_TASKS: usize = 63;

    /// A barrier for so many tasks, and room for so many waiters. A number above 63 is cut to it.
    /// Costs O(`room`).
    ///
    /// At a barrier of size 0 every arrival waits, and none is answered before [`Self::join`]; at one of size 1
    /// every arrival passes at once. Reserves all the memory that it will ever need; the error comes only where that was
    /// refused.
    pub fn with_count(alloc: Global, count: usize, room: u16) -> Result<Self, AllocError>
        ensures made { IfOk result (λ core.
            core ≡ record { held = OfBarrier (min count max_tasks) 0 0; slots = empty_slots room }) }
        ensures no_room { room ≡ 0 → IsOk result }
        ensures idle_tickets { IfOk result (λ core. (names : ℕ) → Belong core.slots (replicate names Unregistered)) }
        ensures object { IfOk result (λ core. (names : ℕ)
            → object_of core (replicate names Unregistered) ≡ new_barrier count room names) }
    {
        let line = Line::with_room(alloc, room)?;
        Ok(BarrierCore {
            size: count.min(Self::MAX_TASKS),
            arrived: 0,
            round: 0,
            line,
        })
    }

    /// How many arrivals the round still waits for: the size less the arrivals, and 0 at a barrier of size 0. Costs O(1).
    pub fn count(&self) -> usize
        ensures calls { Calls self.now self.now (barrier_step BarrierCall.Count) (BarrierAnswer.Count result) }
        ensures answer { result ≡ size_of self.now.held - (arrived_of self.now.held + length self.now.slots.line) }
        ensures within { result ≤ max_tasks }
    {
        self.size
            .saturating_sub(self.arrived + usize::from(self.line.waiting()))
    }

    /// How many rounds are complete, up to `u64::MAX`, where the number stays. Costs O(1).
    ///
    /// It grows by 1 each time a round is complete, and by nothing else. The round of an arrival is the number that this says
    /// just before it arrives.
    pub fn round(&self) -> u64
        ensures calls { Calls self.now self.now (barrier_step BarrierCall.Round) (BarrierAnswer.Round result) }
        ensures answer { result ≡ round_of self.now.held }
    {
        self.round
    }

    /// Arrives without waiting, as at a latch; says whether this completes the round.
    ///
    /// `true`: all waiters are answered that they passed, none as the leader, and the next round begins. `false`: the round waits
    /// for one arrival less; at a barrier of size 0 nothing changes. Costs O(how many are answered).
    pub fn count_arrival(&mut self) -> bool
        ensures calls { Calls self.old self.new (barrier_step BarrierCall.Arrive) (BarrierAnswer.Bool result) }
        ensures answer { result ≡ (nat_lt 0 (size_of self.old.held)
            && is_complete (size_of self.old.held) (arrived_of self.old.held + 1 + length self.old.slots.line)) }
        ensures wakes { WakesAnswered self.old.slots self.new.slots }
        ensures invariant { IsBarrierInvariant self.new }
    {
        if self.size == 0 {
            return false;
        }
        self.resize(self.size, self.arrived + 1)
    }

    /// Makes the barrier one task larger, from this round on; says whether it did.
    ///
    /// `false` exactly at the greatest size, [`Self::MAX_TASKS`]: nothing changes. Waiters of a barrier of size 0 are answered that
    /// they passed, as its round is complete at size 1. Costs O(how many are answered).
    pub fn join(&mut self) -> bool
        ensures calls { Calls self.old self.new (barrier_step BarrierCall.Join) (BarrierAnswer.Bool result) }
        ensures answer { result ≡ nat_lt (size_of self.old.held) max_tasks }
        ensures size { size_of self.new.held ≡ size_of self.old.held + one_if result }
        ensures wakes { WakesAnswered self.old.slots self.new.slots }
        ensures invariant { IsBarrierInvariant self.new }
    {
        if self.size == Self::MAX_TASKS {
            return false;
        }
        let _is_complete = self.resize(self.size + 1, self.arrived);
        true
    }

    /// Makes the barrier one task smaller, from this round on; says whether this completes the round.
    ///
    /// `true`: all other tasks have arrived, and there are some. All waiters are answered that they passed, none as the leader, and
    /// the next round begins. `false`: the round waits for one arrival less; at a barrier of size 0 nothing changes. A task whose
    /// own arrival waits cancels that first. Costs O(how many are answered).
    pub fn leave(&mut self) -> bool
        ensures calls { Calls self.old self.new (barrier_step BarrierCall.Leave) (BarrierAnswer.Bool result) }
        ensures answer { result ≡ (nat_lt 0 (size_of self.old.held)
            && is_complete (size_of self.old.held - 1) (arrived_of self.old.held + length self.old.slots.line)) }
        ensures size { size_of self.new.held ≡ size_of self.old.held - 1 }
        ensures wakes { WakesAnswered self.old.slots self.new.slots }
        ensures invariant { IsBarrierInvariant self.new }
    {
        if self.size == 0 {
            return false;
        }
        self.resize(self.size - 1, self.arrived)
    }

    /// Registers an idle ticket as an arrival, as sync or as async.
    ///
    /// `Ok(true)`: if all others of the round have arrived, the round is complete: the waiters are answered that they passed, and
    /// this arrival is answered at once that it is the leader, and needs no slot. Else it waits, last in the line, in a slot.
    /// `Ok(false)`: the ticket isn't idle; nothing changes. `Err(Full)`: it would have to wait, and as many slots are held
    /// as there is room; nothing changes. Costs O(how many are answered).
    pub fn arrive(&mut self, ticket: &mut Ticket, is_sync: bool) -> Result<bool, Full>
        ensures acts { StepsWithTicket self.old self.new ticket.old ticket.new (λ s name. registered s name Arrive is_sync) result }
        ensures ticket { is_busy ticket.new ≡ (is_busy ticket.old || is_yes result) }
        ensures busy { is_busy ticket.old ≡ true
            → (result ≡ Ok false) × (self.new ≡ self.old) × (ticket.new ≡ ticket.old) }
        ensures last { is_busy ticket.old ≡ false → arrived_of self.old.held + length self.old.slots.line + 1 ≡ size_of self.old.held
            → (result ≡ Ok true) × (self.new ≡ core_complete self.old.slots (size_of self.old.held) (round_of self.old.held))
            × (ticket.new ≡ AtOnce leader_value Arrive is_sync) }
        ensures full { IsErr result → held_slots self.old.slots ≡ room_of self.old.slots }
        ensures nobody { ¬ (arrived_of self.old.held + length self.old.slots.line + 1 ≡ size_of self.old.held)
            → (self.new.held ≡ self.old.held) × (self.new.slots.pending_wakes ≡ self.old.slots.pending_wakes) }
        ensures refused { is_yes result ≡ false → (self.new ≡ self.old) × (ticket.new ≡ ticket.old) }
        ensures size { size_of self.new.held ≡ size_of self.old.held }
        ensures wakes { WakesAnswered self.old.slots self.new.slots }
        ensures invariant { IsBarrierInvariant self.new }
    {
        if ticket.is_registered() {
            let _opened = &self.line;
            return Ok(false);
        }
        if self.completes_round() {
            let _is_complete = self.resize(self.size, self.arrived + 1);
            ticket.set(Registration::AtOnce(LEADER, Request::Arrive, is_sync));
            return Ok(true);
        }
        let Some(slot) = self.line.join(Request::Arrive) else {
            return Err(Full);
        };
        ticket.set(Registration::InSlot(slot, Request::Arrive, is_sync));
        Ok(true)
    }

    /// Polls a ticket for its answer: whether it is the leader of its round; a core never waits. Costs O(1).
    ///
    /// `NotRegistered`: the ticket is idle, or its slot isn't held in this core. `WrongMode`: it was registered as
    /// async and is polled as sync, or the other way round. `NotReady`: its round isn't complete. None of these changes
    /// anything. `Ok`: its slot is free again, and the ticket is idle.
    pub fn poll(&mut self, ticket: &mut Ticket, how: How) -> Result<bool, Error>
        ensures acts { StepsWithTicket self.old self.new ticket.old ticket.new (λ s name. read_as barrier_value (polled s name how)) result }
        ensures ticket { Polled ticket.old ticket.new how (fault_of result) }
        ensures foreign { IsForeign self.old.slots ticket.old
            → (result ≡ Err NotRegistered) × (self.new ≡ self.old) × (ticket.new ≡ ticket.old) }
        ensures unchanged { OnErr result (self.new ≡ self.old) }
        ensures size { self.new.held ≡ self.old.held }
        ensures pending_wakes { self.new.slots.pending_wakes ≡ self.old.slots.pending_wakes }
        ensures invariant { IsBarrierInvariant self.new }
    {
        let answer = self.poll_number(ticket, how);
        read_answer(answer)
    }

    // Whether all others of the round have arrived, so that one more arrival completes it.
    fn completes_round(&self) -> bool
        ensures { result ≡ (arrived_of self.now.held + length self.now.slots.line + 1 == size_of self.now.held) }
    {
        self.arrived + usize::from(self.line.waiting()) + 1 == self.size
    }

    // Makes the barrier of this size, with so many arrivals that don't wait; says whether its round is complete then. If so, all
    // waiters pass, and the next round begins.
    fn resize(&mut self, size: usize, arrived: usize) -> bool
        requires small { size ≤ max_tasks }
        requires bounded { arrived ≤ max_tasks }
        ensures complete { result ≡ is_complete size (arrived + length self.old.slots.line) }
        ensures state { self.new ≡ core_resized self.old.slots size arrived (round_of self.old.held) }
        ensures wakes { WakesAnswered self.old.slots self.new.slots }
        ensures invariant { IsBarrierInvariant self.new }
    {
        let is_complete = completes(size, arrived + usize::from(self.line.waiting()));
        self.size = size;
        if !is_complete {
            self.arrived = arrived;
            return false;
        }
        self.line.answer_all(PASSED);
        self.arrived = 0;
        self.round = self.round.saturating_add(1);
        true
    }

    // Frees a slot of this core: its answer is consumed, or it leaves the line; a slot that isn't held is nothing.
    fn vacate(&mut self, slot: u16)
        ensures vacated { self.new ≡ record self.old { slots = vacated (λ s. s) self.old.slots slot } }
        ensures nobody { self.new.slots.pending_wakes ≡ self.old.slots.pending_wakes }
        ensures wakes { WakesAnswered self.old.slots self.new.slots }
        ensures invariant { IsBarrierInvariant self.new }
    {
        if self.line.take(slot).is_none() {
            let _left = self.line.leave(slot);
        }
    }
}

// Whether so many arrivals complete a round of this size: as many as that, or more, and at least one.
fn completes(size: usize, arrivals: usize) -> bool
    ensures { result ≡ is_complete size arrivals }
{
    0 < arrivals && size <= arrivals
}

// What the number of an answer means: the leader or not.
fn read_answer(answer: Result<u8, Error>) -> Result<bool, Error>
    ensures { result ≡ barrier_value answer }
{
    match answer {
        Ok(value) => Ok(value == LEADER),
        Err(error) => Err(error),
    }
}

impl Primitive for BarrierCore {
    ghost use Rattle.saa_core_spec.specs.Barrier.{arrive_request, barrier_step};
    ghost use Rattle.saa_core_spec.specs.Values.{barrier_value};
    ghost use Rattle.saa_core.specs.BarrierInvariant.{BarrierInvariant};
    ghost use Rattle.saa_core.specs.Trying.{never_tried};

    type Call = BarrierCall;

    type Ask = ();

    type Answer = BarrierAnswer;

    type Value = Result<bool, Error>;

    ghost core = { λ core. core };

    ghost request = { arrive_request };

    ghost step = { barrier_step };

    ghost value = { barrier_value };

    ghost tried = { never_tried };

    ghost core_invariant = { IsBarrierInvariant };

    ghost object_invariant = { BarrierInvariant };

    fn object_invariant(&self) {
        let _opened = &self.line;
    }

    fn call(&mut self, call: BarrierCall) -> BarrierAnswer {
        // The proof learns that a call which only reads leaves the pending wakes as they are.
        let _opened = &self.line;
        match call {
            BarrierCall::Count => BarrierAnswer::Count(self.count()),
            BarrierCall::Arrive => BarrierAnswer::Bool(self.count_arrival()),
            BarrierCall::Join => BarrierAnswer::Bool(self.join()),
            BarrierCall::Leave => BarrierAnswer::Bool(BarrierCore::leave(self)),
            BarrierCall::Round => BarrierAnswer::Round(self.round()),
        }
    }

    fn try_now(&mut self, _ask: ()) -> Option<u8> {
        None
    }

    fn register(&mut self, ticket: &mut Ticket, _ask: (), is_sync: bool) -> Result<bool, Full> {
        self.arrive(ticket, is_sync)
    }

    /// Polls a ticket for the number of its answer, as [`Self::poll`] does: 1 for the leader, and 0 for all others.
    fn poll_number(&mut self, ticket: &mut Ticket, how: How) -> Result<u8, Error> {
        ticket.poll_in(&mut self.line, how)
    }

    fn value_of(answer: Result<u8, Error>) -> Result<bool, Error> {
        read_answer(answer)
    }

    /// Drops what a ticket is registered for: it is idle afterwards in every case, and nobody is answered.
    ///
    /// A waiter leaves the line, so the round waits for one arrival more. An answer that wasn't consumed is only consumed.
    /// A ticket whose slot isn't held in this core changes nothing here. Costs O(how many wait) for a waiter, and else
    /// O(1).
    fn cancel(&mut self, ticket: &mut Ticket)
        ensures acts { StepsWithTicket self.old self.new ticket.old ticket.new dropping result }
        ensures idle { ticket.new ≡ Unregistered }
        ensures unregistered { ticket.old ≡ Unregistered → self.new ≡ self.old }
        ensures taken_back { IsWaiting self.old.slots ticket.old
            → self.new ≡ record self.old { slots = left_by ticket.old self.old.slots } }
        ensures consumed { ¬ IsWaiting self.old.slots ticket.old → self.new.slots.line ≡ self.old.slots.line }
        ensures foreign { IsForeign self.old.slots ticket.old → self.new ≡ self.old }
        ensures nobody { self.new.slots.pending_wakes ≡ self.old.slots.pending_wakes }
        ensures size { self.new.held ≡ self.old.held }
        ensures wakes { WakesAnswered self.old.slots self.new.slots }
        ensures invariant { IsBarrierInvariant self.new }
    {
        let _opened = &self.line;
        let registration = ticket.registration();
        ticket.set(Registration::Unregistered);
        match registration {
            Registration::Unregistered => {}
            Registration::AtOnce(_value, _request, _is_sync) => {}
            Registration::InSlot(slot, _request, _is_sync) => self.vacate(slot),
        }
    }

    /// Drops what a ticket is registered for, as [`Self::cancel`] does.
    fn leave(&mut self, ticket: &mut Ticket) {
        let _opened = &self.line;
        self.cancel(ticket);
    }

    fn next_answered(&mut self) -> Option<u16> {
        self.line.next_answered()
    }
}

impl fmt::Debug for BarrierCore {
    fn fmt<W: fmt::Write>(&self, f: &mut fmt::Formatter<W>) -> fmt::Result {
        let count = self.count();
        let waiting = self.line.waiting();
        write!(f, "BarrierCore {{ count: {count}, waiting: {waiting} }}")
    }
}
