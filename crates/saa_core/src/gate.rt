//! The gate: tasks that wait until it is decided for all of them together whether they pass.
//!
//! The core is held to `specs/Gate.antt` of `saa_core_spec` by every call, with any tickets that are registered in it.
//! Tasks that enter a controlled gate wait in a line until one call answers them all. A sealed or an open gate has no
//! waiters, which is `specs/GateInvariant.antt`.

ghost use Rattle.std.specs.Prelude.{true, false, ◌≡◌, ℕ, ◌↔◌, ◌||◌, length, min, replicate, IfOk, IfErr, IfSome, IsOk, IsErr, IsNone, OnErr};
ghost use Rattle.saa_core_spec.specs.declared.request.Request.TheVariants.{Enter};
ghost use Rattle.saa_core_spec.specs.declared.polling.Error.TheVariants.{NotRegistered};
ghost use Rattle.saa_core_spec.specs.declared.gate.State.TheVariants.{Controlled, Sealed, Open};
ghost use Rattle.saa_core.specs.declared.ticket.Registration.TheVariants.{Unregistered, AtOnce};
ghost use Rattle.saa_core_spec.specs.Held.{OfGate};
ghost use Rattle.saa_core_spec.specs.Asking.{registered};
ghost use Rattle.saa_core_spec.specs.Polling.{polled, read_as};
ghost use Rattle.saa_core_spec.specs.Values.{gate_value, gate_error, permitted_value, rejected_value, opened_value, sealed_value, spurious_value};
ghost use Rattle.saa_core_spec.specs.Gate.{gate_state, gate_step, let_through, moved, new_gate};
ghost use Rattle.saa_core.specs.Slots.{WakesAnswered, empty_slots, held_slots, room_of, slots_answered, all_slots_answered};
ghost use Rattle.saa_core.specs.Tickets.{StepsWithTicket, Calls, Belong, HasAnswer, Polled, IsForeign, dropping, leaving, fault_of, is_busy, is_yes, object_of};
ghost use Rattle.saa_core.specs.GateInvariant.{IsGateInvariant};
ghost use Rattle.saa_core.specs.GatePolls.{GatePolled, IsGateTicket, is_answer, is_gate_number, is_gate_result};
ghost use Rattle.saa_core.specs.Waiters.{IsWaiting, left_by};
ghost use Rattle.saa_core.specs.GatheringParts.{vacated};
ghost use Rattle.saa_core.specs.GateParts.{answer_by_state};

use crate::line::Line;
use crate::primitive::Primitive;
use crate::ticket::{Full, How, Registration, Ticket};
pub use saa_core_spec::gate::{Error, GateAnswer, GateCall, State};
use saa_core_spec::polling;
use saa_core_spec::request::Request;
use std::alloc::{AllocError, Global};
use std::fmt;
use std::marker::Model;

// The answers, as they are kept until they are consumed: the low two bits are a state, the rest is an error or 0.
// A controlled gate lets the task pass.
const PERMITTED: u8 = 0;

// An open gate lets it pass.
const OPENED: u8 = 2;

// A controlled gate rejects it.
const REJECTED: u8 = 4;

// A sealed gate refuses it.
const SEALED: u8 = 9;

// Another waiter gave up.
const SPURIOUS: u8 = 12;

/// The core of a gate.
///
/// It is used by one task at a time; a threaded form puts a lock round it. Each ticket is used with the core that
/// it was registered in. Only making takes memory, and nothing is refused for want of it afterwards.
#[derive(Drop)]
pub struct GateCore {
    state: State,
    line: Line,
}

impl Model for GateCore {
    ghost use Rattle.saa_core_spec.specs.Held.{OfGate};
    ghost use Rattle.saa_core.specs.Slots.{IsSound};
    ghost use Rattle.saa_core.specs.Tickets.{Core};
    ghost use Rattle.saa_core.specs.GatePolls.{AreGateAnswers};
    ghost use Rattle.saa_core.specs.GateInvariant.{IsGateOf};

    ghost Value = { Core };

    ghost view = { λ gate. record { held = OfGate gate.state; slots = gate.line } };

    ghost invariant = { λ gate. record {
      sound : IsSound gate.line;
      answers : AreGateAnswers gate.line.answers;
      waits : IsGateOf (OfGate gate.state) gate.line.line;
    } };
}

impl GateCore {
    /// A controlled gate, and room for so many waiters. Costs O(`room`).
    ///
    /// Reserves all the memory that it will ever need; the error comes only where that was refused, and so never for
    /// room 0, which takes none.
    pub fn new(alloc: Global, room: u16) -> Result<Self, AllocError>
        ensures made { IfOk result (λ core. core ≡ record { held = OfGate Controlled; slots = empty_slots room }) }
        ensures no_room { room ≡ 0 → IsOk result }
        ensures idle_tickets { IfOk result (λ core. (names : ℕ) → Belong core.slots (replicate names Unregistered)) }
        ensures object { IfOk result (λ core. (names : ℕ)
            → object_of core (replicate names Unregistered) ≡ new_gate room names) }
    {
        let line = Line::with_room(alloc, room)?;
        Ok(GateCore {
            state: State::Controlled,
            line,
        })
    }

    /// How the gate treats a call that enters. Costs O(1).
    pub fn state(&self) -> State
        ensures calls { Calls self.now self.now (gate_step GateCall.State) (GateAnswer.State result) }
        ensures answer { result ≡ gate_state self.now.held }
    {
        self.state
    }

    /// Makes a sealed or open gate controlled, and answers the state that it was in. Costs O(1).
    ///
    /// `None` comes exactly where it was controlled, and changes nothing.
    pub fn reset(&mut self) -> Option<State>
        ensures calls { Calls self.old self.new (gate_step GateCall.Reset) (GateAnswer.Reset result) }
        ensures answer { IsNone result ↔ (gate_state self.old.held ≡ Controlled) }
        ensures before { IfSome result (λ before. before ≡ gate_state self.old.held) }
        ensures controlled { self.new ≡ record self.old { held = OfGate Controlled } }
        ensures wakes { WakesAnswered self.old.slots self.new.slots }
        ensures invariant { IsGateInvariant self.new }
    {
        match self.state {
            State::Controlled => None,
            before => {
                self.state = State::Controlled;
                Some(before)
            }
        }
    }

    /// Lets all waiters of a controlled gate pass, and answers how many those were. Costs O(how many are answered).
    ///
    /// An error says that the gate is sealed or open, and changes nothing.
    pub fn permit(&mut self) -> Result<usize, State>
        ensures calls { Calls self.old self.new (gate_step GateCall.Permit) (GateAnswer.Answered result) }
        ensures answer { IsOk result ↔ (gate_state self.old.held ≡ Controlled) }
        ensures permitted { IfOk result (λ count. (count ≡ length self.old.slots.line)
            × (self.new ≡ record self.old { slots = all_slots_answered permitted_value self.old.slots })) }
        ensures refused { IfErr result (λ state. (state ≡ gate_state self.old.held) × (self.new ≡ self.old)) }
        ensures wakes { WakesAnswered self.old.slots self.new.slots }
        ensures invariant { IsGateInvariant self.new }
    {
        self.let_through(PERMITTED)
    }

    /// Lets so many waiters of a controlled gate pass, the oldest first, and answers how many those were: all, where fewer wait.
    /// Costs O(how many are answered).
    ///
    /// An error says that the gate is sealed or open, and changes nothing.
    pub fn permit_many(&mut self, n: usize) -> Result<usize, State>
        ensures calls { Calls self.old self.new (gate_step (GateCall.PermitMany n)) (GateAnswer.Answered result) }
        ensures answer { IsOk result ↔ (gate_state self.old.held ≡ Controlled) }
        ensures permitted { IfOk result (λ count. (count ≡ min n (length self.old.slots.line))
            × (self.new ≡ record self.old { slots = slots_answered permitted_value count self.old.slots })) }
        ensures refused { IfErr result (λ state. (state ≡ gate_state self.old.held) × (self.new ≡ self.old)) }
        ensures wakes { WakesAnswered self.old.slots self.new.slots }
        ensures invariant { IsGateInvariant self.new }
    {
        match self.state {
            State::Controlled => Ok(self.permit_front(n)),
            state => Err(state),
        }
    }

    /// Rejects all waiters of a controlled gate, and answers how many those were. Costs O(how many are answered).
    ///
    /// An error says that the gate is sealed or open, and changes nothing.
    pub fn reject(&mut self) -> Result<usize, State>
        ensures calls { Calls self.old self.new (gate_step GateCall.Reject) (GateAnswer.Answered result) }
        ensures answer { IsOk result ↔ (gate_state self.old.held ≡ Controlled) }
        ensures rejected { IfOk result (λ count. (count ≡ length self.old.slots.line)
            × (self.new ≡ record self.old { slots = all_slots_answered rejected_value self.old.slots })) }
        ensures refused { IfErr result (λ state. (state ≡ gate_state self.old.held) × (self.new ≡ self.old)) }
        ensures wakes { WakesAnswered self.old.slots self.new.slots }
        ensures invariant { IsGateInvariant self.new }
    {
        self.let_through(REJECTED)
    }

    /// Opens the gate, from every state, and lets all waiters pass. Answers the state before, and how many those were.
    /// Costs O(how many are answered).
    pub fn open(&mut self) -> (State, usize)
        ensures calls { Calls self.old self.new (gate_step GateCall.Open) (GateAnswer.Moved result.0 result.1) }
        ensures before { result.0 ≡ gate_state self.old.held }
        ensures count { result.1 ≡ length self.old.slots.line }
        ensures opened { self.new ≡ record { held = OfGate Open; slots = all_slots_answered opened_value self.old.slots } }
        ensures wakes { WakesAnswered self.old.slots self.new.slots }
        ensures invariant { IsGateInvariant self.new }
    {
        self.move_to(State::Open, OPENED)
    }

    /// Seals the gate, from every state, and refuses all waiters. Answers the state before, and how many those were.
    /// Costs O(how many are answered).
    pub fn seal(&mut self) -> (State, usize)
        ensures calls { Calls self.old self.new (gate_step GateCall.Seal) (GateAnswer.Moved result.0 result.1) }
        ensures before { result.0 ≡ gate_state self.old.held }
        ensures count { result.1 ≡ length self.old.slots.line }
        ensures sealed { self.new ≡ record { held = OfGate Sealed; slots = all_slots_answered sealed_value self.old.slots } }
        ensures wakes { WakesAnswered self.old.slots self.new.slots }
        ensures invariant { IsGateInvariant self.new }
    {
        self.move_to(State::Sealed, SEALED)
    }

    /// Registers an idle ticket to pass the gate, as sync or as async.
    ///
    /// `Ok(true)`: at a sealed gate it is refused at once, and at an open one it passes at once, and needs no slot; at a
    /// controlled gate it waits, last in the line, in a slot. `Ok(false)`: the ticket isn't idle; nothing changes.
    /// `Err(Full)`: it would have to wait, and as many slots are held as there is room; nothing changes. Costs O(1).
    pub fn register(&mut self, ticket: &mut Ticket, is_sync: bool) -> Result<bool, Full>
        ensures acts { StepsWithTicket self.old self.new ticket.old ticket.new (λ s name. registered s name Enter is_sync) result }
        ensures ticket { is_busy ticket.new ≡ (is_busy ticket.old || is_yes result) }
        ensures busy { is_busy ticket.old ≡ true
            → (result ≡ Ok false) × (self.new ≡ self.old) × (ticket.new ≡ ticket.old) }
        ensures sealed { is_busy ticket.old ≡ false → gate_state self.old.held ≡ Sealed
            → (result ≡ Ok true) × (self.new ≡ self.old) × (ticket.new ≡ AtOnce sealed_value Enter is_sync) }
        ensures opened { is_busy ticket.old ≡ false → gate_state self.old.held ≡ Open
            → (result ≡ Ok true) × (self.new ≡ self.old) × (ticket.new ≡ AtOnce opened_value Enter is_sync) }
        ensures full { IsErr result → held_slots self.old.slots ≡ room_of self.old.slots }
        ensures nobody { self.new.slots.pending_wakes ≡ self.old.slots.pending_wakes }
        ensures refused { is_yes result ≡ false → (self.new ≡ self.old) × (ticket.new ≡ ticket.old) }
        ensures state { self.new.held ≡ self.old.held }
        ensures wakes { WakesAnswered self.old.slots self.new.slots }
        ensures invariant { IsGateInvariant self.new }
    {
        if ticket.is_registered() {
            let _opened = &self.line;
            return Ok(false);
        }
        if let Some(value) = self.answer_at_once() {
            ticket.set(Registration::AtOnce(value, Request::Enter, is_sync));
            return Ok(true);
        }
        let Some(slot) = self.line.join(Request::Enter) else {
            return Err(Full);
        };
        ticket.set(Registration::InSlot(slot, Request::Enter, is_sync));
        Ok(true)
    }

    /// Polls a ticket for its answer: the state of the gate that let it pass; a core never waits. Costs O(1).
    ///
    /// `NotRegistered`: the ticket is idle, or its slot isn't held in this core. `WrongMode`: it was registered as
    /// async and is polled as sync, or the other way round. `NotReady`: it waits. None of these changes anything.
    /// `Rejected`, `Sealed` and `SpuriousFailure`, that another waiter cancelled, are answers as `Ok` is: the slot is free
    /// again, and the ticket is idle.
    pub fn poll(&mut self, ticket: &mut Ticket, how: How) -> Result<State, Error>
        ensures acts { StepsWithTicket self.old self.new ticket.old ticket.new (λ s name. read_as gate_value (polled s name how)) result }
        ensures ticket { GatePolled self.old self.new ticket.old ticket.new how result }
        ensures answered { is_answer result ≡ true → (is_busy ticket.old ≡ true) × (ticket.new ≡ Unregistered) }
        ensures value { IsGateTicket ticket.old → is_gate_result result ≡ true }
        ensures unchanged { IsGateTicket ticket.old → is_answer result ≡ false
            → (self.new ≡ self.old) × (ticket.new ≡ ticket.old) }
        ensures foreign { IsForeign self.old.slots ticket.old
            → (result ≡ Err Error.NotRegistered) × (self.new ≡ self.old) × (ticket.new ≡ ticket.old) }
        ensures state { self.new.held ≡ self.old.held }
        ensures pending_wakes { self.new.slots.pending_wakes ≡ self.old.slots.pending_wakes }
        ensures invariant { IsGateInvariant self.new }
    {
        let answer = self.poll_number(ticket, how);
        read_answer(answer)
    }

    // Answers all waiters of a controlled gate with a value; at another gate only its state is told.
    fn let_through(&mut self, value: u8) -> Result<usize, State>
        requires { is_gate_number value ≡ true }
        ensures calls { Calls self.old self.new (λ s. let_through s value (gate_state s.held)) (GateAnswer.Answered result) }
        ensures answer { IsOk result ↔ (gate_state self.old.held ≡ Controlled) }
        ensures answered { IfOk result (λ count. (count ≡ length self.old.slots.line)
            × (self.new ≡ record self.old { slots = all_slots_answered value self.old.slots })) }
        ensures refused { IfErr result (λ state. (state ≡ gate_state self.old.held) × (self.new ≡ self.old)) }
        ensures wakes { WakesAnswered self.old.slots self.new.slots }
        ensures invariant { IsGateInvariant self.new }
    {
        match self.state {
            State::Controlled => Ok(self.answer_all(value)),
            state => Err(state),
        }
    }

    // The gate is in this state from now on, and all waiters are answered with a value.
    fn move_to(&mut self, state: State, value: u8) -> (State, usize)
        requires { is_gate_number value ≡ true }
        ensures calls { Calls self.old self.new (λ s. moved s state value) (GateAnswer.Moved result.0 result.1) }
        ensures before { result.0 ≡ gate_state self.old.held }
        ensures count { result.1 ≡ length self.old.slots.line }
        ensures moved { self.new ≡ record { held = OfGate state; slots = all_slots_answered value self.old.slots } }
        ensures wakes { WakesAnswered self.old.slots self.new.slots }
        ensures invariant { IsGateInvariant self.new }
    {
        let before = self.state;
        let answered = self.answer_all(value);
        self.state = state;
        (before, answered)
    }

    // Answers all waiters with a value, and says how many those were.
    fn answer_all(&mut self, value: u8) -> usize
        requires { is_gate_number value ≡ true }
        ensures count { result ≡ length self.old.slots.line }
        ensures answered { self.new ≡ record self.old { slots = all_slots_answered value self.old.slots } }
        ensures wakes { WakesAnswered self.old.slots self.new.slots }
        ensures invariant { IsGateInvariant self.new }
    {
        let waiting = usize::from(self.line.waiting());
        self.line.answer_all(value);
        waiting
    }

    // Permits the oldest waiters, as many as are asked for, and says how many those were.
    fn permit_front(&mut self, n: usize) -> usize
        ensures count { result ≡ min n (length self.old.slots.line) }
        ensures permitted { self.new ≡ record self.old { slots = slots_answered permitted_value result self.old.slots } }
        ensures wakes { WakesAnswered self.old.slots self.new.slots }
        ensures invariant { IsGateInvariant self.new }
    {
        let count = n.min(usize::from(self.line.waiting()));
        // A grant is the permit of a gate: both answer 0.
        self.line.grant_front(count as u16);
        count
    }

    // The answer that everybody gets at once who enters: that of a sealed or an open gate.
    fn answer_at_once(&self) -> Option<u8>
        ensures { result ≡ answer_by_state (gate_state self.now.held) }
    {
        match self.state {
            State::Controlled => None,
            State::Sealed => Some(SEALED),
            State::Open => Some(OPENED),
        }
    }

    // Frees a slot of this core: its answer is consumed, or it leaves the line, and all others are answered that somebody
    // gave up; a slot that isn't held is nothing.
    fn vacate(&mut self, slot: u16)
        ensures vacated { self.new ≡ record self.old { slots = vacated (all_slots_answered spurious_value) self.old.slots slot } }
        ensures wakes { WakesAnswered self.old.slots self.new.slots }
        ensures invariant { IsGateInvariant self.new }
    {
        if self.line.take(slot).is_some() {
            return;
        }
        if self.line.leave(slot) {
            self.line.answer_all(SPURIOUS);
        }
    }

    // Frees a slot of this core: its answer is consumed, or it leaves the line and all others wait on; a slot that isn't held is
    // nothing.
    fn depart(&mut self, slot: u16)
        ensures vacated { self.new ≡ record self.old { slots = vacated (λ s. s) self.old.slots slot } }
        ensures nobody { self.new.slots.pending_wakes ≡ self.old.slots.pending_wakes }
        ensures wakes { WakesAnswered self.old.slots self.new.slots }
        ensures invariant { IsGateInvariant self.new }
    {
        if self.line.take(slot).is_none() {
            let _left = self.line.leave(slot);
        }
    }
}

// What the number of an answer means: its two low bits are the state, and the rest is the error, if it isn't 0.
fn read_answer(answer: Result<u8, polling::Error>) -> Result<State, Error>
    ensures { result ≡ gate_value answer }
{
    let value = match answer {
        Ok(value) => value,
        Err(error) => return Err(error_of(error)),
    };
    let state = value % 4;
    let error = value - state;
    if error == 0 {
        Ok(State::from(state))
    } else {
        Err(Error::from(error))
    }
}

// The error of a poll as a gate's error of the same name.
fn error_of(error: polling::Error) -> Error
    ensures { result ≡ gate_error error }
{
    match error {
        polling::Error::NotRegistered => Error::NotRegistered,
        polling::Error::WrongMode => Error::WrongMode,
        polling::Error::NotReady => Error::NotReady,
        polling::Error::Closed => Error::Sealed,
    }
}

impl Primitive for GateCore {
    ghost use Rattle.saa_core_spec.specs.Gate.{enter_request, gate_step};
    ghost use Rattle.saa_core_spec.specs.Values.{gate_value};
    ghost use Rattle.saa_core.specs.GateInvariant.{GateInvariant};
    ghost use Rattle.saa_core.specs.Trying.{never_tried};

    type Call = GateCall;

    type Ask = ();

    type Answer = GateAnswer;

    type Value = Result<State, Error>;

    ghost core = { λ core. core };

    ghost request = { enter_request };

    ghost step = { gate_step };

    ghost value = { gate_value };

    ghost tried = { never_tried };

    ghost core_invariant = { IsGateInvariant };

    ghost object_invariant = { GateInvariant };

    fn object_invariant(&self) {
        let _opened = &self.line;
    }

    fn call(&mut self, call: GateCall) -> GateAnswer {
        // The proof learns that a call which only reads leaves the pending wakes as they are.
        let _opened = &self.line;
        match call {
            GateCall::State => GateAnswer::State(self.state()),
            GateCall::Reset => GateAnswer::Reset(self.reset()),
            GateCall::Permit => GateAnswer::Answered(self.permit()),
            GateCall::PermitMany(n) => GateAnswer::Answered(self.permit_many(n)),
            GateCall::Reject => GateAnswer::Answered(self.reject()),
            GateCall::Open => {
                let (before, answered) = self.open();
                GateAnswer::Moved(before, answered)
            }
            GateCall::Seal => {
                let (before, answered) = self.seal();
                GateAnswer::Moved(before, answered)
            }
        }
    }

    fn try_now(&mut self, _ask: ()) -> Option<u8> {
        None
    }

    fn register(&mut self, ticket: &mut Ticket, _ask: (), is_sync: bool) -> Result<bool, Full> {
        GateCore::register(self, ticket, is_sync)
    }

    /// Polls a ticket for the number of its answer, as [`Self::poll`] does: 0 permitted, 2 passed an open gate,
    /// 4 rejected, 9 sealed, 12 another waiter cancelled.
    fn poll_number(&mut self, ticket: &mut Ticket, how: How) -> Result<u8, polling::Error>
        ensures acts { StepsWithTicket self.old self.new ticket.old ticket.new (λ s name. polled s name how) result }
        ensures ticket { Polled ticket.old ticket.new how (fault_of result) }
        ensures kept { HasAnswer ticket.old result }
        ensures foreign { IsForeign self.old.slots ticket.old
            → (result ≡ Err NotRegistered) × (self.new ≡ self.old) × (ticket.new ≡ ticket.old) }
        ensures number { IsGateTicket ticket.old → IfOk result (λ number. is_gate_number number ≡ true) }
        ensures unchanged { OnErr result (self.new ≡ self.old) }
        ensures same { OnErr result (ticket.new ≡ ticket.old) }
        ensures held { self.new.held ≡ self.old.held }
        ensures pending_wakes { self.new.slots.pending_wakes ≡ self.old.slots.pending_wakes }
        ensures invariant { IsGateInvariant self.new }
    {
        ticket.poll_in(&mut self.line, how)
    }

    fn value_of(answer: Result<u8, polling::Error>) -> Result<State, Error> {
        read_answer(answer)
    }

    /// Drops what a ticket is registered for: it is idle afterwards in every case.
    ///
    /// A waiter leaves the line, and all other waiters are answered that one cancelled (`SpuriousFailure`). An answer
    /// that wasn't consumed is only consumed. A ticket whose slot isn't held in this core changes nothing here.
    /// Costs O(how many wait) for a waiter, and else O(1).
    fn cancel(&mut self, ticket: &mut Ticket)
        ensures acts { StepsWithTicket self.old self.new ticket.old ticket.new dropping result }
        ensures idle { ticket.new ≡ Unregistered }
        ensures unregistered { ticket.old ≡ Unregistered → self.new ≡ self.old }
        ensures others { IsWaiting self.old.slots ticket.old
            → self.new ≡ record self.old { slots = all_slots_answered spurious_value (left_by ticket.old self.old.slots) } }
        ensures consumed { ¬ IsWaiting self.old.slots ticket.old
            → (self.new.slots.line ≡ self.old.slots.line) × (self.new.slots.pending_wakes ≡ self.old.slots.pending_wakes) }
        ensures foreign { IsForeign self.old.slots ticket.old → self.new ≡ self.old }
        ensures state { self.new.held ≡ self.old.held }
        ensures wakes { WakesAnswered self.old.slots self.new.slots }
        ensures invariant { IsGateInvariant self.new }
    {
        let _opened = &self.line;
        let registration = ticket.registration();
        ticket.set(Registration::Unregistered);
        match registration {
            Registration::Unregistered => {}
            Registration::AtOnce(_value, _request, _is_sync) => {}
            Registration::InSlot(slot, _request, _is_sync) => self.vacate(slot),
        }
    }

    /// Drops what a ticket is registered for, and disturbs nobody: it is idle afterwards in every case.
    ///
    /// A waiter leaves the line, and all others wait on as they did. An answer that wasn't consumed is only consumed. A ticket
    /// whose slot isn't held in this core changes nothing here. Costs O(how many wait) for a waiter, and else O(1).
    fn leave(&mut self, ticket: &mut Ticket)
        ensures acts { StepsWithTicket self.old self.new ticket.old ticket.new leaving result }
        ensures idle { ticket.new ≡ Unregistered }
        ensures unregistered { ticket.old ≡ Unregistered → self.new ≡ self.old }
        ensures others { IsWaiting self.old.slots ticket.old
            → self.new ≡ record self.old { slots = left_by ticket.old self.old.slots } }
        ensures consumed { ¬ IsWaiting self.old.slots ticket.old → self.new.slots.line ≡ self.old.slots.line }
        ensures foreign { IsForeign self.old.slots ticket.old → self.new ≡ self.old }
        ensures nobody { self.new.slots.pending_wakes ≡ self.old.slots.pending_wakes }
        ensures state { self.new.held ≡ self.old.held }
        ensures wakes { WakesAnswered self.old.slots self.new.slots }
        ensures invariant { IsGateInvariant self.new }
    {
        let _opened = &self.line;
        let registration = ticket.registration();
        ticket.set(Registration::Unregistered);
        match registration {
            Registration::Unregistered => {}
            Registration::AtOnce(_value, _request, _is_sync) => {}
            Registration::InSlot(slot, _request, _is_sync) => self.depart(slot),
        }
    }

    fn next_answered(&mut self) -> Option<u16> {
        self.line.next_answered()
    }
}

impl fmt::Debug for GateCore {
    fn fmt<W: fmt::Write>(&self, f: &mut fmt::Formatter<W>) -> fmt::Result {
        let state = self.state;
        let waiting = self.line.waiting();
        write!(f, "GateCore {{ state: {state:?}, waiting: {waiting} }}")
    }
}
