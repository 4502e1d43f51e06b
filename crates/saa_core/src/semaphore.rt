//! The semaphore: permits that are taken and given back, whose waiters are FIFO, until it is shut.
//!
//! The core is held to `specs/Semaphore.antt` of `saa_core_spec` by every call, with any tickets that are registered in it.
//! It is thin: asking, settling and dropping are `granting`'s, of which the core is a name; what is out, and which counts there are, is here.

ghost use Rattle.std.specs.Prelude.{true, false, ◌≡◌, ℕ, ◌+◌, ◌-◌, ◌<◌, ◌≤◌, ◌↔◌, ◌==◌, ◌||◌, ◌⊎◌, not, [], if◌then◌else◌, is_some, min, nat_lt, replicate, IsTrue, IsNone, IfSome, IsOk, IfOk, IsErr};
ghost use Rattle.std.specs.Bool.{OnTrue, OnFalse};
ghost use Rattle.saa_core_spec.specs.declared.request.Request.TheVariants.{Permits};
ghost use Rattle.saa_core_spec.specs.declared.polling.Error.TheVariants.{NotRegistered};
ghost use Rattle.saa_core.specs.declared.ticket.Registration.TheVariants.{Unregistered};
ghost use Rattle.saa_core_spec.specs.Held.{OfSemaphore, OfShutSemaphore, asks_too_much};
ghost use Rattle.saa_core_spec.specs.Asking.{tried, registered};
ghost use Rattle.saa_core_spec.specs.Polling.{polled, given_back, read_as};
ghost use Rattle.saa_core_spec.specs.Values.{semaphore_value, closed_value};
ghost use Rattle.saa_core_spec.specs.Semaphore.{bound_of, out_of, available, is_shut, shut_of, new_semaphore};
ghost use Rattle.saa_core.specs.Slots.{WakesAnswered, all_slots_answered, empty_slots, held_slots, room_of};
ghost use Rattle.saa_core.specs.SemaphoreInvariant.{semaphore_held, permits_left};
ghost use Rattle.saa_core_words.specs.Words.{count_bits, word_number, word_of};
ghost use Rattle.saa_core.specs.MainWord.{core_word};
ghost use Rattle.saa_core.specs.Trying.{permits_fit};
ghost use Rattle.saa_core.specs.Tickets.{StepsWithTicket, Calls, Belong, IsCoreSettled, Polled, IsForeign, fault_of, is_busy, is_yes, object_of};

use crate::granting::{Granting, Needs};
use crate::line::LinkedLine;
use crate::primitive::Primitive;
use crate::ticket::{Error, Full, How, Ticket};
use saa_core_spec::request::Request;
pub use saa_core_spec::semaphore::{SemaphoreAnswer, SemaphoreCall};
use saa_core_words::links::Links;
use saa_core_words::requests::ForPermits;
use saa_core_words::word::Word;
use std::alloc::{AllocError, Global};
use std::fmt;

/// The core of a semaphore of at most `MAX` permits, 1 to 65,535.
///
/// It is used by one task at a time; a threaded form puts a lock round it. Each ticket is used with the core that
/// it was registered in. Only making takes memory, and nothing is refused for want of it afterwards.
pub type SemaphoreCoreOf<const MAX: usize> = Granting<PermitsOut<MAX>>;

/// The core of a semaphore of 63 permits.
pub type SemaphoreCore = SemaphoreCoreOf<63>;

// The answer of a waiter that finds the semaphore shut.
const CLOSED: u8 = 2;

/// Permits that are out, whose type says how many there are at most.
pub trait CountsPermits: Needs {
    /// The most permits.
    const MAX_PERMITS: usize;
}

impl<N: CountsPermits> Granting<N> {
    /// The most permits of a semaphore.
    pub const MAX_PERMITS: usize = N::MAX_PERMITS;
}

impl<const MAX: usize> SemaphoreCoreOf<MAX> {
    /// A semaphore with all its permits available, and room for so many waiters. Costs O(`room`).
    ///
    /// Reserves all the memory that it will ever need; the error comes only where that was refused, and so never for
    /// room 0, which takes none.
    pub fn new(alloc: Global, room: u16) -> Result<Self, AllocError>
        requires bound { 0 < MAX }
        requires narrow { MAX < 65536 }
        ensures made { IfOk result (λ core. core ≡ record { held = OfSemaphore MAX 0; slots = empty_slots room }) }
        ensures no_room { room ≡ 0 → IsOk result }
        ensures idle_tickets { IfOk result (λ core. (names : ℕ) → Belong core.slots (replicate names Unregistered)) }
        ensures object { IfOk result (λ core. (names : ℕ)
            → object_of core (replicate names Unregistered) ≡ new_semaphore MAX MAX room names) }
    {
        Self::with_permits(alloc, MAX, room)
    }

    /// A semaphore with at most so many permits available; the others count as out, and may be released.
    /// A number above the bound is cut to it. Costs O(`room`).
    ///
    /// Reserves all the memory that it will ever need; the error comes only where that was refused, and so never for
    /// room 0, which takes none.
    pub fn with_permits(alloc: Global, permits: usize, room: u16) -> Result<Self, AllocError>
        requires bound { 0 < MAX }
        requires narrow { MAX < 65536 }
        ensures made { IfOk result (λ core.
            core ≡ record { held = OfSemaphore MAX (MAX - min permits MAX); slots = empty_slots room }) }
        ensures no_room { room ≡ 0 → IsOk result }
        ensures idle_tickets { IfOk result (λ core. (names : ℕ) → Belong core.slots (replicate names Unregistered)) }
        ensures object { IfOk result (λ core. (names : ℕ)
            → object_of core (replicate names Unregistered) ≡ new_semaphore MAX permits room names) }
    {
        let line = LinkedLine::<ForPermits>::with_room(alloc, room)?;
        let needs = PermitsOut {
            out: MAX - permits.min(MAX),
            is_shut: false,
        };
        Ok(Granting::from_parts(needs, line))
    }

    /// How many permits are available. Costs O(1).
    pub fn available_permits(&self) -> usize
        ensures answer { result ≡ available self.now.held }
        ensures within { result ≤ MAX }
    {
        MAX - self.out()
    }

    /// Whether a permit is available. Costs O(1).
    pub fn is_open(&self) -> bool
        ensures { result ≡ nat_lt (out_of self.now.held) (bound_of self.now.held) }
    {
        self.out() < MAX
    }

    /// Whether no permit is available. Costs O(1).
    pub fn is_closed(&self) -> bool
        ensures { result ≡ (out_of self.now.held == bound_of self.now.held) }
    {
        self.out() == MAX
    }

    /// Whether the semaphore was shut: no permit is taken from it any more, however many are available. Costs O(1).
    pub fn is_shut(&self) -> bool
        ensures { result ≡ is_shut self.now.held }
    {
        self.needs().is_shut
    }

    /// Shuts the semaphore for good: every waiter is answered `Closed`, and so is every registration from then on.
    ///
    /// `false` comes exactly where it was shut before, and changes nothing. Permits that are out, and grants that weren't polled yet,
    /// stay as they are, and come back by [`Self::release_many`] as ever. Costs O(how many wait).
    /// Rule: docs/DEFINITIONS.md, "Shutting".
    pub fn shut(&mut self) -> bool
        ensures calls { Calls self.old self.new (λ s. shut_of s s.held) result }
        ensures answer { result ≡ not (is_shut self.old.held) }
        ensures shut { result ≡ true → self.new
            ≡ record { held = OfShutSemaphore MAX (out_of self.old.held); slots = all_slots_answered closed_value self.old.slots } }
        ensures refused { OnFalse result (self.new ≡ self.old) }
        ensures wakes { WakesAnswered self.old.slots self.new.slots }
        ensures settled { IsCoreSettled self.new }
    {
        // The proof learns that the line is settled, and that nobody waits at a shut semaphore.
        let _waiting = self.waiting();
        let out = self.out();
        if self.is_shut() {
            return false;
        }
        self.answer_all(PermitsOut { out, is_shut: true }, CLOSED);
        true
    }

    /// Takes one permit if there is no waiter and one is available; see [`Self::try_acquire_many`].
    pub fn try_acquire(&mut self) -> bool
        ensures calls { Calls self.old self.new (λ s. tried s (Permits 1)) result }
        ensures answer { is_shut self.old.held ≡ false → IsTrue result ↔ ((self.old.slots.line ≡ []) × (1 ≤ available self.old.held)) }
        ensures closed { is_shut self.old.held ≡ true → result ≡ false }
        ensures refused { OnFalse result (self.new ≡ self.old) }
        ensures wakes { WakesAnswered self.old.slots self.new.slots }
        ensures settled { IsCoreSettled self.new }
    {
        self.try_acquire_many(1)
    }

    /// Takes `count` permits if there is no waiter and they are available; never waits itself. Costs O(1).
    ///
    /// A count above the bound is never granted. 0 permits are refused too while there is a waiter, and where the
    /// semaphore is shut. A `false` changes nothing. Rule: docs/DEFINITIONS.md, "Asking".
    pub fn try_acquire_many(&mut self, count: usize) -> bool
        ensures calls { Calls self.old self.new (λ s. tried s (Permits count)) result }
        ensures answer { is_shut self.old.held ≡ false → IsTrue result ↔ ((self.old.slots.line ≡ []) × (count ≤ available self.old.held)) }
        ensures closed { is_shut self.old.held ≡ true → result ≡ false }
        ensures too_many { MAX < count → result ≡ false }
        ensures taken { OnTrue result (available self.new.held + count ≡ available self.old.held) }
        ensures refused { OnFalse result (self.new ≡ self.old) }
        ensures wakes { WakesAnswered self.old.slots self.new.slots }
        ensures settled { IsCoreSettled self.new }
    {
        let Some(request) = self.request_of(count) else {
            return false;
        };
        self.try_take(request)
    }

    /// Gives one permit back; see [`Self::release_many`].
    pub fn release(&mut self) -> bool
        ensures calls { Calls self.old self.new (λ s. given_back s (Permits 1)) result }
        ensures answer { IsTrue result ↔ (1 ≤ out_of self.old.held) }
        ensures refused { OnFalse result (self.new ≡ self.old) }
        ensures wakes { WakesAnswered self.old.slots self.new.slots }
        ensures settled { IsCoreSettled self.new }
    {
        self.release_many(1)
    }

    /// Gives `count` permits back, and grants the oldest waiters while they fit.
    ///
    /// `false` comes exactly where fewer permits are out, and changes nothing. 0 permits are given back always, and
    /// change nothing. Costs O(how many are granted). Rule: docs/DEFINITIONS.md, "Settling".
    pub fn release_many(&mut self, count: usize) -> bool
        ensures calls { Calls self.old self.new (λ s. given_back s (Permits count)) result }
        ensures answer { IsTrue result ↔ (count ≤ out_of self.old.held) }
        ensures too_many { MAX < count → result ≡ false }
        ensures refused { OnFalse result (self.new ≡ self.old) }
        ensures wakes { WakesAnswered self.old.slots self.new.slots }
        ensures settled { IsCoreSettled self.new }
    {
        let Some(request) = self.request_of(count) else {
            return false;
        };
        self.take_back(request)
    }

    /// Polls a ticket for its grant; a core never waits. Costs O(1).
    ///
    /// `NotRegistered`: the ticket is idle, or its slot isn't held in this core. `WrongMode`: it was registered as
    /// async and is polled as sync, or the other way round. `NotReady`: it waits. None of these changes anything.
    /// `Ok(())`: it was granted; `Closed`: the semaphore was shut, and nothing was granted. Then its slot is free again, and the
    /// ticket is idle.
    pub fn poll(&mut self, ticket: &mut Ticket, how: How) -> Result<(), Error>
        ensures acts { StepsWithTicket self.old self.new ticket.old ticket.new (λ s name. read_as semaphore_value (polled s name how)) result }
        ensures ticket { Polled ticket.old ticket.new how (fault_of result) }
        ensures foreign { IsForeign self.old.slots ticket.old
            → (result ≡ Err NotRegistered) × (self.new ≡ self.old) × (ticket.new ≡ ticket.old) }
        ensures unchanged { is_some (fault_of result) ≡ true → self.new ≡ self.old }
        ensures pending_wakes { self.new.slots.pending_wakes ≡ self.old.slots.pending_wakes }
        ensures settled { IsCoreSettled self.new }
    {
        match self.poll_number(ticket, how) {
            Ok(value) => read(value),
            Err(error) => Err(error),
        }
    }

    // The request for so many permits; `None` where that is more than there ever are.
    fn request_of(&self, count: usize) -> Option<Request>
        ensures request { result ≡ (if nat_lt MAX count then None else Some (Permits count)) }
        ensures too_many { IsNone result ↔ (MAX < count) }
        ensures held { self.now.held ≡ semaphore_held (is_shut self.now.held) MAX (out_of self.now.held) }
        ensures bounded { out_of self.now.held ≤ MAX }
        ensures asked { IfSome result (λ request. request ≡ Permits count) }
        ensures small { IfSome result (λ request. asks_too_much self.now.held request ≡ false) }
        ensures bound { bound_of self.now.held ≡ MAX }
        ensures quiet { WakesAnswered self.now.slots self.now.slots }
        ensures settled { IsCoreSettled self.now }
    {
        let _out = self.out();
        let _permits = self.needs();
        if count > MAX {
            return None;
        }
        Some(Request::Permits(count as u16))
    }

    // How many permits are out.
    fn out(&self) -> usize
        ensures out { result ≡ out_of self.now.held }
        ensures bound { bound_of self.now.held ≡ MAX }
        ensures held { self.now.held ≡ semaphore_held (is_shut self.now.held) MAX result }
        ensures within { result ≤ MAX }
        ensures narrow { MAX < 65536 }
    {
        self.needs().out
    }
}

// How many permits are out once so many got back what a request took; `None` where fewer were.
fn left(out: usize, request: Request) -> Option<usize>
    ensures left { result ≡ permits_left out request }
    ensures fewer { IfSome result (λ rest. rest ≤ out) }
{
    let Request::Permits(count) = request else {
        return None;
    };
    let count = usize::from(count);
    if count > out {
        return None;
    }
    Some(out - count)
}

// What the number of an answer means: that the semaphore was shut, and every other is a grant.
fn read(value: u8) -> Result<(), Error>
    ensures { result ≡ semaphore_value (Ok value) }
{
    if value == CLOSED {
        return Err(Error::Closed);
    }
    Ok(())
}

/// The permits of a semaphore that are out, and whether it was shut.
#[derive(Drop)]
pub struct PermitsOut<const MAX: usize> {
    out: usize,
    is_shut: bool,
    ghost bounded: { out ≤ MAX },
    ghost narrow: { MAX < 65536 },
}

impl<const MAX: usize> Needs for PermitsOut<MAX> {
    ghost use Rattle.saa_core.specs.SemaphoreInvariant.{semaphore_held, is_granting_semaphore};

    type Order = Links<ForPermits>;

    ghost held = { λ permits. semaphore_held permits.is_shut MAX permits.out };

    ghost grants = { λ permits. is_granting_semaphore permits.is_shut MAX permits.out };

    fn fits(&self, request: Request) -> bool {
        if self.is_shut {
            return false;
        }
        let Request::Permits(count) = request else {
            return false;
        };
        usize::from(count) <= MAX - self.out
    }

    fn take(&mut self, request: Request) {
        // Nothing fits a shut semaphore.
        if self.is_shut {
            return;
        }
        if let Request::Permits(count) = request {
            self.out += usize::from(count);
        }
    }

    fn give_back(&mut self, request: Request) -> bool {
        let Some(left) = left(self.out, request) else {
            return false;
        };
        self.out = left;
        true
    }

    fn answer_to_all(&self) -> Option<u8> {
        match self.is_shut {
            true => Some(CLOSED),
            false => None,
        }
    }
}

impl<const MAX: usize> CountsPermits for PermitsOut<MAX> {
    const MAX_PERMITS: usize = MAX;
}

impl<const MAX: usize> Primitive for SemaphoreCoreOf<MAX> {
    ghost use Rattle.saa_core_spec.specs.declared.request.Request.TheVariants.{Permits};
    ghost use Rattle.saa_core_spec.specs.Semaphore.{semaphore_step};
    ghost use Rattle.saa_core_spec.specs.Values.{semaphore_value};
    ghost use Rattle.saa_core.specs.SemaphoreInvariant.{SemaphoreInvariant};
    ghost use Rattle.saa_core.specs.Trying.{permits_tried};

    type Call = SemaphoreCall;

    type Ask = usize;

    type Answer = SemaphoreAnswer;

    type Value = Result<(), Error>;

    ghost core = { λ core. core };

    ghost request = { λ count. Permits count };

    ghost step = { semaphore_step };

    ghost value = { semaphore_value };

    ghost tried = { permits_tried };

    ghost core_invariant = { IsCoreSettled };

    ghost object_invariant = { SemaphoreInvariant MAX };

    fn object_invariant(&self) {
        let _request = self.request_of(0);
    }

    fn call(&mut self, call: SemaphoreCall) -> SemaphoreAnswer {
        // The proof learns that a call which only reads leaves the pending wakes as they are.
        let _waiting = self.waiting();
        match call {
            SemaphoreCall::TryAcquireMany(count) => SemaphoreAnswer::Bool(self.try_acquire_many(
                count,
            )),
            SemaphoreCall::ReleaseMany(count) => SemaphoreAnswer::Bool(self.release_many(count)),
            SemaphoreCall::AvailablePermits => SemaphoreAnswer::Number(self.available_permits()),
            SemaphoreCall::IsOpen => SemaphoreAnswer::Bool(self.is_open()),
            SemaphoreCall::IsClosed => SemaphoreAnswer::Bool(self.is_closed()),
            SemaphoreCall::Shut => SemaphoreAnswer::Bool(self.shut()),
            SemaphoreCall::IsShut => SemaphoreAnswer::Bool(self.is_shut()),
        }
    }

    /// The semaphore in one number, laid out as the main word of a word's semaphore is: from bit 0 the permits that are out, in 16
    /// bits; bit 16 clear; bit 17 set exactly where it was shut; from bit 18 the newest waiter, by its slot plus 1, and 0 where there is no waiter. Costs O(1).
    fn word(&self) -> u64
        ensures number { result ≡ word_number count_bits (core_word self.now) }
        ensures read { word_of count_bits result ≡ core_word self.now }
        ensures nobody { ((word_of count_bits result).tail ≡ 0) ↔ (self.now.slots.line ≡ []) }
        ensures within { (word_of count_bits result).tail ≤ room_of self.now.slots }
    {
        let word = Word {
            count: self.out() as u16,
            is_flagged: false,
            is_poisoned: self.is_shut(),
            tail: self.waiters().tail(),
        };
        word.pack()
    }

    fn may_succeed(count: usize, word: u64) -> bool
        ensures { IsTrue result ↔ permits_fit MAX count (word_of count_bits word) }
    {
        let word = Word::unpack(word);
        word.is_poisoned || word.tail == 0 && count <= MAX.saturating_sub(usize::from(word.count))
    }

    fn try_now(&mut self, count: usize) -> Option<u8> {
        let Some(request) = self.request_of(count) else {
            return None;
        };
        if self.try_take(request) {
            return Some(0);
        }
        match self.is_shut() {
            true => Some(CLOSED),
            false => None,
        }
    }

    /// Registers an idle ticket for `count` permits, as sync or as async.
    ///
    /// `Ok(true)`: it is answered at once, where there is no waiter and the permits are available, or where the semaphore was shut;
    /// or it waits, last in the line, in a slot. `Ok(false)`: the ticket isn't idle, or the count is above the bound; nothing changes.
    /// `Err(Full)`: it would have to wait, and as many slots are held as there is room; nothing changes.
    /// Costs O(1). Rule: docs/DEFINITIONS.md, "Asking".
    fn register(&mut self, ticket: &mut Ticket, count: usize, is_sync: bool) -> Result<bool, Full>
        ensures acts { StepsWithTicket self.old self.new ticket.old ticket.new (λ s name. registered s name (Permits count) is_sync) result }
        ensures ticket { is_busy ticket.new ≡ (is_busy ticket.old || is_yes result) }
        ensures busy { is_busy ticket.old ≡ true
            → (result ≡ Ok false) × (self.new ≡ self.old) × (ticket.new ≡ ticket.old) }
        ensures too_many { MAX < count
            → (result ≡ Ok false) × (self.new ≡ self.old) × (ticket.new ≡ ticket.old) }
        ensures full { IsErr result → held_slots self.old.slots ≡ room_of self.old.slots }
        ensures refused { is_yes result ≡ false → (self.new ≡ self.old) × (ticket.new ≡ ticket.old) }
        ensures wakes { WakesAnswered self.old.slots self.new.slots }
        ensures invariant { IsCoreSettled self.new }
    {
        let Some(request) = self.request_of(count) else {
            return Ok(false);
        };
        self.register_request(ticket, request, is_sync)
    }

    fn poll_number(&mut self, ticket: &mut Ticket, how: How) -> Result<u8, Error> {
        Granting::poll_number(self, ticket, how)
    }

    fn value_of(answer: Result<u8, Error>) -> Result<(), Error> {
        match answer {
            Ok(value) => read(value),
            Err(error) => Err(error),
        }
    }

    /// Drops what a ticket is registered for: it is idle afterwards in every case.
    ///
    /// A waiter leaves the line, and those behind it are granted while they fit. A grant that wasn't consumed is given
    /// back as [`Self::release_many`] would. A ticket whose slot isn't held in this core changes nothing here.
    /// Costs O(how many are granted) at any position.
    fn cancel(&mut self, ticket: &mut Ticket) {
        Granting::cancel(self, ticket);
    }

    /// Drops what a ticket is registered for, as [`Self::cancel`] does.
    fn leave(&mut self, ticket: &mut Ticket) {
        Granting::leave(self, ticket);
    }

    fn next_answered(&mut self) -> Option<u16> {
        Granting::next_answered(self)
    }
}

impl<const MAX: usize> fmt::Debug for SemaphoreCoreOf<MAX> {
    fn fmt<W: fmt::Write>(&self, f: &mut fmt::Formatter<W>) -> fmt::Result {
        let available = self.available_permits();
        let waiting = self.waiting();
        write!(
            f,
            "SemaphoreCore {{ available_permits: {available}, waiting: {waiting} }}"
        )
    }
}
