//! The lock: one owner alone, or several that share it, whose waiters are FIFO; and poison.
//!
//! The core is held to `specs/Lock.antt` of `saa_core_spec` by every call, with any tickets that are registered in it. It is
//! thin: asking, settling and dropping are `granting`'s, of which the core is a name; the owners of the lock, and poison, are here.

ghost use Rattle.std.specs.Prelude.{true, false, ◌≡◌, ℕ, ◌-◌, ◌<◌, ◌≤◌, ◌↔◌, ◌==◌, [], if◌then◌else◌, replicate, IsTrue, IsOk, IfOk, IfSome, IfNone, OnErr, Ok, Err, Some, None};
ghost use Rattle.std.specs.Bool.{OnFalse};
ghost use Rattle.saa_core_spec.specs.declared.request.Request.TheVariants.{Exclusive as AskExclusive, Shared as AskShared};
ghost use Rattle.saa_core_spec.specs.declared.polling.Error.TheVariants.{NotRegistered};
ghost use Rattle.saa_core_spec.specs.Held.{OfLock, Free, Shared, Poisoned, IsLockState, lock_fits, lock_plus, lock_less};
ghost use Rattle.saa_core.specs.Owners.{lock_state};
ghost use Rattle.saa_core_spec.specs.Asking.{tried};
ghost use Rattle.saa_core_spec.specs.Polling.{polled, given_back, read_as};
ghost use Rattle.saa_core_spec.specs.Values.{lock_value, poisoned_value};
ghost use Rattle.saa_core_spec.specs.Lock.{mode_request, is_free, is_locked, is_shared, is_poisoned, downgraded_of, poisoned_of, cleared_of, try_error, new_lock};
ghost use Rattle.saa_core.specs.Slots.{WakesAnswered, empty_slots, room_of, all_slots_answered};
ghost use Rattle.saa_core.specs.declared.ticket.Registration.TheVariants.{Unregistered};
ghost use Rattle.saa_core_words.specs.Words.{count_bits, lock_count, word_number, word_of};
ghost use Rattle.saa_core.specs.MainWord.{core_word};
ghost use Rattle.saa_core.specs.Trying.{mode_fits};
ghost use Rattle.saa_core.specs.Tickets.{StepsWithTicket, Calls, Belong, IsCoreSettled, Polled, IsForeign, fault_of, object_of};
ghost use Rattle.saa_core.specs.CoreParts.{takes_now};
ghost use Rattle.saa_core.specs.LockCalls.{lock_tried};

use crate::granting::{Granting, Needs};
use crate::line::LinkedLine;
use crate::primitive::Primitive;
use crate::ticket::{Error, Full, How, Ticket};
pub use saa_core_spec::lock::{LockAnswer, LockCall, Mode, TryLockError};
use saa_core_spec::request::Request;
use saa_core_words::links::Links;
use saa_core_words::requests::ForModes;
use saa_core_words::word::Word;
use std::alloc::{AllocError, Global};
use std::fmt;
use std::marker::Model;

// The answer of a waiter that finds the lock poisoned.
const POISONED: u8 = 2;

// How many owners a lock is shared by at most, as a word counts them.
const ALL_OWNERS: u16 = 62;

/// The core of a lock.
///
/// It is used by one task at a time; a threaded form keeps it under a mutex. Each ticket is used with the core that
/// it was registered in. Only making takes memory, and nothing is refused for want of it afterwards. The core doesn't
/// know its owners: any caller may release.
pub type LockCore = Granting<Owners>;

impl LockCore {
    /// The most owners that share a lock.
    pub const MAX_SHARED_OWNERS: usize = 62;

    /// A free lock, and room for so many waiters. Costs O(`room`).
    ///
    /// Reserves all the memory that it will ever need; the error comes only where that was refused, and so never for
    /// room 0, which takes none.
    pub fn new(alloc: Global, room: u16) -> Result<Self, AllocError>
        ensures made { IfOk result (λ core. core ≡ record { held = OfLock Free; slots = empty_slots room }) }
        ensures no_room { room ≡ 0 → IsOk result }
        ensures idle_tickets { IfOk result (λ core. (names : ℕ) → Belong core.slots (replicate names Unregistered)) }
        ensures object { IfOk result (λ core. (names : ℕ)
            → object_of core (replicate names Unregistered) ≡ new_lock room names) }
    {
        let line = LinkedLine::<ForModes>::with_room(alloc, room)?;
        let needs = Owners::new(Owner::Free);
        Ok(Granting::from_parts(needs, line))
    }

    /// Whether nobody has the lock and it isn't poisoned. Costs O(1).
    pub fn is_free(&self) -> bool
        ensures { result ≡ is_free self.now.held }
    {
        matches!(self.needs().owner(), Owner::Free)
    }

    /// Whether one owner has the lock alone. Costs O(1).
    pub fn is_locked(&self) -> bool
        ensures { result ≡ is_locked self.now.held }
    {
        matches!(self.needs().owner(), Owner::Exclusive)
    }

    /// Whether the lock is shared. Costs O(1).
    pub fn is_shared(&self) -> bool
        ensures { result ≡ is_shared self.now.held }
    {
        matches!(self.needs().owner(), Owner::Shared(_))
    }

    /// Whether the lock is poisoned. Costs O(1).
    pub fn is_poisoned(&self) -> bool
        ensures { result ≡ is_poisoned self.now.held }
    {
        matches!(self.needs().owner(), Owner::Poisoned)
    }

    /// Takes the lock for one owner alone if there is no waiter and it is free; never waits itself. Costs O(1).
    ///
    /// `Poisoned`: the lock is poisoned. `WouldBlock`: somebody has it, or there is a waiter. Both change nothing.
    /// Rule: docs/DEFINITIONS.md, "Asking".
    pub fn try_lock(&mut self) -> Result<(), TryLockError>
        ensures calls { Calls self.old self.new (λ s. lock_tried s AskExclusive) result }
        ensures granted { takes_now self.old AskExclusive ≡ true → result ≡ Ok tt }
        ensures refusal { takes_now self.old AskExclusive ≡ false → result ≡ Err (try_error (is_poisoned self.old.held)) }
        ensures refused { OnErr result (self.new ≡ self.old) }
        ensures wakes { WakesAnswered self.old.slots self.new.slots }
        ensures settled { IsCoreSettled self.new }
    {
        self.try_request(Request::Exclusive)
    }

    /// Takes a share of the lock if there is no waiter and one is left; never waits itself. Costs O(1).
    ///
    /// `Poisoned`: the lock is poisoned. `WouldBlock`: one owner has it alone, or 62 share it, or there is a waiter. Both
    /// change nothing. Rule: docs/DEFINITIONS.md, "Asking".
    pub fn try_share(&mut self) -> Result<(), TryLockError>
        ensures calls { Calls self.old self.new (λ s. lock_tried s AskShared) result }
        ensures granted { takes_now self.old AskShared ≡ true → result ≡ Ok tt }
        ensures refusal { takes_now self.old AskShared ≡ false → result ≡ Err (try_error (is_poisoned self.old.held)) }
        ensures refused { OnErr result (self.new ≡ self.old) }
        ensures wakes { WakesAnswered self.old.slots self.new.slots }
        ensures settled { IsCoreSettled self.new }
    {
        self.try_request(Request::Shared)
    }

    /// Gives the lock of one owner back, and grants the oldest waiters while they fit.
    ///
    /// `false` comes exactly where the lock has no exclusive owner, and changes nothing. The caller needn't be that
    /// owner. Costs O(how many are granted). Rule: docs/DEFINITIONS.md, "Settling".
    pub fn release_lock(&mut self) -> bool
        ensures calls { Calls self.old self.new (λ s. given_back s AskExclusive) result }
        ensures answer { result ≡ is_locked self.old.held }
        ensures refused { OnFalse result (self.new ≡ self.old) }
        ensures wakes { WakesAnswered self.old.slots self.new.slots }
        ensures settled { IsCoreSettled self.new }
    {
        let _locked = self.is_locked();
        self.take_back(Request::Exclusive)
    }

    /// Gives one share back, and grants the oldest waiters while they fit.
    ///
    /// `false` comes exactly where the lock isn't shared, and changes nothing. The caller needn't be a sharer.
    /// Costs O(how many are granted). Rule: docs/DEFINITIONS.md, "Settling".
    pub fn release_share(&mut self) -> bool
        ensures calls { Calls self.old self.new (λ s. given_back s AskShared) result }
        ensures answer { result ≡ is_shared self.old.held }
        ensures refused { OnFalse result (self.new ≡ self.old) }
        ensures wakes { WakesAnswered self.old.slots self.new.slots }
        ensures settled { IsCoreSettled self.new }
    {
        let _shared = self.is_shared();
        self.take_back(Request::Shared)
    }

    /// Makes the one owner a sharer, and grants the oldest waiters while they fit beside it.
    ///
    /// The lock has no other owner in between. `false` comes exactly where it has no exclusive owner, and changes
    /// nothing. The caller needn't be that owner. Costs O(how many are granted). Rule: docs/DEFINITIONS.md, "Settling".
    pub fn downgrade(&mut self) -> bool
        ensures calls { Calls self.old self.new (λ s. downgraded_of s (is_locked s.held)) result }
        ensures answer { result ≡ is_locked self.old.held }
        ensures refused { OnFalse result (self.new ≡ self.old) }
        ensures wakes { WakesAnswered self.old.slots self.new.slots }
        ensures settled { IsCoreSettled self.new }
    {
        // The proof learns that the line is settled, and that nobody waits at a poisoned lock.
        let _waiting = self.waiting();
        if self.is_locked() {
            self.settle_with(Owners::new(Owner::Shared(1)));
            return true;
        }
        false
    }

    /// Poisons the lock that one owner has alone: all waiters are answered that it is poisoned, wait modes too.
    ///
    /// `false` comes exactly where the lock isn't one owner's alone, and changes nothing. Answers that were there before
    /// stay as they are. Costs O(how many wait).
    pub fn poison_lock(&mut self) -> bool
        ensures calls { Calls self.old self.new (λ s. poisoned_of s (is_locked s.held)) result }
        ensures answer { result ≡ is_locked self.old.held }
        ensures poisoned { result ≡ true
            → self.new ≡ record { held = OfLock Poisoned; slots = all_slots_answered poisoned_value self.old.slots } }
        ensures refused { OnFalse result (self.new ≡ self.old) }
        ensures wakes { WakesAnswered self.old.slots self.new.slots }
        ensures settled { IsCoreSettled self.new }
    {
        // The proof learns that the line is settled, and that nobody waits at a poisoned lock.
        let _waiting = self.waiting();
        if !self.is_locked() {
            return false;
        }
        self.answer_all(Owners::new(Owner::Poisoned), POISONED);
        true
    }

    /// Makes a poisoned lock free; it has no waiters.
    ///
    /// `false` comes exactly where the lock isn't poisoned, and changes nothing. Costs O(1).
    pub fn clear_poison(&mut self) -> bool
        ensures calls { Calls self.old self.new (λ s. cleared_of s (is_poisoned s.held)) result }
        ensures answer { result ≡ is_poisoned self.old.held }
        ensures cleared { result ≡ true → self.new ≡ record self.old { held = OfLock Free } }
        ensures refused { OnFalse result (self.new ≡ self.old) }
        ensures wakes { WakesAnswered self.old.slots self.new.slots }
        ensures settled { IsCoreSettled self.new }
    {
        // The proof learns that the line is settled, and that nobody waits at a poisoned lock.
        let _waiting = self.waiting();
        if !self.is_poisoned() {
            return false;
        }
        self.replace(Owners::new(Owner::Free));
        true
    }

    /// Polls a ticket for its answer; a core never waits. Costs O(1).
    ///
    /// `NotRegistered`: the ticket is idle, or its slot isn't held in this core. `WrongMode`: it was registered as
    /// async and is polled as sync, or the other way round. `NotReady`: it waits. None of these changes anything.
    /// `Ok(true)`: it was granted; `Ok(false)`: the lock was poisoned. Then its slot is free again, and the ticket is idle.
    pub fn poll(&mut self, ticket: &mut Ticket, how: How) -> Result<bool, Error>
        ensures acts { StepsWithTicket self.old self.new ticket.old ticket.new (λ s name. read_as lock_value (polled s name how)) result }
        ensures ticket { Polled ticket.old ticket.new how (fault_of result) }
        ensures foreign { IsForeign self.old.slots ticket.old
            → (result ≡ Err NotRegistered) × (self.new ≡ self.old) × (ticket.new ≡ ticket.old) }
        ensures unchanged { OnErr result (self.new ≡ self.old) }
        ensures pending_wakes { self.new.slots.pending_wakes ≡ self.old.slots.pending_wakes }
        ensures settled { IsCoreSettled self.new }
    {
        match self.poll_number(ticket, how) {
            Ok(value) => Ok(value == 0),
            Err(error) => Err(error),
        }
    }

    // A try of either kind.
    fn try_request(&mut self, request: Request) -> Result<(), TryLockError>
        ensures calls { Calls self.old self.new (λ s. lock_tried s request) result }
        ensures granted { takes_now self.old request ≡ true → result ≡ Ok tt }
        ensures refusal { takes_now self.old request ≡ false → result ≡ Err (try_error (is_poisoned self.old.held)) }
        ensures refused { OnErr result (self.new ≡ self.old) }
        ensures wakes { WakesAnswered self.old.slots self.new.slots }
        ensures settled { IsCoreSettled self.new }
    {
        let is_poisoned = self.is_poisoned();
        if self.try_take(request) {
            return Ok(());
        }
        if is_poisoned {
            return Err(TryLockError::Poisoned);
        }
        Err(TryLockError::WouldBlock)
    }
}

// The request of a mode.
fn request_of(mode: Mode) -> Request
    ensures { result ≡ mode_request mode }
{
    match mode {
        Mode::Exclusive => Request::Exclusive,
        Mode::Shared => Request::Shared,
        Mode::WaitExclusive => Request::WaitExclusive,
        Mode::WaitShared => Request::WaitShared,
    }
}

// Who has the lock.
#[derive(Clone, Copy)]
enum Owner {
    // Nobody.
    Free,
    // One owner alone.
    Exclusive,
    // So many that share it, 1 to 62.
    Shared(u8),
    // Nobody, and it is poisoned.
    Poisoned,
}

/// The owners of a lock, as a state that it can be in.
#[derive(Drop)]
pub struct Owners {
    owner: Owner,
}

impl Model for Owners {
    ghost use Rattle.saa_core_spec.specs.Held.{LockState, IsLockState};

    ghost Value = { LockState };

    ghost use Rattle.saa_core.specs.Owners.{lock_state};

    ghost view = { λ owners. lock_state owners.owner };

    ghost invariant = { λ owners. IsLockState (lock_state owners.owner) };
}

impl Owners {
    ghost use Rattle.saa_core.specs.Owners.{lock_state};

    // These have the lock.
    fn new(owner: Owner) -> Owners
        requires { IsLockState (lock_state owner) }
        ensures { result ≡ lock_state owner }
    {
        Owners { owner }
    }

    // Who has it.
    fn owner(&self) -> Owner
        ensures owner { lock_state result ≡ self.now }
        ensures fine { IsLockState (lock_state result) }
    {
        self.owner
    }
}

impl Needs for Owners {
    ghost use Rattle.saa_core_spec.specs.Held.{OfLock};

    type Order = Links<ForModes>;

    ghost held = { λ owners. OfLock owners };

    ghost grants = { λ owners. tt };

    fn fits(&self, request: Request) -> bool {
        match self.owner {
            Owner::Free => is_mode(request),
            Owner::Shared(owners) => owners < 62 && is_for_sharing(request),
            Owner::Exclusive | Owner::Poisoned => false,
        }
    }

    fn take(&mut self, request: Request) {
        self.owner = taken(self.owner, request);
    }

    fn give_back(&mut self, request: Request) -> bool {
        let Some(owner) = left(self.owner, request) else {
            return false;
        };
        self.owner = owner;
        true
    }

    fn answer_to_all(&self) -> Option<u8> {
        match self.owner {
            Owner::Poisoned => Some(POISONED),
            Owner::Free | Owner::Exclusive | Owner::Shared(_) => None,
        }
    }
}

// The count of a lock in its word.
fn count_of(owner: Owner) -> u16
    ensures { result ≡ lock_count (lock_state owner) }
{
    match owner {
        Owner::Free | Owner::Poisoned => 0,
        Owner::Exclusive => 63,
        Owner::Shared(owners) => u16::from(owners),
    }
}

// Whether a request is one of a lock's.
fn is_mode(request: Request) -> bool
    ensures { result ≡ lock_fits Free request }
{
    match request {
        Request::Exclusive | Request::Shared | Request::WaitExclusive | Request::WaitShared => true,
        Request::Permits(_) | Request::Enter | Request::Arrive => false,
    }
}

// Whether a request is one that fits beside a share.
fn is_for_sharing(request: Request) -> bool
    ensures { result ≡ lock_fits (Shared 1) request }
{
    match request {
        Request::Shared | Request::WaitShared => true,
        Request::Exclusive
        | Request::WaitExclusive
        | Request::Permits(_)
        | Request::Enter
        | Request::Arrive => false,
    }
}

// Who has the lock once a request that fits is granted; the wait modes take nothing.
fn taken(owner: Owner, request: Request) -> Owner
    requires fits { lock_fits (lock_state owner) request ≡ true }
    requires fine { IsLockState (lock_state owner) }
    ensures taken { lock_state result ≡ lock_plus (lock_state owner) request }
    ensures fine { IsLockState (lock_state result) }
{
    match owner {
        Owner::Free => match request {
            Request::Exclusive => Owner::Exclusive,
            Request::Shared => Owner::Shared(1),
            _ => Owner::Free,
        },
        Owner::Shared(owners) => match request {
            Request::Shared => Owner::Shared(owners + 1),
            _ => owner,
        },
        Owner::Exclusive | Owner::Poisoned => owner,
    }
}

// Who has the lock once it got back what a request took; `None` where nobody has that.
fn left(owner: Owner, request: Request) -> Option<Owner>
    requires { IsLockState (lock_state owner) }
    ensures left { IfSome result (λ rest. lock_less (lock_state owner) request ≡ Some (lock_state rest)) }
    ensures fine { IfSome result (λ rest. IsLockState (lock_state rest)) }
    ensures none { IfNone result (lock_less (lock_state owner) request ≡ None) }
{
    match owner {
        Owner::Exclusive => match request {
            Request::Exclusive => Some(Owner::Free),
            _ => None,
        },
        Owner::Shared(owners) => match request {
            Request::Shared => Some(one_less(owners)),
            _ => None,
        },
        Owner::Free | Owner::Poisoned => None,
    }
}

// Who shares the lock once one of so many doesn't.
fn one_less(owners: u8) -> Owner
    requires some { 0 < owners }
    requires within { owners ≤ 62 }
    ensures left { lock_state result ≡ (if owners == 1 then Free else Shared (owners - 1)) }
    ensures fine { IsLockState (lock_state result) }
{
    if owners == 1 {
        return Owner::Free;
    }
    Owner::Shared(owners - 1)
}

impl Primitive for LockCore {
    ghost use Rattle.saa_core_spec.specs.Lock.{mode_request, lock_step};
    ghost use Rattle.saa_core_spec.specs.Values.{lock_value};
    ghost use Rattle.saa_core.specs.LockCalls.{LockInvariant};
    ghost use Rattle.saa_core.specs.Trying.{mode_tried};

    type Call = LockCall;

    type Ask = Mode;

    type Answer = LockAnswer;

    type Value = Result<bool, Error>;

    ghost core = { λ core. core };

    ghost request = { mode_request };

    ghost step = { lock_step };

    ghost value = { lock_value };

    ghost tried = { mode_tried };

    ghost core_invariant = { IsCoreSettled };

    ghost object_invariant = { LockInvariant };

    fn object_invariant(&self) {
        // The proof learns that the line is settled, and that nobody waits at a poisoned lock.
        let _waiting = self.waiting();
        let _owner = self.needs().owner();
    }

    fn call(&mut self, call: LockCall) -> LockAnswer {
        // The proof learns that a call which only reads leaves the pending wakes as they are.
        let _waiting = self.waiting();
        match call {
            LockCall::TryLock => LockAnswer::Tried(self.try_lock()),
            LockCall::TryShare => LockAnswer::Tried(self.try_share()),
            LockCall::ReleaseLock => LockAnswer::Bool(self.release_lock()),
            LockCall::ReleaseShare => LockAnswer::Bool(self.release_share()),
            LockCall::Downgrade => LockAnswer::Bool(self.downgrade()),
            LockCall::PoisonLock => LockAnswer::Bool(self.poison_lock()),
            LockCall::ClearPoison => LockAnswer::Bool(self.clear_poison()),
            LockCall::IsFree => LockAnswer::Bool(self.is_free()),
            LockCall::IsLocked => LockAnswer::Bool(self.is_locked()),
            LockCall::IsShared => LockAnswer::Bool(self.is_shared()),
            LockCall::IsPoisoned => LockAnswer::Bool(self.is_poisoned()),
        }
    }

    /// The lock in one number, laid out as the main word of a word's lock is: from bit 0 how many share it, in 16 bits, or 63 for one
    /// owner alone; bit 16 clear; bit 17 set exactly where it is poisoned; from bit 18 the newest waiter, by its slot
    /// plus 1, and 0 where there is no waiter. Costs O(1).
    fn word(&self) -> u64
        ensures number { result ≡ word_number count_bits (core_word self.now) }
        ensures read { word_of count_bits result ≡ core_word self.now }
        ensures nobody { ((word_of count_bits result).tail ≡ 0) ↔ (self.now.slots.line ≡ []) }
        ensures within { (word_of count_bits result).tail ≤ room_of self.now.slots }
    {
        let owner = self.needs().owner();
        let word = Word {
            count: count_of(owner),
            is_flagged: false,
            is_poisoned: matches!(owner, Owner::Poisoned),
            tail: self.waiters().tail(),
        };
        word.pack()
    }

    fn may_succeed(mode: Mode, word: u64) -> bool
        ensures { IsTrue result ↔ mode_fits mode (word_of count_bits word) }
    {
        let word = Word::unpack(word);
        let most = match mode {
            Mode::Exclusive => 1,
            Mode::Shared => ALL_OWNERS,
            Mode::WaitExclusive | Mode::WaitShared => 0,
        };
        word.tail == 0 && word.count < most
    }

    fn try_now(&mut self, mode: Mode) -> Option<u8> {
        let answer = match mode {
            Mode::Exclusive => self.try_lock(),
            Mode::Shared => self.try_share(),
            Mode::WaitExclusive | Mode::WaitShared => return None,
        };
        match answer {
            Ok(()) => Some(0),
            Err(TryLockError::Poisoned) => Some(POISONED),
            Err(TryLockError::WouldBlock) => None,
        }
    }

    /// Registers an idle ticket in a mode, as sync or as async.
    ///
    /// `Ok(true)`: it is answered at once, Poisoned at a poisoned lock, or granted where there is no waiter and it fits; or it
    /// waits, last in the line, in a slot. `Ok(false)`: the ticket isn't idle; nothing changes. `Err(Full)`: it would have
    /// to wait, and as many slots are held as there is room; nothing changes. Costs O(1).
    /// Rule: docs/DEFINITIONS.md, "Asking".
    fn register(&mut self, ticket: &mut Ticket, mode: Mode, is_sync: bool) -> Result<bool, Full> {
        let _owner = self.needs().owner();
        self.register_request(ticket, request_of(mode), is_sync)
    }

    /// Polls a ticket for the number of its answer, as [`Self::poll`] does: 0 granted, 2 poisoned.
    fn poll_number(&mut self, ticket: &mut Ticket, how: How) -> Result<u8, Error> {
        Granting::poll_number(self, ticket, how)
    }

    fn value_of(answer: Result<u8, Error>) -> Result<bool, Error> {
        match answer {
            Ok(value) => Ok(value == 0),
            Err(error) => Err(error),
        }
    }

    /// Drops what a ticket is registered for: it is idle afterwards in every case.
    ///
    /// A waiter leaves the line, and those behind it are granted while they fit. A grant that wasn't consumed is given
    /// back as by the release of its mode, which changes nothing where the lock is poisoned by then; a granted wait mode
    /// and a Poisoned answer give nothing back. A ticket whose slot isn't held in this core changes nothing here.
    /// Costs O(how many are granted) at any position.
    fn cancel(&mut self, ticket: &mut Ticket) {
        Granting::cancel(self, ticket);
    }

    /// Drops what a ticket is registered for, as [`Self::cancel`] does.
    fn leave(&mut self, ticket: &mut Ticket) {
        Granting::leave(self, ticket);
    }

    fn next_answered(&mut self) -> Option<u16> {
        Granting::next_answered(self)
    }
}

impl fmt::Debug for LockCore {
    fn fmt<W: fmt::Write>(&self, f: &mut fmt::Formatter<W>) -> fmt::Result {
        let locked = self.is_locked();
        let share_count = match self.needs().owner() {
            Owner::Shared(owners) => owners,
            Owner::Free | Owner::Exclusive | Owner::Poisoned => 0,
        };
        let poisoned = self.is_poisoned();
        let waiting = self.waiting();
        write!(
            f,
            "LockCore {{ locked: {locked}, share_count: {share_count}, poisoned: {poisoned}, waiting: {waiting} }}"
        )
    }
}
