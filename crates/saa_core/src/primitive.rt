//! What any primitive means to generic code: a core's calls, as steps of the sequential specification, and what always holds of it.
//!
//! `saa_sync` shares any `Primitive` among threads, and `saa_core_bench` runs commands over one; each is written and proved once.

ghost use Rattle.std.specs.Prelude.{◌≡◌, ℕ, ◌<◌, ◌||◌, true, false, IfSome, IsErr, IsNone, OnErr, List, Option, Result, slice_get};
ghost use Rattle.saa_core_spec.specs.declared.request.Request.{Request};
ghost use Rattle.saa_core_spec.specs.declared.polling.Error.{Error};
ghost use Rattle.saa_core_spec.specs.declared.polling.Error.TheVariants.{NotRegistered};
ghost use Rattle.saa_core.specs.declared.ticket.Registration.{Registration};
ghost use Rattle.saa_core.specs.declared.ticket.Registration.TheVariants.{Unregistered};
ghost use Rattle.saa_core_spec.specs.Object.{Object, After};
ghost use Rattle.saa_core_spec.specs.Asking.{registered};
ghost use Rattle.saa_core_spec.specs.Polling.{polled};
ghost use Rattle.saa_core.specs.Slots.{WakesAnswered, held_slots, room_of, wake_taken};
ghost use Rattle.saa_core.specs.Tickets.{Core, StepsWithTicket, Calls, HasAnswer, Polled, IsForeign, dropping, leaving, fault_of, is_busy, is_yes, object_of};

use crate::ticket::{Error, Full, How, Ticket};

/// A core, as generic code sees it: its calls, and what they mean as steps of the object.
pub trait Primitive: Drop {
    /// A call that needs no ticket.
    type Call: Copy;
    /// What a registration asks.
    type Ask: Copy;
    /// What a call answers.
    type Answer: Copy;
    /// What a poll answers.
    type Value: Copy;

    // What contracts see of it, the request of an ask, what a call does to the object, and what a poll's number means.
    ghost core: { Self → Core };

    ghost request: { Self.Ask → Request };

    ghost step: { Self.Call → Object → After Self.Answer };

    ghost value: { Result ℕ Error → Self.Value };

    // What a try does to the object, and the number that it is answered, if it is.
    ghost tried: { Self.Ask → Object → After (Option ℕ) };

    // What always holds of such a core, and of the object that it is with any tickets.
    ghost core_invariant: { Core → Type 0 };

    ghost object_invariant: { Object → Type 0 };

    /// Does nothing: its contract says what holds of every such core at every moment.
    fn object_invariant(&self)
        ensures { (tickets : List Registration) → object_invariant (object_of (core self.now) tickets) };

    /// Makes a call that needs no ticket; a wake is pending for each waiter that it answers.
    fn call(&mut self, call: Self::Call) -> Self::Answer
        ensures calls { Calls (core self.old) (core self.new) (step call) result }
        ensures wakes { WakesAnswered (core self.old).slots (core self.new).slots };

    /// The core in one number, for a caller that looks at it without the mutex around it: the main word of a semaphore or a lock, and 0
    /// for a gate or a barrier. Costs O(1).
    fn word(&self) -> u64 {
        0
    }

    /// Whether a try for this may succeed at a core that has this number. Costs O(1).
    ///
    /// At a semaphore and a lock a call may try before it registers: an answer that is there at once is the one that its registration
    /// would get. At a gate and a barrier no try is answered: every task waits there for the call that answers all.
    fn may_succeed(_ask: Self::Ask, _word: u64) -> bool {
        false
    }

    /// Tries for what is asked, and tells the number of the answer; `None` where there is none at once, and then nothing changes.
    /// Costs O(1).
    fn try_now(&mut self, ask: Self::Ask) -> Option<u8>
        ensures calls { Calls (core self.old) (core self.new) (tried ask) result }
        ensures refused { IsNone result → core self.new ≡ core self.old };

    /// Registers an idle ticket, as sync or as async. A wake is pending for each waiter that it answers.
    ///
    /// `Ok(true)`: it is answered at once, or it waits, last in the line, in a slot. `Ok(false)`: the ticket isn't idle, or asks for more
    /// than there ever is; nothing changes. `Err(Full)`: it would have to wait, and as many slots are held as there is room; nothing
    /// changes. Costs O(1), and at a barrier O(how many are answered). Rule: docs/DEFINITIONS.md, "Asking".
    fn register(&mut self, ticket: &mut Ticket, ask: Self::Ask, is_sync: bool) -> Result<bool, Full>
        ensures acts { StepsWithTicket (core self.old) (core self.new) ticket.old ticket.new (λ s name. registered s name (request ask) is_sync) result }
        ensures ticket { is_busy ticket.new ≡ (is_busy ticket.old || is_yes result) }
        ensures busy { is_busy ticket.old ≡ true
            → (result ≡ Ok false) × (core self.new ≡ core self.old) × (ticket.new ≡ ticket.old) }
        ensures full { IsErr result → held_slots (core self.old).slots ≡ room_of (core self.old).slots }
        ensures refused { is_yes result ≡ false → (core self.new ≡ core self.old) × (ticket.new ≡ ticket.old) }
        ensures wakes { WakesAnswered (core self.old).slots (core self.new).slots }
        ensures invariant { core_invariant (core self.new) };

    /// Polls a ticket for the number of its answer; never waits, and leaves the pending wakes as they are. Costs O(1).
    ///
    /// `NotRegistered`: the ticket is idle, or its slot isn't held in this core. `WrongMode`: it was registered as async and is polled
    /// as sync, or the other way round. `NotReady`: it waits. None of these changes anything. `Ok`: its slot is free again, and the
    /// ticket is idle.
    fn poll_number(&mut self, ticket: &mut Ticket, how: How) -> Result<u8, Error>
        ensures acts { StepsWithTicket (core self.old) (core self.new) ticket.old ticket.new (λ s name. polled s name how) result }
        ensures ticket { Polled ticket.old ticket.new how (fault_of result) }
        ensures kept { HasAnswer ticket.old result }
        ensures foreign { IsForeign (core self.old).slots ticket.old
            → (result ≡ Err NotRegistered) × (core self.new ≡ core self.old) × (ticket.new ≡ ticket.old) }
        ensures unchanged { OnErr result (core self.new ≡ core self.old) }
        ensures same { OnErr result (ticket.new ≡ ticket.old) }
        ensures held { (core self.new).held ≡ (core self.old).held }
        ensures pending_wakes { (core self.new).slots.pending_wakes ≡ (core self.old).slots.pending_wakes }
        ensures invariant { core_invariant (core self.new) };

    /// What the number of an answer means to this primitive.
    fn value_of(answer: Result<u8, Error>) -> Self::Value
        ensures { result ≡ value answer };

    /// Drops what a ticket is registered for: it is idle afterwards in every case, and a wake is pending for each waiter that this answers.
    ///
    /// A waiter leaves the line. An answer that wasn't consumed is consumed, and what it granted is given back. A ticket whose slot isn't
    /// held in this core changes nothing here.
    fn cancel(&mut self, ticket: &mut Ticket)
        ensures acts { StepsWithTicket (core self.old) (core self.new) ticket.old ticket.new dropping result }
        ensures idle { ticket.new ≡ Unregistered }
        ensures unregistered { ticket.old ≡ Unregistered → core self.new ≡ core self.old }
        ensures foreign { IsForeign (core self.old).slots ticket.old → core self.new ≡ core self.old }
        ensures wakes { WakesAnswered (core self.old).slots (core self.new).slots }
        ensures invariant { core_invariant (core self.new) };

    /// Drops what a ticket is registered for, as [`Self::cancel`] does, and disturbs nobody by it.
    ///
    /// A waiter leaves the line, and at a gate all others wait on. At a semaphore, a lock and a barrier this is a cancel.
    fn leave(&mut self, ticket: &mut Ticket)
        ensures acts { StepsWithTicket (core self.old) (core self.new) ticket.old ticket.new leaving result }
        ensures idle { ticket.new ≡ Unregistered }
        ensures unregistered { ticket.old ≡ Unregistered → core self.new ≡ core self.old }
        ensures foreign { IsForeign (core self.old).slots ticket.old → core self.new ≡ core self.old }
        ensures wakes { WakesAnswered (core self.old).slots (core self.new).slots }
        ensures invariant { core_invariant (core self.new) };

    /// Reports the oldest pending wake and takes it out: of the slots that weren't reported yet, the one that was answered first. `None`
    /// exactly where none is pending. A slot comes once however often it was answered in between. Costs O(1).
    fn next_answered(&mut self) -> Option<u16>
        ensures oldest { result ≡ slice_get (core self.old).slots.pending_wakes 0 }
        ensures taken { core self.new ≡ record (core self.old) { slots = wake_taken (core self.old).slots } }
        ensures within { IfSome result (λ slot. slot < room_of (core self.old).slots) }
        ensures invariant { core_invariant (core self.new) };
}
