//! A ticket: what a task keeps of its registration, and the poll that all primitives share.
//!
//! A ticket belongs to the core that it was registered in. The core knows its slot, the ticket what was asked and how.
//! How tickets and a core are one object is said in `specs/Tickets.antt`.

ghost use Rattle.std.specs.Prelude.{◌≡◌, IfOk, OnErr, IfErr};
ghost use Rattle.saa_core_spec.specs.declared.polling.Error.TheVariants.{NotRegistered};
ghost use Rattle.saa_core.specs.declared.ticket.Registration.TheVariants.{Unregistered, InSlot};
ghost use Rattle.saa_core_spec.specs.Held.{Held};
ghost use Rattle.saa_core_spec.specs.Polling.{is_right_mode, polled};
ghost use Rattle.saa_core.specs.Slots.{IsSound};
ghost use Rattle.saa_core.specs.SlotStates.{IsSlotState, IsTakenFrom};
ghost use Rattle.saa_core.specs.Tickets.{StepsWithTicket, HasAnswer, IsForeign, Polled, fault_of, is_busy, slot_of};

use crate::line::LineOf;
use crate::line::order::Order;
pub use saa_core_spec::polling::{Error, How};
pub use saa_core_spec::request::{Full, Request};
use std::marker::Model;

/// What a ticket is registered as. Contracts see a ticket as one of these.
#[derive(Clone, Copy, Debug, Eq, PartialEq)]
pub enum Registration {
    /// It is idle.
    Unregistered,
    /// It was answered as it was registered: the value, what it asked, and whether as sync.
    AtOnce(u8, Request, bool),
    /// It has a slot: which one, what it asked, and whether as sync.
    InSlot(u16, Request, bool),
}

/// What a task keeps of its registration in a core.
///
/// It is idle until a core registers it, and again once its answer was consumed or it was cancelled there.
/// It isn't `Copy`, so a ticket that is only used with its core's calls has its answer consumed once. A ticket that goes out
/// of scope while it is registered leaves its slot held, so cancel it first.
#[derive(Drop)]
pub struct Ticket {
    registration: Registration,
}

impl Model for Ticket {
    ghost use Rattle.saa_core.specs.declared.ticket.Registration.{Registration};

    ghost Value = { Registration };

    ghost view = { λ ticket. ticket.registration };
}

impl Ticket {
    /// An idle ticket. Takes no memory.
    pub fn new() -> Ticket
        ensures { result ≡ Unregistered }
    {
        Ticket {
            registration: Registration::Unregistered,
        }
    }

    /// Whether the ticket is registered: it waits, or its answer isn't consumed yet.
    pub fn is_registered(&self) -> bool
        ensures { result ≡ is_busy self.now }
    {
        !matches!(self.registration, Registration::Unregistered)
    }

    /// The slot in which it waits, or its answer is kept. `None` where it is idle or was answered at once.
    pub fn slot(&self) -> Option<u16>
        ensures { result ≡ slot_of self.now }
    {
        match self.registration {
            Registration::InSlot(slot, _request, _is_sync) => Some(slot),
            _ => None,
        }
    }

    // What the ticket is registered as.
    pub(crate) fn registration(&self) -> Registration
        ensures { result ≡ self.now }
    {
        self.registration
    }

    // The ticket is registered so from now on. Only a core does this: a ticket that anybody could set could be forged.
    pub(crate) fn set(&mut self, registration: Registration)
        ensures { self.new ≡ registration }
    {
        *self = Ticket { registration };
    }

    // The poll of every core: of this ticket in a line, whatever is held. O(1).
    pub(crate) fn poll_in<O: Order>(&mut self, line: &mut LineOf<O>, how: How) -> Result<u8, Error>
        requires { IsSound line.old }
        ensures acts { (held : Held) → StepsWithTicket (record { held = held; slots = line.old }) (record { held = held; slots = line.new })
            self.old self.new (λ s name. polled s name how) result }
        ensures ticket { Polled self.old self.new how (fault_of result) }
        ensures kept { HasAnswer self.old result }
        ensures foreign { IsForeign line.old self.old
            → (result ≡ Err NotRegistered) × (line.new ≡ line.old) × (self.new ≡ self.old) }
        ensures taken { IfOk result (λ value. IsTakenFrom self.old line.old line.new value) }
        ensures unchanged { OnErr result (line.new ≡ line.old) }
        ensures same { OnErr result (self.new ≡ self.old) }
        ensures line { line.new.line ≡ line.old.line }
        ensures pending_wakes { line.new.pending_wakes ≡ line.old.pending_wakes }
        ensures sound { IsSound line.new }
    {
        match self.registration() {
            Registration::Unregistered => Err(Error::NotRegistered),
            Registration::AtOnce(value, _request, is_sync) => {
                if !how.is_right_mode(is_sync) {
                    return Err(Error::WrongMode);
                }
                self.set(Registration::Unregistered);
                Ok(value)
            }
            Registration::InSlot(slot, request, is_sync) => {
                self.poll_slot(line, how, slot, request, is_sync)
            }
        }
    }

    // The poll of a ticket that has a slot. A slot that isn't held in this line was registered elsewhere.
    fn poll_slot<O: Order>(
        &mut self,
        line: &mut LineOf<O>,
        how: How,
        slot: u16,
        _request: Request,
        is_sync: bool,
    ) -> Result<u8, Error>
        requires sound { IsSound line.old }
        requires registered { self.old ≡ InSlot slot _request is_sync }
        ensures acts { (held : Held) → StepsWithTicket (record { held = held; slots = line.old }) (record { held = held; slots = line.new })
            self.old self.new (λ s name. polled s name how) result }
        ensures ticket { Polled self.old self.new how (fault_of result) }
        ensures kept { HasAnswer self.old result }
        ensures foreign { IsForeign line.old self.old
            → (result ≡ Err NotRegistered) × (line.new ≡ line.old) × (self.new ≡ self.old) }
        ensures taken { IfOk result (λ value. IsTakenFrom self.old line.old line.new value) }
        ensures unchanged { OnErr result (line.new ≡ line.old) }
        ensures same { OnErr result (self.new ≡ self.old) }
        ensures line { line.new.line ≡ line.old.line }
        ensures pending_wakes { line.new.pending_wakes ≡ line.old.pending_wakes }
        ensures sound { IsSound line.new }
    {
        match slot_state(line, slot) {
            SlotState::Free => Err(Error::NotRegistered),
            SlotState::Waiting => {
                if !how.is_right_mode(is_sync) {
                    return Err(Error::WrongMode);
                }
                Err(Error::NotReady)
            }
            SlotState::Answered(value) => {
                if !how.is_right_mode(is_sync) {
                    return Err(Error::WrongMode);
                }
                let _taken = line.take(slot);
                self.set(Registration::Unregistered);
                Ok(value)
            }
        }
    }
}

// What a slot of a line is.
enum SlotState {
    // Nobody holds it.
    Free,
    // It is in the line.
    Waiting,
    // Its answer is there.
    Answered(u8),
}

// What a slot of a line is.
fn slot_state<O: Order>(line: &LineOf<O>, slot: u16) -> SlotState
    ensures { IsSlotState line.now slot result }
{
    if let Some(value) = line.answer(slot) {
        return SlotState::Answered(value);
    }
    if line.waits(slot) {
        return SlotState::Waiting;
    }
    SlotState::Free
}
