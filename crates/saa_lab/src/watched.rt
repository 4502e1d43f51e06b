//! A core with a hundred pagers, and what its calls show of the waiters: the queue, and which pagers were answered.
//!
//! The replies are the core's, made by the calls that a bench makes. The queue is read off them: a pager that is registered in a slot waits
//! until the core reports the wake of that slot, or it is dropped.

use crate::forms::Asks;
use crate::reading::Request;
use crate::script_core::ScriptCore;
use saa_core::ticket::{Full, How, Ticket};
use std::alloc::{AllocError, Global};

/// How many pagers a script has.
pub const PAGERS: u16 = 100;

/// A pager that waits, and what it asks, in words.
#[derive(Debug, Drop)]
pub struct Waiter {
    /// Which pager.
    pub pager: u16,
    /// What it asks.
    pub asks: String,
}

/// A core and its pagers.
#[derive(Drop)]
pub struct Watched<P: ScriptCore> {
    core: P,
    tickets: Vec<Ticket>,
    queue: Vec<Waiter>,
}

impl<P: ScriptCore> Watched<P> {
    /// A core with idle pagers.
    pub fn new(alloc: Global, core: P) -> Result<Watched<P>, AllocError> {
        let mut tickets = Vec::with_capacity(alloc, usize::from(PAGERS))?;
        for _pager in 0..PAGERS {
            tickets.push(Ticket::new())?;
        }
        Ok(Watched {
            core,
            tickets,
            queue: Vec::new(alloc),
        })
    }

    /// The waiters, oldest first.
    pub fn queue(&self) -> &[Waiter] {
        self.queue.as_slice()
    }

    /// What is held, in words.
    pub fn held(&mut self, alloc: Global) -> Result<String, AllocError> {
        self.core.held_text(alloc)
    }

    /// Does what a line says, and answers the reply.
    pub fn reply(&mut self, alloc: Global, request: Request) -> Result<String, AllocError> {
        match request.asks {
            Asks::Register => self.register(alloc, request),
            Asks::TryPoll => self.poll(alloc, request.pager, How::Try),
            Asks::PollSync => self.poll(alloc, request.pager, How::Sync),
            Asks::PollAsync => self.poll(alloc, request.pager, How::Async),
            Asks::Registered => {
                let is_registered = self.is_registered(request.pager);
                format!(in alloc; "{is_registered}")
            }
            Asks::Drop => self.cancel(alloc, request.pager),
            Asks::Leave => self.leave(alloc, request.pager),
            _ => match P::call_of(request.asks, request.count) {
                Some(call) => P::answer_text(alloc, self.core.call(call)),
                None => Ok(String::new(alloc)),
            },
        }
    }

    /// The pagers whose wakes the core reports, in its order; they no longer wait.
    pub fn answered(&mut self, alloc: Global) -> Result<Vec<u16>, AllocError> {
        let mut answered = Vec::new(alloc);
        for _slot in 0..PAGERS {
            match self.core.next_answered() {
                None => break,
                Some(slot) => {
                    if let Some(pager) = self.pager_in(slot) {
                        self.forget(pager);
                        answered.push(pager)?;
                    }
                }
            }
        }
        Ok(answered)
    }

    fn is_registered(&self, pager: u16) -> bool {
        self.tickets
            .get(usize::from(pager))
            .is_some_and(|ticket| ticket.is_registered())
    }

    fn pager_in(&self, slot: u16) -> Option<u16> {
        let at = self
            .tickets
            .iter()
            .position(|ticket| ticket.slot() == Some(slot))?;
        u16::try_from(at).ok()
    }

    fn register(&mut self, alloc: Global, request: Request) -> Result<String, AllocError> {
        let ask = P::ask_of(request);
        let asks = P::ask_text(alloc, ask)?;
        let Some(ticket) = self.tickets.get_mut(usize::from(request.pager)) else {
            return Ok(String::new(alloc));
        };
        let was_registered = ticket.is_registered();
        let reply = self.core.register(ticket, ask, request.is_sync);
        if !was_registered && ticket.slot().is_some() {
            self.queue.push(Waiter {
                pager: request.pager,
                asks,
            })?;
        }
        let word = match reply {
            Ok(true) => "true",
            Ok(false) => "false",
            Err(Full) => "full",
        };
        String::from_str(alloc, word)
    }

    fn poll(&mut self, alloc: Global, pager: u16, how: How) -> Result<String, AllocError> {
        match self.tickets.get_mut(usize::from(pager)) {
            None => Ok(String::new(alloc)),
            Some(ticket) => {
                let number = self.core.poll_number(ticket, how);
                P::poll_text(alloc, P::value_of(number))
            }
        }
    }

    fn cancel(&mut self, alloc: Global, pager: u16) -> Result<String, AllocError> {
        self.forget(pager);
        if let Some(ticket) = self.tickets.get_mut(usize::from(pager)) {
            self.core.cancel(ticket);
        }
        String::from_str(alloc, "dropped")
    }

    fn leave(&mut self, alloc: Global, pager: u16) -> Result<String, AllocError> {
        self.forget(pager);
        if let Some(ticket) = self.tickets.get_mut(usize::from(pager)) {
            self.core.leave(ticket);
        }
        String::from_str(alloc, "dropped")
    }

    // The pager waits no more.
    fn forget(&mut self, pager: u16) {
        self.queue.retain(|waiter| waiter.pager != pager);
    }
}
