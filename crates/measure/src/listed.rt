//! A semaphore whose queue is a list, in which a waiter that leaves is searched for: the plain slow one beside the core.
//!
//! It is no product: it is timed beside the core, which keeps its queue by links. Asking and settling are the core's own (`granting` of
//! `saa_core`): what differs is the queue.

ghost use Rattle.std.specs.Prelude.{◌≡◌, ◌≤◌, false, if◌then◌else◌, nat_lt};
ghost use Rattle.saa_core_spec.specs.declared.request.Request.TheVariants.{Permits};
ghost use Rattle.saa_core_spec.specs.Held.{OfSemaphore, asks_too_much};
ghost use Rattle.saa_core_spec.specs.Semaphore.{out_of};

use saa_core::granting::{Granting, Needs};
use saa_core::line::Line;
use saa_core::line::order::Queue;
use saa_core::ticket::{Error, Full, How, Ticket};
use saa_core_spec::request::Request;
use std::alloc::{AllocError, Global};

/// How many permits there are.
pub const PERMITS: usize = 63;

/// A semaphore of 63 permits, whose calls are those of `SemaphoreCore`.
#[derive(Drop)]
pub struct ListedSemaphore {
    core: Granting<PermitsOut>,
}

impl ListedSemaphore {
    /// All permits are available, and there is room for so many waiters.
    pub fn new(alloc: Global, room: u16) -> Result<Self, AllocError> {
        let line = Line::with_room(alloc, room)?;
        Ok(ListedSemaphore {
            core: Granting::from_parts(PermitsOut { out: 0 }, line),
        })
    }

    /// Takes so many permits if there is no waiter and they are available.
    pub fn try_acquire_many(&mut self, count: usize) -> bool {
        match self.request_of(count) {
            Some(request) => self.core.try_take(request),
            None => false,
        }
    }

    /// Gives so many permits back.
    pub fn release_many(&mut self, count: usize) -> bool {
        match self.request_of(count) {
            Some(request) => self.core.take_back(request),
            None => false,
        }
    }

    /// Registers an idle ticket for so many permits.
    pub fn register(
        &mut self,
        ticket: &mut Ticket,
        count: usize,
        is_sync: bool,
    ) -> Result<bool, Full> {
        match self.request_of(count) {
            Some(request) => self.core.register_request(ticket, request, is_sync),
            None => Ok(false),
        }
    }

    /// Polls a ticket for its grant.
    pub fn poll(&mut self, ticket: &mut Ticket, how: How) -> Result<(), Error> {
        match self.core.poll_number(ticket, how) {
            Ok(_granted) => Ok(()),
            Err(error) => Err(error),
        }
    }

    /// Takes out the oldest pending wake, and reports its slot.
    pub fn next_answered(&mut self) -> Option<u16> {
        self.core.next_answered()
    }

    // The request for so many permits; `None` where that is more than there ever are.
    fn request_of(&self, count: usize) -> Option<Request>
        ensures request { result ≡ (if nat_lt 63 count then None else Some (Permits count)) }
        ensures held { self.now.core.held ≡ OfSemaphore 63 (out_of self.now.core.held) }
    {
        let _permits = self.core.needs().out;
        if count > PERMITS {
            return None;
        }
        Some(Request::Permits(count as u16))
    }
}

// The permits that are out.
#[derive(Drop)]
struct PermitsOut {
    out: usize,
    ghost bounded: { out ≤ 63 },
}

impl Needs for PermitsOut {
    ghost use Rattle.saa_core_spec.specs.Held.{OfSemaphore};

    type Order = Queue;

    ghost held = { λ permits. OfSemaphore 63 permits.out };

    ghost grants = { λ permits. tt };

    fn fits(&self, request: Request) -> bool {
        let Request::Permits(count) = request else {
            return false;
        };
        usize::from(count) <= PERMITS - self.out
    }

    fn take(&mut self, request: Request) {
        if let Request::Permits(count) = request {
            self.out += usize::from(count);
        }
    }

    fn give_back(&mut self, request: Request) -> bool {
        let Request::Permits(count) = request else {
            return false;
        };
        let count = usize::from(count);
        if count > self.out {
            return false;
        }
        self.out -= count;
        true
    }

    fn answer_to_all(&self) -> Option<u8> {
        None
    }
}
