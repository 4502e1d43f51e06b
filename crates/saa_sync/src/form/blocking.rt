//! Calls that block, as the calls of each primitive make them: a look first, and then a registration of their own.

use super::Form;
use saa_core::primitive::Primitive;
use saa_core::ticket::{Error, Full, Ticket};
use saa_core_waits::Deadline;
use saa_core_waits::blocking::{acquire, acquire_until, acquire_with};
use std::sync::Wait;
use std::time::Clock;

impl<R: Wait + Drop, P: Primitive> Form<R, P> {
    /// Asks, waits for the answer if it isn't there at once, and consumes it; nothing stays registered.
    ///
    /// For what the core never refuses. A core that refused all the same, or that forgot a ticket which waits, is
    /// asked again, so that every value is one that the core answered. `Full`: its spins are over, it would have to wait, and the room
    /// is full.
    #[inline(always)]
    pub(crate) fn acquire(&self, ask: P::Ask) -> Result<u8, Full> {
        if let Some(value) = self.look(ask) {
            return Ok(value);
        }
        self.enqueue(ask)
    }

    // Registers, waits for the answer if it isn't there at once, and consumes it, as [`Self::acquire`] says.
    #[inline(never)]
    fn enqueue(&self, ask: P::Ask) -> Result<u8, Full> {
        for _ in self.rt.forever() {
            let mut ticket = Ticket::new();
            if let Ok(value) = acquire(self, &mut ticket, ask)? {
                return Ok(value);
            }
        }
        unreachable!()
    }

    /// Asks, and where that joins the queue calls `begin_wait` and waits, as [`Self::acquire`] does.
    pub(crate) fn acquire_with<F: FnOnce() + Drop>(
        &self,
        ask: P::Ask,
        begin_wait: F,
    ) -> Result<u8, Full>
        requires { F.pre begin_wait }
    {
        if let Some(value) = self.look(ask) {
            return Ok(value);
        }
        let mut ticket = Ticket::new();
        match acquire_with(self, &mut ticket, ask, begin_wait)? {
            Ok(value) => Ok(value),
            Err(_lost) => self.enqueue(ask),
        }
    }
}

impl<R: Wait + Clock + Drop, P: Primitive> Form<R, P> {
    /// Registers at once, without a look before it, and waits for the answer until the deadline. `Ok(None)`: time is up, and nothing
    /// is registered. Where the deadline has passed already it doesn't spin: it polls twice, and drops its registration.
    pub(crate) fn acquire_until(
        &self,
        ask: P::Ask,
        deadline: Deadline,
    ) -> Result<Option<u8>, Full> {
        for _ in self.rt.forever() {
            let mut ticket = Ticket::new();
            match acquire_until(self, &mut ticket, ask, deadline)? {
                Ok(value) => return Ok(Some(value)),
                Err(Error::NotReady) => return Ok(None),
                Err(_lost) => {}
            }
        }
        unreachable!()
    }
}
