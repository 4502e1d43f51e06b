//! The one form of every primitive that threads share: one mutex around a core, and a parker for each slot of its room.
//!
//! What a form of any core has is written here once: how it is made, its waits (`waiting`, `tasks`, and the calls on them, `blocking`), looks
//! before a call registers (`looking`), turns at the mutex and wakes (`locking`), its pagers (`paging`), what it shows of itself (`showing`), and what
//! tests may see (`counting`). What a
//! primitive has beside that, its own calls and how its answers read, is in the module of its name.

ghost use Rattle.std.specs.Prelude.{◌≡◌, IfOk, IsOk};
ghost use Rattle.saa_sync.specs.Forms.{room_of, spin_policy_of, waiter_policy_of};

mod blocking;
mod counting;
mod locking;
mod looking;
mod paging;
mod showing;
mod tasks;
mod waiting;

use crate::hint::Hint;
use crate::locked::Locked;
use crate::parker::Parker;
use crate::spin_policy::SpinPolicy;
use crate::wakers::Wakers;
pub use counting::Counts;
use crossbeam_utils::CachePadded;
use futures::task::Source;
pub use paging::PagerCore;
use saa_core::primitive::Primitive;
use saa_core::ticket::Ticket;
use std::alloc::{AllocError, Global};
use std::sync::{Mutex, Wait};

/// A primitive that threads share: a core behind one mutex, where its waiters park, and what a call sees before it locks.
///
/// Programs name it by its core: [`Semaphore`](crate::semaphore::Semaphore), or [`SemaphoreOf`](crate::semaphore::SemaphoreOf) with a
/// bound of its own, [`Lock`](crate::lock::Lock), [`Gate`](crate::gate::Gate) and [`Barrier`](crate::barrier::Barrier). `R` is the
/// permission to block, as a reference to the runtime, and `P` the core.
#[derive(Drop)]
pub struct Form<R: Wait + Drop, P: Primitive> {
    rt: R,
    // On cache lines of its own: what calls read without it would be held up by every turn there.
    mutex: CachePadded<Mutex<Locked<P>>>,
    // One for each slot of the room, each on cache lines of its own: a task that looks at its parker would be held up by every unpark
    // of its neighbours, which cost two threads that take turns a third of the time.
    parkers: Vec<CachePadded<Parker>>,
    // How often a waiter spins and yields before it parks.
    waiting: SpinPolicy,
    // What is seen without the mutex, on cache lines of its own, and how often a call looks at it before it registers.
    hint: CachePadded<Hint>,
    unregistered: SpinPolicy,
    // What tasks wait for.
    source: Source,
}

impl<R: Wait + Drop, P: Primitive> Form<R, P> {
    // The form of a core that was made for so large a room. Its calls look so often before they register, and its waiters before they park.
    //
    // Only this takes memory; the error comes only where that was refused, and so never for room 0, which takes none. Where
    // it comes, the core is dropped.
    pub(crate) fn of_core(
        rt: R,
        alloc: Global,
        core: P,
        room: u16,
        unregistered: SpinPolicy,
        waiting: SpinPolicy,
    ) -> Result<Self, AllocError>
        ensures no_room { room ≡ 0 → IsOk result }
        ensures spin_policy { IfOk result (λ form. spin_policy_of form ≡ unregistered) }
        ensures waiter { IfOk result (λ form. waiter_policy_of form ≡ waiting) }
        ensures room { IfOk result (λ form. room_of form ≡ room) }
    {
        let mut parkers = Vec::with_capacity(alloc, usize::from(room))?;
        for _slot in 0..room {
            parkers.push_reserved(CachePadded::new(Parker::new()));
        }
        let wakers = Wakers::with_room(alloc, room)?;
        Ok(Form {
            rt,
            mutex: CachePadded::new(Mutex::new(Locked::new(core, wakers))),
            parkers,
            waiting,
            hint: CachePadded::new(Hint::new()),
            unregistered,
            source: Source::new(),
        })
    }

    // The permission to block, for waits beside the form.
    pub(crate) fn rt(&self) -> &R {
        &self.rt
    }

    // Makes the parker of a slot that a call or a future joined in ready for it.
    fn reset_parker(&self, slot: Option<u16>) {
        if let Some(slot) = slot {
            if let Some(parker) = self.parker(slot) {
                parker.reset();
            }
        }
    }

    // Where a ticket waits: at the parker of its slot, if it has one.
    fn parker_of(&self, ticket: &Ticket) -> Option<&Parker> {
        self.parker(ticket.slot()?)
    }

    // The parker of a slot of the room; a slot past it has none.
    fn parker(&self, slot: u16) -> Option<&Parker> {
        let parker = self.parkers.get(usize::from(slot))?;
        Some(parker)
    }
}
