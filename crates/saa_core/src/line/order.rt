//! How a line keeps the order of the waiters: what it needs of that, and the two ways that there are.
//!
//! [`Queue`] keeps them in a list, in which a slot is searched for that leaves. `Links` of `saa_core_words` keeps each with
//! its two neighbours, so that a slot leaves at one cost at any position; it keeps the requests of one form.

ghost use Rattle.std.specs.Prelude.{◌≡◌, ◌+◌, ◌<◌, ◌≤◌, [], ◌∷◌, ◌++◌, length, drop, IsOk, IfOk, slice_get};
ghost use Rattle.std.specs.VecDeque.{deque_capacity};
ghost use Rattle.saa_core_spec.specs.declared.request.Request.{Request};
ghost use Rattle.saa_core_spec.specs.Object.{times, without};
ghost use Rattle.saa_core_words.specs.Links.{Waiters};

use saa_core_spec::request::Request;
use saa_core_words::links::Links;
use saa_core_words::requests::Requests;
use std::alloc::{AllocError, Global};
use std::collections::VecDeque;
use std::marker::Model;

/// The waiters, oldest first, each in a slot below the room, with what it asks.
pub trait Order: Drop {
    // What contracts see of it.
    ghost waiters: { Self → Waiters };

    // Which requests it can keep.
    ghost keeps: { Request → Type 0 };

    /// Nobody waits yet, and there is room for so many. Costs O(`room`).
    ///
    /// Reserves all the memory that it will ever need; the error comes only where that was refused, and so never for room
    /// 0, which takes none.
    fn with_room(alloc: Global, room: u16) -> Result<Self, AllocError>
        ensures made { IfOk result (λ order. waiters order ≡ record { line = []; room = room }) }
        ensures no_room { room ≡ 0 → IsOk result };

    /// A slot that doesn't wait joins as the last, with what it asks. Costs O(1).
    fn push(&mut self, slot: u16, request: Request)
        requires within { slot < (waiters self.old).room }
        requires absent { times slot (waiters self.old).line ≡ 0 }
        requires rest { length (waiters self.old).line < (waiters self.old).room }
        requires kept { keeps request }
        ensures { waiters self.new ≡ record (waiters self.old) { line = (waiters self.old).line ++ (slot, request) ∷ [] } };

    /// The oldest waiter leaves; `None` where there is none. Costs O(1).
    fn pop(&mut self) -> Option<(u16, Request)>
        ensures oldest { result ≡ slice_get (waiters self.old).line 0 }
        ensures left { waiters self.new ≡ record (waiters self.old) { line = drop 1 (waiters self.old).line } };

    /// A slot that waits leaves, from any position. Its cost is the difference between the two orders.
    fn remove(&mut self, slot: u16)
        requires { times slot (waiters self.old).line ≡ 1 }
        ensures { waiters self.new ≡ record (waiters self.old) { line = without slot (waiters self.old).line } };

    /// The oldest waiter, with what it asks; `None` where there is none. Costs O(1).
    fn oldest(&self) -> Option<(u16, Request)>
        ensures { result ≡ slice_get (waiters self.now).line 0 };

    /// How many wait. Costs O(1).
    fn waiting(&self) -> usize
        ensures { result ≡ length (waiters self.now).line };
}

/// The waiters, in a list: one that leaves costs as much as how many wait.
#[derive(Drop)]
pub struct Queue {
    waiters: VecDeque<(u16, Request)>,
    room: u16,
}

impl Model for Queue {
    ghost use Rattle.std.specs.Prelude.{◌≤◌};
    ghost use Rattle.std.specs.VecDeque.{deque_capacity};
    ghost use Rattle.saa_core_words.specs.Links.{Waiters};

    ghost Value = { Waiters };

    ghost view = { λ queue. record { line = queue.waiters.items; room = queue.room } };

    ghost invariant = { λ queue. queue.room ≤ deque_capacity queue.waiters };
}

impl Order for Queue {
    ghost use Rattle.std.specs.Bool.{⊤};

    ghost waiters = { λ queue. queue };

    ghost keeps = { λ request. ⊤ };

    fn with_room(alloc: Global, room: u16) -> Result<Queue, AllocError> {
        let waiters = VecDeque::with_capacity(alloc, usize::from(room))?;
        Ok(Queue { waiters, room })
    }

    fn push(&mut self, slot: u16, request: Request) {
        self.waiters.push_back_reserved((slot, request));
    }

    fn pop(&mut self) -> Option<(u16, Request)> {
        self.waiters.pop_front()
    }

    /// A slot that waits leaves. Costs O(how many wait).
    fn remove(&mut self, slot: u16) {
        remove_slot(&mut self.waiters, slot);
    }

    fn oldest(&self) -> Option<(u16, Request)> {
        self.waiters.front().copied()
    }

    fn waiting(&self) -> usize {
        self.waiters.len()
    }
}

impl<K: Requests> Order for Links<K> {
    ghost use Rattle.std.specs.Prelude.{◌≡◌};
    ghost use Rattle.saa_core_spec.specs.Held.{request_number};

    ghost waiters = { λ links. links };

    ghost keeps = { λ request. K.read (request_number request) ≡ request };

    fn with_room(alloc: Global, room: u16) -> Result<Self, AllocError> {
        Links::with_room(alloc, room)
    }

    fn push(&mut self, slot: u16, request: Request) {
        Links::push(self, slot, request);
    }

    fn pop(&mut self) -> Option<(u16, Request)> {
        Links::pop(self)
    }

    /// A slot that waits leaves. Costs O(1).
    fn remove(&mut self, slot: u16) {
        Links::remove(self, slot);
    }

    fn oldest(&self) -> Option<(u16, Request)> {
        Links::oldest(self)
    }

    fn waiting(&self) -> usize {
        usize::from(Links::waiting(self))
    }
}

// Takes a slot that is once in the list out of it.
fn remove_slot(waiters: &mut VecDeque<(u16, Request)>, slot: u16)
    requires { times slot waiters.old.items ≡ 1 }
    ensures removed { waiters.new.items ≡ without slot waiters.old.items }
    ensures reserved { deque_capacity waiters.new ≡ deque_capacity waiters.old }
{
    for place in 0..waiters.len() {
        if waiters[place].0 == slot {
            let _waiter = waiters.remove(place);
            return;
        }
    }
}
