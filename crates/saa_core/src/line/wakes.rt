//! The pending wakes of a line: the answered slots that weren't reported yet, oldest first.
//!
//! A slot is in the list at most once, so the list never outgrows the room that is reserved when it is made,
//! read or not. `specs/LineParts.antt` says what the two parts have to do with each other.
//! Whom to wake is left to the callers of `Line`.

ghost use Rattle.std.specs.Prelude.{◌≡◌, ◌<◌, [], IsOk, IfOk, IfSome, drop, slice_get};
ghost use Rattle.saa_core.specs.LineParts.{with_pending};

use crate::line::no_marks;
use std::alloc::{AllocError, Global};
use std::collections::VecDeque;
use std::marker::Model;

/// The slots whose wake is pending, each once, oldest first.
#[derive(Drop)]
pub(crate) struct Wakes {
    order: VecDeque<u16>,
    listed: Vec<bool>,
}

impl Model for Wakes {
    ghost use Rattle.std.specs.Prelude.{◌≡◌, ◌≤◌, length};
    ghost use Rattle.std.specs.VecDeque.{deque_capacity};
    ghost use Rattle.saa_core.specs.LineParts.{PendingWakes, IsListed};

    ghost Value = { PendingWakes };

    ghost view = { λ w. record { slots = w.order.items; room = length w.listed.items } };

    ghost invariant = { λ w. record {
      agrees : IsListed w.order.items w.listed.items;
      reserved : length w.listed.items ≤ deque_capacity w.order;
    } };
}

impl Wakes {
    /// None is pending yet. Reserves all that the list of a room of so many slots will ever need.
    pub(crate) fn with_room(alloc: Global, room: u16) -> Result<Wakes, AllocError>
        ensures made { IfOk result (λ wakes. wakes ≡ record { slots = []; room = room }) }
        ensures no_room { room ≡ 0 → IsOk result }
    {
        let order = VecDeque::with_capacity(alloc, usize::from(room))?;
        let listed = no_marks(alloc, room)?;
        Ok(Wakes { order, listed })
    }

    /// The wake of a slot is pending from now on, last in the list; a slot that is listed already stays where it is.
    pub(crate) fn push(&mut self, slot: u16)
        requires { slot < self.old.room }
        ensures { self.new ≡ with_pending slot self.old }
    {
        let place = usize::from(slot);
        if self.listed[place] {
            return;
        }
        self.listed[place] = true;
        self.order.push_back_reserved(slot);
    }

    /// Takes the oldest pending wake out of the list.
    pub(crate) fn next(&mut self) -> Option<u16>
        ensures oldest { result ≡ slice_get self.old.slots 0 }
        ensures rest { self.new ≡ record self.old { slots = drop 1 self.old.slots } }
        ensures within { IfSome result (λ slot. slot < self.old.room) }
    {
        let slot = self.order.pop_front()?;
        self.listed[usize::from(slot)] = false;
        Some(slot)
    }
}
