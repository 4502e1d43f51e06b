//! A place of a form: one task's seat at its words.
//!
//! Places are dealt by the form that they are used with, and by nothing else; they can't be copied. Between its calls a place is as it was
//! behind its last step, or has taken an answer that was given at once since.

ghost use Rattle.std.specs.Prelude.{◌≡◌, ◌<◌, [], false};
ghost use Rattle.saa_word_steps.specs.Readings.{is_idle};
ghost use Rattle.saa_word_proofs.specs.Registering.{is_slot};
ghost use Rattle.saa_word_threads.specs.declared.table.Role.TheVariants.{Acting};
ghost use Rattle.saa_word_threads.specs.Cells.{cells_of};
ghost use Rattle.saa_word_threads.specs.Moves.{RestsAfter};

use crate::straight::LastAsk;
use crate::table::View;
use atomic_table::Seat;
use saa_word_steps::place::{Place as Position, Registration};

/// A place of the object that dealt it, between its calls.
///
/// One task has it at a time, and makes one call after another with it. `leave` spends it. A place that is dropped instead stays as it is: one
/// that waits is still served in its turn, and what it is granted stays taken until another place gives it back.
#[derive(Drop)]
pub struct Place {
    pub(crate) seat: Seat<(), View>,
    pub(crate) number: u16,
    pub(crate) position: Position,
    // The last call that asked here, which only contracts read.
    pub(crate) last_ask: LastAsk,
    ghost numbered: { (seat.me.0.role ≡ Acting) × (seat.me.0.number ≡ number) },
    ghost empty: { seat.me.1 ≡ [] },
    ghost within: { cells_of number < seat.table_id.words },
    ghost since: { RestsAfter seat.me.0.position position },
}

impl Place {
    ghost use Rattle.saa_word_threads.specs.Public.{registered};

    // Whether it is registered as nothing.
    pub(crate) fn is_idle(&self) -> bool
        ensures { result ≡ is_idle self.now.position.registration }
    {
        matches!(self.position.registration, Registration::Idle)
    }

    /// Whether it waits in the queue, or has an answer there that it hasn't taken. Costs no step.
    pub fn has_joined(&self) -> bool
        ensures { result ≡ is_slot (registered self.now) }
    {
        matches!(self.position.registration, Registration::Queued(_))
    }
}

/// A place that has left the object that dealt it.
#[derive(Drop)]
pub struct Left {
    pub(crate) seat: Seat<(), View>,
    pub(crate) number: u16,
    ghost numbered: { (seat.me.0.role ≡ Acting) × (seat.me.0.number ≡ number) },
    ghost empty: { seat.me.1 ≡ [] },
    ghost out: { is_slot seat.me.0.position.registration ≡ false },
}

impl Left {
    /// The number of the place that left. Costs O(1).
    pub fn place(&self) -> u16
        ensures { result ≡ self.now.number }
    {
        self.number
    }
}
