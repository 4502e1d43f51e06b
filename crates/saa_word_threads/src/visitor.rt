//! A visitor of a form: a caller with no words of its own, which never joins the waiters.
//!
//! A form has any number of them; each enters by a load, with a number that no place has. Between its calls a visitor is registered as nothing.

ghost use Rattle.std.specs.Prelude.{◌≡◌, ◌≤◌};
ghost use Rattle.saa_word_proofs.specs.Promises.{idle_place};
ghost use Rattle.saa_word_threads.specs.Cells.{cells_of};
ghost use Rattle.saa_word_threads.specs.declared.table.Role.TheVariants.{Acting};

use crate::table::View;
use atomic_table::Seat;

/// A visitor of the semaphore or lock that it entered, between its calls. It takes no bytes.
///
/// One task has it at a time, and makes one call after another with it. It can be dropped at any time: it never waits, and holds nothing.
#[derive(Drop)]
pub struct Visitor {
    pub(crate) seat: Seat<(), View>,
    ghost rests: { (seat.me.0.role ≡ Acting) × (seat.me.0.position ≡ idle_place) },
    ghost beyond: { seat.table_id.words ≤ cells_of seat.me.0.number },
}
