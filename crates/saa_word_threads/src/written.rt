//! The write of a word that a waiter may be parked on.
//!
//! Nothing here can read a mark: `Marks` reads one for `wake` alone, which is a module of its own (`mark`), and what `write` gives is taken by
//! nothing but a wake. So each such write has a wake behind it, and the mark that decides it is read behind the write.

ghost use Rattle.std.specs.Prelude.{◌≡◌};
ghost use Rattle.saa_word_steps.specs.declared.operation.Operation.TheVariants.{Store};
ghost use Rattle.saa_word_threads.specs.Pending.{HasMoved, IsAt, IsSameSeat, MakesNext, about_of};

use crate::form::Form;
use crate::mark::Wake;
use crate::table::{Moved, Mover, View};
use atomic_table::Seat;

/// Says that this word was written. Only a write makes one, and only a wake takes it: it can be neither dropped nor copied.
pub(crate) struct Written {
    index: usize,
}

impl Written {
    // The index of the word, for the wake that takes this.
    pub(crate) fn taken_by(self, _wake: Wake) -> usize
        ensures { result ≡ self.index }
    {
        let Written { index } = self;
        index
    }
}

impl Form {
    // Writes a word. Its waiter is to be woken then.
    pub(crate) fn write<M: Mover>(
        &self,
        seat: &mut Seat<(), View>,
        index: usize,
        number: u64,
    ) -> (u64, Written)
        requires table { IsAt self.now seat.old × (M.about ≡ about_of self.now) }
        requires next { MakesNext self.now M.me M.place (Store index number) seat.old }
        ensures same { IsSameSeat seat.old seat.new }
        ensures moved { HasMoved self.now M.me M.place result.0 seat.old seat.new }
        ensures written { result.1.index ≡ index }
    {
        let found = self
            .table
            .shared
            .swap::<Moved<M>>(seat, self.cell(index), number);
        (found, Written { index })
    }
}
