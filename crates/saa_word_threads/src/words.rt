//! The words of a form at the end, when they are no longer shared.

ghost use Rattle.std.specs.Prelude.{◌≡◌, ◌+◌};
ghost use Rattle.std.specs.Slots.{IsFull, slots_len};
ghost use Rattle.saa_word_threads.specs.Cells.{cells_of};

use crate::form::cell_in;
use atomic_table::Closed;
use std::alloc::Global;

/// The words of a form that was closed: the main word, and of each place a line word and an answer word.
pub struct Words {
    pub(crate) closed: Closed<(), Global>,
    pub(crate) places: u16,
    ghost full: { IsFull closed.words },
    ghost wide: { slots_len closed.words ≡ cells_of places },
    ghost slotless: { slots_len closed.slots ≡ 0 },
}

impl Words {
    ghost use Rattle.std.specs.Prelude.{slice_index};
    ghost use Rattle.saa_word_threads.specs.Dealt.{number_at, numbers};

    /// The number of the main word. Costs O(1).
    pub fn main(&self) -> u64
        ensures { result ≡ slice_index (numbers self.now) 0 }
    {
        self.closed.word(0)
    }

    /// The number of a place's line word; `None` exactly for a number of no place. Costs O(1).
    pub fn line(&self, place: u16) -> Option<u64>
        ensures { result ≡ number_at self.now place (place + 1) }
    {
        if place >= self.places {
            return None;
        }
        let cell = cell_in(self.places, usize::from(place) + 1);
        Some(self.closed.word(cell))
    }

    /// The number of a place's answer word; `None` exactly for a number of no place. Costs O(1).
    pub fn answer(&self, place: u16) -> Option<u64>
        ensures { result ≡ number_at self.now place (self.now.places + place + 1) }
    {
        if place >= self.places {
            return None;
        }
        let word = usize::from(self.places) + usize::from(place) + 1;
        Some(self.closed.word(cell_in(self.places, word)))
    }
}

impl Drop for Words {
    fn drop(self) {
        let Self { closed, places: _ } = self;
        closed.free();
    }
}
