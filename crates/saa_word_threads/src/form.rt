//! A form in shared words: a table, and the rules by which it grants.
//!
//! Each operation goes through the seat of the place that makes it, and is the one that the place's stage says; how the place goes on with
//! the number that it found is `saa_word_steps`' too. The one rule of the table is `specs/Kept.antt`.

ghost use Rattle.std.specs.Prelude.{◌^◌, ◌≡◌, ◌+◌, ◌<◌, vec_len};
ghost use Rattle.saa_core_words.specs.Words.{count_bits};
ghost use Rattle.saa_word_steps.specs.Needs.{needs_of};
ghost use Rattle.saa_word_threads.specs.Cells.{cell_of, cells_of};

use crate::mark::Marks;
use crate::table::{About, OneHistory, View};
use crate::wakers::Wakers;
use atomic_table::Table;
use saa_word_steps::rules::Rules;
use std::alloc::Global;

/// A form of these rules, with so many places. Of each place it remembers whether it may be parked, and of the task that polls there its waker.
#[derive(Drop)]
pub struct Form {
    pub(crate) table: Table<(), View, About, OneHistory, Global>,
    pub(crate) rules: Rules,
    pub(crate) places: u16,
    pub(crate) marks: Marks,
    pub(crate) wakers: Wakers,
    ghost words: { table.shared.table_id.words ≡ cells_of places },
    ghost key: { (table.shared.key.rules ≡ rules) × (table.shared.key.places ≡ places) },
    ghost slotless: { table.shared.table_id.slots ≡ 0 },
    ghost wide: { (needs_of rules).top < 2 ^ count_bits },
    ghost bounded: { places < 65536 },
    ghost parking: { vec_len marks.marks ≡ places },
}

impl Form {
    // The cell of a word, by the word's number.
    #[inline(always)]
    pub(crate) fn cell(&self, word: usize) -> usize
        requires { word < self.now.places + self.now.places + 1 }
        ensures cell { result ≡ cell_of self.now.places word }
        ensures inside { result < self.now.table.shared.table_id.words }
    {
        cell_in(self.places, word)
    }

    // Whether an answer is written for the place of this number that it hasn't taken.
    pub(crate) fn is_answered(&self, place: u16) -> bool {
        place < self.places
            && self.table.shared.peek(self.cell(usize::from(self.places) + usize::from(place) + 1))
                != 0
    }
}

// The cell of a word of a form with so many places, by the word's number: 8 cells are a cache line. The main word has one for itself, the line words lie
// together, since the flag's holder goes through them one after another, and each answer word has one for itself, since its place looks at it again and
// again while others write.
#[inline(always)]
pub(crate) fn cell_in(places: u16, word: usize) -> usize
    requires { word < places + places + 1 }
    ensures cell { result ≡ cell_of places word }
    ensures inside { result < cells_of places }
{
    let places = usize::from(places);
    if word == 0 {
        0
    } else if word <= places {
        word + 8
    } else {
        places + 8 + 8 * (word - places)
    }
}
