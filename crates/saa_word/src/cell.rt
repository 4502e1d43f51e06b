//! One word of a machine: its number, and how many operations were made on it. The count exists in contracts alone.
//!
//! What no clause says, and is read off this file: the number is private here, and once a cell is made `perform` alone reads or writes it, one operation
//! at each call. All that it has at hand is the number of its own cell, and a cell can't be copied. So in all other files a number is read or written
//! only by an operation that is counted where it is made.

ghost use Rattle.std.specs.Prelude.{◌≡◌, ◌+◌};
ghost use Rattle.saa_word_steps.specs.Steps.{written_by};

use crate::count::Count;
use saa_word_steps::operation::Operation;

// A word: its number, and the count of its operations.
#[derive(Drop)]
pub(crate) struct Cell {
    number: u64,
    operations: Count,
}

impl Cell {
    // A word that no operation was made on.
    pub(crate) fn new(number: u64) -> Cell
        ensures number { result.number ≡ number }
        ensures uncounted { result.operations.number ≡ 0 }
    {
        Cell {
            number,
            operations: Count::none(),
        }
    }

    // Makes an operation, whatever the index that it names, and answers the number that it found.
    pub(crate) fn perform(&mut self, operation: Operation) -> u64
        ensures found { result ≡ self.old.number }
        ensures written { self.new.number ≡ written_by operation result }
        ensures counted { self.new.operations.number ≡ self.old.operations.number + 1 }
    {
        self.operations = Count::more(&self.operations);
        let found = self.number;
        match operation {
            Operation::Load { .. } => {}
            Operation::Exchange { old, new, .. } => {
                if found == old {
                    self.number = new;
                }
            }
            Operation::Add { number, .. } => self.number = found.wrapping_add(number),
            Operation::Store { number, .. } | Operation::Swap { number, .. } => {
                self.number = number;
            }
        }
        found
    }
}
