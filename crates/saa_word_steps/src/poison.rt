//! How a place goes on that poisons a lock or shuts a semaphore, or makes a poisoned lock free.

ghost use Rattle.std.specs.Prelude.{◌≡◌};
ghost use Rattle.saa_word_steps.specs.Steps.{next_of, IsRanged, IsPoison, poisoning};
ghost use Rattle.saa_word_steps.specs.Needs.{needs_of};

use crate::call::Answer;
use crate::operation::poisoned;
use crate::place::{AfterShow, Next, Place, Stage};
use crate::resume::POISONED;
use crate::rules::Rules;
use saa_core_words::word::Word;

impl Place {
    /// How a place goes on that poisons a lock or shuts a semaphore, or makes a poisoned lock free.
    pub(crate) fn resume_poison(self, rules: Rules, me: u16, found: u64) -> Next
        requires ranged { IsRanged (needs_of rules) self.stage }
        requires poisons { IsPoison self.stage }
        ensures next { result ≡ next_of (needs_of rules) me self self.stage found }
    {
        match self.stage {
            Stage::PoisonLoad => self.poison(rules, Word::unpack(found)),
            Stage::PoisonExchange { seen } => {
                if found != seen.pack() {
                    return self.poison(rules, Word::unpack(found));
                }
                if seen.tail == 0 {
                    return self.finish();
                }
                self.show(seen.tail, POISONED, AfterShow::Ends)
            }
            Stage::Clear => self.done(Answer::Bool(found == poisoned().pack())),
            _ => Next::Going(self),
        }
    }

    // How poison, and a shut, go on with the main word that they saw.
    //
    // Why this order: it waits until the flag is clear; the flag's holder grants by the line that poison empties. Poison and the empty line
    // come by one exchange, so that nobody joins between them and is never told.
    fn poison(self, rules: Rules, seen: Word) -> Next
        ensures { result ≡ poisoning (needs_of rules) self seen }
    {
        if seen.is_poisoned || !rules.may_refuse(seen.count) {
            return self.done(Answer::Bool(false));
        }
        if seen.is_flagged {
            return Next::Waits;
        }
        self.going(Stage::PoisonExchange { seen })
    }
}
