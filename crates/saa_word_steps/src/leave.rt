//! How a cancel goes on: it sets the flag, looks for itself from the tail on, and leaves the line.

ghost use Rattle.std.specs.Prelude.{◌≡◌, ◌==◌, if◌then◌else◌};
ghost use Rattle.saa_core_words.specs.Words.{count_bits, word_number, word_of};
ghost use Rattle.saa_word_steps.specs.declared.call.Answer.TheVariants.{Unit as Ended};
ghost use Rattle.saa_word_steps.specs.declared.place.Stage.TheVariants.{BackLoad, Forward, LookLoad};
ghost use Rattle.saa_word_steps.specs.Steps.{next_of, IsRanged, IsSmall, IsLeave, done, dropped_word, flagging, going, left_line, looked_for, looking, walking};
ghost use Rattle.saa_word_steps.specs.Needs.{needs_of};

use crate::call::Answer;
use crate::operation::{dropped, flagged};
use crate::place::{AfterWalk, Next, Place, Registration, Stage};
use crate::rules::Rules;
use saa_core_words::line_word::LineWord;
use saa_core_words::word::Word;

impl Place {
    /// How a cancel goes on.
    pub(crate) fn resume_leave(self, rules: Rules, me: u16, found: u64) -> Next
        requires ranged { IsRanged (needs_of rules) self.stage }
        requires leaves { IsLeave self.stage }
        ensures next { result ≡ next_of (needs_of rules) me self self.stage found }
    {
        match self.stage {
            Stage::FlagLoad => self.flag(Word::unpack(found)),
            Stage::FlagExchange { seen } => {
                if found == seen.pack() {
                    return self.look(flagged(seen));
                }
                self.flag(Word::unpack(found))
            }
            Stage::LookLoad {
                seen,
                current,
                newer,
                previous,
            } => self.look_for(me, seen, current, newer, previous, LineWord::unpack(found)),
            Stage::LookStore {
                seen,
                current,
                newer,
                line,
            } => self.looked_past(seen, current, newer, line),
            Stage::Unlink {
                seen,
                newer,
                older,
                ..
            } => self.leave().unlinked(seen, newer, older),
            Stage::DropTail { seen, older } => self.dropped_tail(seen, older, found),
            _ => Next::Going(self),
        }
    }

    // How it goes on with the main word that it saw, to set the flag.
    //
    // Why this order: the flag comes before the look; only its holder writes the line words of waiters, and without it the line could change
    // under the look.
    fn flag(self, seen: Word) -> Next
        ensures { result ≡ flagging self seen }
    {
        if seen.is_flagged {
            return Next::Waits;
        }
        if seen.tail == 0 {
            return self.finish();
        }
        self.going(Stage::FlagExchange { seen })
    }

    // It looks for itself from the tail of the word that it saw.
    fn look(self, seen: Word) -> Next
        ensures { result ≡ looking self seen }
    {
        self.going(Stage::LookLoad {
            seen,
            current: seen.tail,
            newer: 0,
            previous: LineWord {
                request: 0,
                older: 0,
                newer: 0,
            },
        })
    }

    // How it goes on with a line word: it found itself, or that is another's.
    fn look_for(
        self,
        me: u16,
        seen: Word,
        current: u16,
        newer: u16,
        previous: LineWord,
        line: LineWord,
    ) -> Next
        ensures { result ≡ looked_for me self seen current newer previous line }
    {
        if u32::from(current) != u32::from(me) + 1 {
            return self.going(Stage::LookStore {
                seen,
                current,
                newer,
                line,
            });
        }
        let older = line.older;
        if newer == 0 {
            return self.going(Stage::DropTail { seen, older });
        }
        self.going(Stage::Unlink {
            seen,
            newer,
            line: previous,
            older,
        })
    }

    // It goes on to the place right before; or it didn't find itself, and works on the line as any holder.
    //
    // Why this order: a place that isn't in the line was granted, and it publishes before it takes its answer; it holds the flag, and would
    // wait with it for an answer that comes in its own time.
    fn looked_past(self, seen: Word, current: u16, newer: u16, line: LineWord) -> Next
        ensures { result ≡ if line.older == 0 then going self (Forward seen current seen.count) else going self (LookLoad seen line.older current (record line { newer = newer })) }
    {
        if line.older == 0 {
            let count = seen.count;
            return self.going(Stage::Forward {
                seen,
                current,
                count,
            });
        }
        self.going(Stage::LookLoad {
            seen,
            current: line.older,
            newer: current,
            previous: LineWord { newer, ..line },
        })
    }

    // It is registered as nothing now.
    fn leave(self) -> Place
        ensures { result ≡ left_line self }
    {
        Place {
            registration: Registration::Idle,
            back: AfterWalk::Ends,
            ..self
        }
    }

    // It has left the line, and works on it from there on.
    fn unlinked(self, seen: Word, newer: u16, older: u16) -> Next
        ensures { result ≡ if older == 0 then going self (Forward seen newer seen.count) else going self (BackLoad seen older newer) }
    {
        if older == 0 {
            let count = seen.count;
            return self.going(Stage::Forward {
                seen,
                current: newer,
                count,
            });
        }
        self.going(Stage::BackLoad {
            seen,
            current: older,
            newer,
        })
    }

    // It has left the line as its tail; or looks again from the word that was found.
    fn dropped_tail(self, seen: Word, older: u16, found: u64) -> Next
        requires { IsSmall seen }
        ensures { result ≡ if found == word_number count_bits seen
            then (if older == 0 then done (left_line self) Ended else walking (left_line self) (dropped_word seen older))
            else looking self (word_of count_bits found) }
    {
        if found != seen.pack() {
            return self.look(Word::unpack(found));
        }
        let place = self.leave();
        if older == 0 {
            return place.done(Answer::Unit);
        }
        place.walk(dropped(seen, older))
    }
}
