//! How a place goes on with the number that it found at its operation.

ghost use Rattle.std.specs.Prelude.{◌^◌, ◌≡◌, ◌<◌, ◌==◌, ◌%◌, if◌then◌else◌};
ghost use Rattle.saa_core_words.specs.Words.{count_bits, answer_of};
ghost use Rattle.saa_core_spec.specs.Values.{granted_value};
ghost use Rattle.saa_word_steps.specs.declared.place.Stage.TheVariants.{Join, ReleaseExchange, BackLoad, Forward, Empty, ShowLoad};
ghost use Rattle.saa_word_steps.specs.declared.place.AfterShow.TheVariants.{Again};
ghost use Rattle.saa_word_steps.specs.Steps.{next_of, IsRanged, IsSmall, IsWork, IsLeave, IsPoison, closing, decided, done, dropped, finished, found_poisoned, gave_nothing, given, going, granted, looked_at, shown_all, taken_answer, walking};
ghost use Rattle.saa_word_steps.specs.Needs.{needs_of};
ghost use Rattle.saa_word_steps.specs.Readings.{read_as, refusing_answer, tried_answer};

use crate::call::{Answer, Error, TryLockError};
use crate::operation::released;
use crate::place::{
    AfterShow, AfterWalk, Ask, Next, Place, PollMode, Reading, Registration, ReleaseAmount, Stage,
};
use crate::rules::{ALONE, Rules};
use saa_core_words::answer_word;
use saa_core_words::line_word::LineWord;
use saa_core_words::word::Word;

// The values of the answers: granted, and the lock is poisoned or the semaphore shut.
const GRANTED: u8 = 0;

pub(crate) const POISONED: u8 = 2;

impl Place {
    /// How the place of this number goes on with the number that it found where its stage's operation was made.
    pub fn resume(self, rules: Rules, me: u16, found: u64) -> Next
        requires wide { (needs_of rules).top < 2 ^ count_bits }
        requires ranged { IsRanged (needs_of rules) self.stage }
        ensures next { result ≡ next_of (needs_of rules) me self self.stage found }
    {
        match self.stage {
            Stage::Quiet => Next::Going(self),
            Stage::ReadLoad { reading } => { self.done(read(rules, reading, Word::unpack(found))) }
            Stage::AcquireLoad { ask } => self.decide(rules, ask, Word::unpack(found)),
            Stage::AcquireExchange { ask, seen } => {
                if found == seen.pack() {
                    return self.granted(rules, ask);
                }
                self.decide(rules, ask, Word::unpack(found))
            }
            // Why this order: once it is the tail, the flag's holder reads its line word; joined before that is written, it would hide all waiters
            // before it.
            Stage::Prepare { request, seen } => self.going(Stage::Join { request, seen }),
            Stage::Join { request, seen } => self.joined(rules, me, request, seen, found),
            Stage::ReleaseLoad { given } => self.give(rules, given, Word::unpack(found)),
            Stage::ReleaseExchange { given, seen } => self.given(rules, me, given, seen, found),
            Stage::Take { taking } => self.taken(rules, taking, found),
            Stage::FlagLoad
            | Stage::FlagExchange { .. }
            | Stage::LookLoad { .. }
            | Stage::LookStore { .. }
            | Stage::Unlink { .. }
            | Stage::DropTail { .. } => self.resume_leave(rules, me, found),
            Stage::PoisonLoad | Stage::PoisonExchange { .. } | Stage::Clear => {
                self.resume_poison(rules, me, found)
            }
            _ => self.resume_work(rules, me, found),
        }
    }

    // The same of a place that works on the line or shows answers.
    fn resume_work(self, rules: Rules, me: u16, found: u64) -> Next
        requires wide { (needs_of rules).top < 2 ^ count_bits }
        requires ranged { IsRanged (needs_of rules) self.stage }
        requires works { IsWork self.stage }
        ensures next { result ≡ next_of (needs_of rules) me self self.stage found }
    {
        match self.stage {
            Stage::BackLoad {
                seen,
                current,
                newer,
            } => {
                let line = LineWord::unpack(found);
                self.going(Stage::BackStore {
                    seen,
                    current,
                    newer,
                    line,
                })
            }
            Stage::BackStore {
                seen,
                current,
                line,
                ..
            } => self.went_back(seen, current, line),
            Stage::Forward {
                seen,
                current,
                count,
            } => self.look_at(rules, seen, current, count, LineWord::unpack(found)),
            // Why this order: the cut comes before the grants are published; else the waiters who stay would still be linked to those that are
            // granted, and the next walk would grant these twice.
            Stage::CutToClose {
                seen,
                count,
                line,
                ..
            } => {
                let top = line.older;
                self.going(Stage::Close { seen, count, top })
            }
            Stage::CutForRetry {
                seen,
                count,
                line,
                ..
            } => {
                let top = line.older;
                self.going(Stage::Retry { seen, count, top })
            }
            Stage::Close { seen, count, top } => self.closed(seen, count, top, found),
            Stage::Empty {
                seen,
                current,
                count,
                line,
            } => self.emptied(rules, me, seen, current, count, line, found),
            Stage::Retry { seen, count, top } => {
                let added = u64::from(count.saturating_sub(seen.count));
                self.went_round(top, Word::unpack(found.wrapping_add(added)))
            }
            // Why this order: the link is read before the answer is written; an answered owner may use its line word anew, and those behind
            // the link would never be answered.
            Stage::ShowLoad {
                current,
                value,
                afterwards,
            } => {
                let next = LineWord::unpack(found).older;
                self.going(Stage::ShowStore {
                    current,
                    next,
                    value,
                    afterwards,
                })
            }
            Stage::ShowStore {
                next,
                value,
                afterwards,
                ..
            } => self.showed(next, value, afterwards),
            _ => Next::Going(self),
        }
    }

    // It goes on at a stage.
    pub(crate) fn going(self, stage: Stage) -> Next
        ensures { result ≡ going self stage }
    {
        Next::Going(Place { stage, ..self })
    }

    // It is done, and answers.
    pub(crate) fn done(self, answer: Answer) -> Next
        ensures { result ≡ done self answer }
    {
        let stage = Stage::Quiet;
        Next::Done(Place { stage, ..self }, answer)
    }

    // It is done with the line.
    pub(crate) fn finish(self) -> Next
        ensures { result ≡ finished self self.back }
    {
        match self.back {
            AfterWalk::Tells => self.done(Answer::Bool(true)),
            AfterWalk::Ends => self.done(Answer::Unit),
            AfterWalk::Takes(request) => {
                let taking = PollMode::Gives(request);
                self.going(Stage::Take { taking })
            }
        }
    }

    // What it asked is granted at once.
    fn granted(self, rules: Rules, ask: Ask) -> Next
        ensures { result ≡ granted (needs_of rules) self ask }
    {
        if !ask.joins {
            return self.done(tried(rules, true));
        }
        let registration = Registration::AnsweredAtOnce(GRANTED, ask.request);
        Place {
            registration,
            ..self
        }
        .done(Answer::Bool(true))
    }

    // It asks a poisoned lock, or a shut semaphore.
    fn found_poisoned(self, rules: Rules, ask: Ask) -> Next
        ensures { result ≡ found_poisoned (needs_of rules) self ask }
    {
        if !ask.joins {
            return self.done(refused(rules));
        }
        let registration = Registration::AnsweredAtOnce(POISONED, ask.request);
        Place {
            registration,
            ..self
        }
        .done(Answer::Bool(true))
    }

    // How an ask goes on with the main word that it saw.
    fn decide(self, rules: Rules, ask: Ask, seen: Word) -> Next
        ensures { result ≡ decided (needs_of rules) self ask seen }
    {
        if seen.is_poisoned {
            return self.found_poisoned(rules, ask);
        }
        let request = ask.request;
        if seen.tail != 0 || !rules.fits(seen.count, request) {
            if ask.joins {
                return self.going(Stage::Prepare { request, seen });
            }
            return self.done(tried(rules, false));
        }
        if rules.takes(request) == 0 {
            return self.granted(rules, ask);
        }
        self.going(Stage::AcquireExchange { ask, seen })
    }

    // It joined the line, or the word that was found decides anew.
    //
    // Why this order: the exchange succeeds only on the word whose tail the line word names; written over another tail, it would pass all
    // waiters who were enqueued since.
    fn joined(self, rules: Rules, me: u16, request: u16, seen: Word, found: u64) -> Next
        requires { IsSmall seen }
        ensures { result ≡ next_of (needs_of rules) me self (Join request seen) found }
    {
        if found != seen.pack() {
            let joins = true;
            return self.decide(rules, Ask { request, joins }, Word::unpack(found));
        }
        let registration = Registration::Queued(request);
        Place {
            registration,
            ..self
        }
        .done(Answer::Bool(true))
    }

    // How a release goes on with the main word that it saw.
    fn give(self, rules: Rules, what: ReleaseAmount, seen: Word) -> Next
        ensures { result ≡ given (needs_of rules) self what seen }
    {
        if rules.forgets(seen.is_poisoned) || rules.left(seen.count, what).is_none() {
            return self.gave_nothing();
        }
        let given = what;
        self.going(Stage::ReleaseExchange { given, seen })
    }

    // It gave nothing back.
    fn gave_nothing(self) -> Next
        ensures { result ≡ gave_nothing self self.back }
    {
        match self.back {
            AfterWalk::Tells => self.done(Answer::Bool(false)),
            AfterWalk::Ends | AfterWalk::Takes(_) => self.done(Answer::Unit),
        }
    }

    // It gave back, and holds the flag where there are waiters that no other holder settles; or the word that was found decides anew.
    fn given(self, rules: Rules, me: u16, what: ReleaseAmount, seen: Word, found: u64) -> Next
        requires { IsSmall seen }
        ensures { result ≡ next_of (needs_of rules) me self (ReleaseExchange what seen) found }
    {
        if found != seen.pack() {
            return self.give(rules, what, Word::unpack(found));
        }
        if seen.tail == 0 || seen.is_flagged {
            return self.finish();
        }
        self.walk(released(rules, seen, what))
    }

    // It walks from the tail of the word that it saw.
    pub(crate) fn walk(self, seen: Word) -> Next
        ensures { result ≡ walking self seen }
    {
        let current = seen.tail;
        let newer = 0;
        self.going(Stage::BackLoad {
            seen,
            current,
            newer,
        })
    }

    // It goes on to the place right before, or turns at the oldest.
    fn went_back(self, seen: Word, current: u16, line: LineWord) -> Next
        ensures { result ≡ if line.older == 0 then going self (Forward seen current seen.count) else going self (BackLoad seen line.older current) }
    {
        if line.older == 0 {
            let count = seen.count;
            return self.going(Stage::Forward {
                seen,
                current,
                count,
            });
        }
        let newer = current;
        let current = line.older;
        self.going(Stage::BackLoad {
            seen,
            current,
            newer,
        })
    }

    // How the walk to the tail goes on with a line word.
    fn look_at(self, rules: Rules, seen: Word, current: u16, count: u16, line: LineWord) -> Next
        ensures { result ≡ looked_at (needs_of rules) self seen current count line }
    {
        if !rules.fits(count, line.request) {
            if line.older == 0 {
                let top = 0;
                return self.going(Stage::Close { seen, count, top });
            }
            return self.going(Stage::CutToClose {
                seen,
                current,
                count,
                line,
            });
        }
        let count = rules.plus(count, line.request);
        if current == seen.tail {
            return self.going(Stage::Empty {
                seen,
                current,
                count,
                line,
            });
        }
        let current = line.newer;
        self.going(Stage::Forward {
            seen,
            current,
            count,
        })
    }

    // It published the count and kept the waiters; or tries again where only the tail differs, and else walks anew.
    //
    // Why this order: the count is compared before the flag is cleared; cleared over a lower one, what a release gave back in place would
    // be granted to nobody.
    fn closed(self, seen: Word, count: u16, top: u16, found: u64) -> Next
        requires { IsSmall seen }
        ensures { result ≡ closing self seen count top found }
    {
        if found == seen.pack() {
            if top == 0 {
                return self.finish();
            }
            return self.show(top, GRANTED, AfterShow::Ends);
        }
        let now = Word::unpack(found);
        if now.count == seen.count {
            let seen = now;
            return self.going(Stage::Close { seen, count, top });
        }
        self.going(Stage::Retry { seen, count, top })
    }

    // It granted all waiters; or the last one isn't granted, and it walks anew.
    //
    // Why this order: the line is emptied by the exchange that clears the flag; a place that joined meanwhile makes it fail, and has the
    // last one as its older neighbour, so that one is granted by a later walk.
    fn emptied(
        self,
        rules: Rules,
        me: u16,
        seen: Word,
        current: u16,
        count: u16,
        line: LineWord,
        found: u64,
    ) -> Next
        requires { IsSmall seen }
        ensures { result ≡ next_of (needs_of rules) me self (Empty seen current count line) found }
    {
        if found == seen.pack() {
            return self.show(current, GRANTED, AfterShow::Ends);
        }
        let count = count.saturating_sub(rules.takes(line.request));
        if line.older == 0 {
            let top = 0;
            return self.going(Stage::Retry { seen, count, top });
        }
        self.going(Stage::CutForRetry {
            seen,
            current,
            count,
            line,
        })
    }

    // It added what was granted, and shows it, or walks anew.
    fn went_round(self, top: u16, now: Word) -> Next
        ensures { result ≡ if top == 0 then walking self now else going self (ShowLoad top granted_value (Again now)) }
    {
        if top == 0 {
            return self.walk(now);
        }
        self.show(top, GRANTED, AfterShow::Again(now))
    }

    // It shows answers, from a link on.
    pub(crate) fn show(self, current: u16, value: u8, afterwards: AfterShow) -> Next
        ensures { result ≡ going self (ShowLoad current value afterwards) }
    {
        self.going(Stage::ShowLoad {
            current,
            value,
            afterwards,
        })
    }

    // It showed an answer, and goes on to the place right before, or is done with showing.
    fn showed(self, next: u16, value: u8, afterwards: AfterShow) -> Next
        ensures { result ≡ if next == 0 then shown_all self afterwards else going self (ShowLoad next value afterwards) }
    {
        if next != 0 {
            let current = next;
            return self.going(Stage::ShowLoad {
                current,
                value,
                afterwards,
            });
        }
        match afterwards {
            AfterShow::Ends => self.finish(),
            AfterShow::Again(seen) => self.walk(seen),
        }
    }

    // It took its answer, or found none.
    fn taken(self, rules: Rules, taking: PollMode, found: u64) -> Next
        ensures { result ≡ taken_answer (needs_of rules) self taking (answer_of (found % 65536)) }
    {
        let Some(value) = answer_word::unpack((found % 65_536) as u16) else {
            return match taking {
                PollMode::Tries => self.done(Answer::Taken(Err(Error::NotReady))),
                PollMode::Awaits | PollMode::Gives(_) => Next::Waits,
            };
        };
        if let PollMode::Gives(request) = taking {
            return self.drop_answer(rules, request, value);
        }
        let registration = Registration::Idle;
        Place {
            registration,
            ..self
        }
        .done(Answer::Taken(Ok(value == GRANTED)))
    }

    // A cancel has an answer: what was granted is given back, where it took something.
    pub(crate) fn drop_answer(self, rules: Rules, request: u16, value: u8) -> Next
        ensures { result ≡ dropped (needs_of rules) self request value }
    {
        let registration = Registration::Idle;
        if value == GRANTED && rules.takes(request) != 0 {
            let given = ReleaseAmount::Requested(request);
            return Next::Going(Place {
                registration,
                stage: Stage::ReleaseLoad { given },
                back: AfterWalk::Ends,
            });
        }
        Place {
            registration,
            ..self
        }
        .done(Answer::Unit)
    }
}

// What a try answers.
fn tried(rules: Rules, is_granted: bool) -> Answer
    ensures { result ≡ tried_answer (needs_of rules) is_granted }
{
    if !rules.is_lock() {
        return Answer::Bool(is_granted);
    }
    if is_granted {
        return Answer::Tried(Ok(()));
    }
    Answer::Tried(Err(TryLockError::WouldBlock))
}

// What a try answers that finds a poisoned lock, or a shut semaphore.
fn refused(rules: Rules) -> Answer
    ensures { result ≡ refusing_answer (needs_of rules) }
{
    if !rules.is_lock() {
        return Answer::Bool(false);
    }
    Answer::Tried(Err(TryLockError::Poisoned))
}

// What a reading call answers of a main word.
fn read(rules: Rules, reading: Reading, word: Word) -> Answer
    ensures { result ≡ read_as (needs_of rules) reading word.count word.is_poisoned }
{
    match reading {
        Reading::Available => Answer::Number(rules.top().saturating_sub(word.count)),
        Reading::IsFree => Answer::Bool(word.count == 0 && !word.is_poisoned),
        Reading::IsLocked => Answer::Bool(word.count == ALONE),
        Reading::IsShared => Answer::Bool(word.count != 0 && word.count != ALONE),
        Reading::IsPoisoned => Answer::Bool(word.is_poisoned),
    }
}
