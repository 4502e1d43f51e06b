//! A call as it starts: it looks at no word.

ghost use Rattle.std.specs.Prelude.{◌≡◌};
ghost use Rattle.saa_word_steps.specs.Steps.{cancelled_as, going, poisoned_as, polled_as, registered_as, released_as, started, tried_as};
ghost use Rattle.saa_word_steps.specs.Needs.{needs_of};
ghost use Rattle.saa_word_steps.specs.Readings.{mode_number};
ghost use Rattle.saa_word_steps.specs.declared.place.Stage.TheVariants.{ReadLoad};

use crate::call::{Answer, Error, Mode, WordCall};
use crate::place::{
    AfterWalk, Ask, Next, Place, PollMode, Reading, Registration, ReleaseAmount, Stage,
};
use crate::rules::Rules;
use saa_core_spec::request::Request;
use saa_core_words::requests;

// The numbers of what the tries and releases of a lock ask and give back.
const EXCLUSIVE: u16 = 0;

const SHARED: u16 = 1;

impl Place {
    /// Starts a call at a place that is in none. It is done at once where no word has to be looked at.
    pub fn start(self, rules: Rules, call: WordCall) -> Next
        ensures { result ≡ started (needs_of rules) self call }
    {
        let top = usize::from(rules.top());
        match call {
            WordCall::Try(count) | WordCall::Register(count) | WordCall::Release(count)
                if count > top => { Next::Done(self, Answer::Bool(false)) }
            WordCall::Try(count) => self.start_try(count as u16),
            WordCall::Register(count) => self.start_registration(count as u16),
            WordCall::Release(0) => Next::Done(self, Answer::Bool(true)),
            WordCall::Release(count) => self.start_release(ReleaseAmount::Requested(count as u16)),
            WordCall::TryLock => self.start_try(EXCLUSIVE),
            WordCall::TryShare => self.start_try(SHARED),
            WordCall::RegisterMode(mode) => self.start_registration(number(mode)),
            WordCall::ReleaseLock => self.start_release(ReleaseAmount::Requested(EXCLUSIVE)),
            WordCall::ReleaseShare => self.start_release(ReleaseAmount::Requested(SHARED)),
            WordCall::Downgrade => self.start_release(ReleaseAmount::AllButAShare),
            WordCall::PoisonLock => self.start_poison(),
            WordCall::ClearPoison => self.going(Stage::Clear),
            WordCall::Available => self.start_read(Reading::Available),
            WordCall::Shut => self.start_poison(),
            WordCall::IsShut => self.start_read(Reading::IsPoisoned),
            WordCall::IsFree => self.start_read(Reading::IsFree),
            WordCall::IsLocked => self.start_read(Reading::IsLocked),
            WordCall::IsShared => self.start_read(Reading::IsShared),
            WordCall::IsPoisoned => self.start_read(Reading::IsPoisoned),
            WordCall::TryPoll => self.start_poll(PollMode::Tries),
            WordCall::Poll => self.start_poll(PollMode::Awaits),
            WordCall::Cancel => self.start_cancel(rules),
        }
    }

    // It reads the main word.
    fn start_read(self, reading: Reading) -> Next
        ensures { result ≡ going self (ReadLoad reading) }
    {
        self.going(Stage::ReadLoad { reading })
    }

    // It poisons the lock, or shuts the semaphore.
    fn start_poison(self) -> Next
        ensures { result ≡ poisoned_as self }
    {
        Next::Going(Place {
            stage: Stage::PoisonLoad,
            back: AfterWalk::Tells,
            ..self
        })
    }

    // It asks, and doesn't wait.
    fn start_try(self, request: u16) -> Next
        ensures { result ≡ tried_as self request }
    {
        let joins = false;
        let ask = Ask { request, joins };
        self.going(Stage::AcquireLoad { ask })
    }

    // It asks, where it is registered as nothing.
    fn start_registration(self, request: u16) -> Next
        ensures { result ≡ registered_as self request }
    {
        if !matches!(self.registration, Registration::Idle) {
            return Next::Done(self, Answer::Bool(false));
        }
        let joins = true;
        let ask = Ask { request, joins };
        self.going(Stage::AcquireLoad { ask })
    }

    // It gives something back.
    fn start_release(self, given: ReleaseAmount) -> Next
        ensures { result ≡ released_as self given }
    {
        Next::Going(Place {
            stage: Stage::ReleaseLoad { given },
            back: AfterWalk::Tells,
            ..self
        })
    }

    // A poll: only a place that joined the line has a word to look at.
    fn start_poll(self, taking: PollMode) -> Next
        ensures { result ≡ polled_as self taking self.registration }
    {
        match self.registration {
            Registration::Idle => Next::Done(self, Answer::Taken(Err(Error::NotRegistered))),
            Registration::AnsweredAtOnce(value, _request) => {
                let registration = Registration::Idle;
                let place = Place {
                    registration,
                    ..self
                };
                Next::Done(place, Answer::Taken(Ok(value == 0)))
            }
            Registration::Queued(_request) => self.going(Stage::Take { taking }),
        }
    }

    // A cancel: only a place that joined the line has a word to look at.
    fn start_cancel(self, rules: Rules) -> Next
        ensures { result ≡ cancelled_as (needs_of rules) self self.registration }
    {
        match self.registration {
            Registration::Idle => Next::Done(self, Answer::Unit),
            Registration::AnsweredAtOnce(value, request) => self.drop_answer(rules, request, value),
            Registration::Queued(request) => Next::Going(Place {
                stage: Stage::FlagLoad,
                back: AfterWalk::Takes(request),
                ..self
            }),
        }
    }
}

// The number of a mode.
fn number(mode: Mode) -> u16
    ensures { result ≡ mode_number mode }
{
    requests::request_number(match mode {
        Mode::Exclusive => Request::Exclusive,
        Mode::Shared => Request::Shared,
        Mode::WaitExclusive => Request::WaitExclusive,
        Mode::WaitShared => Request::WaitShared,
    })
}
