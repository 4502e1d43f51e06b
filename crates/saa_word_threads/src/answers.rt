//! What the answers of calls say.

ghost use Rattle.std.specs.Prelude.{◌≡◌, true};
ghost use Rattle.saa_word_steps.specs.Readings.{tried_answer};
ghost use Rattle.saa_word_threads.specs.Pending.{needs};
ghost use Rattle.saa_word_threads.specs.Public.{is_granted, is_yes};

use crate::form::Form;
use saa_word_steps::call::Answer;

impl Form {
    // What a try answers that is granted.
    pub(crate) fn granted_try(&self) -> Answer
        ensures { result ≡ tried_answer (needs self.now) true }
    {
        if self.rules.is_lock() {
            return Answer::Tried(Ok(()));
        }
        Answer::Bool(true)
    }
}

// Whether an answer is yes.
pub(crate) fn yes(answer: Answer) -> bool
    ensures { result ≡ is_yes answer }
{
    matches!(answer, Answer::Bool(true))
}

// Whether a poll was answered that the place is granted what it asked for.
pub(crate) fn granted(answer: Answer) -> bool
    ensures { result ≡ is_granted answer }
{
    matches!(answer, Answer::Taken(Ok(true)))
}
