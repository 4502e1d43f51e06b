//! What places that have left know of one another, and what a place is registered as behind its calls: contracts of functions that do nothing.

ghost use Rattle.std.specs.Prelude.{◌≡◌, ◌≢◌, ◌⊎◌, ℕ, ◌≤◌, false, true, All, Err, List, [], ◌∷◌};
ghost use Rattle.saa_core_spec.specs.declared.lock.Mode.{Mode};
ghost use Rattle.saa_core_spec.specs.declared.polling.Error.TheVariants.{NotReady};
ghost use Rattle.saa_word_steps.specs.declared.call.Answer.{Answer};
ghost use Rattle.saa_word_steps.specs.declared.call.Answer.TheVariants.{Bool as Says, Taken};
ghost use Rattle.saa_word_steps.specs.declared.call.WordCall.TheVariants.{Register, RegisterMode, TryPoll, Poll, Cancel};
ghost use Rattle.saa_word_steps.specs.declared.event.Event.TheVariants.{Acquired};
ghost use Rattle.saa_word_steps.specs.declared.place.Registration.{Registration};
ghost use Rattle.saa_word_steps.specs.declared.place.Registration.TheVariants.{Idle};
ghost use Rattle.saa_word_steps.specs.Needs.{Needs};
ghost use Rattle.saa_word_proofs.specs.History.{BeginsWith};
ghost use Rattle.saa_word_threads.specs.declared.table.About.{About};
ghost use Rattle.saa_word_threads.specs.declared.table.View.{View};
ghost use Rattle.saa_word_threads.specs.Called.{IsCalled};
ghost use Rattle.saa_word_threads.specs.Dealt.{AreLedTo};

/// What follows of one history for all places, as `close_all` of a semaphore and of a lock has it.
///
/// Of what two places have seen one begins with the other: both are beginnings of that history. So no two of them have each got the same lock first,
/// or anything else that only one place can have got first. A table in which each place has a legal history of its own would let both do so.
pub fn one_history()
    ensures compared { (about : About) (words : List ℕ) (views : List View) → AreLedTo about words views
        → All (λ v. All (λ w. BeginsWith v.seen w.seen ⊎ BeginsWith w.seen v.seen) views) views }
    ensures one_first { (about : About) (words : List ℕ) (v w : View) (one other request : ℕ) → AreLedTo about words (v ∷ w ∷ []) → one ≢ other
        → v.seen ≡ (one, Acquired request) ∷ [] → w.seen ≢ (other, Acquired request) ∷ [] }
{}

/// What a place is registered as behind a registration, a poll and a cancel, for a form that is built on these calls: whatever the form needs, and
/// whatever was taken as it opened.
///
/// Behind a poll and a cancel a place is idle, but where a poll that tries finds no answer yet: then it is as it was. A registration of an idle place
/// for no more than there ever is, or in a mode, is made; one that is refused leaves the place as it was.
pub fn registrations()
    ensures polled { (needs : Needs) (withheld : ℕ) (was now : Registration) (answer : Answer) (v w : View)
        → IsCalled needs withheld Poll was answer now v w → now ≡ Idle }
    ensures tried { (needs : Needs) (withheld : ℕ) (was now : Registration) (answer : Answer) (v w : View)
        → IsCalled needs withheld TryPoll was answer now v w → answer ≢ Taken (Err NotReady) → now ≡ Idle }
    ensures not_ready { (needs : Needs) (withheld : ℕ) (was now : Registration) (answer : Answer) (v w : View)
        → IsCalled needs withheld TryPoll was answer now v w → answer ≡ Taken (Err NotReady) → now ≡ was }
    ensures cancelled { (needs : Needs) (withheld : ℕ) (was now : Registration) (answer : Answer) (v w : View)
        → IsCalled needs withheld Cancel was answer now v w → now ≡ Idle }
    ensures registered { (needs : Needs) (withheld count : ℕ) (now : Registration) (answer : Answer) (v w : View) → count ≤ needs.top
        → IsCalled needs withheld (Register count) Idle answer now v w → (answer ≡ Says true) × (now ≢ Idle) }
    ensures registered_mode { (needs : Needs) (withheld : ℕ) (mode : Mode) (now : Registration) (answer : Answer) (v w : View)
        → IsCalled needs withheld (RegisterMode mode) Idle answer now v w → (answer ≡ Says true) × (now ≢ Idle) }
    ensures refused { (needs : Needs) (withheld count : ℕ) (was now : Registration) (answer : Answer) (v w : View)
        → IsCalled needs withheld (Register count) was answer now v w → answer ≡ Says false → now ≡ was }
    ensures refused_mode { (needs : Needs) (withheld : ℕ) (mode : Mode) (was now : Registration) (answer : Answer) (v w : View)
        → IsCalled needs withheld (RegisterMode mode) was answer now v w → answer ≡ Says false → now ≡ was }
{}
