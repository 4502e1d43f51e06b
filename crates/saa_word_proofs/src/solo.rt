//! What a call is that moves alone, as contracts of functions that do nothing.

ghost use Rattle.std.specs.Prelude.{◌^◌, ◌≡◌, ℕ, ◌<◌, Bool, true, Err, ◌+◌, ◌*◌, false, length, List, [], ◌≤◌, Option};
ghost use Rattle.saa_core_spec.specs.Object.{Object, newly_made};
ghost use Rattle.saa_core_spec.specs.declared.polling.Error.TheVariants.{NotReady};
ghost use Rattle.saa_core_words.specs.Words.{count_bits};
ghost use Rattle.saa_word_steps.specs.declared.call.Answer.{Answer};
ghost use Rattle.saa_word_steps.specs.declared.call.Answer.TheVariants.{Taken};
ghost use Rattle.saa_word_steps.specs.declared.call.WordCall.{WordCall};
ghost use Rattle.saa_word_steps.specs.declared.call.WordCall.TheVariants.{Poll};
ghost use Rattle.saa_word_steps.specs.declared.place.Place.{Place};
ghost use Rattle.saa_word_steps.specs.declared.rules.Rules.{Rules};
ghost use Rattle.saa_word_steps.specs.declared.place.Registration.TheVariants.{Idle};
ghost use Rattle.saa_word_steps.specs.Needs.{AreNeeds, Needs, needs_of};
ghost use Rattle.saa_word_steps.specs.AbstractState.{IsRun, AbstractState, held_by, opening, is_in};
ghost use Rattle.saa_word_steps.specs.declared.place.Ask.{Ask};
ghost use Rattle.saa_word_steps.specs.Steps.{next_of, started};
ghost use Rattle.saa_word_steps.specs.Readings.{is_taken};
ghost use Rattle.saa_word_steps.specs.declared.event.Event.{Event};
ghost use Rattle.saa_word_steps.specs.declared.place.Registration.{Registration};
ghost use Rattle.saa_word_steps.specs.declared.place.Stage.TheVariants.{Quiet};
ghost use Rattle.saa_word_steps.specs.declared.place.Next.TheVariants.{Going};
ghost use Rattle.saa_word_proofs.specs.StepRefinement.{named_at};
ghost use Rattle.saa_word_proofs.specs.History.{named, of_place};
ghost use Rattle.saa_word_proofs.specs.Calls.{asked_by};
ghost use Rattle.saa_word_proofs.specs.CallStages.{IsLeft, IsReadyNext, IsStartedAs, IsUnder};
ghost use Rattle.saa_word_proofs.specs.Registering.{AreRegistered, registration_after_start, is_slot, registration_after, starting_answer};
ghost use Rattle.saa_word_proofs.specs.Refinement.{Invariant};
ghost use Rattle.saa_word_proofs.specs.Rows.{updated};
ghost use Rattle.saa_word_proofs.specs.Alone.{IsCalledAlone, IsKeptWaiting, IsLeftWaiting, PlacesAreQuiescent, PlacesRepresent, Configuration};
ghost use Rattle.saa_word_proofs.specs.Promises.{WordsAreQuiescent};
ghost use Rattle.saa_word_proofs.specs.Ends.{Ends};
ghost use Rattle.saa_word_proofs.specs.Represents.{called};
ghost use Rattle.saa_word_proofs.specs.Agrees.{Begins, Agrees};

/// While no place is in a call the flag is clear, no answer is due, the object isn't open, its line is settled, and the line words
/// link all waiters. So it is while no place is registered in the line, whatever calls are underway: there is nobody to grant anything then.
pub fn quiet()
    ensures between_calls { (needs : Needs) (places : ℕ) (row : ℕ → ℕ) (standing : ℕ → Place) (state : AbstractState)
        → Invariant needs places row standing state → PlacesAreQuiescent standing → WordsAreQuiescent needs row state }
    ensures unregistered { (needs : Needs) (places : ℕ) (row : ℕ → ℕ) (standing : ℕ → Place) (state : AbstractState)
        → Invariant needs places row standing state → ((place : ℕ) → is_slot (standing place).registration ≡ false) → WordsAreQuiescent needs row state }
{}

/// A call that moves alone, from a moment when no place is in a call, is the call of the sequential semaphore or lock.
///
/// Once it is done it has the answer of the sequential object, and leaves what that leaves: no place is in a call again, and the
/// object that the sequential call has left stands for the words. A registration may be taken for a sync or an async one, a poll has no
/// wrong mode, there is room for every place, and a cancel drops what its place is registered for.
///
/// The one exception is a poll of a place that stands in the line, which the sequential object answers that it isn't ready: it has to
/// wait. Neither changes anything, and no other call ever waits.
///
/// Every moment has such an object, and at the opening it is a newly made one.
pub fn alone()
    ensures calls { (rules : Rules) (places me : ℕ) (is_sync : Bool) (call : WordCall) (now : Configuration) (s : Object) (steps : ℕ) (answer : Answer) (last : Configuration)
        → Begins rules places me now s → is_taken (needs_of rules).is_lock call ≡ true → IsCalledAlone (needs_of rules) places me call steps now answer last
        → Agrees (needs_of rules) places me is_sync call s answer last }
    ensures waits { (needs : Needs) (places me : ℕ) (now : Configuration) (state : AbstractState)
        → Invariant needs places now.row now.standing state → me < places → is_in me state.line ≡ true → IsLeftWaiting needs places me Poll now }
    ensures only { (rules : Rules) (places me : ℕ) (call : WordCall) (steps : ℕ) (now : Configuration) (state : AbstractState)
        → (needs_of rules).top < 2 ^ count_bits → places < 65536
        → Invariant (needs_of rules) places now.row now.standing state → PlacesAreQuiescent now.standing → me < places → is_taken (needs_of rules).is_lock call ≡ true
        → IsKeptWaiting (needs_of rules) places me call steps now → (call ≡ Poll) × (is_in me state.line ≡ true) }
    ensures unready { (needs : Needs) (places me : ℕ) (is_sync : Bool) (now : Configuration) (state : AbstractState) (s : Object)
        → Invariant needs places now.row now.standing state → PlacesRepresent needs places now.standing state s → me < places → is_in me state.line ≡ true
        → ((called needs.is_lock me is_sync Poll s).reply ≡ Taken (Err NotReady)) × ((called needs.is_lock me is_sync Poll s).state ≡ s) }
    ensures exists { (needs : Needs) (places : ℕ) (standing : ℕ → Place) (state : AbstractState)
        → (s : Object) × PlacesRepresent needs places standing state s }
    ensures opening { (needs : Needs) (withheld places : ℕ) (standing : ℕ → Place) → ((place : ℕ) → (standing place).registration ≡ Idle)
        → PlacesRepresent needs places standing (opening withheld) (newly_made (needs.held withheld) places places) }
{}

/// A call that starts while no place is in one, and that moves alone, is done within 8 steps for each waiter and 24 more; but for a
/// poll of a place that waits.
pub fn ends()
    ensures { (needs : Needs) → AreNeeds needs → needs.top < 2 ^ count_bits
        → (places : ℕ) (row : ℕ → ℕ) (standing : ℕ → Place) (state : AbstractState) (me : ℕ) (call : WordCall) → places < 65536 → me < places
        → Invariant needs places row standing state → PlacesAreQuiescent standing → is_taken needs.is_lock call ≡ true → (call ≡ Poll → is_in me state.line ≡ false)
        → Ends needs places me call (record { row = row; standing = standing }) (8 * length state.line + 24) }
{}

/// What a place is registered as behind the start of a call and behind each of its steps: it is read off the call, the events that the
/// step names and what the place was registered as. A place that is done is in no call; one that waits is registered as before. Who is in the line
/// stays registered there with what it asks.
pub fn registrations()
    ensures started { (needs : Needs) (place : Place) (call : WordCall) → place.stage ≡ Quiet
        → IsStartedAs (starting_answer needs call place.registration) (registration_after_start call place.registration) (started needs place call) }
    ensures left { (needs : Needs) (call : WordCall) (registered : Registration) (me : ℕ) (place : Place) (found : ℕ) (events : List Event)
        → IsUnder needs call registered place.back place.stage events
        → IsLeft place.registration (registration_after (named_at needs place.stage found) (asked_by call) place.registration)
        (next_of needs me place place.stage found) }
    ensures line { (needs : Needs) (state last : AbstractState) (me : ℕ) (events : List Event) (asks : Option Ask) (registered : ℕ → Registration) (was : Registration)
        → IsRun needs state (of_place me events) last → ((other : ℕ) → held_by other state ≤ 1) → (state.poisoned ≡ true → state.line ≡ [])
        → AreRegistered (updated registered me was) state.line → AreRegistered (updated registered me (registration_after (named events) asks was)) last.line }
{}

/// The next operation of a place is on a word of the row, and what it remembers is within the bits of a count: behind the start of each call,
/// whatever stands in the words, and at every moment.
pub fn ready()
    ensures first { (needs : Needs) (places me : ℕ) (place : Place) (call : WordCall) → me < places → IsReadyNext needs places me (started needs place call) }
    ensures next { (needs : Needs) → AreNeeds needs → needs.top < 2 ^ count_bits
        → (places : ℕ) (row : ℕ → ℕ) (standing : ℕ → Place) (state : AbstractState) (me : ℕ) → places < 65536 → me < places
        → Invariant needs places row standing state → IsReadyNext needs places me (Going (standing me)) }
{}
