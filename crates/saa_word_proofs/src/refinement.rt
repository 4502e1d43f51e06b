//! What is proved of the steps, as contracts of functions that do nothing.

ghost use Rattle.std.specs.Prelude.{◌^◌, ◌≡◌, ℕ, ◌<◌, ◌≤◌, true, false, List, [], ◌++◌};
ghost use Rattle.saa_core_words.specs.Words.{count_bits};
ghost use Rattle.saa_word_steps.specs.declared.call.WordCall.{WordCall};
ghost use Rattle.saa_word_steps.specs.declared.place.Place.{Place};
ghost use Rattle.saa_word_steps.specs.declared.place.Registration.{Registration};
ghost use Rattle.saa_word_steps.specs.Needs.{Needs, AreNeeds};
ghost use Rattle.saa_word_steps.specs.declared.event.Event.{Event};
ghost use Rattle.saa_word_steps.specs.AbstractState.{AbstractState, opening};
ghost use Rattle.saa_word_steps.specs.Steps.{next_of, operation_of, started, word_at};
ghost use Rattle.saa_word_steps.specs.Readings.{is_taken};
ghost use Rattle.saa_word_steps.specs.declared.place.Stage.TheVariants.{Quiet};
ghost use Rattle.saa_word_steps.specs.declared.place.Next.TheVariants.{Waits};
ghost use Rattle.saa_word_proofs.specs.Refinement.{joins_line, Invariant};
ghost use Rattle.saa_word_proofs.specs.Rows.{updated};
ghost use Rattle.saa_word_proofs.specs.StepRefinement.{StepRefines, named_at, place_after};
ghost use Rattle.saa_word_proofs.specs.CallStages.{IsBegun, IsUnder, IsUnderNext};
ghost use Rattle.saa_word_proofs.specs.History.{BeginsWith, part_of, seen_by};
ghost use Rattle.saa_word_proofs.specs.Promises.{WordsShow, idle_place, opening_row};

/// Each step of each place refines a list of events of the abstract state, each enabled where it comes; what an answer names of them is
/// said by the stage and the number that the place found; and the row with the word that it wrote and the place as it goes on refine the
/// state behind these events again. The index of the word that it uses is within the row. A step that waits is no event. So it is for a visitor, whose
/// number is no place's: the refinement keeps it from the stages at which a place joins the line or uses a word of its own.
pub fn steps()
    ensures { (needs : Needs) → AreNeeds needs → needs.top < 2 ^ count_bits
        → (places : ℕ) (row : ℕ → ℕ) (standing : ℕ → Place) (state : AbstractState) (me : ℕ) → places < 65536
        → Invariant needs places row standing state → (made : StepRefines needs places row standing state me (standing me).stage)
        × (next_of needs me (standing me) (standing me).stage (row (word_at (operation_of needs places me (standing me).stage))) ≡ Waits → made.events ≡ []) }
{}

/// A call that stands at a stage, with the events that it has named so far, goes on at another stage, with what this step names
/// behind them; or it is done, and answers what its events name. What a cancel names goes by what its place was registered as when it
/// started.
pub fn calls()
    ensures { (needs : Needs) (call : WordCall) (registered : Registration) (me : ℕ) (place : Place) (found : ℕ) (events : List Event)
        → IsUnder needs call registered place.back place.stage events
        → IsUnderNext needs call registered place.back place.stage (events ++ named_at needs place.stage found) (next_of needs me place place.stage found) }
{}

/// A row in which so much is held and idle places refine the opened abstract state.
pub fn opens()
    ensures { (needs : Needs) → needs.top < 2 ^ count_bits → (places count : ℕ) → count ≤ needs.top
        → Invariant needs places (opening_row count) (λ place. idle_place) (opening count) }
{}

/// A call that starts at a place in none uses no word and is no event: words and places refine it still. It has named nothing. A visitor may start any
/// that won't join the line.
pub fn starts()
    ensures invariant { (needs : Needs) → needs.top < 2 ^ count_bits → (places : ℕ) (row : ℕ → ℕ) (standing : ℕ → Place) (state : AbstractState) (me : ℕ) (call : WordCall)
        → (places ≤ me → joins_line (place_after (standing me) (started needs (standing me) call)).stage ≡ false)
        → Invariant needs places row standing state → (standing me).stage ≡ Quiet → is_taken needs.is_lock call ≡ true
        → Invariant needs places row (updated standing me (place_after (standing me) (started needs (standing me) call))) state }
    ensures begun { (needs : Needs) (place : Place) (call : WordCall) → place.stage ≡ Quiet → is_taken needs.is_lock call ≡ true
        → IsBegun needs call place.registration (started needs place call) }
{}

/// The words say what the object is, at every moment.
pub fn words()
    ensures { (needs : Needs) (places : ℕ) (row : ℕ → ℕ) (standing : ℕ → Place) (state : AbstractState)
        → Invariant needs places row standing state → WordsShow needs places row state }
{}

/// What a place has seen of a history is a beginning of it, and has all events of the place.
pub fn histories()
    ensures begins { (place : ℕ) (history : List (ℕ × Event)) → BeginsWith history (seen_by place history) }
    ensures part { (place : ℕ) (history : List (ℕ × Event)) → part_of place (seen_by place history) ≡ part_of place history }
{}
