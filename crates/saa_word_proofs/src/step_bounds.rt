//! What is proved of step bounds, as contracts of functions that do nothing.

ghost use Rattle.std.specs.Prelude.{◌^◌, ◌≢◌, ℕ, ◌+◌, ◌*◌, ◌<◌, ◌≤◌};
ghost use Rattle.saa_core_words.specs.Words.{count_bits};
ghost use Rattle.saa_word_steps.specs.declared.place.Place.{Place};
ghost use Rattle.saa_word_steps.specs.declared.place.AfterWalk.{AfterWalk};
ghost use Rattle.saa_word_steps.specs.declared.place.Stage.{Stage};
ghost use Rattle.saa_word_steps.specs.declared.place.Stage.TheVariants.{Quiet};
ghost use Rattle.saa_word_steps.specs.Needs.{Needs, AreNeeds};
ghost use Rattle.saa_word_steps.specs.AbstractState.{AbstractState};
ghost use Rattle.saa_word_proofs.specs.Refinement.{Invariant};
ghost use Rattle.saa_word_proofs.specs.StepBound.{step_bound, IsLowered, IsKept, AreWithin, IsCounted};

/// How many steps a call has left at most, as long as no other place changes the main word.
///
/// A step bound is at most 16 steps for each place and 13 more, whatever stands in the words. Where words, places and the abstract state
/// stand together, each step of a call lowers its step bound: one step at least is left before it, also where the call is done with it or
/// finds that it has to wait. A step of a place that leaves the main word's number raises the step bound of no other place.
pub fn step_bounds()
    ensures bounded { (places : ℕ) (row : ℕ → ℕ) (back : AfterWalk) (stage : Stage) → step_bound places row back stage ≤ 16 * places + 13 }
    ensures lowered { (needs : Needs) → AreNeeds needs → needs.top < 2 ^ count_bits
        → (places : ℕ) (row : ℕ → ℕ) (standing : ℕ → Place) (state : AbstractState) (me : ℕ) → Invariant needs places row standing state
        → (standing me).stage ≢ Quiet → IsLowered needs places row standing me (standing me).stage }
    ensures kept { (needs : Needs) (places : ℕ) (row : ℕ → ℕ) (standing : ℕ → Place) (state : AbstractState) (me other : ℕ)
        → Invariant needs places row standing state → other ≢ me → IsKept needs places row standing me other }
{}

/// Between two changes of the main word by other places, a place makes at most 16 steps for each place and 48 more.
///
/// Steps are counted for each place, and anew once another place changes the main word's number; a look that finds that it has to wait
/// is none. Where what each place has made and its step bound are that many together at most, they are so after every step. A place that has
/// made none is within it, whatever stands in the words, since its step bound is.
pub fn counts()
    ensures { (needs : Needs) → AreNeeds needs → needs.top < 2 ^ count_bits
        → (places : ℕ) (row : ℕ → ℕ) (standing : ℕ → Place) (state : AbstractState) (me : ℕ) (made : ℕ → ℕ) → Invariant needs places row standing state
        → (standing me).stage ≢ Quiet → AreWithin places row standing made → IsCounted needs places row standing me made (standing me).stage }
{}
