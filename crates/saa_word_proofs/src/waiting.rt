//! What is proved of a step that is answered that it waits, as the contract of a function that does nothing.

ghost use Rattle.std.specs.Prelude.{◌≡◌, ℕ, ◌<◌};
ghost use Rattle.saa_word_steps.specs.declared.place.Place.{Place};
ghost use Rattle.saa_word_steps.specs.declared.place.Next.TheVariants.{Waits};
ghost use Rattle.saa_word_steps.specs.Needs.{Needs};
ghost use Rattle.saa_word_steps.specs.AbstractState.{AbstractState};
ghost use Rattle.saa_word_steps.specs.Steps.{word_at, operation_of, next_of};
ghost use Rattle.saa_word_proofs.specs.Refinement.{Invariant};
ghost use Rattle.saa_word_proofs.specs.Rows.{main_of};
ghost use Rattle.saa_word_proofs.specs.StepRefinement.{row_after};
ghost use Rattle.saa_word_proofs.specs.Blocking.{IsBlockedAt};

/// A step is answered that it waits only where a place polls that is in the line, or whose answer is to be shown; where a cancel is to take
/// an answer that is to be shown, or finds the flag set; and where poison finds one owner and the flag set, and a shut
/// the flag set. The row of words is left as it
/// is.
pub fn waits()
    ensures { (needs : Needs) (places : ℕ) (row : ℕ → ℕ) (standing : ℕ → Place) (state : AbstractState) (me : ℕ)
        → Invariant needs places row standing state
        → next_of needs me (standing me) (standing me).stage (row (word_at (operation_of needs places me (standing me).stage))) ≡ Waits
        → IsBlockedAt needs state me (main_of row) (standing me).stage
        × (row_after row (operation_of needs places me (standing me).stage) ≡ row) }
{}
