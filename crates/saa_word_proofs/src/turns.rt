//! Turns never overlap: mutual exclusion, as the events of a history show it, as the contract of a function that does nothing.

ghost use Rattle.std.specs.Prelude.{◌≡◌, ◌≢◌, ℕ, true, false, List, ◌∷◌, ◌++◌};
ghost use Rattle.saa_word_steps.specs.Needs.{Needs, fits_count, lock_needs, permit_needs};
ghost use Rattle.saa_word_steps.specs.Readings.{mode_number};
ghost use Rattle.saa_core_spec.specs.declared.lock.Mode.TheVariants.{Exclusive};
ghost use Rattle.saa_word_steps.specs.declared.event.Event.{Event};
ghost use Rattle.saa_word_steps.specs.AbstractState.{AbstractState, IsRun, opening};
ghost use Rattle.saa_word_proofs.specs.Turns.{AreTurns, IsWhole, NobodyIsAnswered, begins_turn, is_taken};

/// Mutual exclusion, in every history whose events are enabled where they come, of those who ask for the whole and give back only turns that are taken.
///
/// The exclusive mode of a lock asks for the whole, and so do all permits of a semaphore. A turn begins where it is got at once, or where the answer that
/// grants it is taken, and only while no other is taken. While one is taken, the whole fits nowhere, and nobody is answered. Nothing is lost: where no turn
/// is taken and nobody is answered, nothing is held.
pub fn turns()
    ensures of_lock { IsWhole lock_needs (mode_number Exclusive) }
    ensures of_permits { (bound : ℕ) → bound ≢ 0 → IsWhole (permit_needs bound) bound }
    ensures apart { (needs : Needs) (whole : ℕ) → IsWhole needs whole → (before after : List (ℕ × Event)) (place : ℕ) (event : Event) (last : AbstractState)
        → IsRun needs (opening 0) (before ++ (place, event) ∷ after) last → AreTurns whole (before ++ (place, event) ∷ after)
        → begins_turn event ≡ true → is_taken before ≡ false }
    ensures alone { (needs : Needs) (whole : ℕ) → IsWhole needs whole → (history : List (ℕ × Event)) (last : AbstractState)
        → IsRun needs (opening 0) history last → AreTurns whole history → is_taken history ≡ true
        → (fits_count needs last.count whole ≡ false) × NobodyIsAnswered last }
    ensures kept { (needs : Needs) (whole : ℕ) → IsWhole needs whole → (history : List (ℕ × Event)) (last : AbstractState)
        → IsRun needs (opening 0) history last → AreTurns whole history → is_taken history ≡ false → NobodyIsAnswered last → last.count ≡ 0 }
{}
