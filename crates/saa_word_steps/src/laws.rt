//! What follows from the definitions alone, as contracts of functions that do nothing.

ghost use Rattle.std.specs.Prelude.{◌^◌, ◌≡◌, ℕ, ◌<◌, ◌≤◌, false, List};
ghost use Rattle.saa_core_words.specs.Words.{count_bits};
ghost use Rattle.saa_word_steps.specs.declared.place.Place.{Place};
ghost use Rattle.saa_word_steps.specs.Steps.{IsRanged, IsRangedNext, next_of};
ghost use Rattle.saa_core_spec.specs.Held.{IsLockState};
ghost use Rattle.saa_word_steps.specs.declared.rules.Rules.TheVariants.{Permits, Modes};
ghost use Rattle.saa_word_steps.specs.Needs.{Needs, AreNeeds, lock_at, lock_needs, needs_of, permit_needs};
ghost use Rattle.saa_word_steps.specs.declared.event.Event.{Event};
ghost use Rattle.saa_word_steps.specs.AbstractState.{AbstractState, IsRun, IsSettledAt, held_by, opening};

/// After every list of events that are allowed where they come, from the moment when so much is held and nobody waits.
///
/// A line that isn't open is settled. No grant passes the greatest count, where the needs are those of a form; a semaphore's and a lock's are; and
/// no count of a lock says that more share it than may.
/// No place waits twice, or joins or is answered before its last answer is taken.
pub fn abstract_runs()
    ensures settled { (needs : Needs) (count : ℕ) (events : List (ℕ × Event)) (last : AbstractState)
        → IsRun needs (opening count) events last → last.unclosed ≡ false → IsSettledAt needs last.count last.line }
    ensures bounded { (needs : Needs) (count : ℕ) (events : List (ℕ × Event)) (last : AbstractState)
        → AreNeeds needs → count ≤ needs.top → IsRun needs (opening count) events last → last.count ≤ needs.top }
    ensures once { (needs : Needs) (count : ℕ) (events : List (ℕ × Event)) (last : AbstractState)
        → IsRun needs (opening count) events last → (place : ℕ) → held_by place last ≤ 1 }
    ensures of_permits { (bound : ℕ) → AreNeeds (permit_needs bound) }
    ensures of_locks { AreNeeds lock_needs }
    ensures owners { (count : ℕ) → count ≤ lock_needs.top → IsLockState (lock_at count) }
{}

/// The rules of a semaphore need what a semaphore of that bound needs, and those of a lock what a lock needs.
pub fn needs()
    ensures permits { (bound : ℕ) → needs_of (Permits bound) ≡ permit_needs bound }
    ensures modes { needs_of Modes ≡ lock_needs }
{}

/// What a place remembers stays within the bits of a count, whatever number it finds.
pub fn ranges()
    ensures { (needs : Needs) (me : ℕ) (place : Place) (found : ℕ) → AreNeeds needs → needs.top < 2 ^ count_bits → IsRanged needs place.stage
        → IsRangedNext needs (next_of needs me place place.stage found) }
{}
