//! What is proved of the tally, as contracts of functions that do nothing.

ghost use Rattle.std.specs.Prelude.{◌≡◌, ℕ, ◌+◌, List, Some};
ghost use Rattle.saa_core_spec.specs.Object.{one_if, times};
ghost use Rattle.saa_word_steps.specs.Needs.{permit_needs};
ghost use Rattle.saa_word_steps.specs.declared.event.Event.{Event};
ghost use Rattle.saa_word_steps.specs.AbstractState.{AbstractState, IsRun, opening};
ghost use Rattle.saa_word_proofs.specs.Conservation.{AreOfPermits, ConservesPermits, MayAnswer, is_grant, tally_of};

/// After every list of events that are enabled where they come, from the moment when so many permits of a semaphore are withheld
/// and nobody waits.
///
/// The permits that are out and those that were given back are, together, those that were withheld, those that were got, and those
/// that are granted and not taken yet. Each place whose grant is to be shown or taken has one grant that isn't taken yet, and no
/// other place has any. Each answer is a grant while the semaphore isn't shut; once it is, it may say that.
///
/// A semaphore is shut once at most, and never opened again. Only behind that does an ask find it so, and is an answer taken that is no grant.
pub fn conservation()
    ensures balanced { (bound withheld : ℕ) (events : List (ℕ × Event)) (last : AbstractState)
        → IsRun (permit_needs bound) (opening withheld) events last
        → ConservesPermits (permit_needs bound) withheld last (tally_of (permit_needs bound) withheld events) }
    ensures each_once { (bound withheld : ℕ) (events : List (ℕ × Event)) (last : AbstractState)
        → IsRun (permit_needs bound) (opening withheld) events last → (place : ℕ)
        → times place (tally_of (permit_needs bound) withheld events).pending
        ≡ one_if (is_grant (last.granted place)) + one_if (is_grant (last.answered place)) }
    ensures granted { (bound withheld : ℕ) (events : List (ℕ × Event)) (last : AbstractState)
        → IsRun (permit_needs bound) (opening withheld) events last → (place value : ℕ)
        → (last.granted place ≡ Some value → MayAnswer last.poisoned value) × (last.answered place ≡ Some value → MayAnswer last.poisoned value) }
    ensures of_permits { (bound withheld : ℕ) (events : List (ℕ × Event)) (last : AbstractState)
        → IsRun (permit_needs bound) (opening withheld) events last → AreOfPermits events }
{}
