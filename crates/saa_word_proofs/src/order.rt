//! FIFO, as the events of a history show it, as the contract of a function that does nothing.

ghost use Rattle.std.specs.Prelude.{◌≡◌, ℕ, true, false, List, [], ◌∷◌, ◌++◌};
ghost use Rattle.saa_word_steps.specs.Needs.{Needs};
ghost use Rattle.saa_word_steps.specs.declared.event.Event.{Event};
ghost use Rattle.saa_word_steps.specs.declared.event.Event.TheVariants.{Acquired, Joined, Cancelled};
ghost use Rattle.saa_word_steps.specs.AbstractState.{AbstractState, IsRun, opening};
ghost use Rattle.saa_word_proofs.specs.History.{part_of};
ghost use Rattle.saa_word_proofs.specs.Order.{TakesInOrder, answered, answers, joined, joins, taken, waiting};

/// FIFO, in every history whose events are enabled where they come, from the moment on when so much is held and nobody waits.
///
/// Nothing is got at once while somebody waits, whatever is asked: 0 permits of a semaphore and the wait modes of a lock take nothing, and pass no
/// waiter either. The waiters that joined and didn't cancel, in the order of joining, are those that were answered, in the order of their answers,
/// and then those that wait. A place takes its answers in that order, each once, and none before it is there and shown.
///
/// The last two clauses don't name the waiters. A waiter that cancels has joined since anything was last got at once. If it hasn't
/// joined since another place did, so that it is the older waiter, that place has taken no answer in between.
pub fn fifo()
    ensures no_barging { (needs : Needs) (withheld : ℕ) (before after : List (ℕ × Event)) (place request : ℕ) (last : AbstractState)
        → IsRun needs (opening withheld) (before ++ (place, Acquired request) ∷ after) last → waiting before ≡ [] }
    ensures in_order { (needs : Needs) (withheld : ℕ) (history : List (ℕ × Event)) (last : AbstractState)
        → IsRun needs (opening withheld) history last → joined history ≡ answered (answers history) ++ waiting history }
    ensures taken_in_order { (needs : Needs) (withheld : ℕ) (history : List (ℕ × Event)) (last : AbstractState)
        → IsRun needs (opening withheld) history last → (place : ℕ) → TakesInOrder history place }
    ensures not_barged { (needs : Needs) (withheld : ℕ) (before between after : List (ℕ × Event)) (waiter other request : ℕ) (last : AbstractState)
        → IsRun needs (opening withheld) (before ++ (other, Acquired request) ∷ between ++ (waiter, Cancelled) ∷ after) last
        → joins (part_of waiter between) ≡ true }
    ensures not_overtaken { (needs : Needs) (withheld : ℕ) (before between after : List (ℕ × Event)) (first second request : ℕ) (last : AbstractState)
        → IsRun needs (opening withheld) (before ++ (second, Joined request) ∷ between ++ (first, Cancelled) ∷ after) last
        → joins (part_of first between) ≡ false → taken (part_of second between) ≡ [] }
{}
