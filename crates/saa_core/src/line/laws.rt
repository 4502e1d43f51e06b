//! What the definitions of the pending wakes promise, as the contract of a function that does nothing.

ghost use Rattle.std.specs.Prelude.{ℕ, ◌<◌, ◌≤◌, List};
ghost use Rattle.saa_core_spec.specs.Object.{Waiter, times};
ghost use Rattle.saa_core.specs.Slots.{count_of, pending_after};

/// Each slot that is answered has a wake pending, and no pending wake is lost when others are answered.
///
/// That a wake is pending at most once, and of a slot below the room, is part of what every call of
/// [`crate::line::Line`] keeps (`IsSound`).
pub fn wakes()
    ensures answered { (waiters : List Waiter) (pending_wakes : List ℕ) (slot : ℕ)
        → 0 < times slot waiters → 0 < count_of slot (pending_after waiters pending_wakes) }
    ensures kept { (waiters : List Waiter) (pending_wakes : List ℕ) (slot : ℕ)
        → count_of slot pending_wakes ≤ count_of slot (pending_after waiters pending_wakes) }
{}
