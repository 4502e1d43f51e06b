//! The calls of a barrier and what they answer.

/// A call of a barrier that needs no ticket.
#[derive(Clone, Copy, Debug, Eq, PartialEq)]
pub enum BarrierCall {
    /// Asks how many arrivals the barrier still waits for.
    Count,
    /// Arrives without waiting.
    Arrive,
    /// Makes the barrier one task larger.
    Join,
    /// Makes it one task smaller.
    Leave,
    /// Asks how many rounds are complete.
    Round,
}

/// What a call of a barrier answers.
#[derive(Clone, Copy, Debug, Eq, PartialEq)]
pub enum BarrierAnswer {
    /// Of `Count`.
    Count(usize),
    /// Of `Arrive` and `Leave`: whether it completes the round. Of `Join`: whether the barrier is larger now.
    Bool(bool),
    /// Of `Round`.
    Round(u64),
}
