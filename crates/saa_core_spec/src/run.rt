//! The commands of a run and the replies to them, over any primitive's calls and answers.
//!
//! What a command answers and leaves stands in `specs/Run.antt`.

use crate::request::Full;

/// A command of a run, over the primitive's calls `C` and what its registrations ask, `K`.
#[derive(Clone, Copy, Debug, Eq, PartialEq)]
pub enum CommandOf<C, K> {
    /// A call that needs no pager.
    Call(C),
    /// Registers a pager: which one, what it asks, and whether as sync.
    Register(u16, K, bool),
    /// Polls a pager for an answer that is there, whichever way it was registered.
    TryPoll(u16),
    /// Polls a pager as sync, without waiting.
    PollSync(u16),
    /// Polls a pager as async, without waiting.
    PollAsync(u16),
    /// Drops what a pager is registered for; the pager is idle afterwards and can be used again.
    Drop(u16),
    /// Drops what a pager is registered for and disturbs nobody: at a gate the others wait on, and elsewhere it is `Drop`.
    Leave(u16),
}

/// The reply to a command, over the answers `A` of calls and the values `V` of polls.
#[derive(Clone, Copy, Debug, Eq, PartialEq)]
pub enum ReplyOf<A, V> {
    /// To `Call`.
    Answered(A),
    /// To `Register`: whether it is registered now, or that the room is full.
    Registered(Result<bool, Full>),
    /// To a poll.
    Polled(V),
    /// To `Drop` and `Leave`.
    Dropped,
}
