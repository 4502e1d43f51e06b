//! Tests of the mutex, the reader-writer lock, their guards and their futures, at the threaded lock and at the lock-free one.
//!
//! What a guard shows of its value is proved; `pair` is like a user's type whose invariant matters. That a guard has the lock's turn, keeps the others
//! out meanwhile, and gives the turn to the oldest waiter is shown by stories in lines of text (`stories`), which one player plays for any lock.
#![tactic(auto)]

#[cfg(test)]
mod locks;
pub mod pair;
#[cfg(test)]
mod places;
#[cfg(test)]
mod player;
#[cfg(test)]
mod stories;
