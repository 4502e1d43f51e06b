//! Tests of the word's semaphore and lock on threads, and of the mutex and the reader-writer lock on it: what no contract says of their calls.
//!
//! A story is a paragraph of text in the language of stories (`test_language`), with words of its own for places ([`orders`]); one player makes its moves
//! ([`player`]) at each form, with a thread for each place. Expected answers are worked by hand from the definitions (`docs/DEFINITIONS.md`).
//! Every test joins its threads and ends by itself. Nothing rests on timing, but for `pauses`, which asks that pauses last.
#![tactic(auto)]

#[cfg(test)]
mod abstract_state;
#[cfg(test)]
mod asleep;
#[cfg(test)]
mod closing;
#[cfg(test)]
mod guards;
#[cfg(test)]
mod linearized;
#[cfg(test)]
mod locks;
#[cfg(test)]
mod orders;
#[cfg(test)]
mod pauses;
#[cfg(test)]
mod played;
#[cfg(test)]
mod player;
#[cfg(test)]
mod scene;
#[cfg(test)]
mod semaphores;
#[cfg(test)]
mod stories;
#[cfg(test)]
mod tally;
#[cfg(test)]
mod turns;
