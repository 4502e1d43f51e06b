//! Tests of the pool of values and of the bounded queue: of what no contract says, since it is under a mutex, or passes between threads.
//!
//! Stories (`stories`) are text in the language of `test_language`. `places` says what a pool and a queue answer to its
//! words, and `player` plays the stories. In `sharing` threads share the values of a pool, and trade items in a queue.
#![tactic(auto)]

#[cfg(test)]
mod places;
#[cfg(test)]
mod player;
#[cfg(test)]
mod sharing;
#[cfg(test)]
mod stories;
