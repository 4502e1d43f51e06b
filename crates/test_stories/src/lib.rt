//! Stories of the forms and their futures: what each answers, in which order waiters are granted and woken, and that no place is lost.
//!
//! A story is a paragraph of text in the language of the program `saa-run` (`test_language::language`), one player makes its moves ([`player`]), and a row that
//! is answered otherwise is printed with its line, what it expects and what was answered. A story is played at the threaded form and at the lock-free one, so
//! that both answer the same; what only one of them has, or answers so, is in stories of its own. In a paragraph with dashes each of these begins a story,
//! which goes on from the lines above the first dash. These words are of this crate alone:
//!
//! | Words | Mean |
//! |---|---|
//! | `semaphore 1 1 spins 0`, `spins 1`, `yields 3` | calls join the queue at once, or look before it; waiters yield so often before they park |
//! | `crowd 6 chaos 200 begins -> 200` | each of six threads takes 200 turns in every way, and so many end as they must ([`chaos`]); `chaos_full` where calls may find no room |
//! | `meetings -> 0` | how often more were inside in these turns than there may be |
//! | `crowd 4 stamped 100 begins -> 100` | each of four threads takes 100 turns, and stamps each ([`stamps`]), and so many are had; `passed` is how often one was passed by a later call |
//! | `t1 race 2000`, `t2 disturb` | a thread's calls end in time as another takes the permit and gives it back ([`races`]) |
//! | `bound` | the most permits that a semaphore can have |
//!
//! Expected answers are worked by hand from the definitions (`docs/DEFINITIONS.md`), and never taken from a run.
#![tactic(auto)]

#[cfg(test)]
mod chaos;
#[cfg(test)]
mod clock;
#[cfg(test)]
mod forms;
#[cfg(test)]
mod parts;
#[cfg(test)]
mod played;
#[cfg(test)]
mod player;
#[cfg(test)]
mod races;
#[cfg(test)]
mod stamps;
#[cfg(test)]
mod stories;
#[cfg(test)]
mod threads;
#[cfg(test)]
mod timed_guards;
#[cfg(test)]
mod trials;
#[cfg(test)]
mod twins;
